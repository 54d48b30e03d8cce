// Sheets to be checked. The head is a sheet's length, the input the sheet; of each it prints what `barge` prints and then an empty line.
ghost use Rattle.std.specs.Prelude.{◌<◌, length};
ghost use Rattle.report.specs.Page.{longest};
ghost use Rattle.streams.specs.Sheets.{Apart};

use std::io;
use std::io::Write;

// What `barge` prints of a sheet, and an empty line.
fn put_apart(sheet: &[u8], text: &mut [u8]) -> usize
    requires { longest < length text.old }
    ensures { Apart sheet.now result text.new }
{
    let Ok(len) = report::write_answer(sheet, text) else {
        return 0;
    };
    text[len] = b'\n';
    len + 1
}

pub fn print(out: &mut impl Write, sheet: &[u8]) -> io::Result<bool> {
    let mut text = [0u8; 6409];
    let end = put_apart(sheet, &mut text);
    out.write_all(&text[..end])?;
    Ok(true)
}
