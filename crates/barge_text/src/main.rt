// The drawing office's converter. Its word says what standard input is turned into: `sheet` a text into the sheet that it is, `csv` a sheet into its text,
// `check` a text into what `barge` prints of that sheet. A refusal of the first two goes to standard error, with nothing on standard output, and of a text
// that is turned away by a line the line goes there too. So does whatever else is wrong.
#![tactic(auto)]

mod show;

ghost use Rattle.std.specs.Prelude.{◌≡◌, List, ℕ, ◌≤◌, length, take};
ghost use Rattle.sheet.specs.Refusals.{told, told_result};
ghost use Rattle.sheet.specs.Versions.{enough};
ghost use Rattle.report.specs.Pieces.{refusal_text};
ghost use Rattle.sheet_csv.specs.Read.{Converts};
ghost use Rattle.sheet_csv.specs.Write.{text_from};
ghost use Rattle.barge_text.specs.Convert.{MadeInside, line_of, printed_by, Shows, Replies};

use console::Said;
use report::Page;
use sheet::Refusal;
use std::env::Env;
use std::io;
use std::io::Write;
use std::process::ExitCode;

// Where the word stands.
const COMMAND: usize = 1;

// A longer text is not looked at; one with every field quoted and filled up has a quarter of it. One byte more is read, so that it is noticed.
const LONGEST: usize = 262_144;

const TEXT_READ: usize = LONGEST + 1;

#[derive(Drop)]
enum Task {
    Sheet,
    Csv,
    Check,
}

// What is printed of a text, and the line that it is turned away by.
#[derive(Drop)]
struct Reply {
    page: Page,
    line: Option<u32>,
}

fn print(out: &mut impl Write, err: &mut impl Write, bytes: &[u8]) -> io::Result<()> {
    let written = out.write_all(bytes);
    if let Err(e) = written {
        console::unwritten(err, b"standard output", e);
    }
    written
}

// The line that a refusal names, which 14 and 15 do.
fn line_of(r: Refusal) -> Option<u32>
    ensures { result ≡ line_of (told r) }
{
    match r {
        Refusal::Text(line) | Refusal::FieldCount(line) => Some(line),
        _ => None,
    }
}

// The same of what was converted.
fn line_at_fault(converted: Result<usize, Refusal>) -> Option<u32>
    ensures { result ≡ line_of (told_result converted) }
{
    match converted {
        Ok(_) => None,
        Err(r) => line_of(r),
    }
}

fn refusal_page(r: Refusal) -> Page
    ensures { Shows (refusal_text r) result }
{
    let mut bytes = [0u8; report::LONGEST];
    let len = report::write_refusal(r, &mut bytes).unwrap_or(0);
    Page { bytes, len }
}

// What is printed of what a text was converted to.
fn page_by(converted: Result<usize, Refusal>, sheet: &[u8]) -> Page
    requires { MadeInside converted (length sheet.now) }
    ensures { Shows (printed_by converted sheet.now) result }
{
    match converted {
        Ok(n) => report::page_of(&sheet[..n]),
        Err(r) => refusal_page(r),
    }
}

fn answer(text: &[u8]) -> Reply
    ensures { Replies text.now result }
{
    let mut sheet = [0u8; sheet::LONGEST];
    let converted = sheet_csv::read_table(text, &mut sheet);
    let page = page_by(converted, &sheet);
    let line = line_at_fault(converted);
    Reply { page, line }
}

// The text of a sheet, from the bytes that were read of it: all, or as many as the buffer holds.
fn text_of(buffer: &[u8], got: usize, out: &mut [u8]) -> Result<usize, Refusal>
    requires { (enough ≤ length buffer.now) × (got ≤ length buffer.now) }
    ensures { (input : List ℕ) → take got buffer.now ≡ take (length buffer.now) input → Converts (text_from input (length out.old)) out.old result out.new }
{
    sheet_csv::write_text(&buffer[..got], out)
}

// What was made of the input goes to standard output, or the refusal to standard error.
fn deliver(
    out: &mut impl Write,
    err: &mut impl Write,
    converted: Result<usize, Refusal>,
    made: &[u8],
) -> io::Result<()>
    requires { MadeInside converted (length made.now) }
{
    match converted {
        Ok(n) => print(out, err, &made[..n]),
        Err(r) => {
            let _ = report::print_refusal(err, r);
            Ok(())
        }
    }
}

fn make_sheet(out: &mut impl Write, err: &mut impl Write, text: &[u8]) -> io::Result<()> {
    let mut sheet = [0u8; sheet::LONGEST];
    let converted = sheet_csv::read_table(text, &mut sheet);
    let written = deliver(out, err, converted, &sheet);
    if let Some(line) = line_at_fault(converted) {
        show::line(err, text, line);
    }
    written
}

fn make_text(
    out: &mut impl Write,
    err: &mut impl Write,
    buffer: &[u8],
    got: usize,
) -> io::Result<()>
    requires { (enough ≤ length buffer.now) × (got ≤ length buffer.now) }
{
    let mut text = [0u8; sheet_csv::LONGEST];
    let converted = text_of(buffer, got, &mut text);
    deliver(out, err, converted, &text)
}

fn check(out: &mut impl Write, err: &mut impl Write, text: &[u8]) -> io::Result<()> {
    let r = answer(text);
    let written = print(out, err, &r.page.bytes[..r.page.len]);
    if let Some(line) = r.line
        && console::is_read(written)
    {
        show::line(err, text, line);
    }
    written
}

fn take(out: &mut impl Write, err: &mut impl Write, text: &[u8], checks: bool) -> io::Result<()> {
    if checks {
        check(out, err, text)
    } else {
        make_sheet(out, err, text)
    }
}

fn too_long(err: &mut impl Write) {
    console::begin(err);
    let _ = writeln!(
        err,
        "the text has more than {LONGEST} bytes, and no sheet's text has so many"
    );
}

fn from_text(
    out: &mut impl Write,
    err: &mut impl Write,
    text: &[u8],
    checks: bool,
) -> io::Result<()> {
    if LONGEST < text.len() {
        too_long(err);
        Ok(())
    } else {
        take(out, err, text, checks)
    }
}

fn take_text(
    input: &mut impl io::Read,
    out: &mut impl Write,
    err: &mut impl Write,
    checks: bool,
) -> io::Result<()> {
    let mut space = [0u8; TEXT_READ];
    let Some(got) = console::load(input, err, &mut space) else {
        return Ok(());
    };
    from_text(out, err, &space[..got], checks)
}

fn take_sheet(
    input: &mut impl io::Read,
    out: &mut impl Write,
    err: &mut impl Write,
) -> io::Result<()> {
    let mut space = [0u8; sheet::ENOUGH];
    let Some(got) = console::load(input, err, &mut space) else {
        return Ok(());
    };
    make_text(out, err, &space, got)
}

// By its first two letters.
fn command(env: &impl Env) -> Option<Task> {
    let mut word = [0u8; 8];
    let _ = env.arg(COMMAND, &mut word);
    match (word[0], word[1]) {
        (b's', _) => Some(Task::Sheet),
        (b'c', b's') => Some(Task::Csv),
        (b'c', _) => Some(Task::Check),
        _ => None,
    }
}

fn main(rt: HostRuntime) -> ExitCode {
    let mut input = rt.stdin();
    let mut out = rt.stdout();
    let mut err = Said::new(rt.stderr());
    let written = match command(&rt) {
        Some(Task::Sheet) => take_text(&mut input, &mut out, &mut err, false),
        Some(Task::Csv) => take_sheet(&mut input, &mut out, &mut err),
        Some(Task::Check) => take_text(&mut input, &mut out, &mut err, true),
        None => {
            console::say(&mut err, b"the command is sheet, csv or check");
            Ok(())
        }
    };
    console::status(written, &err)
}
