// Sheets in and out as comma-separated text: a line for the header's fields and one for each record's. A conversion answers how many bytes it wrote, or
// why none.
#![tactic(auto)]

mod page;

ghost use Rattle.std.specs.Prelude.{◌≡◌, [], ◌≤◌, length, take, false};
ghost use Rattle.filling.specs.Filling.{lines_left};
ghost use Rattle.sheet_csv.specs.Read.{next_line, records_made, sheet_made, sheet_of, sheet_from, Converts};
ghost use Rattle.sheet_csv.specs.Table.{by_line, stands, table_from};
ghost use Rattle.sheet.specs.Refusals.{number_of, place_of, told_result};
ghost use Rattle.sheet_csv.specs.Write.{text_from};
ghost use Rattle.sheet_csv.specs.Steps.{draft_size, fits_in, sound_in, PutsBehind, Fills};

use rows::Row;
use sheet::{MOST, RECORD, Refusal};

// With a record more than the longest sheet has it is seen to be too long, whatever the lines behind it are.
const DRAFT: usize = sheet::LONGEST + RECORD;

// The longest text: a line of 131 bytes at most for the header and for each record.
pub const LONGEST: usize = 131 * (MOST as usize + 1);

// The bytes of a line behind those of the lines before it, where there is room.
fn put_row(row: Row, draft: &mut [u8], end: usize) -> usize
    requires { (row.size ≤ length row.bytes) × (end ≤ length draft.old) }
    ensures { PutsBehind (take row.size row.bytes) draft.old end result draft.new }
{
    end + decimal::write_text(&row.bytes[..row.size], &mut draft[end..])
}

fn next_line(line: u32) -> u32
    ensures { result ≡ next_line line }
{
    if line < 4294967295 { line + 1 } else { line }
}

// The lines from a place on, each a record's, behind the header's bytes. How many bytes of the draft they fill, or why a line is turned away.
fn put_records(
    text: &[u8],
    at: usize,
    filled: bool,
    draft: &mut [u8],
    head: usize,
) -> Result<usize, Refusal>
    requires { (length draft.old ≡ draft_size) × (head ≤ length draft.old) }
    ensures { Fills (records_made 2 (lines_left filled text.now at)) (take head draft.old) result draft.new }
{
    // the row says where the next line is
    let mut here = at;
    let mut line: u32 = 2;
    let mut end = head;
    loop {
        let row = rows::record_at(text, here, line, filled)?;
        end = put_row(row, draft, end);
        let Some(next) = row.next else {
            return Ok(end);
        };
        line = next_line(line);
        here = next;
    }
}

// All lines.
fn put_lines(text: &[u8], filled: bool, draft: &mut [u8]) -> Result<usize, Refusal>
    requires { length draft.old ≡ draft_size }
    ensures { Fills (sheet_made (lines_left filled text.now 0)) [] result draft.new }
{
    let row = rows::header_at(text, filled)?;
    let head = put_row(row, draft, 0);
    match row.next {
        Some(next) => put_records(text, next, filled, draft, head),
        None => Ok(head),
    }
}

// Bytes into the front of the output, which is refused with 5 where it is too short for them.
fn tell(bytes: &[u8], out: &mut [u8]) -> Result<usize, Refusal>
    ensures { Converts (fits_in bytes.now (length out.old)) out.old result out.new }
{
    let len = bytes.len();
    if out.len() < len {
        return Err(Refusal::OutputShort);
    }
    decimal::write_text(bytes, out);
    Ok(len)
}

// The sheet that the lines made, by the table.
fn tell_sheet(sheet: &[u8], out: &mut [u8]) -> Result<usize, Refusal>
    ensures { Converts (sound_in sheet.now (length out.old)) out.old result out.new }
{
    checker::sound_header(sheet)?;
    tell(sheet, out)
}

// The sheet that the lines of a text are, with their filling or without.
fn read_lines(text: &[u8], filled: bool, out: &mut [u8]) -> Result<usize, Refusal>
    ensures { Converts (sheet_of (lines_left filled text.now 0) (length out.old)) out.old result out.new }
{
    let mut draft = [0u8; DRAFT];
    let len = put_lines(text, filled, &mut draft)?;
    tell_sheet(&draft[..len], out)
}

// A text into a sheet. A refusal leaves the output as it was lent; else the sheet stands in front, and no other byte is touched.
pub fn read_sheet(text: &[u8], out: &mut [u8]) -> Result<usize, Refusal>
    ensures { Converts (sheet_from text.now (length out.old)) out.old result out.new }
{
    read_lines(text, false, out)
}

// Whether a refusal is one by a line.
fn is_by_line(x: Refusal) -> bool
    ensures { result ≡ by_line (number_of x) }
{
    matches!(x, Refusal::Text(_) | Refusal::FieldCount(_))
}

// Whether a refusal by a line stands whatever the second look says.
fn does_stand(x: Refusal, second: Result<usize, Refusal>) -> bool
    ensures { result ≡ stands (number_of x) (place_of x) (told_result second) }
{
    match (x, second) {
        (Refusal::Text(line), Err(Refusal::FieldCount(other))) => line == other,
        _ => false,
    }
}

// A table that a spreadsheet program saved into a sheet, likewise: where a line is at fault, it is looked at again without its filling.
pub fn read_table(text: &[u8], out: &mut [u8]) -> Result<usize, Refusal>
    ensures { Converts (table_from text.now (length out.old)) out.old result out.new }
{
    let first = read_lines(text, false, out);
    let Err(x) = first else {
        return first;
    };
    if !is_by_line(x) {
        return first;
    }
    let second = read_lines(text, true, out);
    if does_stand(x, second) {
        return first;
    }
    second
}

// A sheet into text, likewise.
pub fn write_text(sheet: &[u8], out: &mut [u8]) -> Result<usize, Refusal>
    ensures { Converts (text_from sheet.now (length out.old)) out.old result out.new }
{
    let h = checker::sound_header(sheet)?;
    let mut page = [0u8; LONGEST];
    let at = page::put_header(&mut page, h);
    let len = page::put_records(&sheet[h.size()..], h.count, &mut page, at);
    tell(&page[..len], out)
}
