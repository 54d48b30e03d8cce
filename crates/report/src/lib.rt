// What the programs print of a sheet, as text: a line with id, rule, required and source for each record, then one with n and the failures; of a
// sheet that is turned away the refusal's number and place.
#![tactic(auto)]

ghost use Rattle.std.specs.Prelude.{[], ◌∷◌, ◌++◌, ◌+◌, ◌*◌, ◌≤◌, length, OnOk};
ghost use Rattle.std.specs.Io.KnownBytes.{Appends};
ghost use Rattle.decimal.specs.Decimal.{decimal_of};
ghost use Rattle.decimal.specs.Laid.{Laid};
ghost use Rattle.decimal.specs.Line.{line_of};
ghost use Rattle.checker.specs.Entry.{entry_values};
ghost use Rattle.report.specs.Text.{line, text_of};
ghost use Rattle.report.specs.Page.{longest_line, Tells, Pages};
ghost use Rattle.report.specs.Pieces.{verdict_text, verdicts_text, refusal_text, checked_text, Roomy, TellsRefusal};

use checker::{Checked, Entry};
use sheet::{MOST, Refusal};
use std::io;
use std::io::Write;

// Room for the text of the longest sheet: for each verdict a line of 16 bytes, and one of 8.
pub const LONGEST: usize = 16 * (MOST as usize) + 8;

// Room for a refusal's line: the word, and numbers of at most two digits and ten.
const REFUSAL: usize = 22;

// The text of an answer, and how many bytes of the page it takes; the others are 0. An array with a length: there is no heap.
#[derive(Clone, Copy)]
pub struct Page {
    pub bytes: [u8; LONGEST],
    pub len: usize,
}

fn put_number(page: &mut [u8], at: usize, n: u32, after: &[u8]) -> usize
    requires { at + length (decimal_of n ++ after.now) ≤ length page.old }
    ensures { Laid page.old at (decimal_of n ++ after.now) result page.new }
{
    at + decimal::write_number(n as u64, after, &mut page[at..])
}

// Two numbers, and what comes after them.
fn put_pair(page: &mut [u8], at: usize, m: u32, n: u32, after: &[u8]) -> usize
    requires { at + length (line_of 32 after.now (m ∷ n ∷ [])) ≤ length page.old }
    ensures { Laid page.old at (line_of 32 after.now (m ∷ n ∷ [])) result page.new }
{
    let next = put_number(page, at, m, b" ");
    put_number(page, next, n, after)
}

// A verdict's line.
fn put_entry(page: &mut [u8], at: usize, e: Entry) -> usize
    requires { at + length (line (entry_values e)) ≤ length page.old }
    ensures { Laid page.old at (line (entry_values e)) result page.new }
{
    let next = put_pair(page, at, e.id as u32, e.rule as u32, b" ");
    put_pair(page, next, e.required, e.source as u32, b"\n")
}

// The line of the verdict in four bytes of the output. In the output of a check there always is one.
fn put_verdict(verdict: &[u8], page: &mut [u8], at: usize) -> usize
    requires { at + longest_line ≤ length page.old }
    ensures { Laid page.old at (verdict_text verdict.now) result page.new }
{
    match checker::read_verdict(verdict) {
        Ok(e) => put_entry(page, at, e),
        Err(_) => at,
    }
}

fn put_verdicts(out: &[u8], n: u16, page: &mut [u8]) -> usize
    requires { (4 * n ≤ length out.now) × (longest_line * n ≤ length page.old) }
    ensures { Laid page.old 0 (verdicts_text out.now 0 n) result page.new }
{
    let mut at: usize = 0;
    for i in 0..n {
        let from = 4 * (i as usize);
        let to = from + 4;
        at = put_verdict(&out[from..to], page, at);
    }
    at
}

fn put_refusal(page: &mut [u8], r: Refusal) -> usize
    requires { 22 ≤ length page.old }
    ensures { Laid page.old 0 (refusal_text r) result page.new }
{
    let number = r.number() as u32;
    let place = r.place();
    let at = decimal::write_text(b"refused ", page);
    put_pair(page, at, number, place, b"\n")
}

// The text of what a check answered, with the output that it left.
fn put_checked(checked: Result<Checked, Refusal>, out: &[u8], page: &mut [u8]) -> usize
    requires { Roomy checked out.now page.old }
    ensures { Laid page.old 0 (checked_text checked out.now) result page.new }
{
    match checked {
        Err(r) => put_refusal(page, r),
        Ok(totals) => {
            let at = put_verdicts(out, totals.n, page);
            put_pair(page, at, totals.n as u32, totals.failed as u32, b"\n")
        }
    }
}

// The text of the answer to a sheet, for whoever has no buffer at hand.
pub fn page_of(sheet: &[u8]) -> Page
    ensures { Pages sheet.now result }
{
    let mut out = [0u8; checker::LONGEST];
    let checked = checker::check(sheet, &mut out);
    let mut bytes = [0u8; LONGEST];
    let len = put_checked(checked, &out, &mut bytes);
    Page { bytes, len }
}

// A text into the front of a lent slice, and how long it is; too short a slice is refused and stays as it is.
fn tell(line: &[u8], text: &mut [u8]) -> Result<usize, Refusal>
    ensures { Tells line.now text.old result text.new }
{
    let len = line.len();
    if text.len() < len {
        return Err(Refusal::OutputShort);
    }
    decimal::write_text(line, text);
    Ok(len)
}

// So the text of the answer to a sheet.
pub fn write_answer(sheet: &[u8], text: &mut [u8]) -> Result<usize, Refusal>
    ensures { Tells (text_of sheet.now) text.old result text.new }
{
    let page = page_of(sheet);
    tell(&page.bytes[..page.len], text)
}

// And so a refusal's line.
pub fn write_refusal(r: Refusal, text: &mut [u8]) -> Result<usize, Refusal>
    ensures { TellsRefusal r text.old result text.new }
{
    let mut bytes = [0u8; REFUSAL];
    let len = put_refusal(&mut bytes, r);
    tell(&bytes[..len], text)
}

// The same written to where it is read.
pub fn print_refusal<W: Write>(to: &mut W, r: Refusal) -> io::Result<()>
    ensures { OnOk result (Appends (W.contents to.old) (W.contents to.new) (refusal_text r)) }
{
    let mut line = [0u8; REFUSAL];
    let end = put_refusal(&mut line, r);
    to.write_all(&line[..end])
}
