// The checker, the header, the records, the verdicts, the edits and the text of a sheet for programs in C or Rust: an answer crosses as one number, the
// fields as numbers in layout order. `yard_c` is the static library of these functions, which include/praithong.h declares.
#![tactic(auto)]

ghost use Rattle.std.specs.Prelude.{◌≡◌, length};
ghost use Rattle.checker.specs.Check.{told_checked};
ghost use Rattle.checker.specs.Entry.{entry_values, read_entry};
ghost use Rattle.sheet.specs.Refusals.{told, told_result};
ghost use Rattle.sheet.specs.Header.{read_header};
ghost use Rattle.sheet.specs.Record.{read_record};
ghost use Rattle.yard.specs.Packed.{packed, fine, Checks, Reads, Wrote};
ghost use Rattle.yard.specs.Writing.{write_header_numbers, write_record_numbers};
ghost use Rattle.yard.specs.Fields.{numbered};
ghost use Rattle.yard.specs.Editing.{resized, EditsPacked};
ghost use Rattle.yard.specs.Converting.{ConvertsPacked};
ghost use Rattle.edit.specs.Edit.{put_numbers_in, remove_in};
ghost use Rattle.sheet_csv.specs.Read.{sheet_from};
ghost use Rattle.sheet_csv.specs.Write.{text_from};
ghost use Rattle.numbers.specs.Fields.{header_numbers, record_numbers};

use checker::{Checked, Entry};
use sheet::Refusal;

// A refusal's number counts these.
const NUMBER: u64 = 1099511627776;

// And n counts these, in an answer that is no refusal.
const COUNT: u64 = 65536;

fn packed_refusal(r: Refusal) -> u64
    ensures { result ≡ fine (told {A = Unit {0}} r) }
{
    let number = r.number() as u64;
    number * NUMBER + r.place() as u64
}

fn packed_outcome(outcome: Result<(), Refusal>) -> u64
    ensures { result ≡ fine (told_result outcome) }
{
    match outcome {
        Ok(()) => 0,
        Err(r) => packed_refusal(r),
    }
}

fn packed_checked(checked: Result<Checked, Refusal>) -> u64
    ensures { result ≡ packed (told_checked checked) }
{
    match checked {
        Ok(totals) => (totals.n as u64) * COUNT + totals.failed as u64,
        Err(r) => packed_refusal(r),
    }
}

pub fn yard_check(sheet: &[u8], out: &mut [u8]) -> u64
    ensures { Checks sheet.now out.old result out.new }
{
    packed_checked(checker::check(sheet, out))
}

fn entry_numbers(e: Entry) -> [u32; 4]
    ensures { result ≡ entry_values e }
{
    let id = e.id as u32;
    let rule = e.rule as u32;
    let source = e.source as u32;
    [id, rule, e.required, source]
}

pub fn yard_read_verdict(bytes: &[u8], fields: &mut [u32; 4]) -> u64
    ensures { Reads (numbered entry_values (read_entry bytes.now)) fields.old result fields.new }
{
    match checker::read_verdict(bytes) {
        Err(x) => packed_refusal(x),
        Ok(e) => {
            *fields = entry_numbers(e);
            0
        }
    }
}

pub fn yard_read_header(bytes: &[u8], fields: &mut [u32; 10]) -> u64
    ensures { Reads (numbered header_numbers (read_header bytes.now)) fields.old result fields.new }
{
    match header::read_header(bytes) {
        Err(x) => packed_refusal(x),
        Ok(h) => {
            *fields = numbers::header_numbers(h);
            0
        }
    }
}

pub fn yard_read_record(bytes: &[u8], fields: &mut [u32; 13]) -> u64
    ensures { Reads (numbered record_numbers (read_record 0 bytes.now)) fields.old result fields.new }
{
    match record::read_record(bytes) {
        Err(x) => packed_refusal(x),
        Ok(r) => {
            *fields = numbers::record_numbers(r);
            0
        }
    }
}

pub fn yard_write_header(fields: &[u32; 10], out: &mut [u8]) -> u64
    ensures { Wrote (write_header_numbers fields.now out.old) result out.new }
{
    let least = numbers::header_size(*fields);
    if out.len() < least {
        return packed_refusal(Refusal::OutputShort);
    }
    match numbers::header_from(*fields) {
        Err(x) => packed_refusal(x),
        Ok(h) => packed_outcome(header::write_header(h, out)),
    }
}

pub fn yard_write_record(fields: &[u32; 13], out: &mut [u8]) -> u64
    ensures { Wrote (write_record_numbers fields.now out.old) result out.new }
{
    if out.len() < 16 {
        return packed_refusal(Refusal::OutputShort);
    }
    match numbers::record_from(*fields, 0) {
        Err(x) => packed_refusal(x),
        Ok(r) => packed_outcome(record::write_record(r, out)),
    }
}

// The length that an edit or a conversion answers.
fn packed_length(length: Result<usize, Refusal>) -> u64
    ensures { result ≡ resized (told_result length) }
{
    match length {
        Ok(n) => n as u64,
        Err(r) => packed_refusal(r),
    }
}

pub fn yard_put(buf: &mut [u8], len: usize, fields: &[u32; 13]) -> u64
    ensures { EditsPacked (put_numbers_in buf.old len fields.now) buf.old result buf.new }
{
    packed_length(edit::put_numbers(buf, len, *fields))
}

pub fn yard_remove(buf: &mut [u8], len: usize, id: u32) -> u64
    ensures { EditsPacked (remove_in buf.old len id) buf.old result buf.new }
{
    packed_length(edit::remove(buf, len, id))
}

pub fn yard_read_text(text: &[u8], out: &mut [u8]) -> u64
    ensures { ConvertsPacked (sheet_from text.now (length out.old)) out.old result out.new }
{
    packed_length(sheet_csv::read_sheet(text, out))
}

pub fn yard_write_text(sheet: &[u8], out: &mut [u8]) -> u64
    ensures { ConvertsPacked (text_from sheet.now (length out.old)) out.old result out.new }
{
    packed_length(sheet_csv::write_text(sheet, out))
}
