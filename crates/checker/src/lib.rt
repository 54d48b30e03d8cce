// A whole sheet and a lent output: why the sheet is turned away, or a verdict for each of its records, each in its own four bytes of the output.
#![tactic(auto)]

ghost use Rattle.std.specs.Prelude.{◌≡◌, cond, ◌++◌, ◌+◌, ◌*◌, ◌≤◌, eqb, length, drop, Ok, Err};
ghost use Rattle.quantity.specs.Range.{modulus};
ghost use Rattle.layout.specs.Layout.{pack, unpack, Fit};
ghost use Rattle.layout.specs.Bytes.{written_of};
ghost use Rattle.loads.specs.Sources.{number_of};
ghost use Rattle.sheet.specs.Refusals.{given, told, told_result};
ghost use Rattle.sheet.specs.Header.{header_fault};
ghost use Rattle.sheet.specs.Writes.{Writes};
ghost use Rattle.checker.specs.Entry.{verdict_widths, entry_values, entry_at, entry_fault, read_entry, write_entry};
ghost use Rattle.checker.specs.Check.{header_for, record_part, sound_after, entry_with, failing as failingOf, Checks};
ghost use Rattle.checker.specs.Unjudged.{records_sound, sound_header};
ghost use Rattle.checker.specs.Passes.{Refuses, judged_after, Ready, told_passed, pass_over, number_bytes};

use layout::powers::{P19, P22};
use quantity::{Modulus, Quantity};
use sheet::{Header, MOST, RECORD, Record, Refusal};
use verdict::Judged;

// One verdict as it stands in the output, with the id of its record.
#[derive(Clone, Copy)]
pub struct Entry {
    pub id: u16,
    // 0 is a pass
    pub rule: u8,
    // 0 on a pass, and where nothing in the gauge will do
    pub required: u32,
    // what the pressure on the member comes from, by its number
    pub source: u8,
}

// How many verdicts were given, and how many of them have a rule.
#[derive(Clone, Copy)]
pub struct Checked {
    pub n: u16,
    pub failed: u16,
}

// How many bytes a verdict takes, and those of the most records.
pub const VERDICT: usize = 4;

pub const LONGEST: usize = VERDICT * (MOST as usize);

// The most that a verdict with this rule can require: nothing on a pass, else the highest value of any gauge.
fn most_required(rule: u8) -> u32
    ensures { result ≡ cond (eqb rule 0) 0 modulus.high }
{
    if rule == 0 { 0 } else { Modulus::HIGH }
}

// The first field outside its values, id being 1, or 0. It goes from the last field to the first, so that the first has the last word.
fn fault(e: Entry) -> u8
    ensures { result ≡ entry_fault e }
{
    let f = layout::fault_unless(e.source as u32, 0, 3, 4, 0);
    let f = layout::fault_unless(e.required, 0, most_required(e.rule), 3, f);
    let f = layout::fault_unless(e.rule as u32, 0, 6, 2, f);
    layout::fault_unless(e.id as u32, 1, 1000, 1, f)
}

// What the first fault of an entry says, or nothing where there is none.
fn outcome(f: u8) -> Result<(), Refusal>
    ensures { result ≡ cond (eqb f 0) (Ok tt) (Err (Refusal.Field f)) }
{
    match f {
        0 => Ok(()),
        _ => Err(Refusal::Field(f as u32)),
    }
}

// The entry in a number, whatever its values.
fn entry_of(n: u32) -> Entry
    ensures { result ≡ entry_at (unpack verdict_widths n) }
{
    let id = (n / P22 % 1024) as u16;
    let rule = (n / P19 % 8) as u8;
    let required = n / 4 % 131072;
    let source = (n % 4) as u8;
    Entry {
        id,
        rule,
        required,
        source,
    }
}

fn number_of(e: Entry) -> u32
    requires { Fit verdict_widths (entry_values e) }
    ensures { result ≡ pack verdict_widths (entry_values e) }
{
    (e.id as u32) * P22 + (e.rule as u32) * P19 + e.required * 4 + e.source as u32
}

// The verdict in the first four bytes, or why there is none.
pub fn read_verdict(s: &[u8]) -> Result<Entry, Refusal>
    ensures { told_result result ≡ read_entry s.now }
{
    if s.len() < VERDICT {
        return Err(Refusal::SheetShort);
    }
    let n = layout::read_half(s);
    let entry = entry_of(n);
    outcome(fault(entry))?;
    Ok(entry)
}

// The writer of a verdict: its number into the first four bytes.
fn write_number(n: u32, out: &mut [u8])
    ensures { out.new ≡ written_of 4 n out.old }
{
    layout::write_half(out, n)
}

// The verdict into the first four bytes, or why not.
pub fn write_verdict(e: Entry, out: &mut [u8]) -> Result<(), Refusal>
    ensures { Writes (write_entry e out.old) (told_result result) out.new }
{
    if out.len() < VERDICT {
        return Err(Refusal::OutputShort);
    }
    outcome(fault(e))?;
    write_number(number_of(e), out);
    Ok(())
}

// Refusals 1 to 3, 9, 4 and 5: the header of the sheet, for an output of so many bytes.
fn header_for(sheet: &[u8], room: usize) -> Result<Header, Refusal>
    ensures { told_result result ≡ header_for sheet.now room }
{
    let h = header::read_header(sheet)?;
    let n = h.count as usize;
    if h.too_slender() {
        return Err(Refusal::TooSlender);
    }
    if sheet.len() != h.size() + RECORD * n {
        return Err(Refusal::SheetLength);
    }
    if room < VERDICT * n {
        return Err(Refusal::OutputShort);
    }
    Ok(h)
}

// Refusals 6 to 8 of record i, in its sixteen bytes, after a record with the id `before`.
fn sound_after(bytes: &[u8], i: u16, before: u16) -> Result<Record, Refusal>
    ensures { told_result result ≡ sound_after i before bytes.now }
{
    let r = record::read_record_as(bytes, i)?;
    if r.id <= before {
        return Err(Refusal::Order(i as u32));
    }
    Ok(r)
}

// The same of record i among the bytes of all records.
fn sound_at(records: &[u8], i: u16, before: u16) -> Result<Record, Refusal>
    requires { 16 * i + 16 ≤ length records.now }
    ensures { told_result result ≡ sound_after i before (record_part records.now i) }
{
    let first = RECORD * (i as usize);
    let past = first + RECORD;
    sound_after(&records[first..past], i, before)
}

// Refusals 6 to 8 of the first n records, each finished before the next.
fn records_sound(records: &[u8], n: u16) -> Result<(), Refusal>
    requires { 16 * n ≤ length records.now }
    ensures { told_result result ≡ records_sound records.now n }
{
    let mut before: u16 = 0;
    for i in 0..n {
        let r = sound_at(records, i, before)?;
        before = r.id;
    }
    Ok(())
}

// The header of a sheet that is read and not judged, or the first of the table's refusals but 5, which is about an output.
pub fn sound_header(sheet: &[u8]) -> Result<Header, Refusal>
    ensures { told_result result ≡ sound_header sheet.now }
{
    let h = header_for(sheet, LONGEST)?;
    records_sound(&sheet[h.size()..], h.count)?;
    Ok(h)
}

// Why record i is turned away, where it is: the reader then gives no record.
fn why_refused(bytes: &[u8], i: u16, before: u16) -> Refusal
    requires { Refuses (sound_after i before bytes.now) }
    ensures { told result ≡ sound_after i before bytes.now }
{
    match sound_after(bytes, i, before) {
        Err(x) => x,
        Ok(_) => Refusal::Order(i as u32),
    }
}

fn entry_with(id: u16, judged: Judged) -> Entry
    ensures { result ≡ entry_with id (record { verdict = judged.verdict; source = number_of judged.source }) }
{
    Entry {
        id,
        rule: judged.verdict.rule,
        required: judged.verdict.required,
        source: judged.source.number(),
    }
}

// The verdict on record i, in its sixteen bytes, after a record with the id `before`; or refusals 6 to 8. Judging tests the record's values, so that
// the reader is asked only for the reason of a refusal.
fn judged_after(h: Header, bytes: &[u8], i: u16, before: u16) -> Result<Entry, Refusal>
    requires { header_fault h ≡ 0 }
    ensures { told_result result ≡ judged_after h i before bytes.now }
{
    let raw = record::record_in(bytes);
    let r = raw.values;
    if raw.spare != 0 {
        return Err(why_refused(bytes, i, before));
    }
    let id = r.id;
    if id <= before {
        return Err(why_refused(bytes, i, before));
    }
    let Ok(judged) = hull::judge(h, r) else {
        return Err(why_refused(bytes, i, before));
    };
    Ok(entry_with(id, judged))
}

fn judged_at(h: Header, records: &[u8], i: u16, before: u16) -> Result<Entry, Refusal>
    requires { (header_fault h ≡ 0) × (16 * i + 16 ≤ length records.now) }
    ensures { told_result result ≡ judged_after h i before (record_part records.now i) }
{
    let at = RECORD * (i as usize);
    let end = at + RECORD;
    judged_after(h, &records[at..end], i, before)
}

fn failing(e: Entry) -> u16
    ensures { (result ≡ failingOf e) × (result ≤ 1) }
{
    if e.rule == 0 { 0 } else { 1 }
}

// The pass: each record is judged in turn and its verdict goes into the draft as a number, up to the first record that is turned away. How many verdicts have
// a rule.
fn judge_all(h: Header, records: &[u8], draft: &mut [u32]) -> Result<u16, Refusal>
    requires { Ready h records.now (length draft.old) }
    ensures { told_passed result draft.new ≡ pass_over h records.now draft.old }
{
    let mut failed: u16 = 0;
    // Ids are at least 1, so that the first record's is above this one.
    let mut before: u16 = 0;
    for i in 0..h.count {
        let e = judged_at(h, records, i, before)?;
        draft[i as usize] = number_of(e);
        failed += failing(e);
        before = e.id;
    }
    Ok(failed)
}

// Each verdict of the draft into its own four bytes of the output, which are lent on from its middle.
fn write_all(draft: &[u32], out: &mut [u8])
    requires { 4 * length draft.now ≤ length out.old }
    ensures { out.new ≡ number_bytes draft.now ++ drop (4 * length draft.now) out.old }
{
    for (i, &n) in draft.iter().enumerate() {
        let first = VERDICT * i;
        let past = first + VERDICT;
        write_number(n, &mut out[first..past]);
    }
}

// The records of a sheet whose header is sound. The verdicts go into the output once none of them is turned away.
fn judge_sheet(
    h: Header,
    sheet: &[u8],
    draft: &mut [u32],
    out: &mut [u8],
) -> Result<Checked, Refusal>
    requires { (given h ≡ header_for sheet.now (length out.old)) × (h.count ≤ length draft.old) }
    ensures { Checks sheet.now out.old result out.new }
{
    let failed = judge_all(h, &sheet[h.size()..], draft)?;
    write_all(&draft[..h.count as usize], out);
    Ok(Checked { n: h.count, failed })
}

// The whole sheet. A refusal leaves the output as it was lent; else each record's verdict stands in its own four bytes, and no other byte is touched.
pub fn check(sheet: &[u8], out: &mut [u8]) -> Result<Checked, Refusal>
    ensures { Checks sheet.now out.old result out.new }
{
    let h = header_for(sheet, out.len())?;
    let mut draft = [0u32; MOST as usize];
    judge_sheet(h, sheet, &mut draft, out)
}
