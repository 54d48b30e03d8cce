// A line of comma-separated text as the bytes of a header or of a record: its numbers in layout order, the zero bits being 0.
#![tactic(auto)]

mod form;
mod pack;

ghost use Rattle.std.specs.Prelude.{◌≡◌, not, ◌&&◌, ◌+◌, ◌≤◌, eqb};
ghost use Rattle.quantity.specs.Range.{within, from};
ghost use Rattle.filling.specs.Filling.{line_left};
ghost use Rattle.rows.specs.Pack.{below, fields_of};
ghost use Rattle.rows.specs.Rows.{taken as taken_of, header_line, record_line, row_by, header_row, record_row, shown, told_row};
ghost use Rattle.rows.specs.Steps.{is_fault, next_of, first_part, own_part, placed_of};

use form::Form;
use sheet::Refusal;
use text::LineEnd;

// The bytes of a line, so many of them and then zeros, and where the next line starts, if there is one.
#[derive(Clone, Copy)]
pub struct Row {
    pub bytes: [u8; 20],
    pub size: usize,
    pub next: Option<usize>,
}

fn is_within(x: u32, low: u32, high: u32) -> bool
    ensures { result ≡ within (from low high) x }
{
    (low..=high).contains(&x)
}

// All numbers, and where the version or the kind is not known only the first.
fn taken(known: bool, nums: [u32; 13]) -> [u32; 13]
    ensures { result ≡ taken_of known nums }
{
    if known {
        return nums;
    }
    let first = nums[0];
    [first, 0, 0, 0, 0, 0, 0, 0, 0, 0, 0, 0, 0]
}

// The numbers of the fields that every version of the header has.
fn first_part(n: [u32; 13]) -> [u32; 13]
    ensures { result ≡ first_part n }
{
    [
        n[0], n[1], n[2], n[3], n[4], n[5], n[6], n[7], 0, 0, 0, 0, 0,
    ]
}

// The numbers behind them.
fn own_part(n: [u32; 13]) -> [u32; 13]
    ensures { result ≡ own_part n }
{
    [n[8], n[9], n[10], n[11], n[12], 0, 0, 0, 0, 0, 0, 0, 0]
}

fn is_fault(end: LineEnd) -> bool
    ensures { result ≡ is_fault end }
{
    matches!(end, LineEnd::Fault)
}

// Where the line behind one that ends so starts.
fn next_of(end: LineEnd) -> Option<usize>
    ensures { result ≡ next_of end }
{
    match end {
        LineEnd::More(next) => Some(next),
        LineEnd::Last | LineEnd::Fault => None,
    }
}

// Whether a known version or kind has another count of numbers than the line.
fn miscounted(known: bool, count: usize, numbers: usize) -> bool
    ensures { result ≡ (known && not (eqb count numbers)) }
{
    known && count != numbers
}

// The numbers into the bytes of their fields, which begin at a place.
fn placed(nums: [u32; 13], form: Form, at: usize, bytes: [u8; 20]) -> [u8; 20]
    requires { (form.count ≤ 13) × (at + form.size ≤ 20) }
    ensures { result ≡ placed_of nums form at bytes }
{
    let mut out = bytes;
    let count = form.count;
    let end = at + form.size;
    pack::put(&nums[..count], &form.limits[..count], &mut out[at..end]);
    out
}

fn record_row(nums: [u32; 13], count: usize, line: u32, end: LineEnd) -> Result<Row, Refusal>
    ensures { told_row result ≡ shown (row_by line end (record_line line count nums)) }
{
    if is_fault(end) {
        return Err(Refusal::Text(line));
    }
    let kind = nums[0];
    let known = is_within(kind, 1, 8);
    let form = form::record(kind);
    if miscounted(known, count, form.numbers) {
        return Err(Refusal::FieldCount(line));
    }
    let ns = taken(known, nums);
    if !form.fits(ns) {
        return Err(Refusal::Text(line));
    }
    let bytes = placed(ns, form, 0, [0u8; 20]);
    Ok(Row {
        bytes,
        size: form.size,
        next: next_of(end),
    })
}

// The line of a text that starts at a place, as a record; where it is filled up, without its filling.
pub fn record_at(text: &[u8], at: usize, line: u32, filled: bool) -> Result<Row, Refusal>
    ensures { told_row result ≡ shown (record_row line (line_left filled text.now at)) }
{
    let mut nums = [0u32; 13];
    let read = filling::line_at(text, at, filled, &mut nums);
    record_row(nums, read.count, line, read.end)
}

// Whether the numbers fit the fields of both parts of a header.
fn both_fit(first: [u32; 13], f: Form, own: [u32; 13], o: Form) -> bool
    requires { (f.count ≤ 13) × (o.count ≤ 13) }
    ensures { result ≡ (below (fields_of f.count f.limits) (fields_of f.count first) && below (fields_of o.count o.limits) (fields_of o.count own)) }
{
    f.fits(first) && o.fits(own)
}

fn header_row(nums: [u32; 13], count: usize, line: u32, end: LineEnd) -> Result<Row, Refusal>
    ensures { told_row result ≡ shown (row_by line end (header_line line count nums)) }
{
    if is_fault(end) {
        return Err(Refusal::Text(line));
    }
    let version = nums[0];
    let known = is_within(version, 1, 2);
    let first = form::first();
    let own = form::own(version);
    if miscounted(known, count, first.numbers + own.numbers) {
        return Err(Refusal::FieldCount(line));
    }
    let ns = taken(known, nums);
    let head = first_part(ns);
    let tail = own_part(ns);
    if !both_fit(head, first, tail, own) {
        return Err(Refusal::Text(line));
    }
    let front = placed(head, first, 0, [0u8; 20]);
    let bytes = placed(tail, own, first.size, front);
    Ok(Row {
        bytes,
        size: first.size + own.size,
        next: next_of(end),
    })
}

// The first line of a text, as a header, likewise.
pub fn header_at(text: &[u8], filled: bool) -> Result<Row, Refusal>
    ensures { told_row result ≡ shown (header_row 1 (line_left filled text.now 0)) }
{
    let mut nums = [0u32; 13];
    let read = filling::line_at(text, 0, filled, &mut nums);
    header_row(nums, read.count, 1, read.end)
}
