// The text of a sheet, line by line, in a page that has room for it.
ghost use Rattle.std.specs.Prelude.{◌≡◌, ◌++◌, ◌+◌, ◌*◌, ◌≤◌, length};
ghost use Rattle.decimal.specs.Decimal.{decimal_of};
ghost use Rattle.decimal.specs.Laid.{Laid};
ghost use Rattle.sheet.specs.Header.{header_fault};
ghost use Rattle.rows.specs.Pack.{fields_of};
ghost use Rattle.rows.specs.Forms.{first_count, own_count, record_count};
ghost use Rattle.sheet.specs.Versions.{version_of};
ghost use Rattle.sheet_csv.specs.Write.{line, header_cells};
ghost use Rattle.sheet_csv.specs.Steps.{thirteen as thirteenOf, longest_line, record_text, records_text};

use sheet::{Header, Own};

fn put_number(page: &mut [u8], at: usize, n: u32, after: &[u8]) -> usize
    requires { at + length (decimal_of n ++ after.now) ≤ length page.old }
    ensures { Laid page.old at (decimal_of n ++ after.now) result page.new }
{
    at + decimal::write_number(n as u64, after, &mut page[at..])
}

// A line: the first numbers with commas between them, and CR LF.
fn put_line(page: &mut [u8], at: usize, nums: [u32; 13], count: usize) -> usize
    requires { (1 ≤ count) × (count ≤ 13) × (at + length (line (fields_of count nums)) ≤ length page.old) }
    ensures { Laid page.old at (line (fields_of count nums)) result page.new }
{
    let mut here = at;
    let last = count - 1;
    for i in 0..last {
        here = put_number(page, here, nums[i], b",");
    }
    put_number(page, here, nums[last], b"\r\n")
}

fn thirteen(n: [u32; 10]) -> [u32; 13]
    ensures { result ≡ thirteenOf n }
{
    [
        n[0], n[1], n[2], n[3], n[4], n[5], n[6], n[7], n[8], n[9], 0, 0, 0,
    ]
}

// How many numbers a header has: the fields of its version that carry something.
fn header_count(own: Own) -> usize
    ensures { result ≡ first_count + own_count (version_of own) }
{
    match own {
        Own::One => 8,
        Own::Two(_) => 10,
    }
}

fn record_count(kind: u8) -> usize
    ensures { result ≡ record_count kind }
{
    if kind < 5 { 11 } else { 13 }
}

// The header's line in front.
pub fn put_header(page: &mut [u8], h: Header) -> usize
    requires { (header_fault h ≡ 0) × (longest_line ≤ length page.old) }
    ensures { Laid page.old 0 (line (header_cells h)) result page.new }
{
    let count = header_count(h.own);
    let nums = thirteen(numbers::header_numbers(h));
    put_line(page, 0, nums, count)
}

// The line of the record in sixteen bytes. In a sheet that is not turned away there always is one.
fn put_record(bytes: &[u8], page: &mut [u8], at: usize) -> usize
    requires { at + longest_line ≤ length page.old }
    ensures { Laid page.old at (record_text bytes.now) result page.new }
{
    match record::read_record(bytes) {
        Err(_) => at,
        Ok(r) => {
            let count = record_count(r.kind);
            let nums = numbers::record_numbers(r);
            put_line(page, at, nums, count)
        }
    }
}

pub fn put_records(records: &[u8], n: u16, page: &mut [u8], at: usize) -> usize
    requires { (16 * n ≤ length records.now) × (at + longest_line * n ≤ length page.old) }
    ensures { Laid page.old at (records_text records.now 0 n) result page.new }
{
    let mut here = at;
    for i in 0..n {
        let from = 16 * (i as usize);
        let to = from + 16;
        here = put_record(&records[from..to], page, here);
    }
    here
}
