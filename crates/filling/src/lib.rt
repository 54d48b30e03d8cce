// A line of comma-separated text without the filling that a spreadsheet program adds to it: empty fields at the ends of rows, and rows of nothing else at the end.
#![tactic(auto)]

ghost use Rattle.std.specs.Prelude.{◌≡◌, true, cond, ◌+◌, ◌<◌, ◌^◌, drop};
ghost use Rattle.fields.specs.Marks.{seen_at};
ghost use Rattle.text.specs.declared.LineEnd.TheVariants.{More, Last};
ghost use Rattle.text.specs.Line.{Reads};
ghost use Rattle.filling.specs.Filling.{blank_by, blank, line_left};
ghost use Rattle.filling.specs.Steps.{Counts};

use fields::{Field, Seen};
use text::{Line, LineEnd};

// Whether the field that starts at a place is empty and has no quotes.
fn is_empty(text: &[u8], at: usize) -> bool
    ensures { result ≡ blank_by true (seen_at (drop at text.now)) true }
{
    matches!(
        fields::look(text, at),
        Seen::End | Seen::Comma | Seen::Line | Seen::Skip
    )
}

// Whether nothing but filling comes from a row's start on.
fn is_rest(text: &[u8], at: usize) -> bool
    ensures { result ≡ blank true (drop at text.now) }
{
    for here in at..text.len() {
        if !is_empty(text, here) {
            return false;
        }
    }
    true
}

// How a row ends behind which another starts at a place.
fn end_before(text: &[u8], next: usize) -> LineEnd
    ensures { result ≡ cond (blank true (drop next text.now)) Last (More next) }
{
    if is_rest(text, next) {
        return LineEnd::Last;
    }
    LineEnd::More(next)
}

// The fields up to the last that is not empty, by the next one.
fn kept_by(empty: bool, kept: usize, count: usize) -> usize
    ensures { result ≡ cond empty kept count }
{
    if empty { kept } else { count }
}

// How many fields the line at a place has without its filling, and how it ends then. The first field stays.
fn count_at(text: &[u8], at: usize) -> Line
    ensures { Counts (line_left true text.now at) result }
{
    // the field says where the next one is
    let mut here = at;
    // a field is a byte at least, so that they cannot be more than there are bytes
    let mut count: usize = 0;
    let mut kept: usize = 1;
    loop {
        let empty = is_empty(text, here);
        match text::field_from(text, here) {
            Field::Comma { next, .. } => {
                count += 1;
                kept = kept_by(empty, kept, count);
                here = next;
            }
            Field::Line { next, .. } => {
                return Line {
                    count: kept_by(empty, kept, count + 1),
                    end: end_before(text, next),
                };
            }
            Field::End(_) => {
                return Line {
                    count: kept_by(empty, kept, count + 1),
                    end: LineEnd::Last,
                };
            }
            Field::Fault => {
                return Line {
                    count,
                    end: LineEnd::Fault,
                };
            }
        }
    }
}

fn unfilled_at(text: &[u8], at: usize, nums: &mut [u32]) -> Line
    ensures { Reads (line_left true text.now at) nums.old result nums.new }
{
    let line = count_at(text, at);
    let count = line.count;
    if count < nums.len() {
        text::line_at(text, at, &mut nums[..count]);
    } else {
        text::line_at(text, at, nums);
    }
    line
}

// The line that starts at a place, without its filling where the text is filled up: its numbers go over the first of `nums`, as far as there is room.
pub fn line_at(text: &[u8], at: usize, filled: bool, nums: &mut [u32]) -> Line
    ensures { Reads (line_left filled text.now at) nums.old result nums.new }
{
    if filled {
        return unfilled_at(text, at, nums);
    }
    text::line_at(text, at, nums)
}
