// Comma-separated text, one field after another and one line after another.
#![tactic(auto)]

ghost use Rattle.std.specs.Prelude.{◌≡◌, ◌+◌, ◌<◌, ◌^◌, set};
ghost use Rattle.fields.specs.Number.{value_of};
ghost use Rattle.fields.specs.Field.{field_at};
ghost use Rattle.text.specs.Line.{line_at, line_start, next_of, Reads};

use fields::{Field, Num};

// The lent text and the place in it, together: it hands out one field after another.
#[derive(Clone, Copy)]
pub struct Reader<'a> {
    pub text: &'a [u8],
    pub at: usize,
}

impl<'a> Reader<'a> {
    pub fn new(text: &'a [u8]) -> Reader<'a>
        ensures { (result.text ≡ text.entry) × (result.at ≡ 0) }
    {
        Reader { text, at: 0 }
    }

    // The field that starts at the place.
    pub fn next(self) -> Field
        ensures { result ≡ field_at self.entry.text.now self.entry.at }
    {
        fields::field_at(self.text, self.at)
    }

    pub fn moved(self, at: usize) -> Reader<'a>
        ensures { (result.text ≡ self.entry.text) × (result.at ≡ at) }
    {
        Reader {
            text: self.text,
            at,
        }
    }
}

// The field that starts at a place, for whoever has the text as a plain slice.
pub fn field_from(text: &[u8], at: usize) -> Field
    ensures { result ≡ field_at text.now at }
{
    Reader::new(text).moved(at).next()
}

// How a line ends: where the next one starts, or with the text, or in a fault of its quotes.
#[derive(Clone, Copy)]
pub enum LineEnd {
    More(usize),
    Last,
    Fault,
}

// A line that was read: how many fields it has, up to a fault, and how it ends.
#[derive(Clone, Copy)]
pub struct Line {
    pub count: usize,
    pub end: LineEnd,
}

// What is no number counts as one that no field of a sheet is wide enough for.
fn value(num: Num) -> u32
    ensures { result ≡ value_of num }
{
    match num {
        Num::Value(v) => v,
        Num::Empty | Num::Bad => 1_000_000_000,
    }
}

// The number at an index, where there is room for it.
fn store(nums: &mut [u32], i: usize, num: Num)
    ensures { nums.new ≡ set nums.old i (value_of num) }
{
    if i < nums.len() {
        nums[i] = value(num);
    }
}

// The line that starts at a place: its numbers go over the first of `nums`, as far as there is room.
pub fn line_at(text: &[u8], at: usize, nums: &mut [u32]) -> Line
    ensures { Reads (line_at text.now at) nums.old result nums.new }
{
    // the field says where the next one is
    let mut here = at;
    // a field is a byte at least, so that they cannot be more than there are bytes
    let mut count: usize = 0;
    loop {
        match field_from(text, here) {
            Field::Comma { num, next } => {
                store(nums, count, num);
                here = next;
                count += 1;
            }
            Field::Line { num, next } => {
                store(nums, count, num);
                return Line {
                    count: count + 1,
                    end: LineEnd::More(next),
                };
            }
            Field::End(num) => {
                store(nums, count, num);
                return Line {
                    count: count + 1,
                    end: LineEnd::Last,
                };
            }
            Field::Fault => {
                return Line {
                    count,
                    end: LineEnd::Fault,
                };
            }
        }
    }
}

// Where the line behind the one at a place starts; the same place where there is none.
fn next_start(text: &[u8], at: usize) -> usize
    ensures { result ≡ next_of text.now at }
{
    let mut none = [0u32; 1];
    let line = line_at(text, at, &mut none);
    match line.end {
        LineEnd::More(next) => next,
        LineEnd::Last => at,
        LineEnd::Fault => at,
    }
}

// Where a line starts, the first being 1, so that it can be shown; the last one that can be told where there are fewer.
pub fn line_start(text: &[u8], line: u32) -> usize
    ensures { result ≡ line_start text.now line }
{
    let mut here: usize = 0;
    for i in 1..line {
        let next = next_start(text, here);
        if next == here {
            return here;
        }
        here = next;
    }
    here
}
