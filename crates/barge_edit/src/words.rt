// The words of the command line as numbers.
ghost use Rattle.std.specs.Prelude.{◌≡◌, ◌<◌};
ghost use Rattle.barge_edit.specs.Office.{fields_of};

use std::env::{Env, FillError};
use std::io::Write;

// A word that takes more bytes is no number.
const LONGEST: usize = 4096;

// How many words stand from `first` on.
pub fn given(env: &impl Env, first: usize) -> usize {
    for i in first..usize::MAX {
        if let Err(FillError::NotPresent) = env.arg(i, &mut []) {
            return i - first;
        }
    }
    usize::MAX - first
}

// The number that word i is; none where it is missing, far too long or anything else.
fn number(env: &impl Env, i: usize) -> Option<u32> {
    let mut space = [0u8; LONGEST];
    let end = env.arg(i, &mut space).ok()?;
    decimal::read_number(&space[..end])
}

// Says that word i is no number, where `place` counts from the first behind the sheet.
fn refuse(env: &impl Env, err: &mut impl Write, i: usize, place: usize) {
    let mut space = [0u8; LONGEST];
    let end = env.arg(i, &mut space).unwrap_or(0);
    console::begin(err);
    let _ = write!(err, "word {place} behind the sheet is no number: ");
    let _ = err.write_all(&space[..end]);
    let _ = err.write_all(b"\n");
}

// The number that word i is; where it is none, that is said.
pub fn wanted(env: &impl Env, err: &mut impl Write, i: usize, place: usize) -> Option<u32> {
    let n = number(env, i);
    if n.is_none() {
        refuse(env, err, i, place);
    }
    n
}

// How many numbers a record of this kind is.
fn fields_of(kind: u32) -> usize
    ensures { result ≡ fields_of kind }
{
    if kind < 5 {
        return 11;
    }
    13
}

// What is said of a record with another count of numbers than its kind has.
fn miscounted(err: &mut impl Write, kind: u32, given: usize) {
    if 8 < kind {
        return;
    }
    if kind <= 4 {
        console::say_number(
            err,
            b"a plate (kinds 1 to 4) takes 11 numbers, and here are ",
            given,
        );
    } else {
        console::say_number(
            err,
            b"a member (kinds 5 to 8) takes 13 numbers, and here are ",
            given,
        );
    }
}

// The numbers of a record of this kind; none with what is wrong said. A kind that there is not is told, and the table refuses it with 6.
fn fields(env: &impl Env, err: &mut impl Write, first: usize, kind: u32) -> Option<[u32; 13]>
    requires { first < 65000 }
{
    let count = fields_of(kind);
    if kind == 0 || 8 < kind {
        console::say_number(err, b"kinds are 1 to 8, and here is ", kind as usize);
    }
    if given(env, first) != count {
        miscounted(err, kind, given(env, first));
        return None;
    }
    let mut fields = [0u32; 13];
    for (i, field) in fields[..count].iter_mut().enumerate() {
        *field = wanted(env, err, first + i, i + 1)?;
    }
    Some(fields)
}

// The numbers of a record, from the word `first` on; none with what is wrong said.
pub fn record(env: &impl Env, err: &mut impl Write, first: usize) -> Option<[u32; 13]>
    requires { first < 65000 }
{
    if given(env, first) == 0 {
        console::say(
            err,
            b"a plate takes 11 numbers and a member 13, and here are 0",
        );
        return None;
    }
    let kind = wanted(env, err, first, 1)?;
    fields(env, err, first, kind)
}
