// What the streams have in common: their numbers, and the line of an answer.
ghost use Rattle.std.specs.Prelude.{◌≡◌, ◌+◌, ◌*◌, ◌≤◌, ◌<◌, length};
ghost use Rattle.sheet.specs.Refusals.{told_result};
ghost use Rattle.decimal.specs.Laid.{Laid};
ghost use Rattle.streams.specs.Parts.{number_at, fields_in, line_for, ShortLine};

use sheet::Refusal;
use std::io;
use std::io::{Read, Write};

// A refusal's longest line; a length's has fewer bytes.
pub const LINE: usize = 22;

// Reads until the space is full, and returns how many bytes came: a read that fails is taken for the end. No `for` fits: each read gives as many as it likes.
pub fn fill(input: &mut impl Read, space: &mut [u8]) -> usize
    ensures { result ≤ length space.new }
{
    let mut got = 0;
    while got < space.len() {
        let n = input.read(&mut space[got..]).unwrap_or(0);
        if n == 0 {
            break;
        }
        got += n;
    }
    got
}

// Number i of a head or a form.
pub fn number(form: &[u8], i: usize) -> u32
    requires { (4 * i + 4 ≤ length form.now) × (i < 14) }
    ensures { result ≡ number_at form.now i }
{
    let from = 4 * i;
    let to = from + 4;
    layout::read_half(&form[from..to])
}

// The numbers of a header or a record in a form, behind its first.
pub fn fields(form: &[u8]) -> [u32; 13]
    requires { 56 ≤ length form.now }
    ensures { result ≡ fields_in form.now }
{
    [
        number(form, 1),
        number(form, 2),
        number(form, 3),
        number(form, 4),
        number(form, 5),
        number(form, 6),
        number(form, 7),
        number(form, 8),
        number(form, 9),
        number(form, 10),
        number(form, 11),
        number(form, 12),
        number(form, 13),
    ]
}

// The line of an answer: a length, or a refusal.
pub fn put_line(answer: Result<usize, Refusal>, line: &mut [u8]) -> usize
    requires { (22 ≤ length line.old) × ShortLine (told_result answer) }
    ensures { Laid line.old 0 (line_for (told_result answer)) result line.new }
{
    match answer {
        Ok(n) => decimal::write_number(n as u64, b"\n", line),
        Err(x) => report::write_refusal(x, line).unwrap_or(0),
    }
}

// The line, and the bytes that it speaks of.
pub fn print(out: &mut impl Write, answer: Result<usize, Refusal>, bytes: &[u8]) -> io::Result<()>
    requires { ShortLine (told_result answer) }
{
    let mut line = [0u8; LINE];
    let end = put_line(answer, &mut line);
    out.write_all(&line[..end])?;
    out.write_all(bytes)
}
