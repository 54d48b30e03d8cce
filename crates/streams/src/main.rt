// Answers a stream of cases on standard input, for the comparison with a second program. Its word says what they are: `sheets` to be checked, `edits`, `texts` and
// sheets to be converted, `vectors` packed by other means. A case is a head of numbers, an input and an output, as its module says. Numbers have four bytes, most
// significant first. A stream that ends within a case, a length or a size above 65,536, or a case that is none prints `broken` and ends it.
#![tactic(auto)]

mod edits;
mod parts;
mod sheets;
mod texts;
mod vectors;

ghost use Rattle.std.specs.Prelude.{◌≡◌, ◌≤◌, length};

use console::Said;
use std::env::Env;
use std::io;
use std::io::{Read, Write};
use std::process::ExitCode;

// The longest input, and the largest output.
const LONGEST: usize = 65536;

#[derive(Clone, Copy)]
enum Stream {
    Sheets,
    Edits,
    Texts,
    Vectors,
}

// By the word, with zeros behind it.
fn asked(env: &impl Env) -> Option<Stream> {
    let mut word = [0u8; 8];
    let _ = env.arg(1, &mut word);
    match &word {
        b"sheets\0\0" => Some(Stream::Sheets),
        b"edits\0\0\0" => Some(Stream::Edits),
        b"texts\0\0\0" => Some(Stream::Texts),
        b"vectors\0" => Some(Stream::Vectors),
        _ => None,
    }
}

fn head_bytes(stream: Stream) -> usize {
    match stream {
        Stream::Sheets => 4,
        _ => 12,
    }
}

// Reads a head to where its numbers have their places: the input's length is number 1, the output's size number 2, and what does not come is 0.
fn read_head(input: &mut impl Read, stream: Stream, head: &mut [u8]) -> usize
    requires { length head.old ≡ 20 }
{
    match stream {
        Stream::Sheets => parts::fill(input, &mut head[4..8]),
        Stream::Edits => parts::fill(input, &mut head[8..20]),
        _ => parts::fill(input, &mut head[0..12]),
    }
}

// The answer to a case, or false where it is none.
fn answered(
    from: &mut impl Read,
    to: &mut impl Write,
    stream: Stream,
    head: &[u8; 20],
    input: &[u8],
    out: &mut [u8],
) -> io::Result<bool>
    requires { length out.old ≤ 65536 }
{
    match stream {
        Stream::Sheets => sheets::print(to, input),
        Stream::Edits => edits::print(from, to, head, out),
        Stream::Texts => texts::print(to, head, input, out),
        Stream::Vectors => vectors::print(to, head, input, out),
    }
}

// The same for one whose input and output come next.
fn read_case(
    from: &mut impl Read,
    to: &mut impl Write,
    stream: Stream,
    head: &[u8; 20],
    input: &mut [u8],
    out: &mut [u8],
) -> io::Result<bool>
    requires { length out.old ≤ 65536 }
{
    if parts::fill(from, input) < input.len() {
        return Ok(false);
    }
    if parts::fill(from, out) < out.len() {
        return Ok(false);
    }
    answered(from, to, stream, head, input, out)
}

// The case behind a head of which so many bytes came, or false where it is none.
fn case(
    from: &mut impl Read,
    to: &mut impl Write,
    stream: Stream,
    got: usize,
    head: &[u8; 20],
    input: &mut [u8],
    out: &mut [u8],
) -> io::Result<bool>
    requires { (65536 ≤ length input.old) × (65536 ≤ length out.old) }
{
    if got < head_bytes(stream) {
        return Ok(false);
    }
    let len = parts::number(head, 1) as usize;
    let size = parts::number(head, 2) as usize;
    if LONGEST < len {
        return Ok(false);
    }
    if LONGEST < size {
        return Ok(false);
    }
    read_case(
        from,
        to,
        stream,
        head,
        &mut input[0..len],
        &mut out[0..size],
    )
}

// One case of the stream, or false at its end.
fn turn(
    from: &mut impl Read,
    to: &mut impl Write,
    stream: Stream,
    input: &mut [u8],
    out: &mut [u8],
) -> io::Result<bool>
    requires { (65536 ≤ length input.old) × (65536 ≤ length out.old) }
{
    let mut head = [0u8; 20];
    let got = read_head(from, stream, &mut head);
    if got == 0 {
        return Ok(false);
    }
    if case(from, to, stream, got, &head, input, out)? {
        return Ok(true);
    }
    to.write_all(b"broken\n")?;
    Ok(false)
}

fn main(rt: HostRuntime) -> ExitCode {
    let mut from = rt.stdin();
    let mut to = rt.stdout();
    let mut err = Said::new(rt.stderr());
    let mut input = [0u8; LONGEST];
    let mut out = [0u8; LONGEST];
    let Some(stream) = asked(&rt) else {
        let said = err.write_all(b"streams: the word is sheets, edits, texts or vectors\n");
        return console::status(said, &err);
    };
    for _ in 0..4294967296usize {
        match turn(&mut from, &mut to, stream, &mut input, &mut out) {
            Ok(true) => {}
            ended => return console::status(ended, &err),
        }
    }
    ExitCode::SUCCESS
}
