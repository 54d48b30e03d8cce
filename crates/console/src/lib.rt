// What the programs share: standard input, of which a read that fails is not taken for the end, and what is said on standard error. Both are given: `input` is
// where the bytes come from, and `err` where lines are said. Where a line cannot be said there is nobody to tell, and the program goes on; where whoever read
// the lines has gone, it ends as the system would end it (`Said`, `status`).
#![tactic(auto)]

ghost use Rattle.std.specs.Prelude.{◌≡◌, ◌≤◌, ◌<◌, ◌↔◌, ◌⊎◌, true, false, length, take, IfOk, OnOk};
ghost use Rattle.std.specs.Process.{exit_status};
ghost use Rattle.std.specs.Io.{ReadsAtMost};
ghost use Rattle.std.specs.Io.KnownBytes.{Consumes, IsAtEnd};
ghost use Rattle.std.specs.IoError.{error_kind};
ghost use Rattle.console.specs.Console.{Loaded, Came, Broke, said_to, has_gone, looks_like_text};

use std::io;
use std::io::{ErrorKind, Write};
use std::process::ExitCode;

// Reads until the space is full or nothing comes any more. No `for` fits: each read gives as many bytes as it likes.
fn read_full<R: io::Read>(input: &mut R, space: &mut [u8]) -> io::Result<usize>
    ensures bound { ReadsAtMost result space.new }
    ensures bytes { IfOk result (λ n. Consumes (R.remaining input.old) (R.remaining input.new) (take n space.new)) }
    ensures end { IfOk result (λ n. n < length space.new → IsAtEnd (R.remaining input.new)) }
{
    let mut got = 0;
    while got < space.len() {
        let n = input.read(&mut space[got..])?;
        if n == 0 {
            return Ok(got);
        }
        got += n;
    }
    Ok(got)
}

// As much of the input as the space holds, and how many bytes that is; none where it cannot be read, and why is said.
pub fn load<R: io::Read>(input: &mut R, err: &mut impl Write, space: &mut [u8]) -> Option<usize>
    ensures loaded { Loaded result space.new }
    ensures came { Came (R.remaining input.old) (R.remaining input.new) result space.new }
{
    match read_full(input, space) {
        Ok(got) => Some(got),
        Err(e) => {
            failed(err, b"cannot read ", b"the input", e);
            None
        }
    }
}

// Bytes on standard error.
fn write(err: &mut impl Write, what: &[u8]) {
    let _ = err.write_all(what);
}

// A number on standard error.
fn write_number(err: &mut impl Write, n: usize) {
    let _ = write!(err, "{n}");
}

// What every line of a program's own begins with.
pub fn begin(err: &mut impl Write) {
    write(err, b"barge: ");
}

// A line on standard error.
pub fn say(err: &mut impl Write, what: &[u8]) {
    begin(err);
    write(err, what);
    write(err, b"\n");
}

// A line that a number ends.
pub fn say_number(err: &mut impl Write, what: &[u8], n: usize) {
    begin(err);
    write(err, what);
    write_number(err, n);
    write(err, b"\n");
}

// How many bytes of what is said of an error are the system's words: the number that std puts behind them, in parentheses, is left out.
fn words(text: &[u8], numbered: bool) -> usize
    ensures { result ≤ length text.now }
{
    if !numbered {
        return text.len();
    }
    match text.iter().rposition(|b| *b == b'(') {
        Some(at) => at.saturating_sub(1),
        None => text.len(),
    }
}

// Why something could not be done, in the system's words.
fn why(err: &mut impl Write, e: io::Error) {
    let mut text = [0u8; 128];
    let mut rest = &mut text[..];
    let _ = write!(rest, "{e}");
    let written = 128usize.saturating_sub(rest.len());
    let end = words(&text[..written], e.raw_os_error().is_some());
    write(err, &text[..end]);
}

// What could not be done to which input or output, and why.
pub fn failed(err: &mut impl Write, what: &[u8], which: &[u8], e: io::Error) {
    begin(err);
    write(err, what);
    write(err, which);
    write(err, b": ");
    why(err, e);
    write(err, b"\n");
}

// Whether whoever read an output has gone.
fn gone(e: io::Error) -> bool
    ensures { (result ≡ true) ↔ (error_kind e ≡ ErrorKind.BrokenPipe) }
{
    e.kind() == ErrorKind::BrokenPipe
}

// Whether an output still has a reader, by what a write to it gave. Where it has none nobody is to be told anything more, as the system would end the program there.
pub fn is_read<T: Drop>(written: io::Result<T>) -> bool
    ensures { (result ≡ false) ↔ Broke written }
{
    match written {
        Ok(_) => true,
        Err(e) => !gone(e),
    }
}

// What could not be written, and why; nothing where whoever read the output has gone.
pub fn unwritten(err: &mut impl Write, which: &[u8], e: io::Error) {
    if !gone(e) {
        failed(err, b"cannot write ", which, e);
    }
}

// Standard error, and whether whoever read it has gone.
#[derive(Drop)]
pub struct Said<W> {
    to: W,
    gone: bool,
}

impl<W: Write> Said<W> {
    pub fn new(to: W) -> Said<W>
        ensures to { said_to result ≡ to }
        ensures gone { has_gone result ≡ false }
    {
        Said { to, gone: false }
    }

    // Keeps whether a write told that whoever read it has gone.
    fn keep<T: Drop>(&mut self, written: io::Result<T>)
        ensures to { said_to self.new ≡ said_to self.old }
        ensures gone { (has_gone self.new ≡ true) ↔ ((has_gone self.old ≡ true) ⊎ Broke written) }
    {
        if !is_read(written) {
            self.gone = true;
        }
    }
}

impl<W: Write> Write for Said<W> {
    ghost use Rattle.std.specs.Io.{WritesAtMost};
    ghost use Rattle.std.specs.Io.KnownBytes.{Appends, WriteAppends, Keeps};

    ghost contents = { λ s. W.contents (said_to s) };

    fn write(&mut self, buf: &[u8]) -> io::Result<usize>
        ensures bound { WritesAtMost result buf.now }
        ensures bytes { WriteAppends (W.contents (said_to self.old)) (W.contents (said_to self.new)) result buf.now }
        ensures gone { (has_gone self.new ≡ true) ↔ ((has_gone self.old ≡ true) ⊎ Broke result) }
    {
        let written = self.to.write(buf);
        self.keep(written);
        written
    }

    fn write_all(&mut self, buf: &[u8]) -> io::Result<()>
        ensures bytes { OnOk result (Appends (W.contents (said_to self.old)) (W.contents (said_to self.new)) buf.now) }
        ensures gone { (has_gone self.new ≡ true) ↔ ((has_gone self.old ≡ true) ⊎ Broke result) }
    {
        let written = self.to.write_all(buf);
        self.keep(written);
        written
    }

    fn flush(&mut self) -> io::Result<()>
        ensures bytes { Keeps (W.contents (said_to self.old)) (W.contents (said_to self.new)) }
        ensures gone { has_gone self.new ≡ has_gone self.old }
    {
        self.to.flush()
    }
}

// The status that a program ends with, by what its last write gave: 0, and 141, which a shell gives a program that the system ends so, where whoever read its
// output or its standard error has gone.
pub fn status<T: Drop, W>(written: io::Result<T>, err: &Said<W>) -> ExitCode
    ensures two { (exit_status result ≡ 0) ⊎ (exit_status result ≡ 141) }
    ensures gone { (exit_status result ≡ 141) ↔ (Broke written ⊎ (has_gone err.now ≡ true)) }
{
    if is_read(written) && !err.gone {
        ExitCode::SUCCESS
    } else {
        ExitCode::from(141)
    }
}

// Whether an input looks like a text, by its first byte: a digit, a quote, or the first byte of a byte-order mark.
#[tactic(auto, unfolding(crate::specs::Console::looks_like_text))]
pub fn looks_like_text(input: &[u8]) -> bool
    ensures { result ≡ looks_like_text input.now }
{
    matches!(input, [b'"' | b'0'..=b'9' | 0xEF, ..])
}

// A word to whoever hands over a text where a sheet is read.
pub fn hint(err: &mut impl Write, input: &[u8]) {
    if looks_like_text(input) {
        say(
            err,
            b"this looks like text: ./barge reads a file as text where its name ends in .csv",
        );
    }
}
