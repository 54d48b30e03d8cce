// The program: a sheet on standard input, checked and reported.
#![tactic(auto)]

ghost use Rattle.std.specs.Prelude.{◌≡◌, List, ℕ, ◌≤◌, length, take, true, OnOk, IfOk, IfSome};
ghost use Rattle.std.specs.Io.KnownBytes.{Appends};
ghost use Rattle.sheet.specs.Versions.{enough};
ghost use Rattle.report.specs.Text.{text_of};
ghost use Rattle.report.specs.Page.{Pages};

use console::Said;
use report::Page;
use sheet::ENOUGH;
use std::io;
use std::io::Write;
use std::process::ExitCode;

// What is printed of an input, from the bytes that were read of it: all, or as many as the buffer holds, which is one more than the longest sheet has.
fn answer(buffer: &[u8], got: usize) -> Page
    requires { (enough ≤ length buffer.now) × (got ≤ length buffer.now) }
    ensures { (input : List ℕ) → take got buffer.now ≡ take (length buffer.now) input → Pages input result }
{
    report::page_of(&buffer[..got])
}

// The answer goes to the output; of a text that was handed over for a sheet a word is said too.
fn tell<W: Write>(out: &mut W, err: &mut impl Write, sheet: &[u8], got: usize) -> io::Result<()>
    requires { (enough ≤ length sheet.now) × (got ≤ length sheet.now) }
    ensures { OnOk result ((input : List ℕ) → take got sheet.now ≡ take (length sheet.now) input → Appends (W.contents out.old) (W.contents out.new) (text_of input)) }
{
    let page = answer(sheet, got);
    let text = page.bytes;
    let written = out.write_all(&text[..page.len]);
    if text[0] == b'r' && console::is_read(written) {
        console::hint(err, &sheet[..got]);
    }
    written
}

// Whether the input could be read. Of one whose bytes are known, the text of the answer to that sheet is written, and nothing else.
fn run<R: io::Read, W: Write>(input: &mut R, out: &mut W, err: &mut impl Write) -> io::Result<bool>
    ensures { IfOk result (λ done. done ≡ true → IfSome (R.remaining input.old) (λ bytes. Appends (W.contents out.old) (W.contents out.new) (text_of bytes))) }
{
    let mut sheet = [0u8; ENOUGH];
    let Some(got) = console::load(input, err, &mut sheet) else {
        return Ok(false);
    };
    tell(out, err, &sheet, got)?;
    Ok(true)
}

fn main(rt: HostRuntime) -> ExitCode {
    let mut err = Said::new(rt.stderr());
    let done = run(&mut rt.stdin(), &mut rt.stdout(), &mut err);
    console::status(done, &err)
}
