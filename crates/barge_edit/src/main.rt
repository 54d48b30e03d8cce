// The drawing office's program: puts a record into the sheet on standard input, or takes one out, and writes the new sheet to standard output. How many
// records it has then goes to standard error; so does a refusal, and whatever else is wrong, with nothing on standard output. Its words: put and the record's
// numbers, or remove and the id.
#![tactic(auto)]

mod words;

ghost use Rattle.std.specs.Prelude.{◌≡◌, ◌≤◌, length};
ghost use Rattle.sheet.specs.Versions.{enough};
ghost use Rattle.edit.specs.Edit.{put_numbers_in, remove_in};
ghost use Rattle.barge_edit.specs.Office.{record_count, EditInside, OfFile};

use console::Said;
use sheet::{ENOUGH, Refusal};
use std::env::Env;
use std::io;
use std::io::Write;
use std::process::ExitCode;

// Where the words stand.
const COMMAND: usize = 1;

const FIRST: usize = 2;

fn records_in(len: usize) -> usize
    ensures { result ≡ record_count len }
{
    if len < 12 {
        return 0;
    }
    (len - 12) / 16
}

fn write_sheet(out: &mut impl Write, err: &mut impl Write, sheet: &[u8]) -> io::Result<()> {
    let written = out.write_all(sheet);
    if let Err(e) = written {
        console::unwritten(err, b"the new sheet", e);
        return written;
    }
    let n = records_in(sheet.len());
    let _ = writeln!(err, "{n}");
    written
}

// The new sheet, or the refusal, with a word on a text that was handed over for a sheet.
fn finish(
    out: &mut impl Write,
    err: &mut impl Write,
    sheet: &[u8],
    edited: Result<usize, Refusal>,
) -> io::Result<()>
    requires { EditInside edited (length sheet.now) }
{
    match edited {
        Ok(len) => write_sheet(out, err, &sheet[..len]),
        Err(r) => {
            let _ = report::print_refusal(err, r);
            console::hint(err, sheet);
            Ok(())
        }
    }
}

// The edit, in a buffer that has as much of the input as it holds.
fn put_in(buffer: &mut [u8], got: usize, fields: [u32; 13]) -> Result<usize, Refusal>
    requires { (enough ≤ length buffer.old) × (got ≤ length buffer.old) }
    ensures { OfFile (put_numbers_in buffer.old got fields) buffer.old got result buffer.new }
{
    edit::put_numbers(buffer, got, fields)
}

fn remove_in(buffer: &mut [u8], got: usize, id: u32) -> Result<usize, Refusal>
    requires { (enough ≤ length buffer.old) × (got ≤ length buffer.old) }
    ensures { OfFile (remove_in buffer.old got id) buffer.old got result buffer.new }
{
    edit::remove(buffer, got, id)
}

fn put(
    env: &impl Env,
    input: &mut impl io::Read,
    out: &mut impl Write,
    err: &mut impl Write,
) -> io::Result<()> {
    let Some(fields) = words::record(env, err, FIRST) else {
        return Ok(());
    };
    let mut sheet = [0u8; ENOUGH];
    let Some(got) = console::load(input, err, &mut sheet) else {
        return Ok(());
    };
    let edited = put_in(&mut sheet, got, fields);
    finish(out, err, &sheet, edited)
}

fn remove(
    env: &impl Env,
    input: &mut impl io::Read,
    out: &mut impl Write,
    err: &mut impl Write,
) -> io::Result<()> {
    let given = words::given(env, FIRST);
    if given != 1 {
        console::say_number(err, b"remove takes one id, and here are ", given);
        return Ok(());
    }
    let Some(id) = words::wanted(env, err, FIRST, 1) else {
        return Ok(());
    };
    let mut sheet = [0u8; ENOUGH];
    let Some(got) = console::load(input, err, &mut sheet) else {
        return Ok(());
    };
    let edited = remove_in(&mut sheet, got, id);
    finish(out, err, &sheet, edited)
}

// By the first letter of the command.
fn main(rt: HostRuntime) -> ExitCode {
    let mut input = rt.stdin();
    let mut out = rt.stdout();
    let mut err = Said::new(rt.stderr());
    let mut word = [0u8; 8];
    let _ = rt.arg(COMMAND, &mut word);
    let written = match word[0] {
        b'p' => put(&rt, &mut input, &mut out, &mut err),
        b'r' => remove(&rt, &mut input, &mut out, &mut err),
        _ => {
            console::say(&mut err, b"the command is put or remove");
            Ok(())
        }
    };
    console::status(written, &err)
}
