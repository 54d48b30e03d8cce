// The surveyor's program: which letters are which, and then, each behind an empty line, the trail of each member of the sheet on standard input, or of the one
// whose id is the first word. Of a sheet that is turned away it prints the refusal, and where no member has the id nothing.
#![tactic(auto)]

ghost use Rattle.std.specs.Prelude.{◌≡◌, List, [], ◌∷◌, ◌||◌, ℕ, ◌+◌, ◌*◌, ◌≤◌, length, take, eqb, IfOk, OnOk};
ghost use Rattle.std.specs.Io.KnownBytes.{Appends};
ghost use Rattle.sheet.specs.Refusals.{told_result};
ghost use Rattle.checker.specs.Check.{record_of, sheet_size};
ghost use Rattle.checker.specs.Unjudged.{sound_header};
ghost use Rattle.sheet.specs.Versions.{enough};
ghost use Rattle.wording.specs.Writes.{Writes, spot};
ghost use Rattle.pencil.specs.Trail.{trail_text, room as trailRoom};
ghost use Rattle.barge_explain.specs.Explain.{Sized, lead_pieces, piece_of, explained_text, Prints, Written};

use console::Said;
use sheet::{ENOUGH, Header, Record, Refusal};
use std::env::{Env, FillError};
use std::io;
use std::io::Write;
use std::process::ExitCode;

// Where the word stands.
const ID: usize = 1;

// Room for the head, an empty line and a trail.
const ROOM: usize = 26528;

// The header of an input, from the bytes that were read of it, or why it is turned away.
fn header_of(buffer: &[u8], got: usize) -> Result<Header, Refusal>
    requires { (enough ≤ length buffer.now) × (got ≤ length buffer.now) }
    ensures { ((input : List ℕ) → take got buffer.now ≡ take (length buffer.now) input → told_result result ≡ sound_header input) × Sized result got }
{
    checker::sound_header(&buffer[..got])
}

// Record i of a sheet's records.
fn record_at(records: &[u8], i: u16) -> Result<Record, Refusal>
    requires { 16 * i + 16 ≤ length records.now }
    ensures { told_result result ≡ record_of records.now i }
{
    let from = 16 * (i as usize);
    let to = from + 16;
    record::read_record_as(&records[from..to], i)
}

// Every member where no id is asked for, and else the one that has it.
fn is_wanted(asked: u32, id: u16) -> bool
    ensures { result ≡ (eqb asked 0 || eqb asked id) }
{
    asked == 0 || asked == id as u32
}

// What is printed of a record.
#[derive(Drop)]
struct Piece {
    bytes: [u8; ROOM],
    len: usize,
    // whether anything has been printed then
    begun: bool,
}

// What stands before a trail: the head and an empty line before the first, an empty line before each other.
fn put_lead(begun: bool, page: &mut [u8]) -> usize
    ensures { Writes (lead_pieces begun) 1184 (spot page.old 0) (spot page.new result) }
{
    if begun {
        return wording::put_text(b"\n", page, 0);
    }
    let head = pencil::head();
    let at = wording::put_text(&head, page, 0);
    wording::put_text(b"\n", page, at)
}

fn put_trail(h: Header, r: Record, page: &mut [u8], at: usize) -> usize
    ensures { Writes (trail_text h r ∷ []) trailRoom (spot page.old at) (spot page.new result) }
{
    let trail = pencil::trail_of(h, r);
    let len = trail.len;
    let bytes = trail.bytes;
    wording::put_text(&bytes[..len], page, at)
}

// What is to be printed of record i.
fn piece_of(h: Header, records: &[u8], i: u16, asked: u32, begun: bool) -> Piece
    requires { 16 * i + 16 ≤ length records.now }
    ensures { Prints (piece_of h asked begun (record_of records.now i)) result }
{
    let mut bytes = [0u8; ROOM];
    match record_at(records, i) {
        Err(_) => Piece {
            bytes,
            len: 0,
            begun,
        },
        Ok(r) => {
            if !is_wanted(asked, r.id) {
                return Piece {
                    bytes,
                    len: 0,
                    begun,
                };
            }
            let at = put_lead(begun, &mut bytes);
            let len = put_trail(h, r, &mut bytes, at);
            Piece {
                bytes,
                len,
                begun: true,
            }
        }
    }
}

// Prints it; whether anything has been printed.
fn print_record<W: Write>(
    out: &mut W,
    h: Header,
    records: &[u8],
    i: u16,
    asked: u32,
    begun: bool,
) -> io::Result<bool>
    requires { 16 * i + 16 ≤ length records.now }
    ensures { IfOk result (λ b. Written (piece_of h asked begun (record_of records.now i)) (W.contents out.old) (W.contents out.new) b) }
{
    let piece = piece_of(h, records, i, asked, begun);
    let len = piece.len;
    let bytes = piece.bytes;
    out.write_all(&bytes[..len])?;
    Ok(piece.begun)
}

fn print_trails<W: Write>(out: &mut W, h: Header, records: &[u8], asked: u32) -> io::Result<()>
    requires { 16 * h.count ≤ length records.now }
    ensures { OnOk result (Appends (W.contents out.old) (W.contents out.new) (explained_text h records.now asked)) }
{
    let mut begun = false;
    for i in 0..h.count {
        begun = print_record(out, h, records, i, asked, begun)?;
    }
    Ok(())
}

// The id that is asked for, 0 where there is no word; a word that is no number asks for an id that no member has.
fn asked_id(env: &impl Env) -> u32 {
    let mut space = [0u8; 4096];
    let end = match env.arg(ID, &mut space) {
        Ok(end) => end,
        Err(FillError::NotPresent) => return 0,
        Err(FillError::TooLong) => return u32::MAX,
    };
    match decimal::read_number(&space[..end]) {
        Some(0) | None => u32::MAX,
        Some(id) => id,
    }
}

// A sheet that is not turned away.
fn explain(env: &impl Env, out: &mut impl Write, h: Header, sheet: &[u8]) -> io::Result<()>
    requires { sheet_size h ≡ length sheet.now }
{
    let size = h.size();
    print_trails(out, h, &sheet[size..], asked_id(env))
}

// The trails, or the refusal, with a word on a text that was handed over for a sheet.
fn tell(
    env: &impl Env,
    out: &mut impl Write,
    err: &mut impl Write,
    sheet: &[u8],
    got: usize,
) -> io::Result<()>
    requires { (enough ≤ length sheet.now) × (got ≤ length sheet.now) }
{
    match header_of(sheet, got) {
        Ok(h) => explain(env, out, h, &sheet[..got]),
        Err(r) => {
            let written = report::print_refusal(out, r);
            if console::is_read(written) {
                console::hint(err, sheet);
            }
            written
        }
    }
}

fn main(rt: HostRuntime) -> ExitCode {
    let mut err = Said::new(rt.stderr());
    let mut sheet = [0u8; ENOUGH];
    let written = match console::load(&mut rt.stdin(), &mut err, &mut sheet) {
        Some(got) => tell(&rt, &mut rt.stdout(), &mut err, &sheet, got),
        None => Ok(()),
    };
    console::status(written, &err)
}
