// Sheets to be edited. The head is the buffer's size, the sheet's stated length and how many edits; the output is the buffer, and behind it come the edits,
// a form of fourteen numbers each: 0 and a record's thirteen, or 1 and an id. Of each edit it prints a line, the new length or the refusal, and the buffer as
// it then stands.
ghost use Rattle.std.specs.Prelude.{◌≡◌, ◌≤◌, length};
ghost use Rattle.edit.specs.Edit.{Edits};
ghost use Rattle.streams.specs.Edits.{IsEdit, edit_of, length_after};

use crate::parts;
use sheet::Refusal;
use std::io;
use std::io::{Read, Write};

#[derive(Clone, Copy)]
enum Edit {
    Put([u32; 13]),
    Remove(u32),
}

impl Edit {
    // By a form's first number.
    fn of(form: &[u8]) -> Option<Edit>
        requires { 56 ≤ length form.now }
        ensures { IsEdit form.now result }
    {
        match parts::number(form, 0) {
            0 => Some(Edit::Put(parts::fields(form))),
            1 => Some(Edit::Remove(parts::number(form, 1))),
            _ => None,
        }
    }
}

fn edited(asked: Edit, buf: &mut [u8], len: usize) -> Result<usize, Refusal>
    ensures { Edits (edit_of asked buf.old len) buf.old result buf.new }
{
    match asked {
        Edit::Put(fields) => edit::put_numbers(buf, len, fields),
        Edit::Remove(id) => edit::remove(buf, len, id),
    }
}

// The length that the next edit finds: a refusal leaves it.
fn length_after(len: usize, answer: Result<usize, Refusal>) -> usize
    ensures { result ≡ length_after len answer }
{
    answer.unwrap_or(len)
}

// The edit that comes next, and the length behind it; none where it does not come whole.
fn one_edit(
    input: &mut impl Read,
    out: &mut impl Write,
    buf: &mut [u8],
    len: usize,
) -> io::Result<Option<usize>>
    requires { length buf.old ≤ 65536 }
{
    let mut form = [0u8; 56];
    let got = parts::fill(input, &mut form);
    if got < 56 {
        return Ok(None);
    }
    let Some(asked) = Edit::of(&form) else {
        return Ok(None);
    };
    let answer = edited(asked, buf, len);
    parts::print(out, answer, buf)?;
    Ok(Some(length_after(len, answer)))
}

// So many edits, or false where they do not come whole.
pub fn print(
    input: &mut impl Read,
    out: &mut impl Write,
    head: &[u8; 20],
    buf: &mut [u8],
) -> io::Result<bool>
    requires { length buf.old ≤ 65536 }
{
    let mut at = parts::number(head, 3) as usize;
    let count = parts::number(head, 4) as usize;
    for _ in 0..count {
        let Some(next) = one_edit(input, out, buf, at)? else {
            return Ok(false);
        };
        at = next;
    }
    Ok(true)
}
