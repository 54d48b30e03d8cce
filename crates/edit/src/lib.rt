// A sheet edited where it stands: the first `len` bytes of a lent buffer are the sheet, and an edit gives its new length back, or why there was none.
#![tactic(auto)]

mod find;
mod shift;

ghost use Rattle.std.specs.Prelude.{◌≡◌, false, ◌+◌, ◌*◌, ◌≤◌, length};
ghost use Rattle.sheet.specs.Refusals.{told_result};
ghost use Rattle.sheet.specs.Record.{record_fault};
ghost use Rattle.checker.specs.Check.{records_part};
ghost use Rattle.edit.specs.Edit.{header_of, start, counting, replacing, inserting, removing, put_in, put_numbers_in, remove_in, Edits};
ghost use Rattle.edit.specs.Steps.{place_in, has_in, Known, Fits, Stands};

use sheet::{Header, RECORD, Record, Refusal};

// The header of the sheet, or why it is turned away.
fn sheet_at(buf: &[u8], len: usize) -> Result<Header, Refusal>
    ensures { told_result result ≡ header_of buf.now len }
{
    if buf.len() < len {
        return Err(Refusal::SheetShort);
    }
    checker::sound_header(&buf[..len])
}

fn counted(h: Header, count: u16) -> Header
    ensures { result ≡ counting count h }
{
    Header { count, ..h }
}

// A sound record over the sixteen bytes of record i, under the header h.
fn replace(buf: &mut [u8], h: Header, i: u16, r: Record)
    requires { (record_fault r 0 ≡ 0) × (start h i + 16 ≤ length buf.old) }
    ensures { buf.new ≡ replacing h i r buf.old }
{
    let size = h.size();
    let first = size + RECORD * (i as usize);
    let past = first + RECORD;
    let _ = record::write_record(r, &mut buf[first..past]);
}

// A sound record in as record i, under the header h.
fn insert(buf: &mut [u8], len: usize, h: Header, i: u16, r: Record)
    requires { Fits h i len r (length buf.old) }
    ensures { buf.new ≡ inserting h i len r buf.old }
{
    let at = h.size() + RECORD * (i as usize);
    shift::open(buf, at, len);
    replace(buf, h, i, r);
    let _ = header::write_header(h, buf);
}

// Record i out, under the header h.
fn take_out(buf: &mut [u8], len: usize, h: Header, i: u16)
    requires { Stands h i len (length buf.old) }
    ensures { buf.new ≡ removing h i len buf.old }
{
    let at = h.size() + RECORD * (i as usize);
    shift::close(buf, at, len);
    let freed = len - RECORD;
    shift::clear(buf, freed, len);
    let _ = header::write_header(h, buf);
}

// A sound record with a new id, which goes in at its place. The header's own test says whether n can go up.
fn put_new(buf: &mut [u8], len: usize, h: Header, i: u16, r: Record) -> Result<usize, Refusal>
    requires { Known buf.old len h × (record_fault r 0 ≡ 0) × (i ≡ place_in (records_part h buf.old) h.count r.id) × (has_in (records_part h buf.old) h.count r.id ≡ false) }
    ensures { Edits (put_in buf.old len r) buf.old result buf.new }
{
    if buf.len() - len < RECORD {
        return Err(Refusal::NoRoom);
    }
    let more = counted(h, h.count + 1);
    match header::header_fault(more) {
        Err(_) => Err(Refusal::NoRoom),
        Ok(()) => {
            insert(buf, len, more, i, r);
            Ok(len + RECORD)
        }
    }
}

// A sound record, which replaces the one with its id or goes in at its place.
fn put_sound(buf: &mut [u8], len: usize, h: Header, r: Record) -> Result<usize, Refusal>
    requires { Known buf.old len h × (record_fault r 0 ≡ 0) }
    ensures { Edits (put_in buf.old len r) buf.old result buf.new }
{
    let n = h.count;
    let id = r.id as u32;
    let size = h.size();
    let i = find::place_of(&buf[size..], n, id);
    if find::has_at(&buf[size..], n, i, id) {
        replace(buf, h, i, r);
        return Ok(len);
    }
    put_new(buf, len, h, i, r)
}

// The record that thirteen numbers are into the sheet: it replaces the one with its id, or goes in at its place in the id order. A number that its field does not
// allow is refused at that field, however great it is. A refusal changes no byte.
pub fn put_numbers(buf: &mut [u8], len: usize, f: [u32; 13]) -> Result<usize, Refusal>
    ensures { Edits (put_numbers_in buf.old len f) buf.old result buf.new }
{
    let h = sheet_at(buf, len)?;
    let r = numbers::record_from(f, h.count)?;
    put_sound(buf, len, h, r)
}

fn remove_sound(buf: &mut [u8], len: usize, h: Header, id: u32) -> Result<usize, Refusal>
    requires { Known buf.old len h }
    ensures { Edits (remove_in buf.old len id) buf.old result buf.new }
{
    let n = h.count;
    let size = h.size();
    let i = find::place_of(&buf[size..], n, id);
    if find::has_at(&buf[size..], n, i, id) {
        let fewer = counted(h, n - 1);
        take_out(buf, len, fewer, i);
        return Ok(len - RECORD);
    }
    Err(Refusal::NoSuchId)
}

// The record of an id out of the sheet: those after it close the gap, and the sixteen bytes that come free are zeroed. A refusal changes no byte.
pub fn remove(buf: &mut [u8], len: usize, id: u32) -> Result<usize, Refusal>
    ensures { Edits (remove_in buf.old len id) buf.old result buf.new }
{
    let h = sheet_at(buf, len)?;
    remove_sound(buf, len, h, id)
}
