// One record of the sheet: 128 bits, read from sixteen bytes and written to them.
#![tactic(auto)]

mod member;
mod plate;

ghost use Rattle.std.specs.Prelude.{◌≡◌, cond, ◌+◌, ◌*◌, eqb, Ok, Err};
ghost use Rattle.layout.specs.Layout.{Fit};
ghost use Rattle.layout.specs.Bytes.{long_of, read_of};
ghost use Rattle.sheet.specs.Refusals.{given, record_refused, told_result};
ghost use Rattle.sheet.specs.Record.{of_plate, of_member, record_fault, read_record, write_record, widths_in, values_in, record_number, record_at, spare_at, raw_at};
ghost use Rattle.sheet.specs.Writes.{Writes};

use layout::Long;
use layout::powers::{P20, P50, P60};
use sheet::{Body, Member, Plate, Raw, Record, Refusal};

// The first field outside its values, kind being 1, or 0, with what stands in the bits that carry nothing.
fn fault(r: Record, spare: u32) -> u8
    ensures { result ≡ record_fault r spare }
{
    match r.body {
        Body::Plate(p) => plate::fault(r.kind, r.id, p, spare),
        Body::Member(m) => member::fault(r.kind, r.id, m),
    }
}

// The record in a number, whatever its values: up to kind 4 a plate, else a member. As a call it would fill every field, also for whoever asks the id
// alone.
#[inline(always)]
fn record_of(n: Long) -> Record
    ensures { result ≡ record_at (long_of n) }
{
    let hi = n.hi;
    let kind = (hi / P60 % 16) as u8;
    let id = (hi / P50 % 1024) as u16;
    let body = if kind < 5 {
        Body::Plate(plate::of_number(n))
    } else {
        Body::Member(member::of_number(n))
    };
    Record { kind, id, body }
}

// What stands in the bits that carry nothing.
fn spare_of(n: Long) -> u32
    ensures { result ≡ spare_at (long_of n) }
{
    let kind = n.hi / P60 % 16;
    if kind < 5 { (n.lo % P20) as u32 } else { 0 }
}

fn number_of(r: Record) -> Long
    requires { Fit (widths_in r.body) (values_in r.kind r.id r.body) }
    ensures { long_of result ≡ record_number r }
{
    match r.body {
        Body::Plate(p) => plate::number(r.kind, r.id, p),
        Body::Member(m) => member::number(r.kind, r.id, m),
    }
}

// What the first fault of record i says, or nothing where there is none: a faulty kind is its own refusal, with the record; of another field the place holds
// the record and the field.
fn outcome(i: u16, f: u8) -> Result<(), Refusal>
    ensures { result ≡ cond (eqb f 0) (Ok tt) (Err (cond (eqb f 1) (Refusal.Kind i) (Refusal.Field (32 * i + f)))) }
{
    match f {
        0 => Ok(()),
        1 => Err(Refusal::Kind(i as u32)),
        _ => Err(Refusal::Field(32 * i as u32 + f as u32)),
    }
}

// The first fault of a record that is record i of a sheet.
pub fn record_fault(r: Record, i: u16) -> Result<(), Refusal>
    ensures { told_result result ≡ record_refused i (record_fault r 0) (given tt) }
{
    outcome(i, fault(r, 0))
}

// `record_fault` of a plate that stands as record 0.
pub fn plate_outcome(kind: u8, id: u16, p: Plate) -> Result<(), Refusal>
    ensures { told_result result ≡ record_refused 0 (record_fault (of_plate kind id p) 0) (given tt) }
{
    outcome(0, plate::fault(kind, id, p, 0))
}

// `record_fault` of a member that stands as record 0.
pub fn member_outcome(kind: u8, id: u16, m: Member) -> Result<(), Refusal>
    ensures { told_result result ≡ record_refused 0 (record_fault (of_member kind id m) 0) (given tt) }
{
    outcome(0, member::fault(kind, id, m))
}

// The record in the first sixteen bytes, as record i of a sheet, or why there is none.
pub fn read_record_as(s: &[u8], i: u16) -> Result<Record, Refusal>
    ensures { told_result result ≡ read_record i s.now }
{
    if s.len() < 16 {
        return Err(Refusal::SheetShort);
    }
    let n = layout::read_long(s);
    let r = record_of(n);
    outcome(i, fault(r, spare_of(n)))?;
    Ok(r)
}

// The record in the first sixteen bytes as it stands, for whoever has it judged next; fewer bytes are read as 0.
#[inline(always)]
pub fn record_in(s: &[u8]) -> Raw
    ensures { result ≡ raw_at (read_of 16 s.now) }
{
    let n = layout::read_long(s);
    Raw {
        values: record_of(n),
        spare: spare_of(n),
    }
}

// `read_record_as` of a record alone, which is record 0.
pub fn read_record(s: &[u8]) -> Result<Record, Refusal>
    ensures { told_result result ≡ read_record 0 s.now }
{
    read_record_as(s, 0)
}

// The record into the first sixteen bytes, or why not.
pub fn write_record(r: Record, out: &mut [u8]) -> Result<(), Refusal>
    ensures { Writes (write_record r out.old) (told_result result) out.new }
{
    if out.len() < 16 {
        return Err(Refusal::OutputShort);
    }
    outcome(0, fault(r, 0))?;
    layout::write_long(out, number_of(r));
    Ok(())
}
