// The fields of a header and of a record as plain numbers of 32 bits in layout order, and the header or the record that numbers are. Of numbers nothing is
// known: the first that its field does not allow is refused at that field, however great it is.
#![tactic(auto)]

mod held;

ghost use Rattle.std.specs.Prelude.{◌≡◌, cond, eqb};
ghost use Rattle.sheet.specs.Refusals.{number_of, place_of, told_result};
ghost use Rattle.numbers.specs.Fields.{own_numbers, header_numbers, plate_numbers, member_numbers, record_numbers};
ghost use Rattle.numbers.specs.From.{named_size, header_from, record_from};
ghost use Rattle.numbers.specs.Held.{earlier_of, own_held, header_held, header_apart, plate_held, member_held, record_held, plate_apart, record_apart};

use sheet::{Body, Header, Member, Own, Plate, Record, Refusal, Section};

// The two numbers of what a version has of its own; version 1 has none, and they are 0.
fn own_numbers(own: Own) -> [u32; 2]
    ensures { result ≡ own_numbers own }
{
    match own {
        Own::One => [0, 0],
        Own::Two(section) => [section.inner_modulus, u32::from(section.depth.0)],
    }
}

pub fn header_numbers(h: Header) -> [u32; 10]
    ensures { result ≡ header_numbers h }
{
    let [inner_modulus, depth] = own_numbers(h.own);
    [
        u32::from(h.version),
        u32::from(h.length.0),
        u32::from(h.draught.0),
        u32::from(h.wave.0),
        u32::from(h.two_runs),
        h.moment,
        h.bottom_modulus,
        u32::from(h.count),
        inner_modulus,
        depth,
    ]
}

fn plate_numbers(kind: u8, id: u16, p: Plate) -> [u32; 13]
    ensures { result ≡ plate_numbers kind id p }
{
    [
        u32::from(kind),
        u32::from(id),
        u32::from(p.factor.0),
        u32::from(p.z.0),
        u32::from(p.spacing.0),
        u32::from(p.thickness.0),
        u32::from(p.b1.0),
        u32::from(p.b2.0),
        u32::from(p.ballast),
        u32::from(p.tank_top.0),
        p.cargo,
        0,
        0,
    ]
}

fn member_numbers(kind: u8, id: u16, m: Member) -> [u32; 13]
    ensures { result ≡ member_numbers kind id m }
{
    [
        u32::from(kind),
        u32::from(id),
        u32::from(m.z.0),
        u32::from(m.spacing.0),
        u32::from(m.span.0),
        u32::from(m.thickness.0),
        u32::from(m.bending),
        u32::from(m.shear),
        u32::from(m.eta),
        u32::from(m.stress),
        m.modulus.0,
        u32::from(m.area.0),
        u32::from(m.factor.0),
    ]
}

pub fn record_numbers(r: Record) -> [u32; 13]
    ensures { result ≡ record_numbers r }
{
    match r.body {
        Body::Plate(p) => plate_numbers(r.kind, r.id, p),
        Body::Member(m) => member_numbers(r.kind, r.id, m),
    }
}

// What was found at fault, or the refusal of a field that was tested by itself, 0 being none, where that stands earlier: the place grows with the field, and
// that of a first field is below all others.
fn earlier(found: Result<(), Refusal>, field: u8, here: Refusal) -> Result<(), Refusal>
    ensures { told_result result ≡ cond (eqb field 0) (told_result found) (earlier_of (told_result found) (number_of here) (place_of here)) }
{
    if field == 0 {
        return found;
    }
    match found {
        Err(r) if r.place() < here.place() => Err(r),
        _ => Err(here),
    }
}

fn own_held(f: [u32; 10]) -> Own
    ensures { result ≡ own_held f }
{
    if f[0] == 2 {
        Own::Two(Section {
            inner_modulus: f[8],
            depth: held::quantity_of(f[9]),
        })
    } else {
        Own::One
    }
}

fn header_held(f: [u32; 10]) -> Header
    ensures { result ≡ header_held f }
{
    Header {
        version: held::byte(f[0]),
        length: held::quantity_of(f[1]),
        draught: held::quantity_of(f[2]),
        wave: held::quantity_of(f[3]),
        two_runs: f[4] == 1,
        moment: f[5],
        bottom_modulus: f[6],
        count: held::short(f[7]),
        own: own_held(f),
    }
}

// How many bytes the header takes whose version the numbers name: those of version 1 also where there is no such version.
pub fn header_size(f: [u32; 10]) -> usize
    ensures { result ≡ named_size f }
{
    own_held(f).version().size
}

// The first field of a header that is at fault although what it was held as is not, or 0: runs, and the numbers past n in version 1, which are 0.
fn header_apart(f: [u32; 10]) -> u8
    ensures { result ≡ header_apart f }
{
    if f[0] == 2 {
        return layout::fault_unless(f[4], 0, 1, 5, 0);
    }
    let past = layout::fault_unless(f[9], 0, 0, 9, 0);
    let past = layout::fault_unless(f[8], 0, 0, 9, past);
    layout::fault_unless(f[4], 0, 1, 5, past)
}

// The header that numbers are, or why they are none.
pub fn header_from(f: [u32; 10]) -> Result<Header, Refusal>
    ensures { told_result result ≡ header_from f }
{
    let h = header_held(f);
    let found = header::header_fault(h);
    let field = header_apart(f);
    earlier(found, field, Refusal::HeaderField(field as u32))?;
    Ok(h)
}

fn plate_held(f: [u32; 13]) -> Plate
    ensures { result ≡ plate_held f }
{
    Plate {
        factor: held::quantity_of(f[2]),
        z: held::quantity_of(f[3]),
        spacing: held::quantity_of(f[4]),
        thickness: held::quantity_of(f[5]),
        b1: held::quantity_of(f[6]),
        b2: held::quantity_of(f[7]),
        ballast: f[8] == 1,
        tank_top: held::quantity_of(f[9]),
        cargo: f[10],
    }
}

fn member_held(f: [u32; 13]) -> Member
    ensures { result ≡ member_held f }
{
    Member {
        z: held::quantity_of(f[2]),
        spacing: held::quantity_of(f[3]),
        span: held::quantity_of(f[4]),
        thickness: held::quantity_of(f[5]),
        bending: held::byte(f[6]),
        shear: held::byte(f[7]),
        eta: held::byte(f[8]),
        stress: held::byte(f[9]),
        modulus: held::quantity_of(f[10]),
        area: held::quantity_of(f[11]),
        factor: held::quantity_of(f[12]),
    }
}

fn record_held(f: [u32; 13]) -> Record
    ensures { result ≡ record_held f }
{
    let body = if f[0] < 5 {
        Body::Plate(plate_held(f))
    } else {
        Body::Member(member_held(f))
    };
    Record {
        kind: held::byte(f[0]),
        id: held::short(f[1]),
        body,
    }
}

// The first field of a plate that is at fault although what it was held as is not, or 0: ballast, and the numbers past the cargo, which are 0.
fn plate_apart(f: [u32; 13]) -> u8
    ensures { result ≡ plate_apart f }
{
    let past = layout::fault_unless(f[12], 0, 0, 12, 0);
    let past = layout::fault_unless(f[11], 0, 0, 12, past);
    layout::fault_unless(f[8], 0, 1, 9, past)
}

fn record_apart(f: [u32; 13]) -> u8
    ensures { result ≡ record_apart f }
{
    if f[0] < 5 {
        return plate_apart(f);
    }
    // of a member: σ1
    layout::fault_unless(f[9], 0, 255, 10, 0)
}

// The record that numbers are, as record i of a sheet, or why they are none.
pub fn record_from(f: [u32; 13], i: u16) -> Result<Record, Refusal>
    ensures { told_result result ≡ record_from i f }
{
    let r = record_held(f);
    let found = record::record_fault(r, i);
    let field = record_apart(f);
    let place = 32 * i as u32 + field as u32;
    earlier(found, field, Refusal::Field(place))?;
    Ok(r)
}
