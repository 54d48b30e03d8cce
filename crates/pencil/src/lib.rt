// How a member's least scantlings are worked out, as text that can be followed with a pencil: the loads that bear on it, for each rule the right side, the
// root, the rounding, the last step tested and what the member has, then the verdict. A section is lines by their templates' numbers and registers; one loop
// writes them.
#![tactic(auto)]

mod bearing;
mod lines;
mod members;
mod numbers;
mod plates;
mod words;
mod writing;

ghost use Rattle.std.specs.Prelude.{◌≡◌};
ghost use Rattle.sheet.specs.Refusals.{number_of as refusalNumber, place_of};
ghost use Rattle.plating.specs.Work.{told_work as toldPlate};
ghost use Rattle.framing.specs.Work.{told_work as toldMember};
ghost use Rattle.pencil.specs.Templates.{head_words};
ghost use Rattle.pencil.specs.Trail.{Shows, plate_trail, member_trail, refusal, plate_explained, member_explained, explained, Trails};

use crate::bearing::head_of;
use crate::members::{member_first, member_second, member_third};
use crate::plates::{plate_first, plate_second, plate_third};
use crate::writing::put_work;
use framing::MemberWork;
use gauge::Shape;
use plating::PlateWork;
use quantity::Span;
use sheet::{Body, Header, Member, Plate, Record, Refusal};

// Room for four sections of nine templates, of 704 bytes at most.
const ROOM: usize = 25344;

// A trail, and how many bytes of the page it takes; the others are 0.
#[derive(Clone, Copy)]
pub struct Trail {
    pub bytes: [u8; ROOM],
    pub len: usize,
}

// A section: its lines by their templates' numbers, 0 for none, and its own registers.
#[derive(Clone, Copy)]
struct Section {
    lines: [u8; 9],
    own: [u64; 32],
}

// The given registers, and the sections.
#[derive(Drop)]
struct Work {
    given: [u64; 32],
    head: Section,
    one: Section,
    two: Section,
    three: Section,
}

// A rule of a section: its right side p over a, what is taken off for each unit of S, its shape, the gauge's last, what the member has, and seven more numbers
// that its first lines show.
#[derive(Clone, Copy)]
struct Rule {
    p: u64,
    a: u64,
    per: u64,
    shape: Shape,
    top: u32,
    has: u32,
    more: [u64; 7],
}

#[derive(Drop)]
struct Quotient {
    whole: u64,
    left: u64,
}

// X = step·x − short and X² ≥ right, of a shape; what the registers show where nothing meets it is 1, 0 and 0.
#[derive(Drop)]
struct Parts {
    step: u32,
    short: u32,
    right: u64,
}

// X of a number, and its square.
#[derive(Drop)]
struct Tried {
    x: u64,
    square: u64,
}

// The right side of rule 3's form, p over a, and what R is held to at the gauge's last.
#[derive(Drop)]
struct Form {
    p: u64,
    a: u64,
    panel: u64,
}

fn plate_work(h: Header, kind: u8, id: u16, p: Plate, w: PlateWork) -> Work
    ensures { Shows (plate_trail h kind id p (toldPlate w)) result }
{
    let load = w.load;
    let source = load.source;
    let verdict = w.verdict;
    let tank_top = p.tank_top;
    let given = [
        kind as u64,
        0,
        0,
        p.cargo as u64,
        h.draught.0 as u64,
        0,
        source.number() as u64,
        0,
        h.wave.0 as u64,
        id as u64,
        0,
        p.factor.0 as u64,
        h.length.0 as u64,
        h.moment as u64,
        w.modulus as u64,
        0,
        load.pressure.0,
        0,
        w.stress,
        p.spacing.0 as u64,
        0,
        tank_top.0 as u64,
        verdict.rule as u64,
        0,
        p.b1.0 as u64,
        p.b2.0 as u64,
        p.z.0 as u64,
        w.k2,
        0,
        verdict.required as u64,
        h.version as u64,
        0,
    ];
    let head = head_of(h, kind, p.z, p.tank_top, p.cargo, p.ballast);
    let one = plate_first(h, kind, p, w);
    let two = plate_second(kind, p, w);
    let three = plate_third(h, kind, p, w);
    Work {
        given,
        head,
        one,
        two,
        three,
    }
}

fn member_work(h: Header, kind: u8, id: u16, m: Member, w: MemberWork) -> Work
    ensures { Shows (member_trail h kind id m (toldMember w)) result }
{
    let load = w.load;
    let source = load.source;
    let verdict = w.verdict;
    let factor = m.factor;
    let given = [
        kind as u64,
        0,
        m.bending as u64,
        0,
        h.draught.0 as u64,
        m.eta as u64,
        source.number() as u64,
        m.shear as u64,
        h.wave.0 as u64,
        id as u64,
        m.span.0 as u64,
        factor.0 as u64,
        h.length.0 as u64,
        0,
        0,
        m.stress as u64,
        load.pressure.0,
        w.line.0,
        0,
        m.spacing.0 as u64,
        0,
        0,
        verdict.rule as u64,
        0,
        0,
        0,
        m.z.0 as u64,
        0,
        0,
        verdict.required as u64,
        h.version as u64,
        0,
    ];
    let head = head_of(h, kind, m.z, Span(0), 0, false);
    let one = member_first(h, kind, m, w);
    let two = member_second(kind, m, w);
    let three = member_third(kind, m, w);
    Work {
        given,
        head,
        one,
        two,
        three,
    }
}

fn refused(r: Refusal) -> Work
    ensures { Shows (refusal (refusalNumber r) (place_of r)) result }
{
    let mut given = [0u64; 32];
    given[22] = r.number() as u64;
    given[29] = r.place() as u64;
    let lines = [91, 0, 0, 0, 0, 0, 0, 0, 0];
    let own = [0u64; 32];
    let head = Section { lines, own };
    let lines = [0u8; 9];
    let none = Section { lines, own };
    Work {
        given,
        head,
        one: none,
        two: none,
        three: none,
    }
}

fn plate_explained(h: Header, kind: u8, id: u16, p: Plate) -> Work
    ensures { Shows (plate_explained h kind id p) result }
{
    match plating::worked(h, kind, id, p) {
        Err(r) => refused(r),
        Ok(w) => plate_work(h, kind, id, p, w),
    }
}

fn member_explained(h: Header, kind: u8, id: u16, m: Member) -> Work
    ensures { Shows (member_explained h kind id m) result }
{
    match framing::worked(h, kind, id, m) {
        Err(r) => refused(r),
        Ok(w) => member_work(h, kind, id, m, w),
    }
}

fn work_of(h: Header, r: Record) -> Work
    ensures { Shows (explained h r) result }
{
    match r.body {
        Body::Plate(p) => plate_explained(h, r.kind, r.id, p),
        Body::Member(m) => member_explained(h, r.kind, r.id, m),
    }
}

// The trail of a member, or the refusal where the header or the record is turned away.
pub fn trail_of(h: Header, r: Record) -> Trail
    ensures { Trails h r result }
{
    let mut bytes = [0u8; ROOM];
    let work = work_of(h, r);
    let len = put_work(work, &mut bytes, 0);
    Trail { bytes, len }
}

// What stands once before the first trail: which letter here is which in the class rules, and which entries are the designer's.
pub fn head() -> [u8; words::HEAD]
    ensures { result ≡ head_words }
{
    words::LETTERS
}
