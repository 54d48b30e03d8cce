// Rules 4, 5 and 6: the web, the section modulus and the shear area of a member.
#![tactic(auto)]

ghost use Rattle.std.specs.Prelude.{◌≡◌, ◌*◌, ◌<◌, ◌≤◌, ◌^◌};
ghost use Rattle.gauge.specs.Ceil.{ceil_of};
ghost use Rattle.loads.specs.Sources.{told_load};
ghost use Rattle.sheet.specs.Record.{of_member};
ghost use Rattle.sheet.specs.Ranges.{HeaderRanges, MemberRanges};
ghost use Rattle.verdict.specs.Verdict.{verdict_of};
ghost use Rattle.verdict.specs.Judged.{told_judged, judged_by};
ghost use Rattle.framing.specs.Kinds.{number_of};
ghost use Rattle.framing.specs.Rules.{member_pressure, member_named, member_rules, member_finding};
ghost use Rattle.framing.specs.Shapes.{stressed_shape, shape4, shape5, shape6};
ghost use Rattle.framing.specs.Work.{told_work, work_of, told_worked};
ghost use Rattle.framing.specs.Bounds.{Product, Bounded};

mod kinds;

use crate::kinds::Kind;
use gauge::{Shape, squared};
use loads::{Line, Load};
use quantity::{LineLoad, Modulus, Quantity, ShearArea, Span, Thickness};
use sheet::{Header, Member, Refusal};
use verdict::{Judged, Verdict};

// a·x ≥ p.
fn at_least(p: u64, a: u64) -> Shape
    requires { 0 < a }
    ensures { result ≡ Shape.Floor (ceil_of p a) }
{
    Shape::Floor(gauge::ceil_div(p, a))
}

// a·x·(limit − σ1) ≥ p. At σ1 = limit and above no strength is left: nothing meets it, not even with p = 0.
fn stressed(a: u64, limit: u8, stress: u8, p: u64) -> Shape
    requires { (0 < a) × (a ≤ 2 ^ 40) }
    ensures { result ≡ stressed_shape a limit stress p }
{
    if stress < limit {
        return at_least(p, a * (limit - stress) as u64);
    }
    Shape::Never
}

// n·β·η·q·x, which a member's values keep within 64 bits.
fn product(n: u64, ends: u8, eta: u8, q: Line, x: u64) -> u64
    requires { Product n ends eta q.load.0 x }
    ensures { result ≡ n * ends * eta * q.load.0 * x }
{
    n * ends as u64 * eta as u64 * q.load.0 * x
}

// The web.
fn rule4(kind: Kind, length: Span, m: Member) -> Shape
    ensures { result ≡ shape4 (number_of kind) length.0 m.factor.0 m.spacing.0 }
{
    let l = length.0 as u64;
    let l2 = l * l;
    let k = m.factor.0 as u64;
    let s = m.spacing.0 as u32;
    match kind {
        Kind::Longitudinal if l < 12000 => squared(100, 16300 + 45 * s, l2 * k, 6250),
        Kind::Longitudinal => squared(10, s, 15210 * k, 1),
        Kind::Floor | Kind::Transverse | Kind::Girder => squared(100, 38000, 8 * l2 * k, 3125),
    }
}

// The section modulus.
fn rule5(kind: Kind, m: Member, q: Line) -> Shape
    requires { Bounded m.bending m.eta q.load.0 m.span.0 }
    ensures { result ≡ shape5 (number_of kind) m.bending m.eta m.stress q.load.0 m.span.0 }
{
    let l = m.span.0 as u64;
    let l2 = l * l;
    match kind {
        Kind::Longitudinal => {
            let p = product(833, m.bending, m.eta, q, l2);
            stressed(100000000000, 214, m.stress, p)
        }
        Kind::Floor | Kind::Transverse => at_least(product(29, m.bending, 1, q, l2), 5000000000),
        Kind::Girder => {
            let p = product(25, m.bending, m.eta, q, l2);
            stressed(2000000000, 197, m.stress, p)
        }
    }
}

// The shear area. Only a longitudinal's has η.
fn rule6(kind: Kind, m: Member, q: Line) -> Shape
    requires { Bounded m.shear m.eta q.load.0 m.span.0 }
    ensures { result ≡ shape6 (number_of kind) m.shear m.eta q.load.0 m.span.0 }
{
    let l = m.span.0 as u64;
    match kind {
        Kind::Longitudinal => at_least(product(9, m.shear, m.eta, q, l), 2000000000),
        Kind::Floor | Kind::Transverse => at_least(product(9, m.shear, 1, q, l), 20000000),
        Kind::Girder => at_least(product(7, m.shear, 1, q, l), 12500000),
    }
}

// A longitudinal bears the sea at its height, the deeper members that of the whole draught.
fn member_load(h: Header, kind: Kind, m: Member) -> Load
    ensures { told_load result ≡ member_named h (number_of kind) m }
{
    match kind {
        Kind::Longitudinal => loads::sea(h.draught, h.wave, m.z),
        Kind::Floor | Kind::Transverse | Kind::Girder => loads::deep(h.draught, h.wave, h.two_runs),
    }
}

// The rules in their order, under the member's load; a later shape is built only where the earlier rules are met.
fn member_verdict(h: Header, kind: Kind, m: Member, load: Load) -> Verdict
    requires { HeaderRanges h × MemberRanges (number_of kind) m × (load.pressure.0 ≡ member_pressure h (number_of kind) m) }
    ensures { result ≡ verdict_of (member_rules h (number_of kind) m) }
{
    let web = rule4(kind, h.length, m);
    if !gauge::meets(web, m.thickness.0 as u32) {
        return verdict::failed(4, web, Thickness::HIGH);
    }
    let q = loads::line_load(load, m.spacing);
    let bending = rule5(kind, m, q);
    if !gauge::meets(bending, m.modulus.0) {
        return verdict::failed(5, bending, Modulus::HIGH);
    }
    let shear = rule6(kind, m, q);
    if !gauge::meets(shear, m.area.0 as u32) {
        return verdict::failed(6, shear, ShearArea::HIGH);
    }
    Verdict {
        rule: 0,
        required: 0,
    }
}

// What a member's rules go by, and what they ask of its web, its modulus and its shear area.
#[derive(Clone, Copy)]
pub struct MemberWork {
    pub load: Load,
    // q
    pub line: LineLoad,
    pub web: Shape,
    pub bending: Shape,
    pub shear: Shape,
    pub verdict: Verdict,
}

fn member_work(h: Header, kind: Kind, m: Member, load: Load) -> MemberWork
    requires { HeaderRanges h × MemberRanges (number_of kind) m × (told_load load ≡ member_named h (number_of kind) m) }
    ensures { told_work result ≡ work_of h (number_of kind) m }
{
    let borne = loads::line_load(load, m.spacing);
    let web = rule4(kind, h.length, m);
    let bending = rule5(kind, m, borne);
    let shear = rule6(kind, m, borne);
    let verdict = member_verdict(h, kind, m, load);
    let line = borne.load;
    MemberWork {
        load,
        line,
        web,
        bending,
        shear,
        verdict,
    }
}

// How a member's scantlings are worked out, or why the header or the member's record is turned away.
pub fn worked(h: Header, kind: u8, id: u16, m: Member) -> Result<MemberWork, Refusal>
    ensures { told_worked result ≡ judged_by h (of_member kind id m) (work_of h kind m) }
{
    verdict::admitted_member(h, kind, id, m)?;
    let kind = Kind::of(kind);
    Ok(member_work(h, kind, m, member_load(h, kind, m)))
}

// The verdict on a member and what its pressure comes from, or why the header or the member's record is turned away.
pub fn judge(h: Header, kind: u8, id: u16, m: Member) -> Result<Judged, Refusal>
    ensures { told_judged result ≡ judged_by h (of_member kind id m) (member_finding h kind m) }
{
    verdict::admitted_member(h, kind, id, m)?;
    let kind = Kind::of(kind);
    let load = member_load(h, kind, m);
    Ok(Judged {
        verdict: member_verdict(h, kind, m, load),
        source: load.source,
    })
}
