// Plates of the bottom and the inner bottom: rules 1, 2 and 3.
#![tactic(auto)]

mod kinds;

ghost use Rattle.std.specs.Prelude.{◌≡◌, false, ◌*◌, ◌^◌, ◌≤◌, ◌<◌};
ghost use Rattle.quantity.specs.Range.{thickness, pressure, steel_factor};
ghost use Rattle.loads.specs.Sources.{told_load};
ghost use Rattle.sheet.specs.Kinds.{is_long};
ghost use Rattle.sheet.specs.Lines.{plate_spacing};
ghost use Rattle.sheet.specs.Record.{of_plate};
ghost use Rattle.sheet.specs.Ranges.{HeaderRanges, PlateRanges};
ghost use Rattle.verdict.specs.Verdict.{verdict_of};
ghost use Rattle.verdict.specs.Judged.{told_judged, judged_by};
ghost use Rattle.plating.specs.Rules.{R, plate_modulus, K2, allowance, is_second, plate_pressure, plate_named, plate_rules, plate_finding};
ghost use Rattle.plating.specs.Shapes.{square_shape, over_shape, excess_shape, shape1, shape2, first_shape, second_shape, shape3};
ghost use Rattle.plating.specs.Work.{panel_k2, told_work, work_of, told_worked};
ghost use Rattle.plating.specs.Kinds.{number_of};
ghost use Rattle.plating.specs.Bounds.{Panel, greatest_r};

use crate::kinds::Kind;
use gauge::Shape;
use loads::Load;
use quantity::{Quantity, Spacing, Span, SteelFactor, Thickness};
use sheet::{Header, Plate, Refusal};
use verdict::{Judged, Verdict};

// The stress R at which the hull's bending leaves nothing for the plate's own.
const LIMIT: u64 = 210000;

// The greatest K2.
const K2_HIGH: u64 = 26000;

// a·T² ≥ n.
fn square(a: u64, n: u64) -> Shape
    ensures { result ≡ square_shape a n }
{
    gauge::squared(1, 0, n, a)
}

// a·T² ≥ b·c, where b·c may be past 64 bits: it is formed only where the thickest plate of the gauge meets the rule.
fn square_over(a: u64, b: u64, c: u64) -> Shape
    requires { (0 < a) × (0 < b) × (a * (thickness.high * thickness.high) < 2 ^ 64) }
    ensures { result ≡ over_shape a b c }
{
    let top = Thickness::HIGH as u64;
    if a * (top * top) / b < c {
        return Shape::Never;
    }
    square(a, b * c)
}

// X = 100T − short, X ≥ 0 and a·X² ≥ n.
fn excess(short: u32, a: u64, n: u64) -> Shape
    ensures { result ≡ excess_shape short a n }
{
    gauge::squared(100, short, n, a)
}

// c of rule 1.
fn allowance(kind: Kind) -> u32
    ensures { result ≡ allowance (number_of kind) }
{
    match kind {
        Kind::Bottom => 18500,
        Kind::LongBottom => 11000,
        Kind::Inner | Kind::LongInner => 15000,
    }
}

// Rule 1: what the vessel's length asks.
fn rule1(kind: Kind, length: Span, factor: SteelFactor, spacing: Spacing) -> Shape
    ensures { result ≡ shape1 (number_of kind) length.0 factor.0 spacing.0 }
{
    let l = length.0 as u64;
    let k = factor.0 as u64;
    let s = spacing.0 as u32;
    let n = l * l * k;
    let short = allowance(kind) + 36 * s;
    if kind.is_bottom() {
        return excess(short, 1000, 9 * n);
    }
    excess(short, 3125, 8 * n)
}

// Rule 2: what the pressure asks.
fn rule2(kind: Kind, factor: SteelFactor, spacing: Spacing, load: Load) -> Shape
    requires { (factor.0 ≤ steel_factor.high) × (spacing.0 ≤ plate_spacing.high) × (load.pressure.0 ≤ pressure.high) }
    ensures { result ≡ shape2 (number_of kind) factor.0 spacing.0 load.pressure.0 }
{
    let k = factor.0 as u64;
    let s = spacing.0 as u64;
    let n = s * s * k * load.pressure.0;
    if kind.is_long() {
        return square(625000000000, 9 * n);
    }
    square(39062500000, n)
}

// The modulus at the plate: the bottom's, or the inner bottom's.
fn plate_modulus(h: Header, kind: Kind) -> u32
    ensures { result ≡ plate_modulus h (number_of kind) }
{
    let inner = h.inner_modulus();
    if kind.is_bottom() {
        return h.bottom_modulus;
    }
    inner
}

// R: the hull's stress at the plate, from the moment M and the modulus there.
fn hull_stress(moment: u32, modulus: u32) -> u64
    requires { 0 < modulus }
    ensures { result ≡ R moment modulus }
{
    gauge::ceil_div(1000000 * moment as u64, modulus as u64)
}

// K2, of the sides of the plate's panel.
fn k2(b1: Span, b2: Span) -> u64
    requires { 0 < b1.0 }
    ensures { result ≡ K2 b1.0 b2.0 }
{
    let x = b1.0 as u64;
    let y = b2.0 as u64;
    let ratio = 1000 * (x * x + y * y) / (x * x);
    if ratio < K2_HIGH { ratio } else { K2_HIGH }
}

// Whether the second form of rule 3 replaces the first.
fn is_second(kind: Kind, factor: SteelFactor, r: u64) -> bool
    requires { (factor.0 ≤ steel_factor.high) × (r ≤ greatest_r) }
    ensures { result ≡ is_second (number_of kind) factor.0 r }
{
    let k = factor.0 as u64;
    match kind {
        Kind::Bottom => 121000000000 < 1156 * k * r,
        Kind::LongBottom => 625000000000 < 6084 * k * r,
        Kind::Inner | Kind::LongInner => false,
    }
}

// Rule 3 while the hull's stress is small.
fn first_form(kind: Kind, spacing: Spacing, b1: Span, b2: Span, r: u64) -> Shape
    requires { Panel (number_of kind) spacing.0 b1.0 }
    ensures { result ≡ first_shape (number_of kind) spacing.0 (K2 b1.0 b2.0) r }
{
    let s = spacing.0 as u64;
    let n = s * s;
    if kind.is_long() {
        return square_over(100000000, 1521 * n, r);
    }
    let side = k2(b1, b2);
    square_over(25 * (side * side), 1156 * n, r)
}

// Rule 3 on the bottom where the hull's stress is great.
fn second_form(
    kind: Kind,
    factor: SteelFactor,
    spacing: Spacing,
    b1: Span,
    b2: Span,
    r: u64,
) -> Shape
    requires { Panel (number_of kind) spacing.0 b1.0 × (factor.0 ≤ steel_factor.high) }
    ensures { result ≡ second_shape (number_of kind) factor.0 spacing.0 (K2 b1.0 b2.0) r }
{
    if LIMIT <= r {
        return Shape::Never;
    }
    let left = LIMIT - r;
    let k = factor.0 as u64;
    let s = spacing.0 as u64;
    let n = s * s * k;
    if kind.is_long() {
        return square(10 * left, 1681 * n);
    }
    let side = k2(b1, b2);
    square(side * side * left, 504100000 * n)
}

// Rule 3: what the hull's bending asks. A greater moment may ask for less, where the second form sets in.
fn rule3(kind: Kind, factor: SteelFactor, spacing: Spacing, b1: Span, b2: Span, r: u64) -> Shape
    requires { Panel (number_of kind) spacing.0 b1.0 × (factor.0 ≤ steel_factor.high) × (r ≤ greatest_r) }
    ensures { result ≡ shape3 (number_of kind) factor.0 spacing.0 (K2 b1.0 b2.0) r }
{
    if is_second(kind, factor, r) {
        return second_form(kind, factor, spacing, b1, b2, r);
    }
    first_form(kind, spacing, b1, b2, r)
}

// P on the plate, and what it comes from.
fn load(h: Header, kind: Kind, p: Plate) -> Load
    ensures { told_load result ≡ plate_named h (number_of kind) p }
{
    if kind.is_bottom() {
        return loads::bottom(h.draught, h.wave, p.z, p.ballast, p.tank_top);
    }
    loads::inner(p.cargo, p.z, p.ballast, p.tank_top)
}

// The first rule that the plate fails under its load, and the thickness that this rule requires. A later rule is formed only where the earlier ones pass.
fn plate_verdict(h: Header, kind: Kind, p: Plate, load: Load) -> Verdict
    requires { HeaderRanges h × PlateRanges (number_of kind) p × (load.pressure.0 ≡ plate_pressure h (number_of kind) p) }
    ensures { result ≡ verdict_of (plate_rules h (number_of kind) p) }
{
    let top = Thickness::HIGH;
    let t = p.thickness.0 as u32;
    let d1 = rule1(kind, h.length, p.factor, p.spacing);
    if !gauge::meets(d1, t) {
        return verdict::failed(1, d1, top);
    }
    let d2 = rule2(kind, p.factor, p.spacing, load);
    if !gauge::meets(d2, t) {
        return verdict::failed(2, d2, top);
    }
    let r = hull_stress(h.moment, plate_modulus(h, kind));
    let d3 = rule3(kind, p.factor, p.spacing, p.b1, p.b2, r);
    if !gauge::meets(d3, t) {
        return verdict::failed(3, d3, top);
    }
    Verdict {
        rule: 0,
        required: 0,
    }
}

// What a plate's rules go by, and what they ask of its thickness.
#[derive(Clone, Copy)]
pub struct PlateWork {
    pub load: Load,
    // ZB or ZDB
    pub modulus: u32,
    // R
    pub stress: u64,
    // K2, 0 under longitudinal framing
    pub k2: u64,
    // whether rule 3 takes its second form
    pub is_second: bool,
    pub first: Shape,
    pub second: Shape,
    pub third: Shape,
    pub verdict: Verdict,
}

// K2 where the plate's framing is transverse.
fn panel_k2(kind: Kind, b1: Span, b2: Span) -> u64
    requires { is_long (number_of kind) ≡ false → 0 < b1.0 }
    ensures { result ≡ panel_k2 (number_of kind) b1.0 b2.0 }
{
    if kind.is_long() {
        return 0;
    }
    k2(b1, b2)
}

fn plate_work(h: Header, kind: Kind, p: Plate, load: Load) -> PlateWork
    requires { HeaderRanges h × PlateRanges (number_of kind) p × (told_load load ≡ plate_named h (number_of kind) p) }
    ensures { told_work result ≡ work_of h (number_of kind) p }
{
    let modulus = plate_modulus(h, kind);
    let stress = hull_stress(h.moment, modulus);
    let k2 = panel_k2(kind, p.b1, p.b2);
    let is_second = is_second(kind, p.factor, stress);
    let first = rule1(kind, h.length, p.factor, p.spacing);
    let second = rule2(kind, p.factor, p.spacing, load);
    let third = rule3(kind, p.factor, p.spacing, p.b1, p.b2, stress);
    let verdict = plate_verdict(h, kind, p, load);
    PlateWork {
        load,
        modulus,
        stress,
        k2,
        is_second,
        first,
        second,
        third,
        verdict,
    }
}

// How a plate's thickness is worked out, or why the header or the plate's record is turned away.
pub fn worked(h: Header, kind: u8, id: u16, p: Plate) -> Result<PlateWork, Refusal>
    ensures { told_worked result ≡ judged_by h (of_plate kind id p) (work_of h kind p) }
{
    verdict::admitted_plate(h, kind, id, p)?;
    let kind = Kind::of(kind);
    Ok(plate_work(h, kind, p, load(h, kind, p)))
}

// The verdict on a plate and what its pressure comes from, or why the header or the plate's record is turned away.
pub fn judge(h: Header, kind: u8, id: u16, p: Plate) -> Result<Judged, Refusal>
    ensures { told_judged result ≡ judged_by h (of_plate kind id p) (plate_finding h kind p) }
{
    verdict::admitted_plate(h, kind, id, p)?;
    let kind = Kind::of(kind);
    let load = load(h, kind, p);
    Ok(Judged {
        verdict: plate_verdict(h, kind, p, load),
        source: load.source,
    })
}
