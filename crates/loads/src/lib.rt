// The pressures on the bottom, in thousandths of a Pa, each with the load that it comes from, and the line load that a member bears.
#![tactic(auto)]

ghost use Rattle.std.specs.Prelude.{◌≡◌, cond, ◌-◌};
ghost use Rattle.loads.specs.Loads.{water, wind as windOf, ballast as ballastOf, relief as reliefOf, two_run_water};
ghost use Rattle.loads.specs.Sources.{number_of, told_load, told_line, line_named, heavier as heavierOf, sea_named, tank_named, bottom_named, inner_named, deep_named};

use quantity::{LineLoad, Pressure, Spacing, Span};
use std::cmp::Ordering;

// What a pressure comes from.
#[derive(Clone, Copy)]
pub enum Source {
    // at or below the draught
    SeaBelow,
    SeaAbove,
    Ballast,
    Cargo,
}

impl Source {
    // 0 to 3, in the order of the cases.
    pub fn number(self) -> u8
        ensures { result ≡ number_of self }
    {
        match self {
            Source::SeaBelow => 0,
            Source::SeaAbove => 1,
            Source::Ballast => 2,
            Source::Cargo => 3,
        }
    }
}

// A pressure that says what it comes from.
#[derive(Clone, Copy)]
pub struct Load {
    pub pressure: Pressure,
    pub source: Source,
}

// A line load that says what its pressure comes from.
#[derive(Clone, Copy)]
pub struct Line {
    pub load: LineLoad,
    pub source: Source,
}

// A cm of water.
const WATER: u64 = 98100;

// A cm of wave height.
const WAVE: u64 = 50031;

fn load_of(p: u64, source: Source) -> Load
    ensures { told_load result ≡ record { pressure = p; source = number_of source } }
{
    let pressure = Pressure(p);
    Load { pressure, source }
}

// The load that decides: the greater one, and of two equal ones that of the lower number.
fn heavier(a: Load, b: Load) -> Load
    ensures { told_load result ≡ heavierOf (told_load a) (told_load b) }
{
    match a.pressure.0.cmp(&b.pressure.0) {
        Ordering::Less => b,
        Ordering::Greater => a,
        Ordering::Equal if a.source.number() < b.source.number() => a,
        Ordering::Equal => b,
    }
}

// What the wind adds above the draught.
pub fn wind(wave: Span) -> u64
    ensures { result ≡ windOf wave.0 }
{
    if wave.0 == 120 {
        3400 * wave.0 as u64
    } else {
        250000
    }
}

// The sea at height z. Just above the draught it is more than just below it.
pub fn sea(draught: Span, wave: Span, z: Span) -> Load
    ensures { told_load result ≡ sea_named draught.0 wave.0 z.0 }
{
    let d = draught.0 as u64;
    let h = wave.0 as u64;
    let at = z.0 as u64;
    if at <= d {
        return load_of(WATER * (d - at) + WAVE * h, Source::SeaBelow);
    }
    load_of((50150 * h).max(3000000) + wind(wave), Source::SeaAbove)
}

// A ballast tank, filled to 100 cm over its top.
fn tank(tank_top: Span, z: Span) -> u64
    ensures { result ≡ ballastOf tank_top.0 z.0 }
{
    WATER * (tank_top.0 as u64 + 100).saturating_sub(z.0 as u64)
}

// What the sea outside takes off a ballast tank's pressure.
fn relief(draught: Span, wave: Span) -> u64
    ensures { result ≡ reliefOf draught.0 wave.0 }
{
    (14715 * draught.0 as u64).saturating_sub(WAVE * wave.0 as u64)
}

// A ballast tank's pressure on the bottom, less what the sea takes off it.
fn relieved(draught: Span, wave: Span, z: Span, tank_top: Span) -> Load
    ensures { told_load result ≡ tank_named (ballastOf tank_top.0 z.0 - reliefOf draught.0 wave.0) }
{
    load_of(
        tank(tank_top, z).saturating_sub(relief(draught, wave)),
        Source::Ballast,
    )
}

// Kinds 1 and 2.
pub fn bottom(draught: Span, wave: Span, z: Span, ballast: bool, tank_top: Span) -> Load
    ensures { told_load result ≡ bottom_named draught.0 wave.0 z.0 ballast tank_top.0 }
{
    let outside = sea(draught, wave, z);
    if ballast {
        let inside = relieved(draught, wave, z, tank_top);
        return heavier(outside, inside);
    }
    outside
}

// Kinds 3 and 4. Cargo is in whole Pa.
pub fn inner(cargo: u32, z: Span, ballast: bool, tank_top: Span) -> Load
    ensures { told_load result ≡ inner_named cargo z.0 ballast tank_top.0 }
{
    let loaded = load_of(cargo as u64 * 1000, Source::Cargo);
    if ballast {
        return heavier(loaded, load_of(tank(tank_top, z), Source::Ballast));
    }
    loaded
}

// The whole draught; in two runs 56407.5 mPa for each cm, rounded up.
fn still_water(draught: Span, two_runs: bool) -> u64
    ensures { result ≡ cond two_runs (two_run_water draught.0) (water draught.0) }
{
    let d = draught.0 as u64;
    if two_runs {
        return gauge::ceil_div(564075 * d, 10);
    }
    WATER * d
}

// Kinds 6 to 8.
pub fn deep(draught: Span, wave: Span, two_runs: bool) -> Load
    ensures { told_load result ≡ deep_named draught.0 wave.0 two_runs }
{
    let h = wave.0 as u64;
    load_of(still_water(draught, two_runs) + WAVE * h, Source::SeaBelow)
}

// P·S / 1,000,000, rounded up. The whole parts are taken out first, so that no product is past 64 bits.
pub fn line_load(load: Load, s: Spacing) -> Line
    ensures { told_line result ≡ line_named (told_load load) s.0 }
{
    let p = load.pressure.0;
    let w = s.0 as u64;
    let whole = p / 1000000 * w;
    let part = (p % 1000000 * w + 999999) / 1000000;
    let source = load.source;
    Line {
        load: LineLoad(whole + part),
        source,
    }
}
