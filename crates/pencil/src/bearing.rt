// The loads that bear on a member: their numbers, and their lines.
ghost use Rattle.std.specs.Prelude.{◌≡◌};
ghost use Rattle.pencil.specs.Numbers.{load_numbers};
ghost use Rattle.pencil.specs.Trail.{Tells, head_of};

use crate::Section;
use quantity::Span;
use sheet::Header;

fn load_numbers(draught: Span, wave: Span, z: Span, tank_top: Span, cargo: u32) -> [u64; 32]
    ensures { result ≡ load_numbers draught.0 wave.0 z.0 tank_top.0 cargo }
{
    let d = draught.0 as u64;
    let h = wave.0 as u64;
    let at = z.0 as u64;
    let waves = 50031 * h;
    let still = 98100 * d.saturating_sub(at);
    let crest = (50150 * h).max(3000000);
    let wind = loads::wind(wave);
    let tank = 98100 * (tank_top.0 as u64 + 100).saturating_sub(at);
    let relief = (14715 * d).saturating_sub(waves);
    let net = tank.saturating_sub(relief);
    let half = gauge::ceil_div(564075 * d, 10);
    [
        0,
        still,
        waves,
        still + waves,
        50150 * h,
        crest,
        3400 * h,
        crest + wind,
        0,
        tank,
        14715 * d,
        relief,
        net,
        cargo as u64 * 1000,
        98100 * d,
        98100 * d + waves,
        564075 * d / 10,
        564075 * d % 10,
        half,
        half + waves,
        0,
        0,
        0,
        0,
        0,
        0,
        0,
        0,
        0,
        0,
        0,
        0,
    ]
}

// Which member it is, and the loads that bear on it.
pub fn head_of(h: Header, kind: u8, z: Span, tank_top: Span, cargo: u32, ballast: bool) -> Section
    ensures { Tells (head_of kind h.draught.0 h.wave.0 h.two_runs z.0 tank_top.0 cargo ballast) result }
{
    let own = load_numbers(h.draught, h.wave, z, tank_top, cargo);
    let lift = own[10];
    let waves = own[2];
    let filled = own[9];
    let relief = own[11];
    let above = (h.draught.0 < z.0) as u8;
    let tank = ballast as u8;
    let lines = [
        kind,
        23,
        9 + above,
        above * (11 + (h.wave.0 == 120) as u8),
        tank * 13,
        tank * (14 + (lift < waves) as u8),
        tank * (16 + (filled < relief) as u8),
        22,
        0,
    ];
    if kind <= 2 {
        return Section { lines, own };
    }
    if kind < 5 {
        let lines = [kind, 23, 18, tank * 19, 22, 0, 0, 0, 0];
        return Section { lines, own };
    }
    if kind == 5 {
        return Section { lines, own };
    }
    let lines = [kind, 23, 20 + h.two_runs as u8, 22, 0, 0, 0, 0, 0];
    Section { lines, own }
}
