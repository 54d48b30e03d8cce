// The lines of rules 1, 2 and 3.
ghost use Rattle.std.specs.Prelude.{◌≡◌};
ghost use Rattle.plating.specs.Work.{told_work as toldPlate};
ghost use Rattle.pencil.specs.Trail.{Tells, plate_first, plate_second, bending_lines, form_of, plate_third};
ghost use Rattle.pencil.specs.Code.{FormTold};

use crate::lines::{ruled, verdict_line};
use crate::numbers::{divide, is_never, times};
use crate::{Form, Rule, Section};
use plating::PlateWork;
use quantity::{Quantity, Spacing, SteelFactor, Thickness};
use sheet::kinds::is_long;
use sheet::{Header, Plate};

pub fn plate_first(h: Header, kind: u8, p: Plate, w: PlateWork) -> Section
    ensures { Tells (plate_first h kind p (toldPlate w)) result }
{
    let n = h.length.0 as u64 * h.length.0 as u64 * p.factor.0 as u64;
    let rule = Rule {
        p: 9 * n,
        a: 1000,
        per: 36 * p.spacing.0 as u64,
        shape: w.first,
        top: Thickness::HIGH,
        has: p.thickness.0 as u32,
        more: [0; 7],
    };
    match kind {
        1 => ruled([24, 0, 0, 0, 0, 0], 65, 0, 0, rule),
        2 => ruled([25, 0, 0, 0, 0, 0], 65, 0, 0, rule),
        _ => {
            let rule = Rule {
                p: 8 * n,
                a: 3125,
                ..rule
            };
            ruled([26, 0, 0, 0, 0, 0], 65, 0, 0, rule)
        }
    }
}

pub fn plate_second(kind: u8, p: Plate, w: PlateWork) -> Section
    ensures { Tells (plate_second kind p (toldPlate w)) result }
{
    let s = p.spacing.0 as u64;
    let load = w.load;
    let n = times(s * s * p.factor.0 as u64, load.pressure.0);
    let long = times(9, n);
    let rule = Rule {
        p: n,
        a: 39062500000,
        per: 0,
        shape: w.second,
        top: Thickness::HIGH,
        has: p.thickness.0 as u32,
        more: [0; 7],
    };
    if is_long(kind) {
        let rule = Rule {
            p: long,
            a: 625000000000,
            ..rule
        };
        return ruled([28, 0, 0, 0, 0, 0], 68, 0, 0, rule);
    }
    ruled([27, 0, 0, 0, 0, 0], 68, 0, 0, rule)
}

// The lines of rule 3: up to R, K2, the fork and the form.
fn bending_lines(kind: u8, version: u8, side: u64, second: bool, never: bool) -> [u8; 6]
    ensures { result ≡ bending_lines kind version side second never }
{
    let own = (1 < version) as u8;
    let wide = (26000 < side) as u8;
    let later = second as u8;
    let form = 2 * later + 4 * (never as u8);
    match kind {
        1 => [29, 0, 35, 37 + wide, 39 + later, 43 + form],
        2 => [30, 0, 35, 0, 41 + later, 44 + form],
        3 => [31, 33 + own, 35 + own, 37 + wide, 0, 43 + form],
        _ => [32, 33 + own, 35 + own, 0, 0, 44 + form],
    }
}

fn form_of(long: bool, second: bool, spacing: Spacing, factor: SteelFactor, k2: u64, r: u64) -> Form
    ensures { FormTold (form_of long second spacing.0 factor.0 k2 r) result }
{
    let s = spacing.0 as u64;
    let n = s * s * factor.0 as u64;
    let left = 210000u64.saturating_sub(r);
    let side = times(k2, k2);
    let panel = 1156 * (s * s);
    let long_panel = 1521 * (s * s);
    if second {
        if long {
            let a = times(10, left);
            return Form {
                p: 1681 * n,
                a,
                panel: long_panel,
            };
        }
        let p = times(504100000, n);
        let a = times(side, left);
        return Form { p, a, panel };
    }
    if long {
        let p = times(long_panel, r);
        return Form {
            p,
            a: 100000000,
            panel: long_panel,
        };
    }
    let p = times(panel, r);
    let a = times(25, side);
    Form { p, a, panel }
}

pub fn plate_third(h: Header, kind: u8, p: Plate, w: PlateWork) -> Section
    ensures { Tells (plate_third h kind p (toldPlate w)) result }
{
    let r = w.stress;
    let x = p.b1.0 as u64;
    let y = p.b2.0 as u64;
    let never = is_never(w.third);
    let ratio = divide(1000000 * h.moment as u64, w.modulus as u64);
    let side = divide(1000 * (x * x + y * y), x * x);
    let fork = times((6084 - (kind == 1) as u64 * 4928) * p.factor.0 as u64, r);
    let form = form_of(is_long(kind), w.is_second, p.spacing, p.factor, w.k2, r);
    let limit = divide(times(form.a, 16000000), form.panel);
    let front = bending_lines(kind, h.version, side.whole, w.is_second, never);
    let rule = Rule {
        p: form.p,
        a: form.a,
        per: 0,
        shape: w.third,
        top: Thickness::HIGH,
        has: p.thickness.0 as u32,
        more: [
            ratio.whole,
            ratio.left,
            side.whole,
            side.left,
            fork,
            limit.whole,
            limit.left,
        ],
    };
    ruled(front, 68, 0, verdict_line(w.verdict), rule)
}
