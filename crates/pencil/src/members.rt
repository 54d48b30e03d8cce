// The lines of rules 4, 5 and 6.
ghost use Rattle.framing.specs.Work.{told_work as toldMember};
ghost use Rattle.pencil.specs.Trail.{Tells, member_first, member_second, member_third};

use crate::lines::{ruled, verdict_line};
use crate::numbers::{divide, is_never, times};
use crate::{Rule, Section};
use framing::MemberWork;
use quantity::{Modulus, Quantity, ShearArea, Thickness};
use sheet::{Header, Member};

pub fn member_first(h: Header, kind: u8, m: Member, w: MemberWork) -> Section
    ensures { Tells (member_first h kind m (toldMember w)) result }
{
    let l2 = h.length.0 as u64 * h.length.0 as u64;
    let factor = m.factor;
    let k = factor.0 as u64;
    let (line, p, a) = if 6 <= kind {
        (53, times(8 * l2, k), 3125)
    } else if h.length.0 < 12000 {
        (51, times(l2, k), 6250)
    } else {
        (52, times(15210, k), 1)
    };
    let rule = Rule {
        p,
        a,
        per: 45 * m.spacing.0 as u64,
        shape: w.web,
        top: Thickness::HIGH,
        has: m.thickness.0 as u32,
        more: [0; 7],
    };
    ruled([line, 0, 0, 0, 0, 0], 65, 0, 0, rule)
}

pub fn member_second(kind: u8, m: Member, w: MemberWork) -> Section
    ensures { Tells (member_second kind m (toldMember w)) result }
{
    let l2 = m.span.0 as u64 * m.span.0 as u64;
    let q = w.line.0;
    let load = w.load;
    let never = 3 * (is_never(w.bending) as u8);
    let plain = m.bending as u64;
    let eta = m.eta as u64;
    let ratio = divide(times(load.pressure.0, m.spacing.0 as u64), 1000000);
    let rule = Rule {
        p: 0,
        a: 5000000000,
        per: 0,
        shape: w.bending,
        top: Modulus::HIGH,
        has: m.modulus.0,
        more: [ratio.whole, ratio.left, 0, 0, 0, 0, 0],
    };
    if kind < 6 {
        let p = times(times(833 * plain * eta, q), l2);
        let a = 100000000000 * 214u64.saturating_sub(m.stress as u64);
        return ruled([54, 57 + never, 0, 0, 0, 0], 0, 1, 0, Rule { p, a, ..rule });
    }
    if kind < 8 {
        let p = times(times(29 * plain, q), l2);
        return ruled([56, 59, 0, 0, 0, 0], 0, 1, 0, Rule { p, ..rule });
    }
    let p = times(times(25 * plain * eta, q), l2);
    let a = 2000000000 * 197u64.saturating_sub(m.stress as u64);
    ruled([55, 58 + never, 0, 0, 0, 0], 0, 1, 0, Rule { p, a, ..rule })
}

pub fn member_third(kind: u8, m: Member, w: MemberWork) -> Section
    ensures { Tells (member_third kind m (toldMember w)) result }
{
    let l = m.span.0 as u64;
    let q = w.line.0;
    let last = verdict_line(w.verdict);
    let shear = m.shear as u64;
    let (line, p, a) = if kind < 6 {
        (62, times(times(9 * shear * m.eta as u64, q), l), 2000000000)
    } else if kind < 8 {
        (63, times(times(9 * shear, q), l), 20000000)
    } else {
        (64, times(times(7 * shear, q), l), 12500000)
    };
    let rule = Rule {
        p,
        a,
        per: 0,
        shape: w.shear,
        top: ShearArea::HIGH,
        has: m.area.0 as u32,
        more: [0; 7],
    };
    ruled([line, 0, 0, 0, 0, 0], 0, 2, last, rule)
}
