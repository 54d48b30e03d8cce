// Numbers that the lines of a trail show: products, quotients, and what is worked out of a rule's shape.
ghost use Rattle.std.specs.Prelude.{◌-◌, ◌≡◌};
ghost use Rattle.pencil.specs.Numbers.{product, is_never, rule_numbers};
ghost use Rattle.pencil.specs.Code.{Divided, PartsOf, Tries};

use crate::{Parts, Quotient, Rule, Tried};
use gauge::Shape;

// a·b, and 0 where it is past 64 bits.
#[tactic(auto, unfolding(crate::specs::Numbers::product))]
pub fn times(a: u64, b: u64) -> u64
    ensures { result ≡ product a b }
{
    a.checked_mul(b).unwrap_or(0)
}

pub fn divide(p: u64, a: u64) -> Quotient
    ensures { Divided p a result }
{
    if a == 0 {
        return Quotient { whole: 0, left: p };
    }
    Quotient {
        whole: p / a,
        left: p % a,
    }
}

// Whether no number meets a shape.
pub fn is_never(d: Shape) -> bool
    ensures { result ≡ is_never d }
{
    matches!(d, Shape::Never)
}

fn taken_apart(d: Shape) -> Parts
    ensures { PartsOf d result }
{
    match d {
        Shape::Never => Parts {
            step: 1,
            short: 0,
            right: 0,
        },
        Shape::Floor(n) => Parts {
            step: 1,
            short: 0,
            right: n,
        },
        Shape::Square { step, short, n } => Parts {
            step,
            short,
            right: n,
        },
    }
}

fn try_number(step: u64, t: u64, short: u64) -> Tried
    ensures { Tries (product step t - short) result }
{
    let x = times(step, t).saturating_sub(short);
    let square = times(x, x);
    Tried { x, square }
}

pub fn rule_numbers(rule: Rule) -> [u64; 32]
    ensures { result ≡ rule_numbers rule.p rule.a rule.per rule.shape rule.top rule.has rule.more }
{
    let worked = gauge::worked_in(rule.shape, rule.top);
    let root = worked.root;
    let first = worked.first;
    let answer = worked.least;
    let least = gauge::number(answer) as u64;
    let parts = taken_apart(rule.shape);
    let step = parts.step as u64;
    let short = parts.short as u64;
    let side = divide(rule.p, rule.a);
    let over = divide(short + root % 4294967296, step);
    let at_first = try_number(step, first, short);
    let beside = least.saturating_sub((least == first) as u64);
    let at_other = try_number(step, beside, short);
    let margin = least.abs_diff(rule.has as u64);
    let more = rule.more;
    [
        0,
        side.whole,
        side.left,
        parts.right,
        root,
        rule.per,
        over.whole,
        over.left,
        first,
        at_first.x,
        at_first.square,
        beside,
        at_other.x,
        at_other.square,
        least,
        margin,
        rule.has as u64,
        rule.top as u64,
        more[0],
        more[1],
        more[2],
        more[3],
        more[4],
        more[5],
        more[6],
        step,
        short,
        0,
        0,
        0,
        0,
        0,
    ]
}
