// Which lines a rule has, and which the verdict.
ghost use Rattle.std.specs.Prelude.{◌≡◌, ◌<◌};
ghost use Rattle.pencil.specs.Trail.{Tells, step_line, ruled as ruledOf, verdict_line};

use crate::numbers::{is_never, rule_numbers};
use crate::{Rule, Section};
use verdict::Verdict;

fn step_line(tried: u8, unit: u8, never: bool, first: u64, least: u64, top: u64) -> u8
    requires { (tried < 100) × (unit < 100) }
    ensures { result ≡ step_line tried unit never first least top }
{
    if never {
        return 0;
    }
    if least == 1 {
        return 71 + unit;
    }
    if least == 0 {
        if top < first {
            return 74 + unit;
        }
        return tried + 2;
    }
    if least == first { tried } else { tried + 1 }
}

// The lines of a rule: those up to its right side, the last step, and what the member has.
pub fn ruled(front: [u8; 6], tried: u8, unit: u8, last: u8, rule: Rule) -> Section
    requires { (tried < 100) × (unit < 3) }
    ensures { Tells (ruledOf front tried unit last rule.p rule.a rule.per rule.shape rule.top rule.has rule.more) result }
{
    let own = rule_numbers(rule);
    let never = is_never(rule.shape);
    let first = own[8];
    let least = own[14];
    let step = step_line(tried, unit, never, first, least, rule.top as u64);
    let some = (0 < least) as u8;
    let short = ((rule.has as u64) < least) as u8;
    let result = 77 + 3 * unit + some * (1 + short);
    let lines = [
        front[0], front[1], front[2], front[3], front[4], front[5], step, result, last,
    ];
    Section { lines, own }
}

pub fn verdict_line(v: Verdict) -> u8
    ensures { result ≡ verdict_line v.rule v.required }
{
    if v.rule == 0 {
        return 86;
    }
    if v.required == 0 {
        return 87;
    }
    let rule = v.rule;
    match rule {
        5 => 89,
        6 => 90,
        _ => 88,
    }
}
