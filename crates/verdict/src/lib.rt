// The verdict on one member: the first of its rules that fails, with the scantling that the rule requires.
#![tactic(auto)]

ghost use Rattle.std.specs.Prelude.{◌≡◌};
ghost use Rattle.sheet.specs.Refusals.{told_result};
ghost use Rattle.sheet.specs.Record.{of_plate, of_member};
ghost use Rattle.verdict.specs.Verdict.{failed_of};
ghost use Rattle.verdict.specs.Judged.{judged_by};

use gauge::Shape;
use loads::Source;
use sheet::{Header, Member, Plate, Refusal};

// Rule 0 is a pass. Required is 0 on a pass, and where nothing in the gauge will do: the numbers of the document, which the definitions speak of.
#[derive(Clone, Copy)]
pub struct Verdict {
    pub rule: u8,
    pub required: u32,
}

// What judging a record gives: the verdict, and what the record's pressure comes from.
#[derive(Clone, Copy)]
pub struct Judged {
    pub verdict: Verdict,
    pub source: Source,
}

// The verdict where the rule of this number fails: the least of the gauge 1, 2, .., top that meets its shape.
pub fn failed(rule: u8, d: Shape, top: u32) -> Verdict
    ensures { result ≡ failed_of rule d top }
{
    let required = gauge::number(gauge::least_in(d, top));
    Verdict { rule, required }
}

// Whether a header and a plate's record are within their values, so that the plate can be judged: the header first, then the record as record 0.
pub fn admitted_plate(h: Header, kind: u8, id: u16, p: Plate) -> Result<(), Refusal>
    ensures { told_result result ≡ judged_by h (of_plate kind id p) tt }
{
    header::header_fault(h)?;
    record::plate_outcome(kind, id, p)
}

// The same for a member's record.
pub fn admitted_member(h: Header, kind: u8, id: u16, m: Member) -> Result<(), Refusal>
    ensures { told_result result ≡ judged_by h (of_member kind id m) tt }
{
    header::header_fault(h)?;
    record::member_outcome(kind, id, m)
}
