// One record against Part 3: a plate answers to rules 1, 2 and 3, a member to rules 4, 5 and 6.
#![tactic(auto)]

ghost use Rattle.std.specs.Prelude.{◌≡◌};
ghost use Rattle.verdict.specs.Judged.{told_judged, judged_by};
ghost use Rattle.hull.specs.Hull.{finding};

use sheet::{Body, Header, Record, Refusal};
use verdict::Judged;

// The verdict and what the record's pressure comes from, or why the header or the record is turned away.
pub fn judge(h: Header, r: Record) -> Result<Judged, Refusal>
    ensures { told_judged result ≡ judged_by h r (finding h r) }
{
    match r.body {
        Body::Plate(p) => plating::judge(h, r.kind, r.id, p),
        Body::Member(m) => framing::judge(h, r.kind, r.id, m),
    }
}
