//! The newest of the current records.
ghost use Rattle.std.specs.Prelude.{◌≡◌};
ghost use Rattle.layout.specs.Sizes.{numbers};
ghost use Rattle.layout.specs.Plans.{sizes_of};
ghost use Rattle.survey.specs.Newest.{newer_head, newest_in};

use layout::plan::{DataNumber, Plan};
use records::head::{Head, Heads};
use std::cmp::Reverse;

/// The newer of two records: the higher serial, ties to the lower block.
pub fn newer(old: Option<Head>, new: Option<Head>) -> Option<Head>
    ensures { result ≡ newer_head old new }
{
    match (old, new) {
        (Some(a), Some(b)) if (a.serial, Reverse(a.block.0)) < (b.serial, Reverse(b.block.0)) =>
            new,
        _ => old.or(new),
    }
}

/// The head of the newest record of the plan's numbers, if there is one.
// Heads and plan apart: the plan is asked only how many numbers there are, and the heads go on alone.
pub fn newest(heads: &Heads, plan: &Plan) -> Option<Head>
    ensures { result ≡ newest_in heads.now (numbers (sizes_of plan.now)) }
{
    (0..plan.count()).fold(None, |best, n| newer(best, heads.current(DataNumber(n))))
}
