//! Making a plan, asking it for sizes, comparing two, and what a caller sees of one that cannot be made.
ghost use Rattle.std.specs.Prelude.{◌≡◌, ◌<◌, ◌≤◌, MatchOption, MatchResult, nat_eq};
ghost use Rattle.std.specs.Cmp.{on_per, on_equiv, partial_equiv_from_equiv};
ghost use Rattle.std.specs.Cmp.Lexicographic.{pointwise, nat_list_eq_equiv};
ghost use Rattle.std.specs.Ordering.{on};
ghost use Rattle.layout.specs.Sizes.{Planned, numbers, size as size_in};
ghost use Rattle.layout.specs.Plans.{sizes_of};
ghost use Rattle.layout.specs.Refused.{plan_number, plan_seen};

use crate::plan::{DataNumber, Plan, PlanFault};
use flash::Place;
use flash::fault::{Layer, Report};
use std::error::Error;
use std::fmt;

impl Plan {
    /// The plan of these sizes, unless it is out of range.
    pub fn new(sizes: &[u16]) -> Result<Plan, PlanFault>
        ensures { MatchResult result (λ p. (sizes_of p ≡ sizes.now) × Planned sizes.now) (λ _. (Planned sizes.now → ⊥)) }
    {
        if sizes.is_empty() || sizes.len() > 64 {
            return Err(PlanFault::OutOfRange);
        }
        if !sizes.iter().all(|size| (1..=1024).contains(size)) {
            return Err(PlanFault::OutOfRange);
        }
        let mut table = [0; 64];
        table[..sizes.len()].copy_from_slice(sizes);
        Ok(Plan {
            sizes: table,
            count: sizes.len() as u16,
        })
    }

    /// How many data numbers there are.
    pub fn count(&self) -> u16
        ensures count { result ≡ numbers (sizes_of self.now) }
        ensures planned { Planned (sizes_of self.now) }
    {
        self.count
    }

    /// The size of a data number, if the plan has it.
    pub fn size(&self, number: DataNumber) -> Option<u16>
        ensures answer { MatchOption result (numbers (sizes_of self.now) ≤ number.0) (λ s. (number.0 < numbers (sizes_of self.now)) × (s ≡ size_in (sizes_of self.now) number.0) × (1 ≤ s) × (s ≤ 1024)) }
        ensures planned { Planned (sizes_of self.now) }
    {
        let sizes = &self.sizes[..self.count as usize];
        sizes.get(number.0 as usize).copied()
    }
}

// By the sizes of its numbers, whatever stands behind them in the table.
impl PartialEq for Plan {
    ghost eq = { on sizes_of (pointwise nat_eq) };

    ghost laws = { on_per sizes_of (partial_equiv_from_equiv nat_list_eq_equiv) };

    fn eq(&self, other: &Plan) -> bool {
        self.sizes[..self.count as usize] == other.sizes[..other.count as usize]
    }
}

impl Eq for Plan {
    ghost laws = { on_equiv sizes_of nat_list_eq_equiv };
}

// It reads as a fault of a flash does; each type has its own, since it is written of one type.
impl fmt::Display for PlanFault {
    fn fmt<W: fmt::Write>(&self, f: &mut fmt::Formatter<W>) -> fmt::Result {
        write!(f, "refused with {}", Report::from(*self))
    }
}

impl Error for PlanFault {}

/// The number that a caller sees.
impl From<PlanFault> for u8 {
    ghost from_gives = { λ fault n. n ≡ plan_number fault };

    fn from(fault: PlanFault) -> u8 {
        fault as u8
    }
}

/// What a caller sees of it.
impl From<PlanFault> for Report {
    ghost from_gives = { λ fault report. report ≡ plan_seen fault };

    fn from(fault: PlanFault) -> Report {
        Report {
            number: fault.into(),
            layer: Layer::Unit,
            kind: 0,
            place: Place::NONE,
        }
    }
}
