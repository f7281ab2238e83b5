//! What an erase decides: which block it clears.
ghost use Rattle.clearing.specs.Clearing.{mark, clearing};
ghost use Rattle.layout.specs.Plans.{sizes_of};
ghost use Rattle.decision.specs.Decisions.{Decided};
ghost use Rattle.decision.specs.Calls.{to_erase};

use crate::fault::{UnitCause, UnitFault};
use bar::Bar;
use choice::finding::find;
use choice::round::{Purpose, Round};
use flash::{BlockNumber, Flash};
use records::store::Store;
use survey::newest::newest;
use survey::table::pass::look_over;

/// The block that an erase clears: the first spent or half-erased one in the round.
pub fn decide_erase<F: Flash>(store: &Store<F>, bar: &Bar) -> Result<BlockNumber, UnitFault>
    ensures { let s = F.model.meaning store.now.flash.now in Decided s (to_erase (sizes_of store.now.plan.now) bar.now F.model.kind s) (λ b. clearing mark b.0 s.word) (λ b. b) result }
{
    if bar.changes {
        return Err(UnitCause::Barred.into());
    }
    let seen = look_over(store)?;
    let round = Round::after(newest(&seen.heads, store.plan), store.flash.block_count());
    let Some(block) = find(&seen.survey, round, Purpose::Erasing) else {
        return Err(UnitCause::NothingToErase.into());
    };
    Ok(block)
}
