//! What a format decides: in which order it clears the blocks.
ghost use Rattle.layout.specs.Plans.{sizes_of};
ghost use Rattle.decision.specs.Calls.{Formats};

use crate::fault::{UnitCause, UnitFault};
use bar::Bar;
use choice::group::Groups;
use choice::group::grouping::group_blocks;
use flash::Flash;
use records::store::Store;
use survey::table::pass::look_over;

/// The code that a format asks for.
pub const FORMAT_CODE: u8 = 170;

/// The groups in which a format clears the blocks.
pub fn decide_format<F: Flash>(store: &Store<F>, code: u8, bar: &Bar) -> Result<Groups, UnitFault>
    ensures { Formats (sizes_of store.now.plan.now) code bar.now F.model.kind (F.model.meaning store.now.flash.now) result }
{
    if code != FORMAT_CODE {
        return Err(UnitCause::WrongCode.into());
    }
    if bar.changes {
        return Err(UnitCause::Barred.into());
    }
    let seen = look_over(store)?;
    Ok(group_blocks(&seen, store.plan))
}
