//! Formatting a shut unit.
ghost use Rattle.std.specs.Prelude.{◌≡◌, ◌<◌, true, [], ◌∷◌, if◌then◌else◌};
ghost use Rattle.flash.specs.Lists.{Given as GivenTo};
ghost use Rattle.layout.specs.Plans.{sizes_of};
ghost use Rattle.choice.specs.Choosing.{group_order};
ghost use Rattle.decision.specs.Decisions.{Performs, Does};
ghost use Rattle.decision.specs.Calls.{clearings, to_format};
ghost use Rattle.unit.specs.Grouped.{has_group, of_group, of_groups};

use crate::Shut;
use bar::Bar;
use choice::group::{Group, Groups};
use clearing::clear;
use decision::fault::UnitFault;
use decision::format::decide_format;
use flash::fault::FlashFault;
use flash::{BlockNumber, Flash};
use records::store::Store;

// The groups in the order in which they are cleared.
const ORDER: [Group; 4] = [
    Group::HalfErased,
    Group::NotLive,
    Group::LiveFirst,
    Group::LiveFollowing,
];

// Whether a block is in a group.
fn is_in_group(groups: &Groups, block: BlockNumber, group: Group) -> bool
    ensures { result ≡ has_group groups.now group block.0 }
{
    groups.get(block) == Some(group)
}

// Clears a block if it is in a group. That power is on is asked of this and the next two: no type can hold it, since it goes inside a command.
fn clear_in_group<F: Flash>(
    flash: &mut F,
    groups: &Groups,
    group: Group,
    block: BlockNumber,
) -> Result<(), FlashFault>
    requires power { (F.model.meaning flash.old).power ≡ true }
    requires inside { block.0 < (F.model.meaning flash.old).count }
    ensures { GivenTo F.model (clearings (F.model.meaning flash.old).word (if has_group groups.now group block.0 then block.0 ∷ [] else [])) flash.old result flash.new }
{
    if is_in_group(groups, block, group) {
        clear(flash, block)?;
    }
    Ok(())
}

// Clears the blocks of a group, ascending.
fn clear_group<F: Flash>(flash: &mut F, groups: &Groups, group: Group) -> Result<(), FlashFault>
    requires { (F.model.meaning flash.old).power ≡ true }
    ensures { let s = F.model.meaning flash.old in GivenTo F.model (clearings s.word (of_group groups.now group s.count)) flash.old result flash.new }
{
    for b in 0..flash.block_count() {
        clear_in_group(flash, groups, group, BlockNumber(b))?;
    }
    Ok(())
}

// Clears the blocks of every group, one group after another.
fn clear_groups<F: Flash>(flash: &mut F, groups: &Groups) -> Result<(), FlashFault>
    requires { (F.model.meaning flash.old).power ≡ true }
    ensures { let s = F.model.meaning flash.old in GivenTo F.model (clearings s.word (of_groups groups.now group_order s.count)) flash.old result flash.new }
{
    for group in ORDER {
        clear_group(flash, groups, group)?;
    }
    Ok(())
}

impl<F: Flash> Shut<F> {
    /// Clears all blocks: the half-erased ones, then the others that are not live, then the live first blocks, then the live following ones.
    /// It asks for code 170; done or not, it leaves the unit shut.
    pub fn format(&mut self, code: u8, bar: &Bar) -> Result<(), UnitFault>
        ensures told { Performs F.model (to_format (sizes_of self.old.plan) code bar.now) self.old.flash result self.new.flash }
        ensures does { Does F.model.kind (to_format (sizes_of self.old.plan) code bar.now) (F.model.meaning self.old.flash) result (F.model.meaning self.new.flash) }
        ensures plan { self.new.plan ≡ self.old.plan }
    {
        let store = Store {
            flash: &self.flash,
            plan: &self.plan,
        };
        let groups = decide_format(&store, code, bar)?;
        clear_groups(&mut self.flash, &groups)?;
        Ok(())
    }
}
