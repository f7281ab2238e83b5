//! The blocks of current records, found by walks along their chains.
ghost use Rattle.std.specs.Prelude.{◌≡◌, ℕ, ◌<◌, true};
ghost use Rattle.layout.specs.Sizes.{followers, numbers};
ghost use Rattle.layout.specs.Records.{chained, current as current_of};
ghost use Rattle.layout.specs.States.{holds, within};
ghost use Rattle.layout.specs.Plans.{sizes_of};
ghost use Rattle.records.specs.Heads.{headed};
ghost use Rattle.records.specs.Tables.{Tabled};
ghost use Rattle.survey.specs.Used.{Marks, Uses};

use crate::block_set::BlockSet;
use flash::fault::FlashFault;
use flash::{BlockNumber, Flash};
use layout::plan::DataNumber;
use layout::sizes::follower_count;
use records::head::{Head, Heads};
use records::reading::{ask_power, read_block};
use records::store::Store;

// Marks the following blocks of a record, from block `from` on.
fn mark_following<F: Flash>(
    flash: &F,
    used: &mut BlockSet,
    size: u16,
    from: BlockNumber,
) -> Result<(), FlashFault>
    requires { let s = F.model.meaning flash.now in (b : ℕ) → holds (chained s.word from.0 (followers size)) b ≡ true → b < s.count }
    ensures { let s = F.model.meaning flash.now in Marks F.model.kind s used.old used.new (holds (chained s.word from.0 (followers size))) result }
{
    ask_power(flash)?;
    let mut at = from;
    for _j in 0..follower_count(size) {
        let block = read_block(flash, at)?;
        used.insert(at);
        at = block.chain();
    }
    Ok(())
}

// Marks the blocks of a number's current record, if it has one.
fn mark_record<F: Flash>(
    store: &Store<F>,
    used: &mut BlockSet,
    number: DataNumber,
    head: Option<Head>,
) -> Result<(), FlashFault>
    requires planned { number.0 < numbers (sizes_of store.now.plan.now) }
    requires current { let s = F.model.meaning store.now.flash.now in head ≡ headed s.word (current_of s.count s.word (sizes_of store.now.plan.now) number.0) }
    ensures { let s = F.model.meaning store.now.flash.now in Marks F.model.kind s used.old used.new (within s.word (sizes_of store.now.plan.now) number.0 (current_of s.count s.word (sizes_of store.now.plan.now) number.0)) result }
{
    ask_power(store.flash)?;
    let Some(head) = head else {
        return Ok(());
    };
    let Some(size) = store.plan.size(number) else {
        return Ok(());
    };
    let block = read_block(store.flash, head.block)?;
    used.insert(head.block);
    mark_following(store.flash, used, size, block.chain())
}

/// The blocks of all current records.
pub fn used_blocks<F: Flash>(store: &Store<F>) -> Result<BlockSet, FlashFault>
    ensures { Uses F.model.kind (F.model.meaning store.now.flash.now) (sizes_of store.now.plan.now) result }
{
    let heads = store.current_heads()?;
    mark_all(store, &heads)
}

// The same, from the table of heads.
pub(crate) fn mark_all<F: Flash>(store: &Store<F>, heads: &Heads) -> Result<BlockSet, FlashFault>
    requires { let s = F.model.meaning store.now.flash.now in Tabled s.count s.word (sizes_of store.now.plan.now) heads.now }
    ensures { Uses F.model.kind (F.model.meaning store.now.flash.now) (sizes_of store.now.plan.now) result }
{
    ask_power(store.flash)?;
    let mut used = BlockSet::new();
    for n in 0..store.plan.count() {
        let number = DataNumber(n);
        mark_record(store, &mut used, number, heads.current(number))?;
    }
    Ok(used)
}
