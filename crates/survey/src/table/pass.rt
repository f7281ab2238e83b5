//! The current records and the state of each block, from one pass over the blocks and the blocks of current records.
ghost use Rattle.std.specs.Prelude.{◌≡◌};
ghost use Rattle.layout.specs.Plans.{sizes_of};
ghost use Rattle.survey.specs.Entries.{settled as settled_so, Surveys};
ghost use Rattle.survey.specs.Overviews.{Overviews};

use crate::overview::Overview;
use crate::used::mark_all;
use flash::fault::FlashFault;
use flash::{BlockNumber, Flash};
use layout::state::BlockState;
use records::reading::ask_power;
use records::store::Store;
use records::table::Survey;

// What a block is, from what it is by its own words and whether a current record has it.
fn settled(standing: Option<BlockState>, in_use: bool) -> Option<BlockState>
    ensures { result ≡ settled_so standing in_use }
{
    match standing {
        Some(BlockState::Spent) if in_use => Some(BlockState::Live),
        other => other,
    }
}

/// The current records of a flash and the state of each of its blocks. Each block is read once, apart from the walks along chains.
pub fn look_over<F: Flash>(store: &Store<F>) -> Result<Overview, FlashFault>
    ensures { Overviews F.model.kind (F.model.meaning store.now.flash.now) (sizes_of store.now.plan.now) result }
{
    ask_power(store.flash)?;
    let found = store.scan()?;
    let used = mark_all(store, &found.heads)?;
    let mut survey = Survey::none();
    for b in 0..store.flash.block_count() {
        let block = BlockNumber(b);
        survey.mark(block, settled(found.standing(block), used.contains(block)));
    }
    Ok(Overview {
        heads: found.heads,
        survey,
    })
}

/// The state of every block of a flash. Each block is read once, apart from the walks along chains.
pub fn survey<F: Flash>(store: &Store<F>) -> Result<Survey, FlashFault>
    ensures { Surveys F.model.kind (F.model.meaning store.now.flash.now) (sizes_of store.now.plan.now) result }
{
    Ok(look_over(store)?.survey)
}
