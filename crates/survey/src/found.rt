//! The counts of the states and the newest record, of a flash as it is found.
ghost use Rattle.layout.specs.Records.{newest as newest_of};
ghost use Rattle.layout.specs.Plans.{sizes_of};
ghost use Rattle.records.specs.Answered.{Answers};
ghost use Rattle.records.specs.Heads.{headed};
ghost use Rattle.survey.specs.Entries.{counts_of};

use crate::newest::newest;
use crate::table::pass::survey;
use flash::Flash;
use flash::fault::FlashFault;
use records::head::Head;
use records::reading::ask_power;
use records::store::Store;
use records::table::Counts;

/// How many blocks of a flash there are of each state.
pub fn count_states<F: Flash>(store: &Store<F>) -> Result<Counts, FlashFault>
    ensures { let s = F.model.meaning store.now.flash.now in Answers F.model.kind s (counts_of s.count s.word (sizes_of store.now.plan.now)) result }
{
    ask_power(store.flash)?;
    let states = survey(store)?;
    Ok(states.counts())
}

/// The head of the newest record of a flash, if it has a record.
pub fn find_newest<F: Flash>(store: &Store<F>) -> Result<Option<Head>, FlashFault>
    ensures { let s = F.model.meaning store.now.flash.now in Answers F.model.kind s (headed s.word (newest_of s.count s.word (sizes_of store.now.plan.now))) result }
{
    let heads = store.current_heads()?;
    Ok(newest(&heads, store.plan))
}
