//! What a write decides: its serial, and the blocks that it takes.
ghost use Rattle.std.specs.Prelude.{◌≡◌, IfOk};
ghost use Rattle.flash.specs.Lists.{applied_all};
ghost use Rattle.layout.specs.Plans.{sizes_of};
ghost use Rattle.writing.specs.Listed.{listed};
ghost use Rattle.writing.specs.Writing.{record_on};
ghost use Rattle.decision.specs.Decisions.{Decided};
ghost use Rattle.decision.specs.Calls.{to_write};
ghost use Rattle.decision.specs.Writes.{serial_after, roomed, LeadsToRecord};

use crate::fault::{UnitCause, UnitFault};
use bar::Bar;
use choice::round::Round;
use choice::taking::take_free;
use flash::Flash;
use layout::plan::DataNumber;
use layout::sizes::follower_count;
use records::head::Head;
use records::store::Store;
use records::table::Counts;
use survey::newest::newest;
use survey::table::pass::look_over;
use writing::record::NewRecord;

// The serial after that of the newest record, 1 without a record; none where that has the last one.
fn next_serial(newest: Option<Head>) -> Option<u32>
    ensures { result ≡ serial_after newest }
{
    match newest {
        Some(head) => head.serial.checked_add(1),
        None => Some(1),
    }
}

// Whether there are so many free blocks, or could be.
fn check_room(counts: Counts, need: u16) -> Result<(), UnitFault>
    ensures { result ≡ roomed counts need }
{
    let cleared = counts.free as u32 + counts.spent as u32 + counts.half_erased as u32;
    if cleared < need as u32 {
        return Err(UnitCause::Full.into());
    }
    if counts.free < need {
        return Err(UnitCause::EraseFirst.into());
    }
    Ok(())
}

/// The record that a write writes: the next serial, and the free blocks that come next in the round.
pub fn decide_write<F: Flash>(
    store: &Store<F>,
    number: DataNumber,
    data: &[u8],
    bar: &Bar,
) -> Result<NewRecord, UnitFault>
    ensures decided { let s = F.model.meaning store.now.flash.now in Decided s (to_write (sizes_of store.now.plan.now) number.0 «data».now bar.now F.model.kind s) (λ w. record_on w.size w.number.0 w.serial «data».now (listed w.blocks)) (λ w. w.serial) result }
    ensures leads { let s = F.model.meaning store.now.flash.now in IfOk result (λ w. LeadsToRecord s.count s.word (sizes_of store.now.plan.now) number.0 «data».now w.serial (applied_all (record_on w.size w.number.0 w.serial «data».now (listed w.blocks)) s.word)) }
{
    let Some(size) = store.plan.size(number) else {
        return Err(UnitCause::NoNumber.into());
    };
    if data.len() != size as usize {
        return Err(UnitCause::WrongLength.into());
    }
    if bar.changes {
        return Err(UnitCause::Barred.into());
    }
    let seen = look_over(store)?;
    let latest = newest(&seen.heads, store.plan);
    let Some(serial) = next_serial(latest) else {
        return Err(UnitCause::SerialsSpent.into());
    };
    let round = Round::after(latest, store.flash.block_count());
    let need = 1 + follower_count(size);
    check_room(seen.survey.counts(), need)?;
    Ok(NewRecord {
        number,
        serial,
        size,
        blocks: take_free(&seen.survey, round, need as u8),
    })
}
