//! The walk along a chain, and the check of a whole record.
ghost use Rattle.std.specs.Prelude.{◌≡◌, ◌<◌, true, IfOk};
ghost use Rattle.layout.specs.Sizes.{followers};
ghost use Rattle.layout.specs.Plans.{sizes_of};
ghost use Rattle.layout.specs.Reads.{words_of};
ghost use Rattle.layout.specs.Sound.{leads as chain_leads, sound};
ghost use Rattle.records.specs.Answered.{Answers};

use crate::reading::{ask_power, read_block};
use crate::store::Store;
use flash::fault::FlashFault;
use flash::{BlockNumber, Flash};
use layout::block::BlockWords;
use layout::check::{is_first_block, is_following};
use layout::plan::DataNumber;
use layout::sizes::follower_count;

/// Whether the chain leads from block `from` through the following blocks that the size requires to block `first`.
pub fn leads<F: Flash>(
    flash: &F,
    size: u16,
    first: BlockNumber,
    from: BlockNumber,
) -> Result<bool, FlashFault>
    ensures { let s = F.model.meaning flash.now in Answers F.model.kind s (chain_leads s.count s.word size first.0 0 from.0 (followers size)) result }
{
    ask_power(flash)?;
    let count = flash.block_count();
    let mut at = from;
    for j in 0..follower_count(size) {
        if at.0 >= count {
            return Ok(false);
        }
        let block = read_block(flash, at)?;
        if !is_following(size, j, &block) {
            return Ok(false);
        }
        at = block.chain();
    }
    Ok(at == first)
}

impl<F: Flash> Store<'_, F> {
    /// Whether a block is a sound first block of a data number.
    pub fn is_sound(&self, number: DataNumber, first: BlockNumber) -> Result<bool, FlashFault>
        ensures { let s = F.model.meaning self.now.flash.now in Answers F.model.kind s (sound s.count s.word (sizes_of self.now.plan.now) number.0 first.0) result }
    {
        ask_power(self.flash)?;
        // Before the block is read: no block is a first block of a number that the plan has not.
        let Some(_) = self.plan.size(number) else {
            return Ok(false);
        };
        if first.0 >= self.flash.block_count() {
            return Ok(false);
        }
        let words = read_block(self.flash, first)?;
        self.is_sound_first(number, first, &words)
    }

    // The same, from the words of the block. That the flash has the block is a premise on two values, which no type holds.
    pub(crate) fn is_sound_first(
        &self,
        number: DataNumber,
        first: BlockNumber,
        words: &BlockWords,
    ) -> Result<bool, FlashFault>
        requires read { words_of words.now ≡ (F.model.meaning self.now.flash.now).word first.0 }
        requires inside { first.0 < (F.model.meaning self.now.flash.now).count }
        ensures answer { let s = F.model.meaning self.now.flash.now in Answers F.model.kind s (sound s.count s.word (sizes_of self.now.plan.now) number.0 first.0) result }
        ensures few { IfOk result (λ t. t ≡ true → number.0 < 64) }
    {
        ask_power(self.flash)?;
        let Some(size) = self.plan.size(number) else {
            return Ok(false);
        };
        if !is_first_block(self.plan, number, words) {
            return Ok(false);
        }
        leads(self.flash, size, first, words.chain())
    }
}
