//! One pass over the blocks finds every current record.
ghost use Rattle.std.specs.Prelude.{◌≡◌, ℕ, ◌<◌, IfSome, None, replicate, Some};
ghost use Rattle.layout.specs.Records.{current as current_of, Current};
ghost use Rattle.layout.specs.Plans.{sizes_of};
ghost use Rattle.layout.specs.Reads.{words_of};
ghost use Rattle.records.specs.Answered.{Answers, IfAnswered};
ghost use Rattle.records.specs.Heads.{headed, owner, head_in, entered};
ghost use Rattle.records.specs.Entries.{entry, marked_at};
ghost use Rattle.records.specs.Tables.{Finds, Scans, standing_in};

use crate::head::{Head, Heads, Owned, Scan};
use crate::reading::{ask_power, read_block};
use crate::state::state_of;
use crate::store::Store;
use crate::table::Survey;
use flash::fault::FlashFault;
use flash::{BlockNumber, Flash};
use layout::block::BlockWords;
use layout::plan::DataNumber;
use layout::state::BlockState;

impl Heads {
    fn none() -> Heads
        ensures { result.entries ≡ replicate 64 None }
    {
        Heads {
            entries: [None; 64],
        }
    }

    /// The head of a number's current record, if it has one.
    pub fn current(&self, number: DataNumber) -> Option<Head>
        ensures { result ≡ head_in self.now number.0 }
    {
        *self.entries.get(number.0 as usize)?
    }

    // Enters a record, unless the number's entry has as high a serial.
    fn enter(&mut self, owned: Option<Owned>)
        requires { IfSome owned (λ o. o.number.0 < 64) }
        ensures { self.new.entries ≡ entered self.old.entries owned }
    {
        let Some(new) = owned else {
            return;
        };
        let n = new.number.0 as usize;
        self.entries[n] = self.entries[n]
            .filter(|old| old.serial >= new.head.serial)
            .or(Some(new.head));
    }
}

impl Scan {
    fn none() -> Scan
        ensures heads { result.heads.entries ≡ replicate 64 None }
        ensures standings { result.standings.entries ≡ replicate 256 (entry None) }
    {
        Scan {
            heads: Heads::none(),
            standings: Survey::none(),
        }
    }

    // Notes what a block is by its own words; the 255 others stay.
    fn note(&mut self, block: BlockNumber, state: BlockState)
        ensures standings { self.new.standings.entries ≡ marked_at self.old.standings.entries block.0 (Some state) }
        ensures heads { self.new.heads ≡ self.old.heads }
    {
        self.standings.mark(block, Some(state));
    }

    /// What a block is by its own words, if the flash has it.
    pub fn standing(&self, block: BlockNumber) -> Option<BlockState>
        ensures { result ≡ standing_in self.now block.0 }
    {
        self.standings.state(block)
    }
}

impl<F: Flash> Store<'_, F> {
    /// The sound record whose first block this is, if any.
    pub fn owned_by(&self, block: BlockNumber) -> Result<Option<Owned>, FlashFault>
        ensures { let s = F.model.meaning self.now.flash.now in Answers F.model.kind s (owner s.count s.word (sizes_of self.now.plan.now) block.0) result }
    {
        ask_power(self.flash)?;
        if block.0 >= self.flash.block_count() {
            return Ok(None);
        }
        let words = read_block(self.flash, block)?;
        self.owner_of(block, &words)
    }

    // The same, from the words of the block. A plan has at most 64 numbers.
    fn owner_of(&self, block: BlockNumber, words: &BlockWords) -> Result<Option<Owned>, FlashFault>
        requires read { words_of words.now ≡ (F.model.meaning self.now.flash.now).word block.0 }
        requires inside { block.0 < (F.model.meaning self.now.flash.now).count }
        ensures answer { let s = F.model.meaning self.now.flash.now in Answers F.model.kind s (owner s.count s.word (sizes_of self.now.plan.now) block.0) result }
        ensures few { IfAnswered result (λ o. o.number.0 < 64) }
    {
        let number = words.number();
        if !self.is_sound_first(number, block, words)? {
            return Ok(None);
        }
        Ok(Some(Owned {
            number,
            head: Head {
                serial: words.serial(),
                block,
            },
        }))
    }

    /// The heads of all current records: for each number the sound first block of highest serial, ties to the lower block.
    pub fn current_heads(&self) -> Result<Heads, FlashFault>
        ensures answer { Finds F.model.kind (F.model.meaning self.now.flash.now) (sizes_of self.now.plan.now) result }
        ensures law { let s = F.model.meaning self.now.flash.now in (n : ℕ) → Current s.count s.word (sizes_of self.now.plan.now) n (current_of s.count s.word (sizes_of self.now.plan.now) n) }
    {
        self.find_heads()
    }

    /// The head of a number's current record, if it has one.
    pub fn current(&self, number: DataNumber) -> Result<Option<Head>, FlashFault>
        ensures { let s = F.model.meaning self.now.flash.now in Answers F.model.kind s (headed s.word (current_of s.count s.word (sizes_of self.now.plan.now) number.0)) result }
    {
        let heads = self.find_heads()?;
        Ok(heads.current(number))
    }

    fn find_heads(&self) -> Result<Heads, FlashFault>
        ensures { Finds F.model.kind (F.model.meaning self.now.flash.now) (sizes_of self.now.plan.now) result }
    {
        Ok(self.scan()?.heads)
    }

    /// One pass over the blocks: the current records, and what each block is by its own words. Each block is read once, apart from the walks along chains.
    pub fn scan(&self) -> Result<Scan, FlashFault>
        ensures { Scans F.model.kind (F.model.meaning self.now.flash.now) (sizes_of self.now.plan.now) result }
    {
        ask_power(self.flash)?;
        let mut found = Scan::none();
        for b in 0..self.flash.block_count() {
            let block = BlockNumber(b);
            let words = read_block(self.flash, block)?;
            let owned = self.owner_of(block, &words)?;
            found.heads.enter(owned);
            found.note(block, state_of(&words, false));
        }
        Ok(found)
    }
}
