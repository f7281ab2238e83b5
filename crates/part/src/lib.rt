//! Kind 3, a part: some blocks of any flash, one after the other, as a flash of their own.
#![tactic(auto)]

ghost use Rattle.std.specs.Prelude.{◌≡◌, ◌+◌, Ok};
ghost use Rattle.flash.specs.State.{Shaped};
ghost use Rattle.flash.specs.Commands.{allowed};
ghost use Rattle.part.specs.Parts.{part_state, partial, part_check};

use flash::fault::{Cause, FlashFault, raise};
use flash::{BlockNumber, Flash, Place, Rehearsal};

// The kind number of a part. A constant of its own, since `Self::KIND` has no promise in code over any flash.
const PART: u8 = 3;

/// `blocks` blocks of the flash below, from block `first` on.
#[derive(Drop)]
pub struct Part<F> {
    below: F,
    first: BlockNumber,
    blocks: u16,
}

impl<F: Flash> Part<F> {
    /// Whether a flash has these blocks.
    pub fn check(below: &F, first: BlockNumber, blocks: u16) -> Result<(), FlashFault>
        ensures answer { result ≡ part_check first.0 blocks (F.model.meaning below.now) }
        ensures shape { Shaped (F.model.meaning below.now) }
    {
        if first.0 as u32 + blocks as u32 > below.block_count() as u32 {
            return Err(FlashFault::new(Cause::Making, PART, Place::NONE));
        }
        Ok(())
    }

    /// The part; without blocks where the check refuses it.
    pub fn new(below: F, first: BlockNumber, blocks: u16) -> Part<F>
        ensures { result ≡ record { below = below; first = first; blocks = blocks } }
    {
        Part {
            below,
            first,
            blocks,
        }
    }

    /// The flash below, handed back.
    pub fn into_below(self) -> F
        ensures { result ≡ self.below }
    {
        let Part { below, .. } = self;
        below
    }

    // The block of the flash below, unless the place is refused.
    fn admit(&self, block: BlockNumber, word: u8) -> Result<BlockNumber, FlashFault>
        ensures { result ≡ allowed 3 (part_state self.now.first.0 self.now.blocks (F.model.meaning self.now.below)) block.0 word (Ok (record { 0 = self.now.first.0 + block.0 })) }
    {
        // Not by `reach`: asked for its power here, the flash below says too that it has at most 256 blocks, so the sum is the number of one.
        if !self.below.has_power() {
            return Err(FlashFault::unpowered(PART));
        }
        let place = Place { block, word };
        if block.0 >= self.block_count() {
            return Err(FlashFault::new(Cause::Block, PART, place));
        }
        if word > 15 {
            return Err(FlashFault::new(Cause::Word, PART, place));
        }
        Ok(BlockNumber(self.first.0 + block.0))
    }
}

impl<F: Flash> Flash for Part<F> {
    const KIND: u8 = PART;

    ghost model = { partial F.Flash.model };

    fn kind_number() -> u8 {
        PART
    }

    fn block_count(&self) -> u16 {
        if Self::check(&self.below, self.first, self.blocks).is_err() {
            return 0;
        }
        self.blocks
    }

    fn has_power(&self) -> bool {
        self.below.has_power()
    }

    fn look(&self, block: BlockNumber, word: u8) -> Result<Option<u32>, FlashFault> {
        let place = Place { block, word };
        let at = self.admit(block, word)?;
        raise(self.below.look(at, word), PART, place)
    }

    fn program(&mut self, block: BlockNumber, word: u8, value: u32) -> Result<(), FlashFault> {
        let place = Place { block, word };
        let at = self.admit(block, word)?;
        raise(self.below.program(at, word, value), PART, place)
    }

    fn erase(&mut self, block: BlockNumber) -> Result<(), FlashFault> {
        let place = Place { block, word: 0 };
        let at = self.admit(block, 0)?;
        raise(self.below.erase(at), PART, place)
    }

    fn restore(&mut self, rehearsal: Rehearsal) {
        self.below.restore(rehearsal);
    }
}
