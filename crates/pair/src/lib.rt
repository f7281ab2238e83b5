//! Kind 4, a pair: the blocks of one flash followed by those of another, as one flash.
#![tactic(auto)]

ghost use Rattle.std.specs.Prelude.{◌≡◌, Ok};
ghost use Rattle.flash.specs.Commands.{allowed};
ghost use Rattle.pair.specs.Pairs.{pair_count, pair_state, side, joined, pair_check};

use flash::fault::{Cause, FlashFault, raise};
use flash::{BlockNumber, Flash, Place, Rehearsal};

// The kind number of a pair. A constant of its own, since `Self::KIND` has no promise in code over any flash.
const PAIR: u8 = 4;

/// The blocks of the first flash, followed by those of the second.
#[derive(Drop)]
pub struct Pair<A, B> {
    first: A,
    second: B,
}

// A block of the first flash or of the second.
#[derive(Clone, Copy)]
enum Side {
    First(BlockNumber),
    Second(BlockNumber),
}

impl<A: Flash, B: Flash> Pair<A, B> {
    /// Whether two flashes have at most 256 blocks together.
    pub fn check(first: &A, second: &B) -> Result<(), FlashFault>
        ensures { result ≡ pair_check (A.Flash.model.meaning first.now) (B.Flash.model.meaning second.now) }
    {
        if first.block_count() + second.block_count() > 256 {
            return Err(FlashFault::new(Cause::Making, PAIR, Place::NONE));
        }
        Ok(())
    }

    /// The pair; without blocks where the check refuses it.
    pub fn new(first: A, second: B) -> Pair<A, B>
        ensures { result ≡ record { first = first; second = second } }
    {
        Pair { first, second }
    }

    /// The two flashes, handed back.
    pub fn into_flashes(self) -> (A, B)
        ensures { result ≡ (self.first, self.second) }
    {
        let Pair { first, second } = self;
        (first, second)
    }

    // The flash and the block of it, unless the place is refused.
    fn admit(&self, block: BlockNumber, word: u8) -> Result<Side, FlashFault>
        ensures { let s = A.Flash.model.meaning self.now.first in result ≡ allowed 4 (pair_state s (B.Flash.model.meaning self.now.second)) block.0 word (Ok (side s.count block.0)) }
    {
        // Not by `reach`: the second is asked for its power only where the first has power.
        if !self.first.has_power() || !self.second.has_power() {
            return Err(FlashFault::unpowered(PAIR));
        }
        let place = Place { block, word };
        if block.0 >= self.block_count() {
            return Err(FlashFault::new(Cause::Block, PAIR, place));
        }
        if word > 15 {
            return Err(FlashFault::new(Cause::Word, PAIR, place));
        }
        let border = self.first.block_count();
        if block.0 < border {
            return Ok(Side::First(block));
        }
        Ok(Side::Second(BlockNumber(block.0 - border)))
    }
}

impl<A: Flash, B: Flash> Flash for Pair<A, B> {
    const KIND: u8 = PAIR;

    ghost model = { joined A.Flash.model B.Flash.model };

    fn kind_number() -> u8 {
        PAIR
    }

    fn block_count(&self) -> u16 {
        let blocks = self.first.block_count() + self.second.block_count();
        if blocks > 256 { 0 } else { blocks }
    }

    fn has_power(&self) -> bool {
        self.first.has_power() & self.second.has_power()
    }

    fn look(&self, block: BlockNumber, word: u8) -> Result<Option<u32>, FlashFault> {
        let found = match self.admit(block, word)? {
            Side::First(at) => self.first.look(at, word),
            Side::Second(at) => self.second.look(at, word),
        };
        raise(found, PAIR, Place { block, word })
    }

    fn program(&mut self, block: BlockNumber, word: u8, value: u32) -> Result<(), FlashFault> {
        let place = Place { block, word };
        match self.admit(block, word)? {
            Side::First(at) => raise(self.first.program(at, word, value), PAIR, place),
            Side::Second(at) => raise(self.second.program(at, word, value), PAIR, place),
        }
    }

    fn erase(&mut self, block: BlockNumber) -> Result<(), FlashFault> {
        let place = Place { block, word: 0 };
        match self.admit(block, 0)? {
            Side::First(at) => raise(self.first.erase(at), PAIR, place),
            Side::Second(at) => raise(self.second.erase(at), PAIR, place),
        }
    }

    fn restore(&mut self, rehearsal: Rehearsal) {
        self.first.restore(rehearsal);
        self.second.restore(rehearsal);
    }
}
