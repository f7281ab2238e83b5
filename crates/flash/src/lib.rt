//! A flash: blocks of 16 words that are programmed one by one and erased block by block, and that may lose power inside a command.
//! The trait `Flash` has the flash rules as its contracts; specs/Rules.antt states them.
#![tactic(auto)]

ghost use Rattle.std.specs.Prelude.{◌≡◌};
ghost use Rattle.flash.specs.State.{Shaped};
ghost use Rattle.flash.specs.Commands.{Command, looked, reached};
ghost use Rattle.flash.specs.Rules.{Model, Obeys, Returned};

use fault::{Cause, FlashFault};
use std::fmt;

pub mod fault;

/// The number of a block, from 0.
#[derive(Clone, Copy, PartialEq, Eq, Debug, Default)]
pub struct BlockNumber(pub u16);

impl fmt::Display for BlockNumber {
    fn fmt<W: fmt::Write>(&self, f: &mut fmt::Formatter<W>) -> fmt::Result {
        write!(f, "{}", self.0)
    }
}

/// A word of a block.
#[derive(Clone, Copy, PartialEq, Eq, Debug)]
pub struct Place {
    pub block: BlockNumber,
    pub word: u8,
}

impl Place {
    /// What stands where a fault has no place: zeros and no `Option`, since a caller is promised these zeros.
    pub const NONE: Place = Place {
        block: BlockNumber(0),
        word: 0,
    };
}

impl fmt::Display for Place {
    fn fmt<W: fmt::Write>(&self, f: &mut fmt::Formatter<W>) -> fmt::Result {
        write!(f, "block {}, word {}", self.block, self.word)
    }
}

/// What a return of power asks of a flash that can rehearse a loss; a flash may ignore it.
#[derive(Clone, Copy, PartialEq, Eq, Debug)]
pub struct Rehearsal {
    /// How many commands are done before power goes in the next one.
    pub commands: u32,
    /// What the command in which power goes leaves: a number and no enum, since any of 32 bits may stand in a word or choose words.
    pub manner: u32,
}

/// A flash of at most 256 blocks of 16 words; a word is blank or written with four bytes, the low byte first.
// Its calls take block and word apart and no `Place`: a caller goes through the words of one block, and an erase has no word.
pub trait Flash {
    /// The number of this kind of flash.
    const KIND: u8;

    ghost model: { Model Self };

    /// `KIND`, with a promise that generic code can use: a constant with a promise of its own could stand in no implementation that borrows.
    fn kind_number() -> u8
        ensures { result ≡ model.kind };

    /// How many blocks there are; answered with power off too.
    fn block_count(&self) -> u16
        ensures answer { result ≡ (model.meaning self.now).count }
        ensures shape { Shaped (model.meaning self.now) };

    /// Whether power is on.
    fn has_power(&self) -> bool
        ensures answer { result ≡ (model.meaning self.now).power }
        ensures shape { Shaped (model.meaning self.now) };

    /// What a word holds: `None` where it is blank.
    fn look(&self, block: BlockNumber, word: u8) -> Result<Option<u32>, FlashFault>
        ensures { result ≡ looked model.kind (model.meaning self.now) block.0 word };

    /// Refuses a place that every call refuses: power is off, there is no such block, or no such word, in this order.
    fn reach(&self, block: BlockNumber, word: u8) -> Result<(), FlashFault>
        ensures { result ≡ reached model.kind (model.meaning self.now) block.0 word }
    {
        if !self.has_power() {
            return Err(FlashFault::unpowered(Self::kind_number()));
        }
        let place = Place { block, word };
        if block.0 >= self.block_count() {
            return Err(FlashFault::new(Cause::Block, Self::kind_number(), place));
        }
        if word > 15 {
            return Err(FlashFault::new(Cause::Word, Self::kind_number(), place));
        }
        Ok(())
    }

    /// Writes a blank word.
    fn program(&mut self, block: BlockNumber, word: u8, value: u32) -> Result<(), FlashFault>
        ensures { Obeys model (Command.program block.0 word value) self.old result self.new };

    /// Makes the 16 words of a block blank.
    fn erase(&mut self, block: BlockNumber) -> Result<(), FlashFault>
        ensures { Obeys model (Command.erase block.0) self.old result self.new };

    /// The return of power.
    fn restore(&mut self, rehearsal: Rehearsal)
        ensures { Returned model rehearsal self.old self.new };
}
