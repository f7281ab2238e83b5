//! A round of the blocks, and what a block in it is looked for.
ghost use Rattle.std.specs.Prelude.{◌≡◌};
ghost use Rattle.std.specs.Iterator.{YieldsFirstBy, item_count};
ghost use Rattle.choice.specs.Tables.{round_of, blocks_left, round_after, suits};

use flash::BlockNumber;
use layout::state::BlockState;
use records::head::Head;
use std::ops::Range;

/// All blocks of a flash, going up from `start`, round the end.
#[derive(Clone, Copy, PartialEq, Eq, Debug)]
pub struct Round {
    pub start: u16,
    pub count: u16,
}

impl Round {
    /// The round of a flash of so many blocks that starts at the block after the newest record's first block; at block 0 without a record.
    pub fn after(newest: Option<Head>, count: u16) -> Round
        ensures { result ≡ round_after newest count }
    {
        let start = newest
            .map_or(0, |head| head.block.0.saturating_add(1))
            .min(count);
        Round { start, count }
    }

    /// Goes over the blocks of the round.
    pub fn blocks(self) -> RoundBlocks
        ensures { blocks_left result ≡ round_of self }
    {
        RoundBlocks {
            upper: self.start..self.count,
            lower: 0..self.start,
        }
    }
}

/// Goes over the blocks of a round: those from its start up, and then those below its start.
#[derive(Drop)]
pub struct RoundBlocks {
    upper: Range<u16>,
    lower: Range<u16>,
}

impl Iterator for RoundBlocks {
    type Item = BlockNumber;

    ghost next_gives = { YieldsFirstBy (λ b. b.0) blocks_left };

    ghost remaining = { item_count blocks_left };

    fn next(&mut self) -> Option<BlockNumber> {
        let number = match self.upper.next() {
            Some(number) => number,
            None => self.lower.next()?,
        };
        Some(BlockNumber(number))
    }
}

/// What a block is looked for.
// An enum and no closure: the contracts of `find` and `take_free` name the purpose.
#[derive(Clone, Copy, PartialEq, Eq, Debug)]
pub enum Purpose {
    /// To be written: it is free.
    Writing,
    /// To be cleared: it is spent or half erased.
    Erasing,
}

impl Purpose {
    /// Whether a block of this state is of use; where there is no block, nothing is.
    pub fn suits(self, state: Option<BlockState>) -> bool
        ensures { result ≡ suits self state }
    {
        match self {
            Purpose::Writing => matches!(state, Some(BlockState::Free)),
            Purpose::Erasing => matches!(state, Some(BlockState::HalfErased | BlockState::Spent)),
        }
    }
}
