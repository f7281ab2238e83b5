//! The groups in which a format clears the blocks.
ghost use Rattle.std.specs.Prelude.{◌≡◌};
ghost use Rattle.choice.specs.Tables.{group_in};

use flash::BlockNumber;

pub mod grouping;

/// A group of blocks that a format clears.
#[derive(Clone, Copy, PartialEq, Eq, Debug)]
pub enum Group {
    /// Half-erased blocks.
    HalfErased,
    /// Free and spent blocks.
    NotLive,
    /// The first blocks of current records.
    LiveFirst,
    /// The following blocks of current records.
    LiveFollowing,
}

/// The group of every block that a flash may have; none where there is no such block.
// A table of its own, as `Heads` and `Survey` are: one type for all, generic in the entry, gets no proof of its `Clone`.
#[derive(Clone, Copy, PartialEq, Eq, Debug)]
pub struct Groups {
    entries: [Option<Group>; 256],
}

impl Groups {
    /// The group of a block: `None` where there is no such block.
    pub fn get(&self, block: BlockNumber) -> Option<Group>
        ensures { result ≡ group_in self.now block.0 }
    {
        *self.entries.get(block.0 as usize)?
    }
}
