//! A table of the states of blocks, and the counts of the states.
ghost use Rattle.std.specs.Prelude.{◌≡◌, None, replicate};
ghost use Rattle.records.specs.Entries.{entry as entry_with, entry_in, marked_at, spent_at, counted_with, tally, Few};

use flash::BlockNumber;
use layout::state::BlockState;
use std::fmt;

/// The entry of one block: no state where the flash has no such block. A struct of its own by a rule of the project (docs/DECISIONS.md).
#[derive(Clone, Copy, PartialEq, Eq, Debug)]
pub struct Entry {
    state: Option<BlockState>,
}

/// An entry for every block that a flash may have.
#[derive(Clone, Copy, PartialEq, Eq, Debug)]
pub struct Survey {
    entries: [Entry; 256],
}

/// How many blocks there are of each state.
#[derive(Clone, Copy, PartialEq, Eq, Debug)]
pub struct Counts {
    pub live: u16,
    pub free: u16,
    pub half_erased: u16,
    pub spent: u16,
}

impl fmt::Display for Counts {
    fn fmt<W: fmt::Write>(&self, f: &mut fmt::Formatter<W>) -> fmt::Result {
        write!(
            f,
            "{} live, {} free, {} half erased, {} spent",
            self.live, self.free, self.half_erased, self.spent
        )
    }
}

impl Counts {
    // One entry more.
    fn with(self, entry: Entry) -> Counts
        requires { Few 256 self }
        ensures { result ≡ counted_with self entry.state }
    {
        match entry.state {
            Some(BlockState::Live) => Counts {
                live: self.live + 1,
                ..self
            },
            Some(BlockState::Free) => Counts {
                free: self.free + 1,
                ..self
            },
            Some(BlockState::HalfErased) => Counts {
                half_erased: self.half_erased + 1,
                ..self
            },
            Some(BlockState::Spent) => Counts {
                spent: self.spent + 1,
                ..self
            },
            None => self,
        }
    }
}

impl Survey {
    /// No block has a state.
    pub fn none() -> Survey
        ensures { result.entries ≡ replicate 256 (entry_with None) }
    {
        Survey {
            entries: [Entry { state: None }; 256],
        }
    }

    /// The state of a block: `None` where the flash has no such block.
    pub fn state(&self, block: BlockNumber) -> Option<BlockState>
        ensures { result ≡ entry_in self.now block.0 }
    {
        self.entries.get(block.0 as usize)?.state
    }

    /// Marks one entry; the others stay, and all of them where there is no such entry.
    pub fn mark(&mut self, block: BlockNumber, state: Option<BlockState>)
        ensures { self.new.entries ≡ marked_at self.old.entries block.0 state }
    {
        // By index: once what `get_mut` lends is given back, a proof knows no entry.
        if block.0 < 256 {
            self.entries[block.0 as usize].state = state;
        }
    }

    /// Marks a block as spent; the other entries stay, and all of them where there is no such entry.
    pub fn spend(&mut self, block: BlockNumber)
        ensures { self.new.entries ≡ spent_at self.old.entries block.0 }
    {
        self.mark(block, Some(BlockState::Spent));
    }

    /// How many blocks there are of each state.
    pub fn counts(&self) -> Counts
        ensures { result ≡ tally self.now.entries 256 }
    {
        let mut counts = Counts {
            live: 0,
            free: 0,
            half_erased: 0,
            spent: 0,
        };
        for entry in self.entries {
            counts = counts.with(entry);
        }
        counts
    }
}
