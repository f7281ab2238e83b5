//! Putting blocks into a list, reading it, and comparing two lists.
ghost use Rattle.std.specs.Prelude.{◌≡◌, ◌≤◌, [], ◌∷◌, ◌++◌, length, if◌then◌else◌, nat_lt, nat_eq};
ghost use Rattle.std.specs.Cmp.{on_per, on_equiv, partial_equiv_from_equiv, nat_eq_equiv};
ghost use Rattle.std.specs.Cmp.Lexicographic.{pointwise, lists_per, lists_equiv};
ghost use Rattle.std.specs.Ordering.{on};
ghost use Rattle.writing.specs.Listed.{blocks_of, listed, block_in};

use crate::blocks::Blocks;
use flash::BlockNumber;
use std::fmt;

impl Blocks {
    /// No blocks.
    pub fn none() -> Blocks
        ensures { listed result ≡ [] }
    {
        Blocks {
            blocks: [BlockNumber(0); 20],
            len: 0,
        }
    }

    /// One block more; false, and nothing changed, where there are 20.
    pub fn push(&mut self, block: BlockNumber) -> bool
        ensures answer { result ≡ nat_lt (length (listed self.old)) 20 }
        ensures blocks { listed self.new ≡ (if result then listed self.old ++ block.0 ∷ [] else listed self.old) }
    {
        if self.len >= 20 {
            return false;
        }
        self.blocks[self.len as usize] = block;
        self.len += 1;
        true
    }

    /// How many there are.
    pub fn len(&self) -> u8
        ensures { result ≡ length (listed self.now) }
    {
        self.len
    }

    /// The block at a place, if there is one.
    pub fn get(&self, i: u8) -> Option<BlockNumber>
        ensures { result ≡ block_in (listed self.now) i }
    {
        self.as_slice().get(i as usize).copied()
    }

    /// The blocks.
    pub fn as_slice(&self) -> &[BlockNumber]
        ensures value { result.now ≡ blocks_of self.now }
        ensures fits { length result.now ≤ 20 }
    {
        &self.blocks[..self.len as usize]
    }
}

// By the blocks that there are, whatever stands behind them in the table.
impl PartialEq for Blocks {
    ghost eq = { on blocks_of (pointwise (on (λ b. b.0) nat_eq)) };

    ghost laws = { on_per blocks_of (lists_per (on_per (λ b. b.0) (partial_equiv_from_equiv nat_eq_equiv))) };

    fn eq(&self, other: &Blocks) -> bool {
        self.as_slice() == other.as_slice()
    }
}

impl Eq for Blocks {
    ghost laws = { on_equiv blocks_of (lists_equiv (on_equiv (λ b. b.0) nat_eq_equiv)) };
}

impl fmt::Debug for Blocks {
    fn fmt<W: fmt::Write>(&self, f: &mut fmt::Formatter<W>) -> fmt::Result {
        f.debug_list().entries(self.as_slice()).finish()
    }
}
