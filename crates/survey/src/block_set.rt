//! Sets of blocks.
ghost use Rattle.std.specs.Prelude.{◌≡◌, false, replicate, length};
ghost use Rattle.survey.specs.Sets.{member, inserted};

use flash::BlockNumber;

/// A set of the blocks that a flash may have: a mark for each of them.
#[derive(Clone, Copy, PartialEq, Eq, Debug)]
pub struct BlockSet {
    marks: [bool; 256],
    ghost whole: { length marks ≡ 256 },
}

impl BlockSet {
    /// The set of no block.
    pub fn new() -> BlockSet
        ensures { result.marks ≡ replicate 256 false }
    {
        BlockSet {
            marks: [false; 256],
        }
    }

    /// Whether a block is in the set.
    pub fn contains(&self, block: BlockNumber) -> bool
        ensures { result ≡ member self.now.marks block.0 }
    {
        self.marks.get(block.0 as usize) == Some(&true)
    }

    /// Puts a block into the set; a block above 255 changes nothing.
    pub fn insert(&mut self, block: BlockNumber)
        ensures { self.new.marks ≡ inserted self.old.marks block.0 }
    {
        // By index: once what `get_mut` lends is given back, a proof knows no mark.
        if block.0 < 256 {
            self.marks[block.0 as usize] = true;
        }
    }
}
