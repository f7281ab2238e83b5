//! The types of the blocks of a record.
ghost use Rattle.std.specs.Prelude.{◌≡◌};
ghost use Rattle.layout.specs.Sound.{type_number};

/// What a block is in its record.
#[derive(Clone, Copy, PartialEq, Eq, Debug)]
pub enum BlockType {
    /// The only block of a short record.
    Short = 1,
    /// The first block of a long record.
    Long = 2,
    /// A following block of a long record.
    Following = 3,
}

/// The byte that stands for it in a block.
impl From<BlockType> for u8 {
    ghost from_gives = { λ t n. n ≡ type_number t };

    fn from(block_type: BlockType) -> u8 {
        block_type as u8
    }
}
