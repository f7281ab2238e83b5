//! The blocks of a record, in order.
ghost use Rattle.std.specs.Prelude.{◌≤◌};

use flash::BlockNumber;

pub mod listing;

/// At most 20 blocks, the first block of a record first.
// A table and a length: a record that is to be written is copied, and an `ArrayVec` cannot be.
#[derive(Clone, Copy)]
pub struct Blocks {
    blocks: [BlockNumber; 20],
    len: u8,
    ghost few: { len ≤ 20 },
}
