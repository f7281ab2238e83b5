//! The bytes of a block that is to be programmed: its fields and its data, and their words.
ghost use Rattle.std.specs.Prelude.{◌≤◌};

pub use crate::bytes::filling::{first_bytes, follow_bytes, word};

pub mod filling;

/// The first bytes of a block that is to be programmed; FF hex stands for the others.
// A table and a length, as those of a record's blocks are: what is to be written is copied.
#[derive(Clone, Copy)]
pub struct BlockBytes {
    bytes: [u8; 64],
    len: u8,
    ghost fits: { len ≤ 64 },
}
