//! A record that is to be written.
pub use crate::blocks::Blocks;
use layout::plan::DataNumber;

/// A record that is to be written: its number, serial, size and the blocks taken for it, the first block first.
#[derive(Clone, Copy, PartialEq, Eq, Debug)]
pub struct NewRecord {
    pub number: DataNumber,
    pub serial: u32,
    pub size: u16,
    pub blocks: Blocks,
}
