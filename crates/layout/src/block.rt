//! The words of one block, as they were read, and the fields of a first block.
use crate::plan::DataNumber;
use flash::BlockNumber;

/// The 16 words of a block, blank or written.
#[derive(Clone, Copy, PartialEq, Eq, Debug)]
pub struct BlockWords {
    pub words: [Option<u32>; 16],
}

/// The fields of a first block, before its data.
#[derive(Clone, Copy, PartialEq, Eq, Debug)]
pub struct FirstFields {
    // A number and no `BlockType`: any byte may stand there, and it is only compared with the one of a type.
    pub kind: u8,
    pub chain: BlockNumber,
    pub number: DataNumber,
    pub serial: u32,
    pub code: u16,
}
