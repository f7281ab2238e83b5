//! A record by its first block and its serial, all current ones by number, and what a pass over the blocks finds.
use crate::table::Survey;
use flash::BlockNumber;
use layout::plan::DataNumber;

/// The first block of a record, and the record's serial.
#[derive(Clone, Copy, PartialEq, Eq, Debug)]
pub struct Head {
    pub serial: u32,
    pub block: BlockNumber,
}

/// A sound record: its number and its head.
#[derive(Clone, Copy, PartialEq, Eq, Debug)]
pub struct Owned {
    pub number: DataNumber,
    pub head: Head,
}

/// The heads of the current records, by data number.
// A table of its own, as `Survey` is: one type for both, generic in the entry, gets no proof of its `Clone`.
#[derive(Clone, Copy, PartialEq, Eq, Debug)]
pub struct Heads {
    pub entries: [Option<Head>; 64],
}

/// What one pass over the blocks finds: the current records, and what each block is by its own words.
#[derive(Clone, Copy, PartialEq, Eq, Debug)]
pub struct Scan {
    pub heads: Heads,
    /// The state of each block if no record had it; none where there is no such block.
    pub standings: Survey,
}
