//! What the blocks of a flash are: the blocks of current records, the state of every block, and the newest record, found by looks at any flash. No heap.
#![tactic(auto)]

pub mod block_set;
pub mod found;
pub mod newest;
pub mod overview;
pub mod table;
pub mod used;
