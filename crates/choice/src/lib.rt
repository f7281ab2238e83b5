//! Which blocks a call takes: the free blocks of a write, the block of an erase, and the order of a format. No heap.
#![tactic(auto)]

pub mod finding;
pub mod group;
pub mod round;
pub mod taking;
