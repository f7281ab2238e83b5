//! What a call of a unit decides on the flash that it finds: a refusal, or what it is about to do. Looks only, no heap.
#![tactic(auto)]

pub mod erase;
pub mod fault;
pub mod format;
pub mod write;
