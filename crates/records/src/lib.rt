//! A flash with its plan, and which of its records are sound and which current: looks at any flash, each answer equal to its definition; and the table of the states of blocks. No heap.
#![tactic(auto)]

pub mod head;
pub mod pass;
pub mod reading;
pub mod state;
pub mod store;
pub mod table;
pub mod walk;
