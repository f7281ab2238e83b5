//! The layout of records in a flash: plans, the fields of a block, the code, and the check of a block. No heap.
#![tactic(auto)]

pub mod block;
pub mod block_type;
pub mod check;
pub mod code;
pub mod fields;
pub mod plan;
pub mod sizes;
pub mod state;
