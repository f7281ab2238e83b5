//! The states of all blocks of a flash, as a pass over it finds them, with the names of the table that has them.
pub mod pass;

pub use records::table::{Counts, Entry, Survey};
