//! How the words of a flash lie in the bytes of a memory: the format of an image, and that of cells.
#![tactic(auto)]

mod bytes;
pub mod cells;
pub mod format;
pub mod image;
