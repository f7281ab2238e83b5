//! What a block is.

/// The state of a block.
#[derive(Clone, Copy, PartialEq, Eq, Debug)]
pub enum BlockState {
    /// It belongs to a current record.
    Live,
    /// It can be taken for a record.
    Free,
    /// An erase of it was begun or never came to its end.
    HalfErased,
    /// It holds what nobody needs any more.
    Spent,
}
