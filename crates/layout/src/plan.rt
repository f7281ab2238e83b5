//! Plans: how many data numbers there are, and how large the data of each is.
ghost use Rattle.std.specs.Prelude.{◌≡◌, ℕ, ◌<◌, ◌≤◌, length, slice_index};

use std::fmt;

/// A number under which data is kept, from 0. It is no block number.
#[derive(Clone, Copy, PartialEq, Eq, Debug)]
pub struct DataNumber(pub u16);

impl fmt::Display for DataNumber {
    fn fmt<W: fmt::Write>(&self, f: &mut fmt::Formatter<W>) -> fmt::Result {
        write!(f, "{}", self.0)
    }
}

/// A plan that cannot be made.
#[derive(Clone, Copy, PartialEq, Eq, Debug)]
pub enum PlanFault {
    /// The count of data numbers, or a size, is outside its range.
    OutOfRange = 16,
}

/// The size of each data number: 1 to 64 numbers, each of 1 to 1,024 bytes.
#[derive(Clone, Copy, Debug)]
pub struct Plan {
    // A table and a count, since a plan is copied, and an `ArrayVec` cannot be. No `impl Model`: a `Copy` struct round one is not copied.
    sizes: [u16; 64],
    count: u16,
    ghost whole: { length sizes ≡ 64 },
    ghost some: { 1 ≤ count },
    ghost few: { count ≤ 64 },
    ghost sized: { (n : ℕ) → n < count → (1 ≤ slice_index sizes n) × (slice_index sizes n ≤ 1024) },
}

pub mod making;
