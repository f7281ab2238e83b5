//! The current records and the state of every block of a flash, together.
use records::head::Heads;
use records::table::Survey;

/// The current records and the state of every block, from one pass. A `Scan` has the same fields, but its states are those before it is known which blocks are in use.
#[derive(Clone, Copy, PartialEq, Eq, Debug)]
pub struct Overview {
    pub heads: Heads,
    pub survey: Survey,
}
