//! Worked examples of the layout: sizes, commands, the code and the states of blocks, as numbers to compare with.
#![tactic(auto)]

ghost use Rattle.std.specs.Prelude.{◌≡◌, true};
ghost use Rattle.examples.specs.Worked.{Worked};

use writing::command_count;

/// Whether writes of 1, 41, 42 and 1,024 bytes are counted as the examples have them, which is so.
/// Promises all examples of `specs/Worked.antt`.
pub fn worked_examples() -> bool
    ensures answer { result ≡ true }
    ensures examples { Worked }
{
    (command_count(1) == 4)
        & (command_count(41) == 14)
        & (command_count(42) == 15)
        & (command_count(1024) == 274)
}
