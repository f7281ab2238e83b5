//! The states of the blocks: a letter for each, and the counts.
ghost use Rattle.std.specs.Prelude.{◌≡◌};
ghost use Rattle.house.specs.Letters.{letter_of};

use flash::{BlockNumber, Flash};
use layout::state::BlockState;
use records::store::Store;
use std::io;
use survey::table::Survey;
use survey::table::pass::survey;

// The letter of a state. A function, since `BlockState` and `char` are of other crates, so no `From` can stand here.
fn letter(state: BlockState) -> char
    ensures { result ≡ letter_of state }
{
    match state {
        BlockState::Live => 'L',
        BlockState::Free => 'F',
        BlockState::HalfErased => 'H',
        BlockState::Spent => 'S',
    }
}

// Prints a line with a letter for each block, from block 0.
fn print_letters(rt: &HostRuntime, survey: &Survey, count: u16) -> io::Result<()> {
    print!(rt; "blocks: ")?;
    for b in 0..count {
        if let Some(state) = survey.state(BlockNumber(b)) {
            let letter = letter(state);
            print!(rt; "{letter}")?;
        }
    }
    println!(rt; "")
}

/// Prints the states of the blocks and their counts.
pub(crate) fn print_all<F: Flash>(rt: &HostRuntime, store: &Store<F>) -> anyhow::Result<()> {
    let survey = survey(store)?;
    print_letters(rt, &survey, store.flash.block_count())?;
    let counts = survey.counts();
    println!(rt; "{counts}")?;
    Ok(())
}
