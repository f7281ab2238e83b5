//! The state of one block.
ghost use Rattle.std.specs.Prelude.{◌≡◌};
ghost use Rattle.layout.specs.Reads.{words_of};
ghost use Rattle.layout.specs.States.{stated, is_half_erased, clean};

use layout::block::BlockWords;
use layout::check::{ERASE_END, ERASE_START};
use layout::state::BlockState;

/// The state of a block, from its words and whether a current record has it.
pub fn state_of(block: &BlockWords, in_use: bool) -> BlockState
    ensures { let m = words_of block.now in result ≡ stated (is_half_erased m) (clean m) in_use }
{
    match (block.word(ERASE_START), block.word(ERASE_END)) {
        (None, Some(_)) if block.all_blank(0, ERASE_END) => BlockState::Free,
        (None, Some(_)) if in_use => BlockState::Live,
        (None, Some(_)) => BlockState::Spent,
        _ => BlockState::HalfErased,
    }
}
