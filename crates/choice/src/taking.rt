//! The free blocks that a write takes.
ghost use Rattle.std.specs.Prelude.{◌≡◌, min, take, filter};
ghost use Rattle.writing.specs.Listed.{listed};
ghost use Rattle.choice.specs.Tables.{suited, round_of};

use crate::round::{Purpose, Round};
use survey::table::Survey;
use writing::record::Blocks;

/// The first `need` free blocks in a round, at most 20.
pub fn take_free(survey: &Survey, round: Round, need: u8) -> Blocks
    ensures { listed result ≡ take (min need 20) (filter (suited Purpose.Writing survey.now) (round_of round)) }
{
    let free = round
        .blocks()
        .filter(|block| Purpose::Writing.suits(survey.state(*block)))
        .take(need.min(20) as usize);
    let mut blocks = Blocks::none();
    for block in free {
        blocks.push(block);
    }
    blocks
}
