//! The first block of use in a round.
ghost use Rattle.std.specs.Prelude.{◌≡◌};
ghost use Rattle.choice.specs.Tables.{numbered, found_in};

use crate::round::{Purpose, Round};
use flash::BlockNumber;
use survey::table::Survey;

/// The first block of use in a round, if there is one.
pub fn find(survey: &Survey, round: Round, purpose: Purpose) -> Option<BlockNumber>
    ensures { result ≡ numbered (found_in purpose survey.now round) }
{
    round
        .blocks()
        .find(|block| purpose.suits(survey.state(*block)))
}
