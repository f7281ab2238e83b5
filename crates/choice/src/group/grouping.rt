//! The group of every block, from the current records and the states of all blocks.
ghost use Rattle.std.specs.Prelude.{◌≡◌, ℕ, ◌<◌};
ghost use Rattle.layout.specs.Sizes.{numbers};
ghost use Rattle.layout.specs.Plans.{sizes_of};
ghost use Rattle.survey.specs.Sets.{member};
ghost use Rattle.choice.specs.Tables.{first_in, grouped, Grouped};

use crate::group::{Group, Groups};
use flash::BlockNumber;
use layout::plan::{DataNumber, Plan};
use layout::state::BlockState;
use records::head::Heads;
use std::array;
use survey::block_set::BlockSet;
use survey::overview::Overview;

// The group of a block, from its state and whether it is the first block of a current record.
fn group_of(state: Option<BlockState>, first: bool) -> Option<Group>
    ensures { result ≡ grouped state first }
{
    match state {
        Some(BlockState::HalfErased) => Some(Group::HalfErased),
        Some(BlockState::Free) => Some(Group::NotLive),
        Some(BlockState::Spent) => Some(Group::NotLive),
        Some(BlockState::Live) if first => Some(Group::LiveFirst),
        Some(BlockState::Live) => Some(Group::LiveFollowing),
        None => None,
    }
}

// The first blocks of all current records of the plan's numbers. Heads and plan apart, as where the newest is found.
fn first_blocks(heads: &Heads, plan: &Plan) -> BlockSet
    ensures { (b : ℕ) → b < 256 → member result.marks b ≡ first_in heads.now (numbers (sizes_of plan.now)) b }
{
    let mut firsts = BlockSet::new();
    for n in 0..plan.count() {
        if let Some(head) = heads.current(DataNumber(n)) {
            firsts.insert(head.block);
        }
    }
    firsts
}

/// The group of every block of a flash that was looked over.
pub fn group_blocks(seen: &Overview, plan: &Plan) -> Groups
    ensures { Grouped seen.now (sizes_of plan.now) result }
{
    let firsts = first_blocks(&seen.heads, plan);
    Groups {
        entries: array::from_fn(|b| {
            let block = BlockNumber(b as u16);
            group_of(seen.survey.state(block), firsts.contains(block))
        }),
    }
}
