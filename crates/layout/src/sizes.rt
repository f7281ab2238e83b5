//! How the data of a record is shared out among blocks and words.
ghost use Rattle.std.specs.Prelude.{◌≡◌, ◌≤◌};
ghost use Rattle.layout.specs.Sizes.{followers, first_share, share as share_of, head_words, data_words};
ghost use Rattle.layout.specs.Sound.{first_type};

use crate::block_type::BlockType;

/// Bytes of data in the first block of a record, at most.
pub const FIRST_SHARE: u16 = 41;

/// Bytes of data in a following block, at most.
pub const FOLLOWING_SHARE: u16 = 53;

/// The byte of a first block at which its data begins.
pub const FIRST_DATA: u8 = 11;

/// The byte of a following block at which its data begins.
pub const FOLLOWING_DATA: u8 = 3;

/// How many following blocks a record of this size has: at most 19 in a plan.
#[tactic(auto, unfolding(crate::specs::Sizes::followers))]
pub fn follower_count(size: u16) -> u16
    ensures count { result ≡ followers size }
    ensures few { size ≤ 1024 → result ≤ 19 }
{
    size.saturating_sub(FIRST_SHARE).div_ceil(FOLLOWING_SHARE)
}

/// How many of its bytes the first block holds.
#[tactic(auto, unfolding(crate::specs::Sizes::first_share))]
pub fn first_share_of(size: u16) -> u8
    ensures value { result ≡ first_share size }
    ensures few { result ≤ 41 }
{
    size.min(FIRST_SHARE) as u8
}

/// How many following block `j` holds.
// Size and place apart: the place counts in loops over the blocks of one size, and a struct would be made and taken apart at each turn.
#[tactic(auto, unfolding(crate::specs::Sizes::share))]
pub fn share(size: u16, j: u16) -> u8
    ensures value { result ≡ share_of size j }
    ensures few { result ≤ 53 }
{
    size.saturating_sub(FIRST_SHARE)
        .saturating_sub(FOLLOWING_SHARE.saturating_mul(j))
        .min(FOLLOWING_SHARE) as u8
}

/// How many words of the first block hold fields and data.
#[tactic(auto, unfolding(crate::specs::Sizes::head_words, crate::specs::Sizes::first_share))]
pub fn head_word_count(size: u16) -> u8
    ensures count { result ≡ head_words size }
    ensures few { result ≤ 13 }
{
    (FIRST_DATA - 1 + first_share_of(size)) / 4 + 1
}

/// How many words of following block `j` hold fields and data.
#[tactic(auto, unfolding(crate::specs::Sizes::data_words, crate::specs::Sizes::share))]
pub fn data_word_count(size: u16, j: u16) -> u8
    ensures count { result ≡ data_words size j }
    ensures few { result ≤ 14 }
{
    (FOLLOWING_DATA - 1 + share(size, j)) / 4 + 1
}

/// The type of the first block of a record of this size.
pub fn first_type_of(size: u16) -> BlockType
    ensures { result ≡ first_type size }
{
    if size <= FIRST_SHARE {
        BlockType::Short
    } else {
        BlockType::Long
    }
}
