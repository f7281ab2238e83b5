//! The words of a record: which commands write it, how many they are, that they leave a sound record, and giving them to a flash.
#![tactic(auto)]

ghost use Rattle.std.specs.Prelude.{◌≡◌};
ghost use Rattle.writing.specs.Writing.{commands_of};
ghost use Rattle.writing.specs.Law.{Counts, SoundWhenDone};

use layout::sizes::{data_word_count, follower_count, head_word_count};

pub mod blocks;
pub mod bytes;
pub mod giving;
pub mod record;

/// How many commands write a record of this size, whatever its data and its blocks: the words of every block, and write end.
/// Done on free blocks, they leave a sound record with its number, serial, data and blocks, and no other word changed.
pub fn command_count(size: u16) -> u32
    ensures count { result ≡ commands_of size }
    ensures lists { Counts size result }
    ensures law { SoundWhenDone }
{
    let following: u32 = (0..follower_count(size))
        .map(|j| u32::from(data_word_count(size, j)))
        .sum();
    following + u32::from(head_word_count(size)) + 1
}
