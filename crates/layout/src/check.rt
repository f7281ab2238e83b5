//! The check of a block's own words: whether it is a first block of a data number, or a following block of a record.
ghost use Rattle.std.specs.Prelude.{◌≡◌, ◌&&◌};
ghost use Rattle.layout.specs.Sound.{candidate, coded, follows};
ghost use Rattle.layout.specs.Plans.{sizes_of};
ghost use Rattle.layout.specs.Reads.{words_of};

use crate::block::BlockWords;
use crate::block_type::BlockType;
use crate::code::code;
use crate::plan::{DataNumber, Plan};
use crate::sizes::{data_word_count, first_type_of, head_word_count};

// The words that say that an erase was begun, and that it came to its end.
pub use clearing::{ERASE_END, ERASE_START};

/// The word that says that a record was written to its end.
pub const WRITE_END: u8 = 13;

/// Whether a block's own words make it a first block of a data number, with the right code.
#[tactic(auto, using(crate::proofs::Firsts::fields_told, std::proofs::lemmas::Bool::Decides::nat_tests), unfolding(crate::specs::Sound::candidate, crate::specs::Sound::coded))]
pub fn is_first_block(plan: &Plan, number: DataNumber, block: &BlockWords) -> bool
    ensures { let m = words_of block.now in result ≡ (candidate (sizes_of plan.now) number.0 m && coded m) }
{
    let Some(size) = plan.size(number) else {
        return false;
    };
    let Some(fields) = block.fields() else {
        return false;
    };
    // By `let .. else`, as the fields: a rule of the project (docs/DECISIONS.md).
    let Some(_) = block.word(WRITE_END) else {
        return false;
    };
    let head = head_word_count(size);
    fields.kind == u8::from(first_type_of(size))
        && fields.number == number
        && fields.code == code(fields.number, fields.serial)
        && block.all_written(0, head)
        && block.all_blank(head, WRITE_END)
        && !block.written(ERASE_START)
        && block.written(ERASE_END)
}

/// Whether a block's own words make it following block `j` of a record of this size.
#[tactic(auto, using(std::proofs::lemmas::Bool::Decides::nat_tests), unfolding(crate::specs::Sound::follows))]
pub fn is_following(size: u16, j: u16, block: &BlockWords) -> bool
    ensures { result ≡ follows size j (words_of block.now) }
{
    let words = data_word_count(size, j);
    block.kind() == u8::from(BlockType::Following)
        && block.all_written(0, words)
        && block.all_blank(words, ERASE_START)
        && !block.written(ERASE_START)
        && block.written(ERASE_END)
}
