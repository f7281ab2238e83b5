//! The task: every block is cleared for use, and then a note is programmed into one block, word by word.
use clearing::{ERASE_END, MARK, clear};
use flash::fault::FlashFault;
use flash::{BlockNumber, Flash};

// 13 words of four bytes.
const NOTE: [u8; 52] = *b"Row F: 7 wheelchair, 8 companion; held for the 19:30";

// Word `w` of the note.
fn note_word(w: u8) -> Option<u32> {
    let (words, _) = NOTE.as_chunks::<4>();
    Some(u32::from_le_bytes(*words.get(w as usize)?))
}

/// What the task leaves in a word, if anything, where the note is kept in block `home`.
pub(crate) fn given(home: BlockNumber, block: BlockNumber, word: u8) -> Option<u32> {
    if word == ERASE_END {
        return Some(MARK);
    }
    if block == home { note_word(word) } else { None }
}

// Programs the words of the note.
fn write<F: Flash>(flash: &mut F, home: BlockNumber) -> Result<(), FlashFault> {
    for w in 0..16u8 {
        if let Some(value) = note_word(w) {
            flash.program(home, w, value)?;
        }
    }
    Ok(())
}

/// Clears every block and programs the note, up to the first command that is not done.
pub(crate) fn keep<F: Flash>(flash: &mut F, home: BlockNumber) -> Result<(), FlashFault> {
    for b in 0..flash.block_count() {
        clear(flash, BlockNumber(b))?;
    }
    write(flash, home)
}
