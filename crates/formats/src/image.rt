//! Kind 1, an image: the 64 bytes of every block, then two bytes a block with a bit for each word that is written.
ghost use Rattle.std.specs.Prelude.{◌≡◌, cond, Some, None};
ghost use Rattle.formats.specs.Forms.{is_inside};
ghost use Rattle.formats.specs.Image.{image, image_blocks, word_at, mark_at};
ghost use Rattle.formats.specs.ImageLaw.{image_lawful};

use crate::bytes;
use crate::format::{Format, blocks_of};
use flash::BlockNumber;

// Its 64 bytes, and 16 bits.
const BLOCK_SIZE: usize = 66;

/// The format of an image.
#[derive(Clone, Copy)]
pub struct ImageFormat;

// Where the four bytes of a word begin, and which byte has its bit, if the memory has the word.
fn places(memory: &[u8], block: BlockNumber, word: u8) -> Option<(usize, usize)>
    ensures { result ≡ cond (is_inside image memory.now block.0 word) (Some (word_at block.0 word, mark_at (image_blocks memory.now) block.0 word)) None }
{
    if !ImageFormat::has_word(memory, block, word) {
        return None;
    }
    let blocks = blocks_of(BLOCK_SIZE, memory.len());
    let at = 64 * block.0 as usize + 4 * word as usize;
    let mark = 64 * blocks as usize + 2 * block.0 as usize + word as usize / 8;
    Some((at, mark))
}

impl Format for ImageFormat {
    const KIND: u8 = 1;

    ghost form = { image };

    ghost lawful = { image_lawful };

    fn kind_number() -> u8 {
        Self::KIND
    }

    fn block_size() -> usize {
        BLOCK_SIZE
    }

    fn word(memory: &[u8], block: BlockNumber, word: u8) -> Option<u32> {
        let (at, mark) = places(memory, block, word)?;
        if bytes::has_bit(memory[mark] as u32, word % 8) {
            Some(bytes::read_four(memory, at))
        } else {
            None
        }
    }

    fn put(memory: &mut [u8], block: BlockNumber, word: u8, value: Option<u32>) {
        let Some((at, mark)) = places(memory, block, word) else {
            return;
        };
        match value {
            Some(v) => {
                bytes::set_four(memory, at, v);
                bytes::set_bit(memory, mark, word % 8, true);
            }
            None => {
                bytes::set_four(memory, at, 0xFFFF_FFFF);
                bytes::set_bit(memory, mark, word % 8, false);
            }
        }
    }
}
