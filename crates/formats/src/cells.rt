//! Kind 2, cells: five bytes a word, of which the first says whether it is written.
ghost use Rattle.std.specs.Prelude.{◌≡◌, cond, Some, None};
ghost use Rattle.formats.specs.Forms.{is_inside};
ghost use Rattle.formats.specs.Cells.{cells, cell_at};
ghost use Rattle.formats.specs.CellsLaw.{cells_lawful};

use crate::bytes;
use crate::format::Format;
use flash::BlockNumber;

// 16 words of five bytes.
const BLOCK_SIZE: usize = 80;

/// The format of cells.
#[derive(Clone, Copy)]
pub struct CellsFormat;

// Where the five bytes of a word begin, if the memory has it.
fn cell(memory: &[u8], block: BlockNumber, word: u8) -> Option<usize>
    ensures { result ≡ cond (is_inside cells memory.now block.0 word) (Some (cell_at block.0 word)) None }
{
    CellsFormat::has_word(memory, block, word).then_some(80 * block.0 as usize + 5 * word as usize)
}

impl Format for CellsFormat {
    const KIND: u8 = 2;

    ghost form = { cells };

    ghost lawful = { cells_lawful };

    fn kind_number() -> u8 {
        Self::KIND
    }

    fn block_size() -> usize {
        BLOCK_SIZE
    }

    fn word(memory: &[u8], block: BlockNumber, word: u8) -> Option<u32> {
        let at = cell(memory, block, word)?;
        if memory[at] == 0xFF {
            None
        } else {
            Some(bytes::read_four(memory, at + 1))
        }
    }

    fn put(memory: &mut [u8], block: BlockNumber, word: u8, value: Option<u32>) {
        let Some(at) = cell(memory, block, word) else {
            return;
        };
        match value {
            Some(v) => {
                memory[at] = 0;
                bytes::set_four(memory, at + 1, v);
            }
            None => {
                memory[at] = 0xFF;
                bytes::set_four(memory, at + 1, 0xFFFF_FFFF);
            }
        }
    }
}
