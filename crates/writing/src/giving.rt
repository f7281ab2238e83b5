//! Giving the commands of a record to a flash: the words of its following blocks, then those of its first block, write end last.
ghost use Rattle.flash.specs.Lists.{Tried};
ghost use Rattle.layout.specs.Sizes.{data_words};
ghost use Rattle.writing.specs.Listed.{listed};
ghost use Rattle.writing.specs.Writing.{follow_bytes, programs, first_commands_by_size, record_on};

use crate::bytes::{first_bytes, follow_bytes, word};
use crate::record::NewRecord;
use clearing::MARK;
use flash::fault::FlashFault;
use flash::{BlockNumber, Flash};
use layout::check::WRITE_END;
use layout::sizes::{data_word_count, head_word_count};

/// Writes a record: its following blocks in the order of its chain, then its first block. Without blocks there is nothing to write.
/// It stops at the first command that is not done.
pub fn write_record<F: Flash>(
    flash: &mut F,
    record: &NewRecord,
    data: &[u8],
) -> Result<(), FlashFault>
    ensures { let r = «record».now in Tried F.model (record_on r.size r.number.0 r.serial «data».now (listed r.blocks)) flash.old result flash.new }
{
    let Some((first, following)) = record.blocks.as_slice().split_first() else {
        return Ok(());
    };
    // By its place, which says too how much of the data the block has, and not by a second iterator beside.
    for (j, block) in following.iter().enumerate() {
        let next = following.get(j + 1).unwrap_or(first);
        write_following(flash, record.size, j as u16, *block, *next, data)?;
    }
    let next = following.first().unwrap_or(first);
    write_first(flash, record, *first, *next, data)
}

// Writes the first block of a record: its words, and then write end.
fn write_first<F: Flash>(
    flash: &mut F,
    record: &NewRecord,
    block: BlockNumber,
    next: BlockNumber,
    data: &[u8],
) -> Result<(), FlashFault>
    ensures { let r = «record».now in Tried F.model (first_commands_by_size r.size r.number.0 r.serial «data».now block.0 next.0) flash.old result flash.new }
{
    let bytes = first_bytes(record.size, record.number, record.serial, next, data);
    program_words(flash, block, bytes.as_slice(), head_word_count(record.size))?;
    flash.program(block, WRITE_END, MARK)
}

// Writes following block `j` of a record of a size.
fn write_following<F: Flash>(
    flash: &mut F,
    size: u16,
    j: u16,
    block: BlockNumber,
    next: BlockNumber,
    data: &[u8],
) -> Result<(), FlashFault>
    ensures { Tried F.model (programs block.0 (follow_bytes size j next.0 «data».now) (data_words size j)) flash.old result flash.new }
{
    let bytes = follow_bytes(size, j, next, data);
    program_words(flash, block, bytes.as_slice(), data_word_count(size, j))
}

// Programs the first words of a block, in ascending order.
fn program_words<F: Flash>(
    flash: &mut F,
    block: BlockNumber,
    bytes: &[u8],
    count: u8,
) -> Result<(), FlashFault>
    ensures { Tried F.model (programs block.0 bytes.now count) flash.old result flash.new }
{
    for w in 0..count {
        flash.program(block, w, word(bytes, w))?;
    }
    Ok(())
}
