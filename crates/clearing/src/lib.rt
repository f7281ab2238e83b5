//! Clearing and mending a block: how a block is made free, so that a loss of power on the way can be seen from its erase marks.
#![tactic(auto)]

ghost use Rattle.std.specs.Prelude.{◌≡◌, OnOk};
ghost use Rattle.flash.specs.Commands.{reached};
ghost use Rattle.flash.specs.Lists.{Told};
ghost use Rattle.clearing.specs.Clearing.{mark, mending, clearing, freed, Others};

use flash::fault::FlashFault;
use flash::{BlockNumber, Flash};

/// The word that says that an erase of its block was begun.
pub const ERASE_START: u8 = 14;

/// The word that says that an erase of its block came to its end.
pub const ERASE_END: u8 = 15;

/// What is programmed into a mark.
pub const MARK: u32 = 0xAAAA_AAAA;

/// Clears a block: programs erase start if it is blank, erases the block, and programs erase end.
/// It is refused as a look at erase start is.
pub fn clear<F: Flash>(flash: &mut F, block: BlockNumber) -> Result<(), FlashFault>
    ensures told { let s = F.model.meaning flash.old in Told F.model (reached F.model.kind s block.0 14) (clearing mark block.0 s.word) flash.old result flash.new }
    ensures freed { OnOk result (F.model.meaning flash.new ≡ freed mark block.0 (F.model.meaning flash.old)) }
    ensures others { Others block.0 (F.model.meaning flash.old) (F.model.meaning flash.new) }
{
    run_clearing(flash, block)
}

/// Mends a block whose erase was broken off: erases it and programs erase end.
/// It is refused as the erase is.
pub fn mend<F: Flash>(flash: &mut F, block: BlockNumber) -> Result<(), FlashFault>
    ensures told { Told F.model (reached F.model.kind (F.model.meaning flash.old) block.0 0) (mending mark block.0) flash.old result flash.new }
    ensures freed { OnOk result (F.model.meaning flash.new ≡ freed mark block.0 (F.model.meaning flash.old)) }
    ensures others { Others block.0 (F.model.meaning flash.old) (F.model.meaning flash.new) }
{
    run_mending(flash, block)
}

fn run_clearing<F: Flash>(flash: &mut F, block: BlockNumber) -> Result<(), FlashFault>
    ensures { let s = F.model.meaning flash.old in Told F.model (reached F.model.kind s block.0 14) (clearing mark block.0 s.word) flash.old result flash.new }
{
    if flash.look(block, ERASE_START)?.is_none() {
        flash.program(block, ERASE_START, MARK)?;
    }
    run_mending(flash, block)
}

fn run_mending<F: Flash>(flash: &mut F, block: BlockNumber) -> Result<(), FlashFault>
    ensures { Told F.model (reached F.model.kind (F.model.meaning flash.old) block.0 0) (mending mark block.0) flash.old result flash.new }
{
    flash.erase(block)?;
    flash.program(block, ERASE_END, MARK)
}
