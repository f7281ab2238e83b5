//! Asking for power, and reading the words of a block.
ghost use Rattle.flash.specs.State.{Shaped};
ghost use Rattle.records.specs.Answered.{Answers, Read};

use flash::fault::FlashFault;
use flash::{BlockNumber, Flash};
use layout::block::BlockWords;

/// The flash's own fault where power is off. Apart from `Flash::reach`, which asks for a place too.
pub fn ask_power<F: Flash>(flash: &F) -> Result<(), FlashFault>
    ensures answer { Answers F.model.kind (F.model.meaning flash.now) tt result }
    ensures shape { Shaped (F.model.meaning flash.now) }
{
    if flash.has_power() {
        return Ok(());
    }
    Err(FlashFault::unpowered(F::kind_number()))
}

/// The words of a block.
pub fn read_block<F: Flash>(flash: &F, block: BlockNumber) -> Result<BlockWords, FlashFault>
    ensures { Read F.model.kind (F.model.meaning flash.now) block.0 result }
{
    ask_power(flash)?;
    let mut words = [None; 16];
    // By index: after `iter_mut().enumerate()` a proof knows nothing of the words, and `array::try_from_fn` does not say whose answers it took.
    for w in 0..16u8 {
        words[w as usize] = flash.look(block, w)?;
    }
    Ok(BlockWords { words })
}
