//! A flash that is lent: it borrows the flash below, which its owner has back afterwards. An example of a flash that borrows.
ghost use Rattle.std.specs.Prelude.{◌≡◌};
ghost use Rattle.trials.specs.Lending.{lending};

use flash::fault::FlashFault;
use flash::{BlockNumber, Flash, Rehearsal};

/// A borrowed flash.
#[derive(Drop)]
pub struct Lent<'a, F> {
    below: &'a mut F,
}

impl<'a, F: Flash> Lent<'a, F> {
    /// The flash below, lent.
    pub fn new(below: &'a mut F) -> Lent<'a, F>
        ensures flash { result.below.now ≡ below.old }
        ensures lends { result.below.ghost_name ≡ below.entry.ghost_name }
    {
        Lent { below }
    }
}

impl<F: Flash> Flash for Lent<'_, F> {
    const KIND: u8 = F::KIND;

    ghost model = { lending F.Flash.model };

    fn kind_number() -> u8
        ensures { result ≡ (lending F.Flash.model).kind }
    {
        F::kind_number()
    }

    fn block_count(&self) -> u16 {
        self.below.block_count()
    }

    fn has_power(&self) -> bool {
        self.below.has_power()
    }

    fn look(&self, block: BlockNumber, word: u8) -> Result<Option<u32>, FlashFault> {
        self.below.look(block, word)
    }

    fn program(&mut self, block: BlockNumber, word: u8, value: u32) -> Result<(), FlashFault> {
        self.below.program(block, word, value)
    }

    fn erase(&mut self, block: BlockNumber) -> Result<(), FlashFault> {
        self.below.erase(block)
    }

    fn restore(&mut self, rehearsal: Rehearsal) {
        self.below.restore(rehearsal);
    }
}
