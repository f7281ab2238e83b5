//! Two simulated flashes: kind 1, an image, and kind 2, cells.
//! They own the bytes of their memory, hand them back, and can rehearse a loss of power.
#![tactic(auto)]

ghost use Rattle.std.specs.Prelude.{◌≡◌};
ghost use Rattle.simulated.specs.Rehearsed.{checked, fresh};
ghost use Rattle.simulated.specs.Flashes.{held};

use flash::fault::{Cause, FlashFault};
use flash::{Place, Rehearsal};
use formats::cells::CellsFormat;
use formats::format::{Format, count_blocks};
use formats::image::ImageFormat;
use std::marker::PhantomData;

pub mod run;

/// A flash in the bytes of a memory, which it owns.
#[derive(Drop)]
pub struct Simulated<F> {
    memory: Vec<u8>,
    power: bool,
    rehearsal: Rehearsal,
    format: PhantomData<F>,
}

/// Kind 1.
pub type Image = Simulated<ImageFormat>;

/// Kind 2.
pub type Cells = Simulated<CellsFormat>;

impl<F: Format> Simulated<F> {
    /// Whether a memory of so many bytes holds a flash.
    pub fn check(len: usize) -> Result<(), FlashFault>
        ensures { result ≡ checked F.form len }
    {
        if count_blocks::<F>(len) == 0 {
            return Err(FlashFault::new(Cause::Making, F::kind_number(), Place::NONE));
        }
        Ok(())
    }

    /// The flash in this memory, with power on; without blocks where the check refuses the memory.
    pub fn new(memory: Vec<u8>) -> Simulated<F>
        ensures { held result ≡ fresh memory.items }
    {
        Simulated {
            memory,
            power: true,
            rehearsal: Rehearsal {
                commands: u32::MAX,
                manner: 0,
            },
            format: PhantomData,
        }
    }

    /// The memory, handed back.
    pub fn into_memory(self) -> Vec<u8>
        ensures { result.items ≡ (held self).bytes }
    {
        let Simulated { memory, .. } = self;
        memory
    }

    /// The bytes of the memory as they are now.
    pub fn memory(&self) -> &[u8]
        ensures { result.now ≡ (held self.now).bytes }
    {
        self.memory.as_slice()
    }

    /// How many commands are left before power goes, and in which manner it will.
    pub fn rehearsal(&self) -> Rehearsal
        ensures { result ≡ (held self.now).rehearsal }
    {
        self.rehearsal
    }
}
