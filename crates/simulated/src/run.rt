//! What a simulated flash does when it is called: the flash rules, with a loss of power as rehearsed.
ghost use Rattle.std.specs.Prelude.{◌≡◌, ◌^◌, ◌<◌, ltb, if◌then◌else◌, Ok, Err, nat_lt};
ghost use Rattle.flash.specs.declared.fault.FlashFault.{FlashFault};
ghost use Rattle.flash.specs.Commands.{Command, looked, verdict};
ghost use Rattle.flash.specs.Rules.{Obeys};
ghost use Rattle.formats.specs.Forms.{blocks};
ghost use Rattle.simulated.specs.Rehearsed.{with_bytes, meant, blanked, taken, off, Exact};
ghost use Rattle.simulated.specs.Flashes.{held, simulation};

use crate::Simulated;
use flash::fault::{Cause, FlashFault};
use flash::{BlockNumber, Flash, Place, Rehearsal};
use formats::format::{Format, count_blocks};

impl<F: Format> Simulated<F> {
    // Writes a word, or makes it blank.
    fn put(&mut self, block: BlockNumber, word: u8, value: Option<u32>)
        ensures { let h = held self.old in held self.new ≡ with_bytes (F.form.put_word h.bytes block.0 word value) h }
    {
        F::put(self.memory.as_mut_slice(), block, word, value);
    }

    // Makes each word of a block blank whose bit is 1.
    fn blank(&mut self, block: BlockNumber, marks: u32)
        ensures { let h = held self.old in held self.new ≡ with_bytes (blanked F.form h.bytes block.0 marks 16) h }
    {
        for w in 0..16u8 {
            if (marks >> w) % 2 == 1 {
                self.put(block, w, None);
            }
        }
    }

    // Whether a rehearsed command is left, which is then taken; otherwise power goes.
    fn power_holds(&mut self) -> bool
        ensures answer { result ≡ nat_lt 0 self.old.rehearsal.commands }
        ensures holds { let h = held self.old in held self.new ≡ (if ltb 0 self.old.rehearsal.commands then taken h else off h) }
    {
        if self.rehearsal.commands == 0 {
            self.power = false;
            return false;
        }
        self.rehearsal.commands -= 1;
        true
    }

    // Programs a word, or loses power in it as rehearsed.
    fn run_program(&mut self, block: BlockNumber, word: u8, value: u32) -> Result<(), FlashFault>
        ensures exact { Exact F.form (Command.program block.0 word value) (held self.old) result (held self.new) }
        ensures same { (f : FlashFault) → verdict F.form.kind (Command.program block.0 word value) (meant F.form (held self.old)) ≡ Err f → self.new ≡ self.old }
        ensures fits { self.old.rehearsal.manner < 2 ^ 32 }
    {
        let manner = self.rehearsal.manner;
        let place = Place { block, word };
        if self.look(block, word)?.is_some() {
            return Err(FlashFault::new(Cause::Written, F::kind_number(), place));
        }
        if self.power_holds() {
            self.put(block, word, Some(value));
            return Ok(());
        }
        if manner != 0 {
            self.put(block, word, Some(if manner == 1 { value } else { manner }));
        }
        Err(FlashFault::new(Cause::Power, F::kind_number(), place))
    }

    // Erases a block, or loses power in it as rehearsed.
    fn run_erase(&mut self, block: BlockNumber) -> Result<(), FlashFault>
        ensures exact { Exact F.form (Command.erase block.0) (held self.old) result (held self.new) }
        ensures same { (f : FlashFault) → verdict F.form.kind (Command.erase block.0) (meant F.form (held self.old)) ≡ Err f → self.new ≡ self.old }
    {
        let _ = self.look(block, 0)?;
        if self.power_holds() {
            self.blank(block, 0xFFFF);
            return Ok(());
        }
        self.blank(block, self.rehearsal.manner);
        Err(FlashFault::new(Cause::Power, F::kind_number(), Place { block, word: 0 }))
    }
}

impl<F: Format> Flash for Simulated<F> {
    const KIND: u8 = F::KIND;

    ghost model = { simulation F.Format.form };

    fn kind_number() -> u8 {
        F::kind_number()
    }

    fn block_count(&self) -> u16 {
        count_blocks::<F>(self.memory.len())
    }

    fn has_power(&self) -> bool {
        self.power
    }

    fn look(&self, block: BlockNumber, word: u8) -> Result<Option<u32>, FlashFault> {
        self.reach(block, word)?;
        Ok(F::word(self.memory(), block, word))
    }

    fn program(&mut self, block: BlockNumber, word: u8, value: u32) -> Result<(), FlashFault>
        ensures rules { Obeys (simulation F.form) (Command.program block.0 word value) self.old result self.new }
        ensures exact { Exact F.form (Command.program block.0 word value) (held self.old) result (held self.new) }
    {
        self.run_program(block, word, value)
    }

    fn erase(&mut self, block: BlockNumber) -> Result<(), FlashFault>
        ensures rules { Obeys (simulation F.form) (Command.erase block.0) self.old result self.new }
        ensures exact { Exact F.form (Command.erase block.0) (held self.old) result (held self.new) }
    {
        self.run_erase(block)
    }

    fn restore(&mut self, rehearsal: Rehearsal) {
        self.power = true;
        self.rehearsal = rehearsal;
    }
}
