//! A flash that counts the looks at it, and how many looks a survey makes.
#![tactic(auto)]

ghost use Rattle.std.specs.Prelude.{◌≡◌};
ghost use Rattle.looks.specs.Counting.{counting};

use flash::fault::FlashFault;
use flash::{BlockNumber, Flash, Rehearsal};
use std::cell::Cell;

/// The flash below, with a count of the looks at it.
#[derive(Drop)]
pub struct Counting<F> {
    below: F,
    looks: Cell<u32>,
}

impl<F: Flash> Counting<F> {
    /// No look was made yet.
    pub fn new(below: F) -> Counting<F>
        ensures { result.below ≡ below }
    {
        Counting {
            below,
            looks: Cell::new(0),
        }
    }

    /// How many looks were made.
    pub fn looks(&self) -> u32 {
        self.looks.get()
    }
}

impl<F: Flash> Flash for Counting<F> {
    const KIND: u8 = F::KIND;

    ghost model = { counting F.Flash.model };

    fn kind_number() -> u8 {
        F::kind_number()
    }

    fn block_count(&self) -> u16 {
        self.below.block_count()
    }

    fn has_power(&self) -> bool {
        self.below.has_power()
    }

    fn look(&self, block: BlockNumber, word: u8) -> Result<Option<u32>, FlashFault> {
        self.looks.set(self.looks.get().saturating_add(1));
        self.below.look(block, word)
    }

    fn program(&mut self, block: BlockNumber, word: u8, value: u32) -> Result<(), FlashFault> {
        self.below.program(block, word, value)
    }

    fn erase(&mut self, block: BlockNumber) -> Result<(), FlashFault> {
        self.below.erase(block)
    }

    fn restore(&mut self, rehearsal: Rehearsal) {
        self.below.restore(rehearsal);
    }
}

#[cfg(test)]
mod tests {
    use super::*;
    use formats::format::Format;
    use layout::code::code;
    use layout::plan::{DataNumber, Plan};
    use records::store::Store;
    use simulated::Image;
    use std::test::Fail;
    use survey::found::count_states;
    use survey::table::Counts;

    type House = Counting<Image>;

    // 256 blocks, all blank.
    fn blank(rt: &HostRuntime) -> Result<House, Fail> {
        Ok(Counting::new(Image::new(vec![in rt.alloc(); 0u8; 16896]?)))
    }

    // A following block: type 3, chain, and data up to word `words`.
    fn put_following(flash: &mut House, block: u16, chain: u16, words: u8) -> Result<(), Fail> {
        let at = BlockNumber(block);
        let [lo, hi] = chain.to_le_bytes();
        flash.program(at, 0, u32::from_le_bytes([3, lo, hi, 0]))?;
        for w in 1..words {
            flash.program(at, w, 0)?;
        }
        Ok(flash.program(at, 15, 0xAAAA_AAAA)?)
    }

    // The first block of a long record of 1,024 bytes of number 0.
    fn put_first(flash: &mut House, block: u16, chain: u16, serial: u32) -> Result<(), Fail> {
        let at = BlockNumber(block);
        let [lo, hi] = chain.to_le_bytes();
        let [s0, s1, s2, s3] = serial.to_le_bytes();
        let [c0, c1] = code(DataNumber(0), serial).to_le_bytes();
        flash.program(at, 0, u32::from_le_bytes([2, lo, hi, 0]))?;
        flash.program(at, 1, u32::from_le_bytes([0, s0, s1, s2]))?;
        flash.program(at, 2, u32::from_le_bytes([s3, c0, c1, 0]))?;
        for w in 3..14u8 {
            flash.program(at, w, 0)?;
        }
        Ok(flash.program(at, 15, 0xAAAA_AAAA)?)
    }

    fn states(flash: &House) -> Result<Counts, Fail> {
        let plan = Plan::new(&[1024])?;
        let store = Store { flash, plan: &plan };
        Ok(count_states(&store)?)
    }

    // 255 first blocks that each lead 19 times through one following block and never back.
    #[test]
    fn the_worst_contents(rt: HostRuntime) -> Result<(), Fail> {
        let mut flash = blank(&rt)?;
        put_following(&mut flash, 0, 0, 14)?;
        for b in 1..256u16 {
            put_first(&mut flash, b, 0, b as u32)?;
        }
        let counts = states(&flash)?;
        assert_eq!(rt; counts.spent, 256);
        assert_eq!(rt; flash.looks(), 255 * 320 + 16);
        assert!(rt; flash.looks() <= 320 * 256);
        Ok(())
    }

    // 12 records of 20 blocks each, all but one of them old, and 16 blocks that were never used.
    #[test]
    fn well_filled(rt: HostRuntime) -> Result<(), Fail> {
        let mut flash = blank(&rt)?;
        for r in 0..12u16 {
            let first = 20 * r;
            for j in 1..20u16 {
                let next = if j == 19 { first } else { first + j + 1 };
                put_following(&mut flash, first + j, next, if j == 19 { 8 } else { 14 })?;
            }
            put_first(&mut flash, first, first + 1, r as u32 + 1)?;
        }
        let counts = states(&flash)?;
        assert_eq!(rt;
            [counts.live, counts.free, counts.half_erased, counts.spent],
            [20, 0, 16, 220]
        );
        assert_eq!(rt; flash.looks(), 256 * 16 + 12 * 19 * 16 + 20 * 16);
        Ok(())
    }
}
