//! Examples of the kinds of flash and of clearing, with the bytes and faults written out by hand; and what a caller reads of a refusal.
#![tactic(auto)]

ghost use Rattle.std.specs.Prelude.{IfOk, IsTrue};

pub mod lent;

#[cfg(test)]
mod tests {
    use crate::lent::Lent;
    use clearing::{clear, mend};
    use flash::fault::{Cause, FlashFault};
    use flash::{BlockNumber, Flash, Place, Rehearsal};
    use formats::format::Format;
    use layout::plan::Plan;
    use pair::Pair;
    use part::Part;
    use simulated::{Cells, Image};
    use std::fmt::Debug;
    use std::test::Fail;

    const VALUE: u32 = 0x0403_0201;

    fn fault(cause: Cause, kind: u8, block: u16, word: u8) -> Result<(), FlashFault> {
        let block = BlockNumber(block);
        Err(FlashFault::new(cause, kind, Place { block, word }))
    }

    // A failure unless this holds.
    fn check(holds: bool) -> Result<(), Fail>
        ensures { IfOk result (λ _. IsTrue holds) }
    {
        if holds {
            Ok(())
        } else {
            Err(Fail::new("does not hold"))
        }
    }

    // A failure unless the two are equal.
    fn check_eq<T: PartialEq + Debug + Copy>(found: T, wanted: T) -> Result<(), Fail>
        ensures { IfOk result (λ _. IsTrue (T.eq found wanted)) }
    {
        if found == wanted {
            Ok(())
        } else {
            Err(Fail::new(format_args!("{found:?}, and not {wanted:?}")))
        }
    }

    // Word 9 of block 1, and every refusal around it, with the power lost in an erase at last.
    fn goes_by_the_rules<F: Flash>(flash: &mut F, kind: u8) -> Result<(), Fail> {
        let block = BlockNumber(1);
        check_eq(flash.block_count(), 3)?;
        check_eq(flash.erase(block), Ok(()))?;
        check_eq(flash.program(block, 9, VALUE), Ok(()))?;
        check_eq(flash.look(block, 9).ok(), Some(Some(VALUE)))?;
        check_eq(flash.look(block, 8).ok(), Some(None))?;
        check_eq(
            flash.program(block, 9, 7),
            fault(Cause::Written, kind, 1, 9),
        )?;
        check_eq(
            flash.program(BlockNumber(3), 16, 7),
            fault(Cause::Block, kind, 3, 16),
        )?;
        check_eq(flash.program(block, 16, 7), fault(Cause::Word, kind, 1, 16))?;
        check_eq(flash.erase(BlockNumber(3)), fault(Cause::Block, kind, 3, 0))?;
        flash.restore(Rehearsal {
            commands: 0,
            manner: 0x0100,
        });
        check_eq(flash.erase(block), fault(Cause::Power, kind, 1, 0))?;
        check_eq(flash.erase(BlockNumber(3)), fault(Cause::Power, kind, 0, 0))?;
        check(!flash.has_power())
    }

    // What a stopped program leaves in word 0 of block 2, in a manner.
    fn stopped<F: Flash>(flash: &mut F, manner: u32) -> Result<Option<u32>, Fail> {
        flash.restore(Rehearsal {
            commands: 1,
            manner,
        });
        check(flash.erase(BlockNumber(2)).is_ok())?;
        check(flash.program(BlockNumber(2), 0, VALUE).is_err())?;
        flash.restore(Rehearsal {
            commands: 0,
            manner: 0,
        });
        Ok(flash.look(BlockNumber(2), 0)?)
    }

    fn stops_in_each_manner<F: Flash>(flash: &mut F) -> Result<(), Fail> {
        check_eq(stopped(flash, 0)?, None)?;
        check_eq(stopped(flash, 1)?, Some(VALUE))?;
        check_eq(stopped(flash, 2)?, Some(2))?;
        check_eq(stopped(flash, 0xFFFF_FFFF)?, Some(0xFFFF_FFFF))
    }

    #[test]
    fn image_goes_by_the_rules(rt: HostRuntime) -> Result<(), Fail> {
        let mut flash = Image::new(vec![in rt.alloc(); 0x55u8; 198]?);
        assert_eq!(rt; Image::KIND, 1);
        goes_by_the_rules(&mut flash, 1)?;
        let bytes = flash.into_memory();
        assert!(rt; bytes.len() == 198);
        assert_eq!(rt;
            [bytes[63], bytes[64], bytes[99], bytes[104]],
            [0x55, 0xFF, 0xFF, 0xFF]
        );
        assert_eq!(rt;
            [bytes[100], bytes[101], bytes[102], bytes[103]],
            [1, 2, 3, 4]
        );
        assert_eq!(rt;
            [bytes[193], bytes[194], bytes[195], bytes[196]],
            [0x55, 0, 2, 0x55]
        );
        Ok(())
    }

    #[test]
    fn cells_go_by_the_rules(rt: HostRuntime) -> Result<(), Fail> {
        let mut flash = Cells::new(vec![in rt.alloc(); 0x55u8; 240]?);
        assert_eq!(rt; Cells::KIND, 2);
        goes_by_the_rules(&mut flash, 2)?;
        let bytes = flash.into_memory();
        assert!(rt; bytes.len() == 240);
        assert_eq!(rt;
            [bytes[79], bytes[80], bytes[124], bytes[130], bytes[160]],
            [0x55, 0xFF, 0xFF, 0xFF, 0x55]
        );
        assert_eq!(rt;
            [bytes[125], bytes[126], bytes[127], bytes[128], bytes[129]],
            [0, 1, 2, 3, 4]
        );
        Ok(())
    }

    #[test]
    fn both_stop_in_each_manner(rt: HostRuntime) -> Result<(), Fail> {
        stops_in_each_manner(&mut Image::new(vec![in rt.alloc(); 0u8; 198]?))?;
        stops_in_each_manner(&mut Cells::new(vec![in rt.alloc(); 0u8; 240]?))
    }

    // Blocks 1 and 2 of an image, then three blocks of cells.
    type Board = Pair<Part<Image>, Cells>;

    fn board(rt: &HostRuntime) -> Result<Board, Fail> {
        let part = Part::new(
            Image::new(vec![in rt.alloc(); 0x55u8; 264]?),
            BlockNumber(1),
            2,
        );
        Ok(Pair::new(part, Cells::new(vec![in rt.alloc(); 0x55u8; 240]?)))
    }

    // The bytes that the board's two chips are left with.
    fn bytes_of_both_chips(image: &[u8], cells: &[u8]) -> Result<(), Fail> {
        check(image.len() == 264 && cells.len() == 240)?;
        check_eq(
            [
                image[164], image[165], image[166], image[167], image[188], image[192],
            ],
            [1, 2, 3, 4, 0xAA, 0x55],
        )?;
        check_eq(
            [image[258], image[259], image[260], image[261], image[262]],
            [0x55, 0x55, 0, 0x82, 0x55],
        )?;
        check_eq(
            [cells[45], cells[46], cells[47], cells[48], cells[49]],
            [0, 1, 2, 3, 4],
        )?;
        check_eq(
            [cells[74], cells[75], cells[79], cells[80]],
            [0xFF, 0, 0xAA, 0x55],
        )
    }

    #[test]
    fn board_goes_to_the_right_chip(rt: HostRuntime) -> Result<(), Fail> {
        let mut flash = board(&rt)?;
        assert_eq!(rt; Board::KIND, 4);
        assert_eq!(rt; flash.block_count(), 5);
        assert_eq!(rt; clear(&mut flash, BlockNumber(1)), Ok(()));
        assert_eq!(rt; clear(&mut flash, BlockNumber(2)), Ok(()));
        assert_eq!(rt; flash.program(BlockNumber(1), 9, VALUE), Ok(()));
        assert_eq!(rt; flash.program(BlockNumber(2), 9, VALUE), Ok(()));
        assert_eq!(rt;
            flash.program(BlockNumber(2), 9, 7),
            fault(Cause::Written, 4, 2, 9)
        );
        assert_eq!(rt;
            flash.program(BlockNumber(5), 9, 7),
            fault(Cause::Block, 4, 5, 9)
        );
        assert_eq!(rt;
            clear(&mut flash, BlockNumber(5)),
            fault(Cause::Block, 4, 5, 14)
        );
        assert_eq!(rt;
            mend(&mut flash, BlockNumber(5)),
            fault(Cause::Block, 4, 5, 0)
        );
        let (part, cells) = flash.into_flashes();
        let image = part.into_below().into_memory();
        let cells = cells.into_memory();
        bytes_of_both_chips(&image, &cells)
    }

    #[test]
    fn board_loses_power_in_one_chip(rt: HostRuntime) -> Result<(), Fail> {
        let mut flash = board(&rt)?;
        flash.restore(Rehearsal {
            commands: 3,
            manner: 0x8001,
        });
        assert_eq!(rt; clear(&mut flash, BlockNumber(1)), Ok(()));
        assert_eq!(rt; mend(&mut flash, BlockNumber(3)), Ok(()));
        assert_eq!(rt;
            clear(&mut flash, BlockNumber(3)),
            fault(Cause::Power, 4, 3, 0)
        );
        assert!(rt; !flash.has_power());
        assert_eq!(rt;
            clear(&mut flash, BlockNumber(0)),
            fault(Cause::Power, 4, 0, 0)
        );
        let (part, cells) = flash.into_flashes();
        assert!(rt; part.has_power() && !cells.has_power());
        assert_eq!(rt; part.into_below().rehearsal().commands, 1);
        let mut flash = Pair::new(board(&rt)?.into_flashes().0, cells);
        flash.restore(Rehearsal {
            commands: 9,
            manner: 0,
        });
        assert!(rt; flash.has_power());
        assert_eq!(rt;
            flash.look(BlockNumber(3), 14).ok(),
            Some(Some(0xAAAA_AAAA))
        );
        assert_eq!(rt; flash.look(BlockNumber(3), 15).ok(), Some(None));
        Ok(())
    }

    #[test]
    fn parts_and_pairs_are_checked(rt: HostRuntime) -> Result<(), Fail> {
        let image = Image::new(vec![in rt.alloc(); 0u8; 264]?);
        let large = Cells::new(vec![in rt.alloc(); 0u8; 80 * 253]?);
        assert_eq!(rt; Part::check(&image, BlockNumber(1), 3), Ok(()));
        assert_eq!(rt;
            Part::check(&image, BlockNumber(1), 4),
            fault(Cause::Making, 3, 0, 0)
        );
        assert_eq!(rt;
            Part::check(&image, BlockNumber(65535), 65535),
            fault(Cause::Making, 3, 0, 0)
        );
        assert_eq!(rt; Pair::check(&image, &large), fault(Cause::Making, 4, 0, 0));
        let mut beyond = Part::new(image, BlockNumber(1), 4);
        assert_eq!(rt; beyond.block_count(), 0);
        assert_eq!(rt; beyond.erase(BlockNumber(0)), fault(Cause::Block, 3, 0, 0));
        beyond.restore(Rehearsal {
            commands: 7,
            manner: 8,
        });
        let image = beyond.into_below();
        assert_eq!(rt; image.rehearsal().commands, 7);
        let pair = Pair::new(image, large);
        assert_eq!(rt; pair.block_count(), 0);
        assert!(rt; pair.has_power());
        Ok(())
    }

    #[test]
    fn lengths_are_checked(rt: HostRuntime) -> Result<(), Fail> {
        for blocks in [3usize, 4, 255, 256] {
            assert_eq!(rt; Image::check(66 * blocks), Ok(()));
            assert_eq!(rt; Cells::check(80 * blocks), Ok(()));
        }
        for len in [0usize, 132, 197, 199, 240, 66 * 257] {
            assert_eq!(rt; Image::check(len), fault(Cause::Making, 1, 0, 0));
        }
        for len in [0usize, 160, 198, 239, 241, 80 * 257] {
            assert_eq!(rt; Cells::check(len), fault(Cause::Making, 2, 0, 0));
        }
        let flash = Image::new(vec![in rt.alloc(); 0u8; 240]?);
        assert_eq!(rt; flash.block_count(), 0);
        assert!(rt; flash.has_power());
        Ok(())
    }

    #[test]
    fn part_of_a_lent_flash(rt: HostRuntime) -> Result<(), Fail> {
        let mut image = Image::new(vec![in rt.alloc(); 0u8; 198]?);
        let mut part = Part::new(Lent::new(&mut image), BlockNumber(1), 2);
        check_eq(part.program(BlockNumber(1), 5, VALUE), Ok(()))?;
        let fault = fault(Cause::Block, 3, 2, 5);
        check_eq(part.program(BlockNumber(2), 5, VALUE), fault)?;
        check_eq(image.look(BlockNumber(2), 5), Ok(Some(VALUE)))?;
        check_eq(Part::<Image>::KIND, 3)?;
        check_eq(Lent::<Image>::KIND, 1)?;
        Ok(())
    }

    #[test]
    fn faults_and_places_as_text(rt: HostRuntime) -> Result<(), Fail> {
        let block = BlockNumber(3);
        let place = Place { block, word: 9 };
        let fault = FlashFault::new(Cause::Written, 4, place);
        assert_eq!(rt;
            format!(in rt.alloc(); "{fault}")?.as_str(),
            "refused with 4 (layer 1, kind 4)"
        );
        assert_eq!(rt;
            format!(in rt.alloc(); "{place}")?.as_str(),
            "block 3, word 9"
        );
        Ok(())
    }

    #[test]
    fn plan_of_a_size_of_0_as_text(rt: HostRuntime) -> Result<(), Fail> {
        let Err(fault) = Plan::new(&[0]) else {
            return Err(Fail::new("a plan was made"));
        };
        assert_eq!(rt;
            format!(in rt.alloc(); "{fault}")?.as_str(),
            "refused with 16 (layer 2, kind 0)"
        );
        Ok(())
    }
}
