//! The table of a flash: for each word, whether it is blank, as given, or other than given.
ghost use Rattle.std.specs.Prelude.{◌≡◌};
ghost use Rattle.rehearse.specs.Readings.{reading};

use crate::note;
use flash::{BlockNumber, Flash};
use std::{fmt, io};

/// What a word reads as, beside what it was given.
#[derive(Clone, Copy)]
pub enum Reading {
    Blank,
    AsGiven,
    Other,
}

impl fmt::Display for Reading {
    fn fmt<W: fmt::Write>(&self, f: &mut fmt::Formatter<W>) -> fmt::Result {
        f.write_str(match self {
            Reading::Blank => ".",
            Reading::AsGiven => "=",
            Reading::Other => "x",
        })
    }
}

fn read(given: Option<u32>, found: Option<u32>) -> Reading
    ensures { result ≡ reading given found }
{
    match (given, found) {
        (_, None) => Reading::Blank,
        (Some(g), Some(v)) if g == v => Reading::AsGiven,
        (_, Some(_)) => Reading::Other,
    }
}

// Prints a row of 16 readings; a word that cannot be looked at shows as a question mark.
fn print_row<F: Flash>(
    rt: &HostRuntime,
    flash: &F,
    home: BlockNumber,
    block: BlockNumber,
) -> io::Result<()> {
    print!(rt; "  block {block}  ")?;
    for w in 0..16u8 {
        match flash.look(block, w) {
            Ok(found) => {
                let reading = read(note::given(home, block, w), found);
                print!(rt; "{reading}")?;
            }
            Err(_) => print!(rt; "?")?,
        }
    }
    println!(rt; "")
}

/// Prints a row for each block, where the note is kept in block `home`.
pub(crate) fn print_all<F: Flash>(
    rt: &HostRuntime,
    flash: &F,
    home: BlockNumber,
) -> io::Result<()> {
    for b in 0..flash.block_count() {
        print_row(rt, flash, home, BlockNumber(b))?;
    }
    Ok(())
}
