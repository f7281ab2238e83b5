//! Rehearses a loss of power on simulated flashes and shows what it left.
//! Arguments: how many commands are done before power goes in the next one, and the manner in which it goes.
#![tactic(auto)]

use anyhow::anyhow;
use flash::fault::{FlashFault, Report};
use flash::{BlockNumber, Flash, Rehearsal};
use pair::Pair;
use part::Part;
use simulated::{Cells, Image};
use std::{env, io};

mod note;
mod table;

// Power goes in the fourth word of the note, which then reads as another number.
const UNASKED: Rehearsal = Rehearsal {
    commands: 12,
    manner: 0xDEAD_BEEF,
};

// Power stays, as far as anyone can count. A new flash begins so too; this is what the program asks for.
const NO_LOSS: Rehearsal = Rehearsal {
    commands: u32::MAX,
    manner: 0,
};

// The rehearsal that the arguments ask for.
fn asked(rt: &HostRuntime) -> anyhow::Result<Rehearsal> {
    let mut args = env::args(rt)?;
    let Some(commands) = args.nth(1) else {
        return Ok(UNASKED);
    };
    let Some(manner) = args.next() else {
        return Err(anyhow!("give two numbers: commands done before power goes, and the manner"));
    };
    Ok(Rehearsal {
        commands: commands.as_str().parse::<u32>()?,
        manner: manner.as_str().parse::<u32>()?,
    })
}

// Says how the task ended, and where.
fn tell(rt: &HostRuntime, ended: Result<(), FlashFault>) -> io::Result<()> {
    match ended {
        Ok(()) => println!(rt; "Every command was done."),
        Err(fault) => {
            let seen = Report::from(fault);
            let place = seen.place;
            println!(rt; "Refused with {seen} at {place}.")
        }
    }
}

// Says what the word reads in which a command was stopped.
fn tell_word<F: Flash>(rt: &HostRuntime, flash: &F, fault: FlashFault) -> io::Result<()> {
    match flash.look(fault.place.block, fault.place.word) {
        Ok(Some(value)) => println!(rt; "That word reads {value:#010x}."),
        Ok(None) => println!(rt; "That word is blank."),
        Err(fault) => tell(rt, Err(fault)),
    }
}

// Flash and home apart, here and below: between two uses the flash alone is restored and looked at.
//
// Keeps the note, says how that ended, and shows what it left; power is returned first if it went.
fn keep<F: Flash>(
    rt: &HostRuntime,
    flash: &mut F,
    home: BlockNumber,
    rehearsal: Rehearsal,
) -> io::Result<()> {
    flash.restore(rehearsal);
    let ended = note::keep(flash, home);
    tell(rt, ended)?;
    if let Err(fault) = ended {
        flash.restore(NO_LOSS);
        println!(rt; "Power returned.")?;
        tell_word(rt, flash, fault)?;
    }
    table::print_all(rt, flash, home)
}

// Keeps a note on a flash, keeps it again with power lost on the way, and once more.
fn rehearse<F: Flash>(
    rt: &HostRuntime,
    flash: &mut F,
    home: BlockNumber,
    rehearsal: Rehearsal,
) -> io::Result<()> {
    let Rehearsal { commands, manner } = rehearsal;
    table::print_all(rt, flash, home)?;
    println!(rt; "Clearing the blocks and programming a note into block {home}.")?;
    keep(rt, flash, home, NO_LOSS)?;
    println!(rt;
        "The same again; power goes after {commands} commands of a chip, in manner {manner:#x}."
    )?;
    keep(rt, flash, home, rehearsal)?;
    println!(rt; "The same again, with power kept.")?;
    keep(rt, flash, home, NO_LOSS)
}

fn run(rt: &HostRuntime) -> anyhow::Result<()> {
    let rehearsal = asked(rt)?;
    println!(rt; "A word shows as . blank, = as given, x other than given.")?;
    println!(rt; "")?;
    println!(rt; "An image of 3 blocks.")?;
    let mut image = Image::new(vec![in rt.alloc(); 0u8; 198]?);
    rehearse(rt, &mut image, BlockNumber(0), rehearsal)?;
    println!(rt; "")?;
    println!(rt; "A board of two chips: blocks 1 and 2 of an image of 4, then 3 blocks of cells.")?;
    let part = Part::new(
        Image::new(vec![in rt.alloc(); 0u8; 264]?),
        BlockNumber(1),
        2,
    );
    let mut board = Pair::new(part, Cells::new(vec![in rt.alloc(); 0xFFu8; 240]?));
    rehearse(rt, &mut board, BlockNumber(2), rehearsal)?;
    Ok(())
}

fn main(rt: HostRuntime) -> anyhow::Result<()> {
    run(&rt)
}
