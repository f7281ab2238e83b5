//! Reads an image of a small house and shows the value of each data number and the states of the blocks.
//! Argument: the path of the image, `house.img` without one.
#![tactic(auto)]

use layout::plan::Plan;
use records::store::Store;
use simulated::Image;
use std::{env, fs};

mod blocks;
mod contents;

// The sizes of the house's numbers, from number 0.
const SIZES: [u16; 4] = [5, 60, 3, 1];

// The bytes of the file that the argument names, or of `house.img`.
fn read_file(rt: &HostRuntime) -> anyhow::Result<Vec<u8>> {
    let path = env::args(rt)?.nth(1);
    match path {
        Some(path) => Ok(fs::read(rt, path.as_str())?),
        None => Ok(fs::read(rt, "house.img")?),
    }
}

// The flash in the file's bytes, unless they are no image.
fn open(memory: Vec<u8>) -> anyhow::Result<Image> {
    Image::check(memory.len())?;
    Ok(Image::new(memory))
}

fn run(rt: &HostRuntime) -> anyhow::Result<()> {
    let plan = Plan::new(&SIZES)?;
    let image = open(read_file(rt)?)?;
    let store = Store {
        flash: &image,
        plan: &plan,
    };
    contents::print_all(rt, &store)?;
    blocks::print_all(rt, &store)?;
    Ok(())
}

fn main(rt: HostRuntime) -> anyhow::Result<()> {
    run(&rt)
}
