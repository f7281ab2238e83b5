//! The value of each data number, as text.
use flash::Flash;
use layout::plan::DataNumber;
use records::store::Store;
use std::io;
use values::{CopyFault, copy_value};

// No value is larger.
const LARGEST: usize = 1024;

// Prints a value, or says that it is not text.
fn print_text(rt: &HostRuntime, number: DataNumber, value: &[u8]) -> io::Result<()> {
    match std::str::from_utf8(value) {
        Ok(text) => println!(rt; "number {number}: {text}"),
        Err(_) => println!(rt; "number {number}: not text"),
    }
}

// Prints the value of a number.
fn print_value<F: Flash>(
    rt: &HostRuntime,
    store: &Store<F>,
    number: DataNumber,
) -> anyhow::Result<()> {
    let size = store.plan.size(number).unwrap_or(0);
    let mut buffer = [0; LARGEST];
    match copy_value(store, number, &mut buffer) {
        Ok(()) => print_text(rt, number, &buffer[..size as usize])?,
        Err(CopyFault::NoValue) => println!(rt; "number {number}: no value")?,
        Err(CopyFault::TooShort) => println!(rt; "number {number}: larger than {LARGEST} bytes")?,
        Err(CopyFault::Flash(fault)) => return Err(fault.into()),
    }
    Ok(())
}

/// Prints a line for each data number of the plan.
pub(crate) fn print_all<F: Flash>(rt: &HostRuntime, store: &Store<F>) -> anyhow::Result<()> {
    for n in 0..store.plan.count() {
        print_value(rt, store, DataNumber(n))?;
    }
    Ok(())
}
