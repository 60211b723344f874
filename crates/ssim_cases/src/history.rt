//! Several commands, one after another.

use crate::fault::Fault;
use crate::memory_store::MemoryStore;
use crate::transcript::show;
use ssim_program::{Printer, run_each};
use ssim_vectors::{Extent, FailingWriter};
use std::alloc::Global;

/// Runs the program on the words of each command, whatever the status of those before it, and prints
/// what they wrote. The files are then those of a history with an event for each command.
pub fn print_history(
    alloc: Global,
    commands: &[&[&str]],
    store: &mut MemoryStore,
    transcript: &mut Vec<u8>,
) -> Result<(), Fault> {
    let mut out = FailingWriter::new(alloc, Extent::whole(), true);
    let mut err = FailingWriter::new(alloc, Extent::whole(), true);
    let (mut printed, mut reasons) = (Printer::new(&mut out), Printer::new(&mut err));
    run_each(alloc, commands, store, &mut printed, &mut reasons);
    show(transcript, "out", &out.taken)?;
    show(transcript, "err", &err.taken)
}
