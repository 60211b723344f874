//! Runs of the program on devices that may fail.

use crate::devices::{BrokenStore, FullStore, NoStore};
use crate::fault::Fault;
use crate::memory_store::MemoryStore;
use crate::transcript::{number, parts, push_line, push_named, show};
use ssim_program::{HoldFault, KeepFault, Store, StoreFault, run};
use ssim_vectors::{Extent, FailingWriter};
use std::alloc::Global;

/// What fails in the next run.
#[derive(Clone, Copy)]
pub struct Devices {
    /// The fault of the store, if it fails.
    store: Option<StoreFault>,
    /// The fault of the store if a file is held, if that fails.
    hold: Option<HoldFault>,
    /// The fault of the store if a file is kept, if that fails.
    keep: Option<KeepFault>,
    /// How many bytes a file gives before it fails, if it fails.
    file: Option<usize>,
    /// What the standard output takes, and whether it can be flushed.
    out: Extent,
    flushes: bool,
    /// What the standard error takes.
    err: Extent,
}

impl Devices {
    /// Nothing fails.
    pub fn new() -> Devices {
        Devices {
            store: None,
            hold: None,
            keep: None,
            file: None,
            out: Extent::whole(),
            flushes: true,
            err: Extent::whole(),
        }
    }

    /// Lets one of them fail.
    pub fn let_fail(&mut self, rest: &str) -> Result<(), Fault> {
        let (device, how) = parts(rest)?;
        match device {
            "out" => self.out.room = number(how)?,
            "err" => self.err.room = number(how)?,
            "flush" => self.flushes = false,
            "file" => self.file = Some(number(how)?),
            "store" => self.store = Some(fault_of(how)),
            "hold" => self.hold = Some(hold_fault_of(how)),
            "keep" => self.keep = Some(keep_fault_of(how)),
            _ => return Err(Fault::Line),
        }
        Ok(())
    }

    /// Lets the standard output take no more bytes after some.
    pub fn let_stop(&mut self, rest: &str) -> Result<(), Fault> {
        let (device, count) = parts(rest)?;
        if device != "out" {
            return Err(Fault::Line);
        }
        self.out.room = number(count)?;
        self.out.stops = true;
        Ok(())
    }

    /// Runs the program on these words.
    pub fn answer(&self, alloc: Global, words: &[&str], store: &mut MemoryStore) -> Answer {
        let failures = 0;
        if let Some(fault) = self.store {
            return self.answer_with(alloc, words, &mut NoStore { fault, failures });
        }
        if self.hold.is_some() || self.keep.is_some() {
            let mut full = FullStore {
                store,
                hold: self.hold,
                fault: self.keep.unwrap_or(KeepFault::Fault),
                failures,
            };
            return self.answer_with(alloc, words, &mut full);
        }
        match self.file {
            Some(room) => self.answer_with(alloc, words, &mut BrokenStore { store, room }),
            None => self.answer_with(alloc, words, store),
        }
    }

    fn answer_with<S: Store>(&self, alloc: Global, words: &[&str], store: &mut S) -> Answer {
        let mut out = FailingWriter::new(alloc, self.out, self.flushes);
        let mut err = FailingWriter::new(alloc, self.err, true);
        let status = run(alloc, words, store, &mut out, &mut err);
        Answer {
            status,
            out: out.taken,
            err: err.taken,
        }
    }
}

/// The fault of a store that is out of memory, or fails always.
fn fault_of(how: &str) -> StoreFault {
    if how == "memory" {
        StoreFault::Memory
    } else {
        StoreFault::Fault
    }
}

/// The fault of a store that holds no file.
fn hold_fault_of(how: &str) -> HoldFault {
    match how {
        "memory" => HoldFault::Memory,
        "busy" => HoldFault::Busy,
        _ => HoldFault::Fault,
    }
}

/// The fault of a store that keeps no file.
fn keep_fault_of(how: &str) -> KeepFault {
    match how {
        "memory" => KeepFault::Memory,
        "busy" => KeepFault::Busy,
        _ => KeepFault::Fault,
    }
}

/// What a run of the program returned and wrote.
#[derive(Drop)]
pub struct Answer {
    status: u8,
    pub out: Vec<u8>,
    err: Vec<u8>,
}

impl Answer {
    pub fn print(&self, out: &mut Vec<u8>) -> Result<(), Fault> {
        push_named(out, "status ", &self.status)?;
        push_line(out, "")?;
        show(out, "out", &self.out)?;
        show(out, "err", &self.err)
    }

    /// Prints it under the first and the last of the lengths of a file that have it.
    pub fn print_at(&self, first: usize, last: usize, out: &mut Vec<u8>) -> Result<(), Fault> {
        push_named(out, "lengths ", &first)?;
        push_named(out, " to ", &last)?;
        push_line(out, "")?;
        self.print(out)
    }

    pub fn same(&self, other: &Answer) -> bool {
        self.status == other.status
            && self.out.as_slice() == other.out.as_slice()
            && self.err.as_slice() == other.err.as_slice()
    }
}
