//! Devices and stores that fail.

ghost use Rattle.std.specs.Prelude.{None, true};
ghost use Rattle.ssim_program.specs.Files.{CountsKeep};

use crate::memory_file::MemoryFile;
use crate::memory_store::{MemoryHold, MemoryStore};
use ssim_program::{Content, ContentKind, HoldFault, KeepFault, Store, StoreFault};
use ssim_records::{DeviceFault, Source};
use std::alloc::Global;

/// A store that reads no file, and keeps none: each call fails with its fault.
#[derive(Clone, Copy)]
pub struct NoStore {
    pub fault: StoreFault,
    pub failures: u64,
}

impl Store for NoStore {
    type File = MemoryFile;

    type Hold = MemoryHold;

    ghost failures = { λ s. s.failures };

    ghost is_fresh = { λ _. true };

    fn begin(&mut self) {}

    fn hold(
        &mut self,
        alloc: Global,
        name: &str,
        _kind: ContentKind,
    ) -> Result<MemoryHold, HoldFault> {
        MemoryHold::of(alloc, name)
    }

    fn is_same_file(&self, one: &str, other: &str) -> bool {
        one == other
    }

    fn open(&mut self, _alloc: Global, _name: &str) -> Result<MemoryFile, StoreFault> {
        Err(self.fault)
    }

    fn load(&mut self, _alloc: Global, _name: &str, _limit: u64) -> Result<Vec<u8>, StoreFault> {
        Err(self.fault)
    }

    fn keep<C: Content>(&mut self, _hold: &MemoryHold, _content: &C) -> Result<(), KeepFault> {
        let fault = match self.fault {
            StoreFault::Memory => KeepFault::Memory,
            StoreFault::Fault => KeepFault::Fault,
        };
        not_kept(fault, &mut self.failures)
    }

    ghost unfailing = { λ s. tt };
}

/// The result of a call of `keep` that fails with this fault. 91 is counted.
fn not_kept(fault: KeepFault, failures: &mut u64) -> Result<(), KeepFault>
    ensures { CountsKeep failures.old failures.new result }
{
    if let KeepFault::Fault = fault {
        *failures = failures.wrapping_add(1);
    }
    Err(fault)
}

/// A store that holds each file and reads it, or not, but keeps none.
#[derive(Drop)]
pub struct FullStore<'a> {
    pub store: &'a mut MemoryStore,
    /// The fault of each call of `hold`, if it fails.
    pub hold: Option<HoldFault>,
    /// The fault of each call of `keep`.
    pub fault: KeepFault,
    pub failures: u64,
}

impl Store for FullStore<'_> {
    type File = MemoryFile;

    type Hold = MemoryHold;

    ghost failures = { λ s. s.failures };

    ghost is_fresh = { λ _. true };

    fn begin(&mut self) {}

    fn hold(
        &mut self,
        alloc: Global,
        name: &str,
        _kind: ContentKind,
    ) -> Result<MemoryHold, HoldFault> {
        match self.hold {
            Some(fault) => Err(fault),
            None => MemoryHold::of(alloc, name),
        }
    }

    fn is_same_file(&self, one: &str, other: &str) -> bool {
        self.store.is_same_file(one, other)
    }

    fn open(&mut self, alloc: Global, name: &str) -> Result<MemoryFile, StoreFault> {
        self.store.open(alloc, name)
    }

    fn load(&mut self, alloc: Global, name: &str, limit: u64) -> Result<Vec<u8>, StoreFault> {
        self.store.load(alloc, name, limit)
    }

    fn keep<C: Content>(&mut self, _hold: &MemoryHold, _content: &C) -> Result<(), KeepFault> {
        not_kept(self.fault, &mut self.failures)
    }

    ghost unfailing = { λ s. tt };
}

/// A store whose files fail after `room` bytes.
#[derive(Drop)]
pub struct BrokenStore<'a> {
    pub store: &'a mut MemoryStore,
    pub room: usize,
}

impl Store for BrokenStore<'_> {
    type File = BrokenFile;

    type Hold = MemoryHold;

    ghost failures = { λ _. 0 };

    ghost is_fresh = { λ _. true };

    fn begin(&mut self) {}

    fn hold(
        &mut self,
        alloc: Global,
        name: &str,
        _kind: ContentKind,
    ) -> Result<MemoryHold, HoldFault> {
        MemoryHold::of(alloc, name)
    }

    fn is_same_file(&self, one: &str, other: &str) -> bool {
        self.store.is_same_file(one, other)
    }

    fn open(&mut self, alloc: Global, name: &str) -> Result<BrokenFile, StoreFault> {
        let file = self.store.open(alloc, name)?;
        Ok(BrokenFile {
            file,
            room: self.room,
            came: 0,
            failures: 0,
        })
    }

    fn load(&mut self, alloc: Global, name: &str, limit: u64) -> Result<Vec<u8>, StoreFault> {
        self.store.load(alloc, name, limit)
    }

    fn keep<C: Content>(&mut self, hold: &MemoryHold, content: &C) -> Result<(), KeepFault> {
        self.store.keep(hold, content)
    }

    ghost unfailing = { λ s. tt };
}

/// A file that fails after `room` bytes.
#[derive(Drop)]
pub struct BrokenFile {
    file: MemoryFile,
    room: usize,
    came: u128,
    failures: u64,
}

impl Source for BrokenFile {
    ghost state = { λ s. record { left = None; came = s.came; failures = s.failures } };

    fn fetch(&mut self, into: &mut [u8]) -> Result<usize, DeviceFault> {
        if self.room == 0 {
            self.failures = self.failures.wrapping_add(1);
            return Err(DeviceFault::Failed);
        }
        let most = into.len().min(self.room);
        match self.file.fetch(&mut into[..most]) {
            Ok(n) => {
                self.room -= n;
                self.came = self.came.wrapping_add(n as u128);
                Ok(n)
            }
            Err(fault) => {
                self.failures = self.failures.wrapping_add(1);
                Err(fault)
            }
        }
    }
}
