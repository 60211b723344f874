//! A store whose files are the system's, with `-` as the standard input.

use crate::draft::fault_of;
use crate::file_bytes::read_within;
use crate::hold::{FileHold, hold_file, is_same_file};
use crate::open_file::OpenFile;
use crate::whole_file::write_whole;
use ssim_program::{Content, ContentKind, Hold, HoldFault, KeepFault, Store, StoreFault};
use std::alloc::{AllocError, Global};
use std::fs;
use std::fs::File;
use std::rt::Files;

/// How many bytes are read at once.
const ROOM: usize = 65_536;

/// The files of the system. The name `-` is the standard input, and nothing is kept under it.
#[derive(Drop)]
pub struct FileStore<'r, R> {
    rt: &'r R,
    alloc: Global,
    /// The bytes of a file that is loaded pass through it.
    chunk: Vec<u8>,
    /// How many calls of `keep` failed with 91. It wraps at 2^64.
    failures: u64,
    /// Whether the command has read no file since it began.
    is_fresh: bool,
}

impl<'r, R> FileStore<'r, R> {
    pub fn new(rt: &'r R, alloc: Global) -> Result<Self, AllocError> {
        let chunk = vec![in alloc; 0; ROOM]?;
        Ok(FileStore {
            rt,
            alloc,
            chunk,
            failures: 0,
            is_fresh: true,
        })
    }
}

impl<R: Files<File = File> + Input> Store for FileStore<'_, R> {
    type File = ssim_records::Input<OpenFile<File, R::Reader>>;

    type Hold = FileHold;

    ghost failures = { λ s. s.failures };

    ghost is_fresh = { λ s. s.is_fresh };

    fn begin(&mut self) {
        self.is_fresh = true;
    }

    fn hold(
        &mut self,
        alloc: Global,
        name: &str,
        kind: ContentKind,
    ) -> Result<FileHold, HoldFault> {
        hold_file(self.rt, alloc, name, kind)
    }

    fn is_same_file(&self, one: &str, other: &str) -> bool {
        is_same_file(self.rt, one, other)
    }

    fn open(&mut self, _alloc: Global, name: &str) -> Result<Self::File, StoreFault> {
        self.is_fresh = false;
        if name == "-" {
            return Ok(ssim_records::Input::new(OpenFile::Standard(self.rt.reader())));
        }
        match fs::open(self.rt, name) {
            Ok(file) => Ok(ssim_records::Input::new(OpenFile::Named(file))),
            Err(error) => Err(fault_of(&error)),
        }
    }

    fn load(&mut self, alloc: Global, name: &str, limit: u64) -> Result<Vec<u8>, StoreFault> {
        self.is_fresh = false;
        if name == "-" {
            return read_within(alloc, self.rt.reader(), &mut self.chunk, 0, limit);
        }
        match fs::open(self.rt, name) {
            Ok(file) => {
                let expected = match file.metadata() {
                    Ok(metadata) => metadata.len(),
                    Err(_) => 0,
                };
                read_within(alloc, file, &mut self.chunk, expected, limit)
            }
            Err(error) => Err(fault_of(&error)),
        }
    }

    fn keep<C: Content>(&mut self, hold: &FileHold, content: &C) -> Result<(), KeepFault> {
        let kept = write_file(self.rt, self.alloc, hold, content);
        if let Err(KeepFault::Fault) = kept {
            self.failures = self.failures.wrapping_add(1);
        }
        kept
    }

    ghost unfailing = { λ s. tt };
}

/// Writes the content in the file that is held, whole or not at all.
fn write_file<R: Files<File = File>, C: Content>(
    rt: &R,
    alloc: Global,
    hold: &FileHold,
    content: &C,
) -> Result<(), KeepFault> {
    if hold.name() == "-" {
        return Err(KeepFault::Fault);
    }
    write_whole(rt, alloc, hold, content)
}
