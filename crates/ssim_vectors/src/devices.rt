//! Readers and writers that fail.

ghost use Rattle.std.specs.Prelude.{◌≤◌, IfOk};

use std::alloc::Global;
use std::io;
use std::io::{Read, Write};

/// How many bytes a device moves: at most `piece` in a call, and `room` in all. Then it fails, or
/// moves none if it `stops`.
#[derive(Clone, Copy)]
pub struct Extent {
    pub room: usize,
    pub piece: usize,
    pub stops: bool,
}

impl Extent {
    /// The extent of a device that does not fail.
    pub fn whole() -> Extent {
        Extent {
            room: usize::MAX,
            piece: usize::MAX,
            stops: false,
        }
    }

    /// How many of these bytes are moved in the next call.
    fn next(&mut self, count: usize) -> io::Result<usize>
        ensures { IfOk result (λ n. n ≤ count) }
    {
        let n = count.min(self.room).min(self.piece);
        if n == 0 && count > 0 && !self.stops {
            return Err(io::Error::from(io::ErrorKind::Other));
        }
        self.room -= n;
        Ok(n)
    }

    /// Whether no byte is moved any more.
    fn is_used_up(&self) -> bool {
        self.room == 0
    }
}

/// A reader that gives its bytes as far as its extent goes. Finding the end counts as a byte.
#[derive(Drop)]
pub struct FailingReader<'a> {
    left: &'a [u8],
    extent: Extent,
    failed: bool,
}

impl<'a> FailingReader<'a> {
    pub fn new(bytes: &'a [u8], extent: Extent) -> FailingReader<'a> {
        FailingReader {
            left: bytes,
            extent,
            failed: false,
        }
    }

    /// Whether a call failed.
    pub fn has_failed(&self) -> bool {
        self.failed
    }
}

impl<'a> Read for FailingReader<'a> {
    fn read(&mut self, buf: &mut [u8]) -> io::Result<usize> {
        self.failed = self.failed || self.extent.is_used_up();
        let wanted = buf.len().min(self.left.len().max(1));
        let n = self.extent.next(wanted)?.min(self.left.len());
        let (front, rest) = self.left.split_at(n);
        buf[..n].copy_from_slice(front);
        self.left = rest;
        Ok(n)
    }
}

/// A writer that keeps bytes as far as its extent goes. Each flush fails unless `flushes`.
#[derive(Drop)]
pub struct FailingWriter {
    pub taken: Vec<u8>,
    extent: Extent,
    flushes: bool,
    failed: bool,
}

impl FailingWriter {
    pub fn new(alloc: Global, extent: Extent, flushes: bool) -> FailingWriter {
        FailingWriter {
            taken: Vec::new(alloc),
            extent,
            flushes,
            failed: false,
        }
    }

    /// Whether a call failed, or took no byte.
    pub fn has_failed(&self) -> bool {
        self.failed
    }
}

impl Write for FailingWriter {
    fn write(&mut self, buf: &[u8]) -> io::Result<usize> {
        self.failed = self.failed || self.extent.is_used_up() && !buf.is_empty();
        let n = self.extent.next(buf.len())?;
        self.taken.extend_from_slice(&buf[..n])?;
        Ok(n)
    }

    fn flush(&mut self) -> io::Result<()> {
        if self.flushes {
            return Ok(());
        }
        Err(io::Error::from(io::ErrorKind::Other))
    }
}
