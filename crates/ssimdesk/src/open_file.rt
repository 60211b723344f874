//! A file while it is read.

ghost use Rattle.std.specs.Io.{ReadsAtMost};

use std::io;
use std::io::{ErrorKind, Read};

/// A file of the system, or the standard input.
#[derive(Drop)]
pub enum OpenFile<F, I> {
    Named(F),
    Standard(I),
}

impl<F: Read, I: Read> OpenFile<F, I> {
    fn read_once(&mut self, into: &mut [u8]) -> io::Result<usize>
        ensures { ReadsAtMost result into.new }
    {
        match self {
            OpenFile::Named(file) => file.read(into),
            OpenFile::Standard(input) => input.read(into),
        }
    }
}

/// It is read again after an interrupt.
impl<F: Read, I: Read> Read for OpenFile<F, I> {
    fn read(&mut self, into: &mut [u8]) -> io::Result<usize> {
        for _ in 0..u64::MAX {
            match self.read_once(into) {
                Err(error) if error.kind() == ErrorKind::Interrupted => {}
                read => return read,
            }
        }
        Err(io::Error::from(ErrorKind::Interrupted))
    }
}
