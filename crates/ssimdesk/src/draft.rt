//! A file while it is written.

use ssim_program::{Content, KeepFault, StoreFault};
use ssim_records::Output;
use std::alloc::Global;
use std::io;
use std::io::{BufWriter, Error, ErrorKind, Write};

/// The size of the buffer of a file that is written.
const ROOM: usize = 32_768;

/// Why a file was not read.
pub(crate) fn fault_of(error: &Error) -> StoreFault {
    match error.kind() {
        ErrorKind::OutOfMemory => StoreFault::Memory,
        _ => StoreFault::Fault,
    }
}

/// Why a file was not written.
pub(crate) fn keep_fault_of(error: &Error) -> KeepFault {
    match error.kind() {
        ErrorKind::OutOfMemory => KeepFault::Memory,
        _ => KeepFault::Fault,
    }
}

/// A writer with a buffer that remembers why it failed.
#[derive(Drop)]
struct FileDraft<W: Write + Drop> {
    writer: BufWriter<W>,
    fault: KeepFault,
}

impl<W: Write + Drop> Write for FileDraft<W> {
    fn write(&mut self, bytes: &[u8]) -> io::Result<usize> {
        let written = self.writer.write(bytes);
        if let Err(error) = &written {
            self.fault = keep_fault_of(error);
        }
        written
    }

    fn flush(&mut self) -> io::Result<()> {
        let flushed = self.writer.flush();
        if let Err(error) = &flushed {
            self.fault = keep_fault_of(error);
        }
        flushed
    }
}

impl<W: Write + Drop> FileDraft<W> {
    /// Writes the content. After a failure nothing more is written.
    fn put_all<C: Content>(&mut self, content: &C) -> Result<(), KeepFault> {
        let put = content.put(&mut Output::new(&mut *self));
        if put.is_err() || self.flush().is_err() {
            return Err(self.fault);
        }
        Ok(())
    }
}

/// Writes the content to the file, and gives the file back.
pub(crate) fn put_whole<W: Write + Drop, C: Content>(
    alloc: Global,
    file: W,
    content: &C,
) -> Result<W, KeepFault> {
    let Ok(writer) = BufWriter::with_capacity(alloc, ROOM, file) else {
        return Err(KeepFault::Memory);
    };
    let mut draft = FileDraft {
        writer,
        fault: KeepFault::Fault,
    };
    let put = draft.put_all(content);
    let (file, _) = draft.writer.into_parts();
    match put {
        Ok(()) => Ok(file),
        Err(fault) => Err(fault),
    }
}
