//! Std's readers and writers as devices. Contracts do not know their bytes.

ghost use Rattle.std.specs.Prelude.{◌≡◌, None};
ghost use Rattle.std.specs.Io.{ReadsAtMost, WritesAtMost};
ghost use Rattle.std.specs.Io.KnownBytes.{ReadConsumes, WriteAppends};
ghost use Rattle.ssim_records.specs.clauses.Device.{CountChanges, CountsFailure, CountsPut};

use crate::device::{DeviceFault, Sink, Source};
use std::io::{Read, Write};

/// A reader of std.
#[derive(Drop)]
pub struct Input<R> {
    reader: R,
    came: u128,
    failures: u64,
}

impl<R: Read> Input<R> {
    /// A source of the reader's bytes, of which none came yet. It does not allocate.
    pub fn new(reader: R) -> Input<R>
        ensures reader { result.reader ≡ reader }
        ensures came { result.came ≡ 0 }
        ensures failures { result.failures ≡ 0 }
    {
        Input {
            reader,
            came: 0,
            failures: 0,
        }
    }
}

impl<R: Read> Source for Input<R> {
    ghost state = { λ s. record { left = None; came = s.came; failures = s.failures } };

    fn fetch(&mut self, into: &mut [u8]) -> Result<usize, DeviceFault>
        ensures bound { ReadsAtMost result into.new }
        ensures count { CountChanges None None self.old.came self.new.came result }
        ensures failures { CountsFailure self.old.failures self.new.failures result }

        // If the contract knows the reader's bytes, these are given.
        ensures reader { ReadConsumes (R.remaining self.old.reader) (R.remaining self.new.reader)
            result into.new }
    {
        match self.reader.read(into) {
            Ok(n) => {
                self.came = self.came.wrapping_add(n as u128);
                Ok(n)
            }
            Err(_) => {
                self.failures = self.failures.wrapping_add(1);
                Err(DeviceFault::Failed)
            }
        }
    }
}

/// A writer of std.
#[derive(Drop)]
pub struct Output<W> {
    writer: W,
    failures: u64,
}

impl<W: Write> Output<W> {
    /// A sink that passes its bytes to the writer. It does not allocate.
    pub fn new(writer: W) -> Output<W>
        ensures writer { result.writer ≡ writer }
        ensures failures { result.failures ≡ 0 }
    {
        Output {
            writer,
            failures: 0,
        }
    }
}

impl<W: Write> Sink for Output<W> {
    ghost state = { λ s. record { taken = None; failures = s.failures; device = 0 } };

    fn put(&mut self, bytes: &[u8]) -> Result<usize, DeviceFault>
        ensures bound { WritesAtMost result bytes.now }
        ensures failures { CountsPut self.old.failures self.new.failures result bytes.now }

        // If the contract knows the writer's bytes, these are appended.
        ensures writer { WriteAppends (W.contents self.old.writer) (W.contents self.new.writer)
            result bytes.now }
    {
        put_counted(&mut self.writer, &mut self.failures, bytes)
    }
}

/// Passes bytes to a writer of std, as [`Sink::put`] does, and counts a failure.
pub fn put_counted<W: Write>(
    writer: &mut W,
    failures: &mut u64,
    bytes: &[u8],
) -> Result<usize, DeviceFault>
    ensures bound { WritesAtMost result bytes.now }
    ensures bytes { WriteAppends (W.contents writer.old) (W.contents writer.new) result bytes.now }
    ensures failures { CountsPut failures.old failures.new result bytes.now }
{
    match writer.write(bytes) {
        Ok(n) => {
            if n == 0 && !bytes.is_empty() {
                *failures = failures.wrapping_add(1);
            }
            Ok(n)
        }
        Err(_) => {
            *failures = failures.wrapping_add(1);
            Err(DeviceFault::Failed)
        }
    }
}
