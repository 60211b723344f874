//! Readers and writers of std that fail, and a reader that never ends.

ghost use Rattle.std.specs.Prelude.{◌≤◌, IfOk, None};

use ssim_records::{DeviceFault, Input, Output, RecordFault, Records, Sink, Source};
use ssim_vectors::HEADER;
use std::io;
use std::io::{ErrorKind, Read, Write};

/// A reader and writer of std: one byte at its first call, an error at its second, nothing at its
/// third, and then one byte a call again.
#[derive(Drop)]
struct Halting {
    calls: u64,
}

impl Halting {
    fn next(&mut self, room: usize) -> io::Result<usize>
        ensures { IfOk result (λ n. n ≤ room) }
    {
        self.calls = self.calls.wrapping_add(1);
        match self.calls {
            2 => Err(io::Error::from(ErrorKind::BrokenPipe)),
            3 => Ok(0),
            _ => Ok(room.min(1)),
        }
    }
}

impl Read for Halting {
    fn read(&mut self, buf: &mut [u8]) -> io::Result<usize> {
        buf.fill(b'x');
        self.next(buf.len())
    }
}

impl Write for Halting {
    fn write(&mut self, buf: &[u8]) -> io::Result<usize> {
        self.next(buf.len())
    }

    fn flush(&mut self) -> io::Result<()> {
        Ok(())
    }
}

// What four calls return.
const RETURNED: [Result<usize, DeviceFault>; 4] = [Ok(1), Err(DeviceFault::Failed), Ok(0), Ok(1)];

// An error of std's reader or writer is one failure, and the next call asks it again.
#[test]
fn devices_over_std(rt: HostRuntime) {
    let mut input = Input::new(Halting { calls: 0 });
    let mut output = Output::new(Halting { calls: 0 });
    for returned in RETURNED {
        assert_eq!(rt; input.fetch(&mut [0; 4]), returned);
        assert_eq!(rt; output.put(b"AB"), returned);
    }
}

/// A reader of lines, each the record of a header, that never ends. It gives a byte at a time.
#[derive(Drop)]
struct Endless {
    came: u128,
}

impl Source for Endless {
    ghost state = { λ s. record { left = None; came = s.came; failures = 0 } };

    fn fetch(&mut self, into: &mut [u8]) -> Result<usize, DeviceFault> {
        let column = (self.came % 201) as usize;
        match into.first_mut() {
            None => Ok(0),
            Some(byte) => {
                *byte = HEADER.get(column).copied().unwrap_or(b'\n');
                self.came = self.came.wrapping_add(1);
                Ok(1)
            }
        }
    }
}

// Limits, and how many records are complete within them.
const LIMITS: &[(u64, u64)] = &[(0, 0), (199, 0), (200, 1), (401, 2), (803, 4), (1004, 5)];

/// Whether this many records come of a reader that never ends, and then the refusal.
fn is_refused_after(limit: u64, complete: u64) -> bool {
    let mut reader = Endless { came: 0 };
    let mut records = Records::new(limit);
    for _ in 0..complete {
        if records.next(&mut reader).is_err() {
            return false;
        }
    }
    let record = complete.wrapping_add(1);
    records.next(&mut reader).err() == Some(RecordFault::ReaderNeverEnds { record })
}

// Records that are complete within the limit come before the refusal.
#[test]
fn readers_that_never_end(rt: HostRuntime) {
    for (limit, complete) in LIMITS {
        assert!(rt; is_refused_after(*limit, *complete));
    }
}
