//! A sink that keeps its bytes.

ghost use Rattle.std.specs.Prelude.{◌≡◌, [], Some, length, IfOk, IfErr};
ghost use Rattle.std.specs.Io.{WritesAtMost};
ghost use Rattle.std.specs.Io.KnownBytes.{WriteAppends};
ghost use Rattle.ssim_records.specs.clauses.Device.{CountsPut};

use crate::device::{DeviceFault, Sink};
use std::alloc::Global;
use std::marker::Model;

/// A buffer that grows, and holds in order the bytes that were put into it. A put fails only if
/// memory is out, and then takes no byte.
#[derive(Drop)]
pub struct Bytes {
    bytes: Vec<u8>,
    /// The number of times that it could not grow.
    failures: u64,
}

impl Model for Bytes {
    ghost use Rattle.ssim_records.specs.clauses.Device.{Buffer};

    ghost Value = { Buffer };

    ghost view = { λ s. record { bytes = s.bytes.items; failures = s.failures } };
}

impl Bytes {
    /// An empty buffer. It does not allocate.
    pub fn new(alloc: Global) -> Bytes
        ensures { result ≡ record { bytes = []; failures = 0 } }
    {
        Bytes {
            bytes: Vec::new(alloc),
            failures: 0,
        }
    }

    /// All bytes that were put.
    pub fn bytes(&self) -> &[u8]
        ensures { result.now ≡ self.now.bytes }
    {
        &self.bytes
    }
}

impl Sink for Bytes {
    ghost state = { λ s. record { taken = Some s.bytes; failures = s.failures; device = 0 } };

    fn put(&mut self, bytes: &[u8]) -> Result<usize, DeviceFault>
        ensures bound { WritesAtMost result bytes.now }
        ensures bytes { WriteAppends (Some self.old.bytes) (Some self.new.bytes) result bytes.now }
        ensures failures { CountsPut self.old.failures self.new.failures result bytes.now }

        // It takes all bytes, or is out of memory.
        ensures all { IfOk result (λ n. n ≡ length bytes.now) }
        ensures memory { IfErr result (λ fault. fault ≡ DeviceFault.Memory) }
    {
        match self.bytes.extend_from_slice(bytes) {
            Ok(()) => Ok(bytes.len()),
            Err(_) => {
                self.failures = self.failures.wrapping_add(1);
                Err(DeviceFault::Memory)
            }
        }
    }
}
