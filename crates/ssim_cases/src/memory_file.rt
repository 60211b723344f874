//! A file of a store in memory.

ghost use Rattle.std.specs.Prelude.{◌≡◌, Some, drop};

use ssim_records::{DeviceFault, Source};

/// Bytes that are given in order. It never fails.
#[derive(Drop)]
pub struct MemoryFile {
    bytes: Vec<u8>,
    /// How many of the bytes were given.
    given: usize,
}

impl MemoryFile {
    pub fn new(bytes: Vec<u8>) -> MemoryFile
        ensures bytes { result.bytes.items ≡ bytes.items }
        ensures given { result.given ≡ 0 }
    {
        MemoryFile { bytes, given: 0 }
    }
}

impl Source for MemoryFile {
    ghost state = { λ f. record { left = Some (drop f.given f.bytes.items); came = 0; failures = 0 } };

    fn fetch(&mut self, into: &mut [u8]) -> Result<usize, DeviceFault> {
        let given = self.given.min(self.bytes.len());
        let mut left = &self.bytes[given..];
        let n = left.fetch(into)?;
        self.given = given + n;
        Ok(n)
    }
}
