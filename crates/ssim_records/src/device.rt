//! The devices that bytes come from and go to.

ghost use Rattle.std.specs.Prelude.{◌≡◌, Some, Ok, length, min};
ghost use Rattle.std.specs.Io.{ReadsAtMost, WritesAtMost};
ghost use Rattle.std.specs.Io.KnownBytes.{ReadConsumes, WriteAppends};
ghost use Rattle.ssim_records.specs.clauses.Device.{CountsBytes, CountsFailure, CountsPut};
ghost use Rattle.ssim_records.specs.Device.{Reader, Writer};

use thiserror::Error;

/// Why a device neither gave nor took bytes.
///
/// It has no number of its own. The call that reads from the source returns 13, and the call that
/// writes to the sink returns 52.
#[derive(Clone, Copy, Debug, Error, PartialEq, Eq)]
pub enum DeviceFault {
    /// A device that grows is out of memory.
    #[error("out of memory")]
    Memory,

    /// The device itself failed.
    #[error("the device failed")]
    Failed,
}

/// A device that bytes come from. A fetch that returns 0 into a buffer with room is the end.
pub trait Source {
    /// The bytes that are left, if the contract knows them; if not, the number of bytes that came;
    /// and the number of fetches that failed.
    ghost state: { Self → Reader };

    /// Writes the next bytes to the beginning of `into`, and returns their number.
    fn fetch(&mut self, into: &mut [u8]) -> Result<usize, DeviceFault>
        ensures bound { ReadsAtMost result into.new }
        ensures bytes { ReadConsumes (state self.old).left (state self.new).left result into.new }
        ensures count { CountsBytes (state self.old) (state self.new) result }
        ensures failures { CountsFailure (state self.old).failures (state self.new).failures result };
}

/// A device that bytes go to.
pub trait Sink {
    /// The bytes that were taken, if the contract knows them; the number of puts that failed, or
    /// took no byte of a text that is not empty; and the number of the device.
    ghost state: { Self → Writer };

    /// Takes bytes from the beginning of `bytes`, and returns their number.
    fn put(&mut self, bytes: &[u8]) -> Result<usize, DeviceFault>
        ensures bound { WritesAtMost result bytes.now }
        ensures bytes { WriteAppends (state self.old).taken (state self.new).taken result
            bytes.now }
        ensures failures { CountsPut (state self.old).failures (state self.new).failures result
            bytes.now }
        ensures device { (state self.new).device ≡ (state self.old).device };
}

/// A slice gives its bytes in order, and never fails.
impl<'a> Source for &'a [u8] {
    ghost state = { λ s. record { left = Some s.now; came = 0; failures = 0 } };

    fn fetch(&mut self, into: &mut [u8]) -> Result<usize, DeviceFault>
        ensures bound { ReadsAtMost result into.new }
        ensures bytes { ReadConsumes (Some self.old.now) (Some self.new.now) result into.new }
        ensures failures { CountsFailure 0 0 result }

        // It gives all bytes that there is room for.
        ensures all { result ≡ Ok (min (length self.old.now) (length into.old)) }
    {
        let n = self.len().min(into.len());
        let (front, rest) = self.split_at(n);
        into[..n].copy_from_slice(front);
        *self = rest;
        Ok(n)
    }
}
