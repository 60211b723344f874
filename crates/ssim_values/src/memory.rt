//! Out of memory.
ghost use Rattle.std.specs.Prelude.{◌≡◌};
ghost use Rattle.ssim_values.specs.Fault.{memory_name};

use std::alloc::{AllocError, AllocFailed};
use thiserror::Error;

/// Out of memory: refusal 90 of every crate that allocates.
#[derive(Clone, Copy, Debug, Error, PartialEq, Eq)]
#[error("out of memory")]
pub struct Memory;

impl Memory {
    /// The number of the refusal, 90.
    pub fn number(self) -> u8
        ensures { result ≡ 90 }
    {
        90
    }

    /// The name of the refusal, `Memory`.
    pub fn name(self) -> &'static str
        ensures { result.now ≡ memory_name }
    {
        "Memory"
    }
}

impl From<AllocError> for Memory {
    fn from(_refused: AllocError) -> Memory {
        Memory
    }
}

impl<T: Drop> From<AllocFailed<T>> for Memory {
    fn from(_refused: AllocFailed<T>) -> Memory {
        Memory
    }
}
