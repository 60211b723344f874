//! Why the cases end before the end of the input.

use ssim_values::Memory;
use std::alloc::{AllocError, AllocFailed};
use thiserror::Error;

/// Why a line was not followed.
#[derive(Clone, Copy, Debug, Error)]
pub enum Fault {
    /// It is not understood.
    #[error("the line is not understood")]
    Line,
    /// Memory was refused to the program itself.
    #[error("out of memory")]
    Memory,
    /// A call that ran out of memory changed a desk.
    #[error("a call that ran out of memory changed a desk")]
    Changed,
}

impl Fault {
    /// A refusal of something that the line needs, by its number.
    pub fn of(number: u8) -> Fault {
        if number == 90 {
            Fault::Memory
        } else {
            Fault::Line
        }
    }
}

impl From<AllocError> for Fault {
    fn from(_refused: AllocError) -> Fault {
        Fault::Memory
    }
}

impl<T: Drop> From<AllocFailed<T>> for Fault {
    fn from(_refused: AllocFailed<T>) -> Fault {
        Fault::Memory
    }
}

impl From<Memory> for Fault {
    fn from(_refused: Memory) -> Fault {
        Fault::Memory
    }
}
