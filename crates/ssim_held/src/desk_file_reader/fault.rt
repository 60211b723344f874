//! Why bytes are no part of a desk file.

ghost use Rattle.std.specs.Prelude.{◌≡◌};

use std::alloc::{AllocError, AllocFailed};

/// Why bytes do not begin with a part of a desk file.
#[derive(Clone, Copy, Debug, PartialEq, Eq)]
pub(crate) enum PartFault {
    /// Out of memory.
    Memory,
    /// An element is invalid. This is the number of bytes from its first on.
    Invalid(usize),
}

impl From<ssim_values::Memory> for PartFault {
    ghost use Rattle.ssim_held.specs.declared.desk_file_reader.fault.PartFault.TheVariants.{Memory};

    ghost from_gives = { λ _ e. e ≡ Memory };

    fn from(_refused: ssim_values::Memory) -> PartFault {
        PartFault::Memory
    }
}

impl From<AllocError> for PartFault {
    ghost use Rattle.ssim_held.specs.declared.desk_file_reader.fault.PartFault.TheVariants.{Memory};

    ghost from_gives = { λ _ e. e ≡ Memory };

    fn from(_refused: AllocError) -> PartFault {
        PartFault::Memory
    }
}

impl<T: Drop> From<AllocFailed<T>> for PartFault {
    ghost use Rattle.ssim_held.specs.declared.desk_file_reader.fault.PartFault.TheVariants.{Memory};

    ghost from_gives = { λ _ e. e ≡ Memory };

    fn from(_refused: AllocFailed<T>) -> PartFault {
        PartFault::Memory
    }
}
