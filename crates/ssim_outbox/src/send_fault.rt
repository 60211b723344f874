//! Why there are no messages.

ghost use Rattle.std.specs.Prelude.{◌≡◌};

use std::alloc::AllocFailed;
use thiserror::Error;

/// Why sub-messages are not sent.
#[derive(Clone, Copy, Debug, Error, PartialEq, Eq)]
pub enum SendFault {
    /// 90: out of memory.
    #[error("out of memory")]
    Memory,
    /// 65: the group serial would pass 99999.
    #[error("the message group serial would pass 99999")]
    References,
}

impl From<ssim_values::Memory> for SendFault {
    ghost use Rattle.ssim_outbox.specs.declared.send_fault.SendFault.TheVariants.{Memory};

    ghost from_gives = { λ _ e. e ≡ Memory };

    fn from(_refused: ssim_values::Memory) -> SendFault {
        SendFault::Memory
    }
}

impl<T: Drop> From<AllocFailed<T>> for SendFault {
    ghost use Rattle.ssim_outbox.specs.declared.send_fault.SendFault.TheVariants.{Memory};

    ghost from_gives = { λ _ e. e ≡ Memory };

    fn from(_refused: AllocFailed<T>) -> SendFault {
        SendFault::Memory
    }
}
