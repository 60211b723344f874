//! Why a desk refuses.

ghost use Rattle.std.specs.Prelude.{◌≡◌};

use ssim_base::{Place, ResolveFault};
use ssim_records::{InputFault, RecordFault};
use ssim_text::{Reference, TextFault};
use std::alloc::{AllocError, AllocFailed};
use thiserror::Error;

/// Why a desk refuses a text, another desk or a file. The desk is unchanged.
#[derive(Clone, Copy, Debug, Error, PartialEq, Eq)]
pub enum DeskFault {
    /// 90: out of memory.
    #[error("out of memory")]
    Memory,
    /// 20 to 29: the text is no message.
    #[error(transparent)]
    Text(TextFault),
    /// 40 to 43: the message does not resolve against the base.
    #[error(transparent)]
    Resolve(ResolveFault),
    /// 60: another message is held under the reference.
    #[error("another message is held under {0}")]
    Conflict(Reference),
    /// 61: the other desk has another base.
    #[error("the other desk has another base")]
    OtherBase,
    /// 13 or 14, with record number 0: the file was not read.
    #[error(transparent)]
    Read(RecordFault),
    /// 62: the file is not a desk file. The number is the count of bytes before the first invalid
    /// element.
    #[error("the element after {0} bytes is invalid")]
    File(u64),
}

impl DeskFault {
    ghost use Rattle.ssim_held.specs.Fault.{desk_fault_name, desk_fault_number, desk_fault_place};

    /// The number by which the fault is known.
    pub fn number(self) -> u8
        ensures { result ≡ desk_fault_number self }
    {
        match self {
            DeskFault::Memory => 90,
            DeskFault::Text(fault) => fault.number(),
            DeskFault::Resolve(fault) => fault.number(),
            DeskFault::Conflict(_) => 60,
            DeskFault::OtherBase => 61,
            DeskFault::Read(fault) => fault.number(),
            DeskFault::File(_) => 62,
        }
    }

    /// The name of the fault. The name of 62 is `DeskFile`.
    pub fn name(self) -> &'static str
        ensures { result.now ≡ desk_fault_name self }
    {
        match self {
            DeskFault::Memory => "Memory",
            DeskFault::Text(fault) => fault.name(),
            DeskFault::Resolve(fault) => fault.name(),
            DeskFault::Conflict(_) => "Conflict",
            DeskFault::OtherBase => "OtherBase",
            DeskFault::Read(fault) => fault.name(),
            DeskFault::File(_) => "DeskFile",
        }
    }

    /// The line, sub-message, message, record or element that the fault names.
    pub fn place(self) -> Place
        ensures { result ≡ desk_fault_place self }
    {
        match self {
            DeskFault::Memory | DeskFault::OtherBase => Place::Nowhere,
            DeskFault::Text(fault) => Place::from(fault),
            DeskFault::Resolve(fault) => fault.place(),
            DeskFault::Conflict(reference) => Place::Message(reference),
            DeskFault::Read(fault) => Place::from(fault),
            DeskFault::File(offset) => Place::Offset(offset),
        }
    }
}

impl From<ssim_values::Memory> for DeskFault {
    ghost use Rattle.ssim_held.specs.declared.fault.DeskFault.TheVariants.{Memory};

    ghost from_gives = { λ _ e. e ≡ Memory };

    fn from(_refused: ssim_values::Memory) -> DeskFault {
        DeskFault::Memory
    }
}

impl From<InputFault> for DeskFault {
    ghost use Rattle.ssim_held.specs.clauses.Fault.{input_stopped};

    ghost from_gives = { λ fault e. e ≡ input_stopped fault };

    fn from(fault: InputFault) -> DeskFault {
        match fault {
            InputFault::ReadFault => DeskFault::Read(RecordFault::ReadFault { record: 0 }),
            InputFault::ReaderNeverEnds => {
                DeskFault::Read(RecordFault::ReaderNeverEnds { record: 0 })
            }
        }
    }
}

impl From<AllocError> for DeskFault {
    ghost use Rattle.ssim_held.specs.declared.fault.DeskFault.TheVariants.{Memory};

    ghost from_gives = { λ _ e. e ≡ Memory };

    fn from(_refused: AllocError) -> DeskFault {
        DeskFault::Memory
    }
}

impl<T: Drop> From<AllocFailed<T>> for DeskFault {
    ghost use Rattle.ssim_held.specs.declared.fault.DeskFault.TheVariants.{Memory};

    ghost from_gives = { λ _ e. e ≡ Memory };

    fn from(_refused: AllocFailed<T>) -> DeskFault {
        DeskFault::Memory
    }
}

impl From<TextFault> for DeskFault {
    ghost use Rattle.ssim_held.specs.clauses.Fault.{text_refused};

    ghost from_gives = { λ fault e. e ≡ text_refused fault };

    fn from(fault: TextFault) -> DeskFault {
        match fault {
            TextFault::Memory => DeskFault::Memory,
            TextFault::Refused { .. } => DeskFault::Text(fault),
        }
    }
}

impl From<ResolveFault> for DeskFault {
    ghost use Rattle.ssim_held.specs.clauses.Fault.{message_refused};

    ghost from_gives = { λ fault e. e ≡ message_refused fault };

    fn from(fault: ResolveFault) -> DeskFault {
        match fault {
            ResolveFault::Memory => DeskFault::Memory,
            _ => DeskFault::Resolve(fault),
        }
    }
}
