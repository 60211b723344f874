//! Why a text is refused.
ghost use Rattle.std.specs.Prelude.{◌≡◌};
ghost use Rattle.ssim_text.specs.Fault.{fault_name, fault_number, text_fault_name};
ghost use Rattle.ssim_text.specs.clauses.Fault.{text_fault_line};
ghost use Rattle.ssim_text.specs.Fault.{text_fault_number};

use std::alloc::AllocError;
use thiserror::Error;

/// What is wrong with a line of a text, or missing at its end.
#[derive(Clone, Copy, Debug, Error, PartialEq, Eq)]
pub enum Fault {
    /// 20: expected `SSM` or `ASM`, or an originator before them.
    #[error("expected SSM or ASM, or an originator before them")]
    BadKind,
    /// 21: expected a reference.
    #[error("expected a reference")]
    BadReference,
    /// 22: expected one of the five actions.
    #[error("expected NEW, CNL, RPL, EQT or TIM")]
    BadAction,
    /// 23: expected a flight, in an ASM with its date.
    #[error("expected a flight, in an ASM with its date")]
    BadFlight,
    /// 24: expected a period.
    #[error("expected a first date, a last date and days of operation")]
    BadPeriod,
    /// 25: expected an equipment.
    #[error("expected service type and aircraft type")]
    BadEquipment,
    /// 26: expected a leg line, or the line is not allowed after leg lines.
    #[error("expected a leg line, or a segment line whose points are on the way")]
    BadLeg,
    /// 27: a further line after a complete sub-message.
    #[error("a further line after a complete sub-message")]
    Extra,
    /// 28: more than 65,536 bytes, 250 sub-messages, 20 leg lines or 99 segment lines.
    #[error("more than 65,536 bytes, 250 sub-messages, 20 leg lines or 99 segment lines")]
    TooMany,
    /// 29: a byte outside 32 to 126.
    #[error("a byte outside 32 to 126")]
    NotAscii,
}

impl Fault {
    /// The number of the fault, 20 to 29.
    pub fn number(self) -> u8
        ensures { result ≡ fault_number self }
    {
        match self {
            Fault::BadKind => 20,
            Fault::BadReference => 21,
            Fault::BadAction => 22,
            Fault::BadFlight => 23,
            Fault::BadPeriod => 24,
            Fault::BadEquipment => 25,
            Fault::BadLeg => 26,
            Fault::Extra => 27,
            Fault::TooMany => 28,
            Fault::NotAscii => 29,
        }
    }

    /// The name of the fault, as `BadLeg`.
    pub fn name(self) -> &'static str
        ensures { result.now ≡ fault_name self }
    {
        match self {
            Fault::BadKind => "BadKind",
            Fault::BadReference => "BadReference",
            Fault::BadAction => "BadAction",
            Fault::BadFlight => "BadFlight",
            Fault::BadPeriod => "BadPeriod",
            Fault::BadEquipment => "BadEquipment",
            Fault::BadLeg => "BadLeg",
            Fault::Extra => "Extra",
            Fault::TooMany => "TooMany",
            Fault::NotAscii => "NotAscii",
        }
    }
}

/// Why a text is refused, and at which line.
#[derive(Clone, Copy, Debug, Error, PartialEq, Eq)]
pub enum TextFault {
    /// 90: out of memory.
    #[error("out of memory")]
    Memory,
    /// 20 to 29, at a line of the text, from 1.
    #[error("line {line}: {fault}")]
    Refused { fault: Fault, line: usize },
}

impl TextFault {
    /// The number of the refusal.
    pub fn number(self) -> u8
        ensures { result ≡ text_fault_number self }
    {
        match self {
            TextFault::Memory => 90,
            TextFault::Refused { fault, line: _ } => fault.number(),
        }
    }

    /// The name of the refusal, as `BadLeg`.
    pub fn name(self) -> &'static str
        ensures { result.now ≡ text_fault_name self }
    {
        match self {
            TextFault::Memory => "Memory",
            TextFault::Refused { fault, line: _ } => fault.name(),
        }
    }

    /// The number of the line, from 1; none if memory ran out.
    pub fn line(self) -> Option<usize>
        ensures { result ≡ text_fault_line self }
    {
        match self {
            TextFault::Memory => None,
            TextFault::Refused { fault: _, line } => Some(line),
        }
    }
}

impl From<AllocError> for TextFault {
    ghost use Rattle.ssim_text.specs.declared.fault.TextFault.TheVariants.{Memory};

    ghost from_gives = { λ _ e. e ≡ Memory };

    fn from(_refused: AllocError) -> TextFault {
        TextFault::Memory
    }
}
