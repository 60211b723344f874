//! Why a data set is refused.

ghost use Rattle.std.specs.Prelude.{◌≡◌};
ghost use Rattle.ssim_base.specs.Fault.{base_fault_name, base_fault_place, refusal_name};

use crate::place::Place;
use ssim_records::RecordFault;
use ssim_values::Memory;
use std::alloc::AllocFailed;
use thiserror::Error;

/// Why a record that can be read is not allowed at its place in a data set.
#[derive(Clone, Copy, Debug, Error, PartialEq, Eq)]
pub enum BaseRefusal {
    /// 11: its type is not allowed there.
    #[error("a record of its type is not allowed there")]
    BadType,
    /// 12 at column 22: an open end before the start.
    #[error("the open end at column 22 is before the start")]
    OpenEnd,
    /// 30: the first record is not a header.
    #[error("the first record is not a header")]
    NoHeader,
    /// 31: the second record is not a carrier.
    #[error("the second record is not a carrier")]
    NoCarrier,
    /// 32: the last record is not a trailer.
    #[error("the last record is not a trailer")]
    NoTrailer,
    /// 33: another airline than the carrier's.
    #[error("another airline than the carrier's")]
    OtherAirline,
    /// 34: a flight and leg sequence twice on one date.
    #[error("an earlier record has the same flight and leg sequence on one of its dates")]
    Overlap,
    /// 35: no earlier leg record has the flight, itinerary variation and leg sequence of the
    /// segment data.
    #[error("no earlier leg record has its flight, itinerary variation and leg sequence")]
    Segment,
    /// 36: an overflow of the itinerary variation.
    #[error("the itinerary variation overflows")]
    Overflow,
    /// 37: a frequency rate other than weekly.
    #[error("a frequency rate other than weekly")]
    Frequency,
    /// 38: the trailer announces another carrier.
    #[error("the trailer announces another carrier")]
    Continuation,
}

impl BaseRefusal {
    ghost use Rattle.ssim_base.specs.Base.{refusal_number};

    /// The number by which the refusal is known.
    pub fn number(self) -> u8
        ensures { result ≡ refusal_number self }
    {
        match self {
            BaseRefusal::BadType => 11,
            BaseRefusal::OpenEnd => 12,
            BaseRefusal::NoHeader => 30,
            BaseRefusal::NoCarrier => 31,
            BaseRefusal::NoTrailer => 32,
            BaseRefusal::OtherAirline => 33,
            BaseRefusal::Overlap => 34,
            BaseRefusal::Segment => 35,
            BaseRefusal::Overflow => 36,
            BaseRefusal::Frequency => 37,
            BaseRefusal::Continuation => 38,
        }
    }

    /// The name of the refusal. The name of an open end that is refused is `BadColumn`.
    pub fn name(self) -> &'static str
        ensures { result.now ≡ refusal_name self }
    {
        match self {
            BaseRefusal::BadType => "BadType",
            BaseRefusal::OpenEnd => "BadColumn",
            BaseRefusal::NoHeader => "NoHeader",
            BaseRefusal::NoCarrier => "NoCarrier",
            BaseRefusal::NoTrailer => "NoTrailer",
            BaseRefusal::OtherAirline => "OtherAirline",
            BaseRefusal::Overlap => "Overlap",
            BaseRefusal::Segment => "Segment",
            BaseRefusal::Overflow => "Overflow",
            BaseRefusal::Frequency => "Frequency",
            BaseRefusal::Continuation => "Continuation",
        }
    }
}

/// Why bytes are not a data set: the first record that cannot be read, or is not allowed at its
/// place.
#[derive(Clone, Copy, Debug, Error, PartialEq, Eq)]
pub enum BaseFault {
    /// 90: out of memory.
    #[error("out of memory")]
    Memory,
    /// 10 to 14: the record cannot be read.
    #[error(transparent)]
    Read(RecordFault),
    /// 11, 12 at column 22, or 30 to 38: the record with this number is not allowed there.
    #[error("record {0}: {1}")]
    Refused(u64, BaseRefusal),
}

impl BaseFault {
    ghost use Rattle.ssim_base.specs.Base.{base_fault_number};

    /// The number by which the fault is known.
    pub fn number(self) -> u8
        ensures { result ≡ base_fault_number self }
    {
        match self {
            BaseFault::Memory => 90,
            BaseFault::Read(fault) => fault.number(),
            BaseFault::Refused(_, refusal) => refusal.number(),
        }
    }

    /// The name by which the fault is known.
    pub fn name(self) -> &'static str
        ensures { result.now ≡ base_fault_name self }
    {
        match self {
            BaseFault::Memory => "Memory",
            BaseFault::Read(fault) => fault.name(),
            BaseFault::Refused(_, refusal) => refusal.name(),
        }
    }

    /// The record that the fault names, with the column of an invalid field.
    pub fn place(self) -> Place
        ensures { result ≡ base_fault_place self }
    {
        match self {
            BaseFault::Memory => Place::Nowhere,
            BaseFault::Read(fault) => Place::from(fault),
            BaseFault::Refused(record, BaseRefusal::OpenEnd) => Place::Column {
                record,
                column: 22,
            },
            BaseFault::Refused(record, _) => Place::Record(record),
        }
    }
}

impl From<Memory> for BaseFault {
    ghost use Rattle.ssim_base.specs.declared.fault.BaseFault.TheVariants.{Memory};

    ghost from_gives = { λ _ e. e ≡ Memory };

    fn from(_refused: Memory) -> BaseFault {
        BaseFault::Memory
    }
}

impl<T: Drop> From<AllocFailed<T>> for BaseFault {
    ghost use Rattle.ssim_base.specs.declared.fault.BaseFault.TheVariants.{Memory};

    ghost from_gives = { λ _ e. e ≡ Memory };

    fn from(_refused: AllocFailed<T>) -> BaseFault {
        BaseFault::Memory
    }
}
