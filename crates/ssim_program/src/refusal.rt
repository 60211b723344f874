//! Why a command was refused, as it is printed.
ghost use Rattle.std.specs.Prelude.{◌≡◌, IfOk, codes, option_map};
ghost use Rattle.ssim_base.specs.Export.{line};
ghost use Rattle.ssim_program.specs.print.Refusal.{IsOfFile, refusal_file, refusal_name};
ghost use Rattle.ssim_program.specs.print.Refusal.{refusal_number, refusal_place, refusal_text};

use crate::print::name::printed_name;
use crate::print::printed_line::line_of;
use crate::print::refusal_line::RefusalLine;
use ssim_base::{BaseFault, Place, StationFault};
use ssim_desk::DeskFault;
use ssim_outbox::OutboxFault;
use ssim_schedule::ExportFault;
use ssim_values::{Airline, Fault, Memory};
use std::alloc::{AllocError, AllocFailed, Global};
use thiserror::Error;

/// Why a command was refused: a fault of one of the crates below, or one of the program's own. Its
/// line on standard error is a [`RefusalLine`](crate::RefusalLine). A fault that says that memory ran
/// out is wrapped as any other: its number is 90, and its line is that of [`Refusal::Memory`].
#[derive(Debug, Drop, Error)]
pub enum Refusal {
    /// 1 to 7: a word of the command line is no value of the kind.
    #[error("{0}")]
    Value(Fault),
    /// 21: a word of the command line is no reference.
    #[error("expected a reference")]
    Reference,
    /// 25: a word of the command line is no aircraft type.
    #[error("expected an aircraft type")]
    Aircraft,
    /// 10 to 14, or 30 to 38: the data set is invalid at a record.
    #[error("{0}")]
    DataSet(BaseFault),
    /// 39: the station table is invalid at a line.
    #[error("{0}")]
    Stations(StationFault),
    /// 13, 14, 20 to 29, 40 to 43, or 60 to 62: a text, a message, another desk or a desk file is
    /// refused.
    #[error("{0}")]
    Desk(DeskFault),
    /// 21, 40 to 42, 64 or 65: no messages lead one timetable to another.
    #[error("{0}")]
    Publication(OutboxFault),
    /// 50 or 51: the flights of the airline have no export. The flight of 50 is printed as a
    /// designator.
    #[error("{fault}")]
    Export {
        airline: Airline,
        fault: ExportFault,
    },
    /// 52: what is printed could not be written.
    #[error("what is printed could not be written")]
    WriteFault,
    /// 63: the line of the desk script is invalid.
    #[error("line {line} of the desk script is invalid")]
    Script {
        line: u64,
    },
    /// 90: memory ran out.
    #[error("out of memory")]
    Memory,
    /// 91: the file was not read within the limit, or not written. The name is as it is printed.
    #[error("the file {name} was not read within the limit, or not written")]
    File {
        name: String,
    },
    /// 92: another command holds the file, or the file changed after it was held. The name is as it
    /// is printed.
    #[error("another command holds the file {name}, or it changed after it was held")]
    Busy {
        name: String,
    },
    /// 93: the file is of another kind than what the command keeps there. The name is as it is
    /// printed.
    #[error("the file {name} is of another kind than what is to be kept there")]
    Occupied {
        name: String,
    },
}

impl Refusal {
    /// The number by which the refusal is known, 1 to 93.
    pub fn number(&self) -> u8
        ensures { result ≡ refusal_number self.now }
    {
        match self {
            Refusal::Value(fault) => fault.number(),
            Refusal::Reference => ssim_text::Fault::BadReference.number(),
            Refusal::Aircraft => ssim_text::Fault::BadEquipment.number(),
            Refusal::DataSet(fault) => fault.number(),
            Refusal::Stations(fault) => fault.number(),
            Refusal::Desk(fault) => fault.number(),
            Refusal::Publication(fault) => fault.number(),
            Refusal::Export { airline: _, fault } => fault.number(),
            Refusal::WriteFault => ExportFault::WriteFault.number(),
            Refusal::Script { .. } => 63,
            Refusal::Memory => Memory.number(),
            Refusal::File { .. } => 91,
            Refusal::Busy { .. } => 92,
            Refusal::Occupied { .. } => 93,
        }
    }

    /// The name by which the refusal is known, as `BadColumn`.
    pub fn name(&self) -> &'static str
        ensures { result.now ≡ refusal_name self.now }
    {
        match self {
            Refusal::Value(fault) => fault.name(),
            Refusal::Reference => ssim_text::Fault::BadReference.name(),
            Refusal::Aircraft => ssim_text::Fault::BadEquipment.name(),
            Refusal::DataSet(fault) => fault.name(),
            Refusal::Stations(fault) => fault.name(),
            Refusal::Desk(fault) => fault.name(),
            Refusal::Publication(fault) => fault.name(),
            Refusal::Export { airline: _, fault } => fault.name(),
            Refusal::WriteFault => ExportFault::WriteFault.name(),
            Refusal::Script { .. } => "Script",
            Refusal::Memory => Memory.name(),
            Refusal::File { .. } => "File",
            Refusal::Busy { .. } => "Busy",
            Refusal::Occupied { .. } => "Occupied",
        }
    }

    /// What the refusal names, but for the file of 91, 92 and 93.
    pub fn place(&self) -> Place
        ensures { result ≡ refusal_place self.now }
    {
        match self {
            Refusal::DataSet(fault) => fault.place(),
            Refusal::Stations(fault) => fault.place(),
            Refusal::Desk(fault) => fault.place(),
            Refusal::Publication(fault) => fault.place(),
            Refusal::Export { airline, fault } => fault.place(*airline),
            Refusal::Script { line } => Place::Line(*line),
            Refusal::Value(_)
            | Refusal::Reference
            | Refusal::Aircraft
            | Refusal::WriteFault
            | Refusal::Memory
            | Refusal::File { .. }
            | Refusal::Busy { .. }
            | Refusal::Occupied { .. } => Place::Nowhere,
        }
    }

    /// The name of the file of 91, 92 and 93.
    pub(crate) fn file(&self) -> Option<&str>
        ensures { option_map (λ name. name.now) result ≡ refusal_file self.now }
    {
        match self {
            Refusal::File { name } | Refusal::Busy { name } | Refusal::Occupied { name } => {
                Some(name.as_str())
            }
            _ => None,
        }
    }

    /// The line of the refusal, with its line end, as the beginning of a text.
    pub(crate) fn line(&self, alloc: Global) -> Result<Vec<u8>, Memory>
        ensures { IfOk result (λ bytes. bytes.items ≡ line (refusal_text self.now)) }
    {
        line_of(alloc, &RefusalLine { refusal: self })
    }
}

impl Refusal {
    /// 91 with the name of the file, or 90 if there is no memory for the name.
    pub(crate) fn of_file(alloc: Global, name: &str) -> Refusal
        ensures { IsOfFile 91 (codes "File") name.now result }
    {
        match printed_name(alloc, name) {
            Ok(name) => Refusal::File { name },
            Err(_) => Refusal::Memory,
        }
    }

    /// 92 with the name of the file, or 90 if there is no memory for the name.
    pub(crate) fn busy(alloc: Global, name: &str) -> Refusal
        ensures { IsOfFile 92 (codes "Busy") name.now result }
    {
        match printed_name(alloc, name) {
            Ok(name) => Refusal::Busy { name },
            Err(_) => Refusal::Memory,
        }
    }

    /// 93 with the name of the file, or 90 if there is no memory for the name.
    pub(crate) fn occupied(alloc: Global, name: &str) -> Refusal
        ensures { IsOfFile 93 (codes "Occupied") name.now result }
    {
        match printed_name(alloc, name) {
            Ok(name) => Refusal::Occupied { name },
            Err(_) => Refusal::Memory,
        }
    }
}

impl From<Fault> for Refusal {
    ghost use Rattle.ssim_program.specs.declared.refusal.Refusal.TheVariants.{Value};

    ghost from_gives = { λ fault refusal. refusal ≡ Value fault };

    fn from(fault: Fault) -> Self {
        Refusal::Value(fault)
    }
}

impl From<BaseFault> for Refusal {
    ghost use Rattle.ssim_program.specs.declared.refusal.Refusal.TheVariants.{DataSet};

    ghost from_gives = { λ fault refusal. refusal ≡ DataSet fault };

    fn from(fault: BaseFault) -> Self {
        Refusal::DataSet(fault)
    }
}

impl From<StationFault> for Refusal {
    ghost use Rattle.ssim_program.specs.declared.refusal.Refusal.TheVariants.{Stations};

    ghost from_gives = { λ fault refusal. refusal ≡ Stations fault };

    fn from(fault: StationFault) -> Self {
        Refusal::Stations(fault)
    }
}

impl From<DeskFault> for Refusal {
    ghost use Rattle.ssim_program.specs.declared.refusal.Refusal.TheVariants.{Desk};

    ghost from_gives = { λ fault refusal. refusal ≡ Desk fault };

    fn from(fault: DeskFault) -> Self {
        Refusal::Desk(fault)
    }
}

impl From<OutboxFault> for Refusal {
    ghost use Rattle.ssim_program.specs.declared.refusal.Refusal.TheVariants.{Publication};

    ghost from_gives = { λ fault refusal. refusal ≡ Publication fault };

    fn from(fault: OutboxFault) -> Self {
        Refusal::Publication(fault)
    }
}

impl From<Memory> for Refusal {
    ghost use Rattle.ssim_program.specs.declared.refusal.Refusal.TheVariants.{Memory};

    ghost from_gives = { λ _ refusal. refusal ≡ Memory };

    fn from(_refused: Memory) -> Self {
        Refusal::Memory
    }
}

impl From<AllocError> for Refusal {
    ghost use Rattle.ssim_program.specs.declared.refusal.Refusal.TheVariants.{Memory};

    ghost from_gives = { λ _ refusal. refusal ≡ Memory };

    fn from(_refused: AllocError) -> Self {
        Refusal::Memory
    }
}

impl<T: Drop> From<AllocFailed<T>> for Refusal {
    ghost use Rattle.ssim_program.specs.declared.refusal.Refusal.TheVariants.{Memory};

    ghost from_gives = { λ _ refusal. refusal ≡ Memory };

    fn from(_refused: AllocFailed<T>) -> Self {
        Refusal::Memory
    }
}
