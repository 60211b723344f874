//! What faults name.

ghost use Rattle.std.specs.Prelude.{◌≡◌};
ghost use Rattle.ssim_base.specs.Fault.{record_fault_place, text_fault_place};

use ssim_records::RecordFault;
use ssim_text::{Reference, TextFault};
use ssim_values::Designator;

/// What a fault names: a place in what was read, a flight or a message.
#[derive(Clone, Copy, Debug, PartialEq, Eq)]
pub enum Place {
    /// Nothing.
    Nowhere,
    /// A record of a data set, counted from 1.
    Record(u64),
    /// A field of a record of a data set, by its first column.
    Column { record: u64, column: usize },
    /// A line of a text, of a station table or of a script, counted from 1.
    Line(u64),
    /// A sub-message, counted from 1. The number 0 is the message as a whole.
    SubMessage(usize),
    /// An element of a desk file, by the number of bytes before it.
    Offset(u64),
    /// A flight of an airline.
    Flight(Designator),
    /// A message, by its reference.
    Message(Reference),
}

impl From<RecordFault> for Place {
    ghost from_gives = { λ fault place. place ≡ record_fault_place fault };

    fn from(fault: RecordFault) -> Place {
        match fault {
            RecordFault::BadColumn { record, column } => Place::Column { record, column },
            _ => Place::Record(fault.record()),
        }
    }
}

impl From<TextFault> for Place {
    ghost from_gives = { λ fault place. place ≡ text_fault_place fault };

    fn from(fault: TextFault) -> Place {
        match fault {
            TextFault::Memory => Place::Nowhere,
            TextFault::Refused { line, .. } => Place::Line(line as u64),
        }
    }
}
