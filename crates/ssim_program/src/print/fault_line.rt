//! A fault as it is printed: its number, its name and what it names.
ghost use Rattle.std.specs.Prelude.{Some};
ghost use Rattle.ssim_program.specs.print.Refusal.{fault_text};

use ssim_base::Place;
use std::fmt;

/// A fault by its number and name, such as 12 `BadColumn`, with what it names.
#[derive(Clone, Copy, Debug)]
pub(crate) struct FaultLine {
    pub number: u8,
    pub name: &'static str,
    pub place: Place,
}

impl fmt::Display for FaultLine {
    ghost output = { λ l. Some (fault_text l.number l.name.now l.place) };

    fn fmt<W: fmt::Write>(&self, f: &mut fmt::Formatter<W>) -> fmt::Result {
        let number = self.number;
        let name = self.name;
        match self.place {
            Place::Nowhere => write!(f, "{number} {name}"),
            Place::Record(record) => write!(f, "{number} {name} record {record}"),
            Place::Column { record, column } => {
                write!(f, "{number} {name} record {record} column {column}")
            }
            Place::Line(line) => write!(f, "{number} {name} line {line}"),
            Place::SubMessage(sub) => write!(f, "{number} {name} sub {sub}"),
            Place::Offset(offset) => write!(f, "{number} {name} offset {offset}"),
            Place::Flight(flight) => write!(f, "{number} {name} flight {flight}"),
            Place::Message(reference) => write!(f, "{number} {name} {reference}"),
        }
    }
}
