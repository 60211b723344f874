//! The lines that a rehearsal prints.
ghost use Rattle.std.specs.Prelude.{◌≡◌, IfOk, Some};
ghost use Rattle.std.specs.List.{flat_map};
ghost use Rattle.ssim_program.specs.rehearse.Rehearsal.{printed_line, rehearsal_text};

use crate::print::AsLine;
use crate::print::printed_line::add_line;
use crate::print::refusal_line::RefusalLine;
use crate::refusal::Refusal;
use ssim_desk::DeskFault;
use ssim_lines::{Printed, push_each};
use ssim_schedule::ExportFault;
use ssim_text::Reference;
use ssim_values::{Airline, Memory};
use std::alloc::Global;
use std::fmt;

/// A line that `rehearse` prints. Desks are counted from 1.
#[derive(Clone, Copy, Debug)]
pub(crate) enum RehearsalLine {
    /// The desk took a text whose message was new.
    Taken {
        desk: usize,
        reference: Reference,
    },
    /// The desk took a text whose message it held already.
    Repeated {
        desk: usize,
        reference: Reference,
    },
    /// The desk took over what another holds.
    Merged {
        desk: usize,
    },
    /// The step was refused.
    Refused {
        desk: usize,
        fault: DeskFault,
    },
    /// At the end, how many messages the desk holds, and how many bytes its export has.
    Exported {
        desk: usize,
        messages: usize,
        bytes: usize,
    },
    /// At the end, why the desk has no export.
    NotExported {
        desk: usize,
        airline: Airline,
        fault: ExportFault,
    },
    /// All exports are equal.
    Same,
    /// Two exports are not equal.
    Different,
}

impl fmt::Display for RehearsalLine {
    ghost output = { λ l. Some (rehearsal_text l) };

    fn fmt<W: fmt::Write>(&self, f: &mut fmt::Formatter<W>) -> fmt::Result {
        match self {
            RehearsalLine::Taken { desk, reference } => write!(f, "{desk} taken {reference}"),
            RehearsalLine::Repeated { desk, reference } => write!(f, "{desk} repeated {reference}"),
            RehearsalLine::Merged { desk } => write!(f, "{desk} merged"),
            RehearsalLine::Refused { desk, fault } => {
                let refusal = Refusal::from(*fault);
                let line = RefusalLine { refusal: &refusal };
                write!(f, "{desk} {line}")
            }
            RehearsalLine::Exported {
                desk,
                messages,
                bytes,
            } => write!(f, "desk {desk} held {messages} bytes {bytes}"),
            RehearsalLine::NotExported {
                desk,
                airline,
                fault,
            } => {
                let refusal = Refusal::Export {
                    airline: *airline,
                    fault: *fault,
                };
                let line = RefusalLine { refusal: &refusal };
                write!(f, "desk {desk} {line}")
            }
            RehearsalLine::Same => write!(f, "same"),
            RehearsalLine::Different => write!(f, "different"),
        }
    }
}

/// The bytes of lines, each with its end.
pub(crate) fn bytes_of(alloc: Global, lines: &[RehearsalLine]) -> Result<Vec<u8>, Memory>
    ensures { IfOk result (λ bytes. bytes.items ≡ flat_map printed_line lines.now) }
{
    let mut bytes = Vec::new(alloc);
    push_each(&mut bytes, &AsLine, lines)?;
    Ok(bytes)
}

impl Printed<AsLine> for RehearsalLine {
    ghost text = { λ _ line. printed_line line };

    fn print(&self, _line: &AsLine, bytes: &mut Vec<u8>) -> Result<(), Memory> {
        add_line(bytes, self)
    }
}
