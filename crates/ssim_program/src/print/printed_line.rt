//! The lines that commands print.
ghost use Rattle.std.specs.Prelude.{◌≡◌, ◌++◌, IfOk, IfSome, OnOk, Some};
ghost use Rattle.ssim_base.specs.Export.{line};
ghost use Rattle.ssim_program.specs.print.PrintedLine.{printed_text};

use ssim_lines::written;
use ssim_text::Reference;
use ssim_values::Memory;
use std::alloc::Global;
use std::fmt;
use std::io::Write;

/// A line that a command prints. It is displayed without its line end.
#[derive(Clone, Copy, Debug, PartialEq, Eq)]
pub enum PrintedLine {
    /// The record's serial does not follow the serial before it.
    SerialNote {
        record: u64,
    },
    /// The trailer's check reference is not the serial of the record before.
    CheckReferenceNote {
        record: u64,
    },
    /// How many records other than fill there are, distinct flights, and notes.
    Summary {
        records: usize,
        flights: usize,
        notes: usize,
    },
    /// How many records other than fill there are, and problems.
    ProblemCount {
        records: u64,
        problems: usize,
    },
    /// The message of a text was new, and is held.
    Taken {
        reference: Reference,
    },
    /// The message of a text was held already.
    Repeated {
        reference: Reference,
    },
    /// The message of a reference was held, and is held no longer.
    Withdrawn {
        reference: Reference,
    },
    /// The message of a reference was not held.
    NotHeld {
        reference: Reference,
    },
    /// The message of another desk would not mean the same, and is not carried.
    Left {
        reference: Reference,
    },
    /// How many messages a desk holds.
    Held {
        messages: usize,
    },
}

impl fmt::Display for PrintedLine {
    ghost output = { λ p. Some (printed_text p) };

    fn fmt<W: fmt::Write>(&self, f: &mut fmt::Formatter<W>) -> fmt::Result {
        match self {
            PrintedLine::SerialNote { record } => write!(f, "note Serial record {record}"),
            PrintedLine::CheckReferenceNote { record } => {
                write!(f, "note CheckReference record {record}")
            }
            PrintedLine::Summary {
                records,
                flights,
                notes,
            } => write!(f, "ok records {records} flights {flights} notes {notes}"),
            PrintedLine::ProblemCount { records, problems } => {
                write!(f, "records {records} problems {problems}")
            }
            PrintedLine::Taken { reference } => write!(f, "taken {reference}"),
            PrintedLine::Repeated { reference } => write!(f, "repeated {reference}"),
            PrintedLine::Withdrawn { reference } => write!(f, "withdrawn {reference}"),
            PrintedLine::NotHeld { reference } => write!(f, "not held {reference}"),
            PrintedLine::Left { reference } => write!(f, "left {reference}"),
            PrintedLine::Held { messages } => write!(f, "held {messages}"),
        }
    }
}

/// Adds the line of what is displayed, with its end.
pub(crate) fn add_line<D: fmt::Display>(lines: &mut Vec<u8>, shown: &D) -> Result<(), Memory>
    ensures { OnOk result
        (IfSome (D.output shown.now) (λ text. lines.new.items ≡ lines.old.items ++ line text)) }
{
    written(writeln!(lines, "{shown}"))
}

/// The text of what is displayed.
pub(crate) fn text_of<D: fmt::Display>(alloc: Global, shown: &D) -> Result<Vec<u8>, Memory>
    ensures { IfOk result (λ bytes. IfSome (D.output shown.now) (λ text. bytes.items ≡ text)) }
{
    let mut bytes = Vec::new(alloc);
    written(write!(bytes, "{shown}"))?;
    Ok(bytes)
}

/// The line of what is displayed, with its end.
pub(crate) fn line_of<D: fmt::Display>(alloc: Global, shown: &D) -> Result<Vec<u8>, Memory>
    ensures { IfOk result (λ bytes. IfSome (D.output shown.now) (λ text. bytes.items ≡ line text)) }
{
    let mut bytes = Vec::new(alloc);
    add_line(&mut bytes, shown)?;
    Ok(bytes)
}
