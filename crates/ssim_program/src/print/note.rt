//! The notes on a data set.

ghost use Rattle.std.specs.Prelude.{◌≡◌, IfOk};
ghost use Rattle.ssim_program.specs.Made.{as_printed, note_line, summary_lines};

use crate::print::AsLine;
use crate::print::printed_line::{PrintedLine, add_line};
use ssim_base::{Note, Summary};
use ssim_lines::{Printed, push_each};
use ssim_values::Memory;
use std::alloc::Global;

/// A line for each note, in order, and the summary.
pub(crate) fn lines_on(alloc: Global, summary: &Summary) -> Result<Vec<u8>, Memory>
    ensures { IfOk result (λ lines. lines.items
        ≡ summary_lines summary.now.records summary.now.flights summary.now.notes.items) }
{
    let mut lines = Vec::new(alloc);
    push_each(&mut lines, &AsLine, &summary.notes)?;
    let last = PrintedLine::Summary {
        records: summary.records,
        flights: summary.flights,
        notes: summary.notes.len(),
    };
    add_line(&mut lines, &last)?;
    Ok(lines)
}

impl Printed<AsLine> for Note {
    ghost text = { λ _ note. note_line note };

    fn print(&self, _line: &AsLine, lines: &mut Vec<u8>) -> Result<(), Memory> {
        add_line(lines, &printed_note(*self))
    }
}

fn printed_note(note: Note) -> PrintedLine
    ensures { result ≡ as_printed note }
{
    match note {
        Note::Serial(number) => PrintedLine::SerialNote { record: number },
        Note::CheckReference(number) => PrintedLine::CheckReferenceNote { record: number },
    }
}
