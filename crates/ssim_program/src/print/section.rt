//! The lines on a section of a data set of several carriers.

ghost use Rattle.std.specs.Prelude.{◌≡◌, ◌≤◌, ◌++◌, IfOk, OnOk, Some, codes};
ghost use Rattle.ssim_values.specs.Airline.{airline_text};
ghost use Rattle.ssim_base.specs.Export.{line};
ghost use Rattle.ssim_program.specs.Splitting.{counts_line, end_note_lines, kept_text, notes_count};
ghost use Rattle.ssim_program.specs.Splitting.{notes_lines, numbers_text, refused_line};

use crate::print::AsLine;
use crate::print::refusal_line::RefusalLine;
use crate::refusal::Refusal;
use ssim_base::Note;
use ssim_lines::{push_each, written};
use ssim_values::{Airline, Memory};
use std::alloc::Global;
use std::io::Write;

/// A section whose data set is kept in a file.
#[derive(Clone, Copy)]
pub(crate) struct SetLine<'a> {
    pub airline: Airline,
    /// The name of the file, as it is printed.
    pub name: &'a str,
    /// The number of records other than fill, without the header.
    pub records: u64,
    pub flights: usize,
}

/// A line for each note on a section that is kept, and its own line.
pub(crate) fn kept_lines(
    alloc: Global,
    set: &SetLine<'_>,
    notes: &[Note],
    end_note: Option<u64>,
) -> Result<Vec<u8>, Memory>
    ensures { IfOk result (λ lines. lines.items ≡ notes_lines (notes.now, end_note)
        ++ kept_text set.now.airline set.now.name.now set.now.records set.now.flights
        (notes_count (notes.now, end_note))) }
{
    let mut lines = Vec::new(alloc);
    push_each(&mut lines, &AsLine, notes)?;
    match end_note {
        None => push_kept(&mut lines, set, notes.len() as u64)?,
        Some(number) => {
            push_end_note(&mut lines, number)?;
            push_kept(&mut lines, set, notes.len() as u64 + 1)?;
        }
    }
    Ok(lines)
}

/// Adds the line of the note on an end code.
fn push_end_note(lines: &mut Vec<u8>, number: u64) -> Result<(), Memory>
    ensures { OnOk result
        (lines.new.items ≡ lines.old.items ++ end_note_lines (Some number)) }
{
    written(writeln!(lines, "note Continuation record {number}"))
}

/// Adds the line of a section that is kept, with its number of notes.
fn push_kept(lines: &mut Vec<u8>, set: &SetLine<'_>, notes: u64) -> Result<(), Memory>
    ensures { OnOk result (lines.new.items ≡ lines.old.items ++ kept_text set.now.airline
        set.now.name.now set.now.records set.now.flights notes) }
{
    push_name(lines, set)?;
    push_numbers(lines, set.records, set.flights, notes)
}

/// Adds the airline and the name of the file.
fn push_name(lines: &mut Vec<u8>, set: &SetLine<'_>) -> Result<(), Memory>
    ensures { OnOk result (lines.new.items ≡ lines.old.items
        ++ (airline_text set.now.airline ++ codes " kept " ++ set.now.name.now)) }
{
    let airline = set.airline;
    let name = set.name;
    written(write!(lines, "{airline} kept {name}"))
}

/// Adds the numbers of records, flights and notes, and ends the line.
fn push_numbers(lines: &mut Vec<u8>, records: u64, flights: usize, notes: u64) -> Result<(), Memory>
    ensures { OnOk result (lines.new.items
        ≡ lines.old.items ++ line (numbers_text records flights notes)) }
{
    written(writeln!(lines, " records {records} flights {flights} notes {notes}"))
}

/// The line of a section that is refused. Its airline is `?` if it has none.
pub(crate) fn refused_line(
    alloc: Global,
    airline: Option<Airline>,
    why: &Refusal,
) -> Result<Vec<u8>, Memory>
    ensures { IfOk result (λ line. line.items ≡ refused_line airline why.now) }
{
    let refusal = RefusalLine { refusal: why };
    let mut line = Vec::new(alloc);
    match airline {
        Some(airline) => written(writeln!(line, "{airline} {refusal}"))?,
        None => written(writeln!(line, "? {refusal}"))?,
    }
    Ok(line)
}

/// The line of the numbers of sections.
pub(crate) fn count_line(alloc: Global, sections: usize, kept: usize) -> Result<Vec<u8>, Memory>
    requires { kept ≤ sections }
    ensures { IfOk result (λ line. line.items ≡ counts_line sections kept) }
{
    let refused = sections - kept;
    let mut line = Vec::new(alloc);
    written(writeln!(line, "carriers {sections} kept {kept} refused {refused}"))?;
    Ok(line)
}
