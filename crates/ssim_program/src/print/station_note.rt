//! The notes on a station table.

ghost use Rattle.std.specs.Prelude.{◌≡◌};
ghost use Rattle.ssim_base.specs.Export.{line};
ghost use Rattle.ssim_program.specs.print.StationNotes.{kind_word, station_note_text};

use crate::print::AsLine;
use ssim_lines::{Printed, written};
use ssim_overview::{NoteKind, StationNote};
use ssim_values::Memory;
use std::io::Write;

impl Printed<AsLine> for StationNote {
    ghost text = { λ _ note. line (station_note_text note) };

    fn print(&self, _line: &AsLine, lines: &mut Vec<u8>) -> Result<(), Memory> {
        let StationNote {
            station,
            kind,
            dates,
            first,
            last,
        } = *self;
        let kind = kind_word(kind);
        written(writeln!(
            lines,
            "note Station {station} {kind} {dates} {first} {last}"
        ))
    }
}

/// Whether the table lacks or contradicts what the legs say.
fn kind_word(kind: NoteKind) -> &'static str
    ensures { result.now ≡ kind_word kind }
{
    match kind {
        NoteKind::Missing => "missing",
        NoteKind::Other => "other",
    }
}
