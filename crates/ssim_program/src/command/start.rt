//! The command `start`: a desk that holds nothing.

ghost use Rattle.std.specs.Prelude.{◌≡◌, IfOk, IsTrue};
ghost use Rattle.ssim_program.specs.Answers.{start};
ghost use Rattle.ssim_program.specs.Desks.{held_line};
ghost use Rattle.ssim_program.specs.internal.Program.{MakesOr};
ghost use Rattle.ssim_program.specs.print.StationNotes.{notes_asked, start_lines};

use crate::content_kind::ContentKind;
use crate::data_set::load_base;
use crate::hold::hold;
use crate::made::{Contents, Kept, Made};
use crate::print::AsLine;
use crate::print::printed_line::{PrintedLine, add_line, line_of};
use crate::refusal::Refusal;
use crate::store::Store;
use ssim_base::Base;
use ssim_desk::Holdings;
use ssim_lines::push_each;
use ssim_overview::station_notes;
use ssim_values::Memory;
use std::alloc::Global;

/// A desk over a data set and a station table, the notes on the table, if they are asked for, and the
/// line `held 0`.
pub(crate) fn start<'n, S: Store>(
    alloc: Global,
    notes: bool,
    dataset: &str,
    stations: &str,
    out: &str,
    store: &mut S,
) -> Result<Made<'n, S::Hold>, Refusal>
    requires fresh { IsTrue (S.is_fresh store.now) }
    ensures answer { MakesOr S.Hold.file (S.files store.old)
        (start (S.files store.old) notes dataset.now stations.now out.now) result }
    ensures same { S.files store.new ≡ S.files store.old }
    ensures counted { S.failures store.new ≡ S.failures store.old }
{
    let place = hold(alloc, out, ContentKind::DeskFile, store)?;
    let (data_set, stations) = load_base(alloc, dataset, stations, store)?;
    let desk = Holdings::start(alloc, data_set, stations);
    // No effect at run time. The proof reads from this use what is always true of a base.
    let _ = desk.base().records();
    let lines = start_lines(alloc, notes, desk.base())?;
    let contents = Contents::DeskFile(desk);
    let kept = Kept { place, contents };
    Ok(Made::Kept { kept, lines })
}

/// The lines of a new desk over a base.
fn start_lines(alloc: Global, notes: bool, base: &Base) -> Result<Vec<u8>, Memory>
    ensures { IfOk result (λ lines. lines.items ≡ start_lines notes base.now) }
{
    let mut lines = notes_asked(alloc, notes, base)?;
    add_line(&mut lines, &PrintedLine::Held { messages: 0 })?;
    Ok(lines)
}

/// The notes on the station table of a base, if they are asked for.
fn notes_asked(alloc: Global, asked: bool, base: &Base) -> Result<Vec<u8>, Memory>
    ensures { IfOk result (λ lines. lines.items ≡ notes_asked asked base.now) }
{
    let mut lines = Vec::new(alloc);
    if asked {
        let notes = station_notes(alloc, base.records(), base.rows())?;
        push_each(&mut lines, &AsLine, &notes)?;
    }
    Ok(lines)
}

/// The line `held n`.
pub(crate) fn held_line(alloc: Global, messages: usize) -> Result<Vec<u8>, Memory>
    ensures { IfOk result (λ line. line.items ≡ held_line messages) }
{
    line_of(alloc, &PrintedLine::Held { messages })
}
