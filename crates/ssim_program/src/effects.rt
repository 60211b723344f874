//! The effects of a change of a desk on its timetable, as lines.

ghost use Rattle.std.specs.Prelude.{◌≡◌, ◌||◌, ◌++◌, ℕ, Bool, Err, IfErr, IfOk, List, Ok, OnOk};
ghost use Rattle.std.specs.Str.{bytes_eq};
ghost use Rattle.ssim_values.specs.Flight.{FlightNumber};
ghost use Rattle.ssim_base.specs.Timetable.{Days};
ghost use Rattle.ssim_schedule.specs.FlightPieces.{divided_flights};
ghost use Rattle.ssim_difference.specs.Lines.{last_line};
ghost use Rattle.ssim_held.specs.Entries.{DeskSeen};
ghost use Rattle.ssim_program.specs.Desks.{desk_in};
ghost use Rattle.ssim_program.specs.internal.Effects.{HasFailing, IsAsked, IsBefore, is_in};
ghost use Rattle.ssim_program.specs.internal.Effects.{line_unless};
ghost use Rattle.ssim_program.specs.print.Effects.{effects, fails_as, finding_line};
ghost use Rattle.ssim_program.specs.print.Effects.{last_difference, with_effects};

use crate::desk_file::open_holdings;
use crate::print::finding::{fails, push_finding};
use crate::refusal::Refusal;
use crate::store::Store;
use ssim_desk::{FindingLine, Held, Holdings, Intake, copies};
use ssim_difference::{FlightDifference, date_count, differences};
use ssim_lines::{Printed, push_each, written};
use ssim_schedule::FlightPieces;
use ssim_values::Memory;
use std::alloc::Global;
use std::collections::BTreeSet;
use std::io::Write;

/// What is kept of a desk before a change.
#[derive(Drop)]
pub(crate) struct Before {
    /// The messages that it holds. They share their contents with those of the desk.
    messages: Vec<Held>,
}

/// The desk in a file, before messages come and go, and what is kept of it, if the words ask for the
/// effects.
pub(crate) fn open_before<S: Store>(
    alloc: Global,
    asked: bool,
    name: &str,
    store: &mut S,
) -> Result<(Intake, Option<Before>), Refusal>
    ensures ok { IfOk result (λ made. desk_in (S.files store.old) name.now (Ok made.0)) }
    ensures kept { IfOk result (λ made. IsAsked asked made.0 made.1) }
    ensures err { IfErr result (λ why. desk_in (S.files store.old) name.now (Err why)) }
    ensures same { S.files store.new ≡ S.files store.old }
    ensures counted { S.failures store.new ≡ S.failures store.old }
{
    let holdings = open_holdings(alloc, name, store)?;
    let before = before_if(alloc, asked, &holdings)?;
    let desk = Intake::of(holdings)?;
    Ok((desk, before))
}

/// What is kept of a desk, if the words ask for the effects.
pub(crate) fn before_if(
    alloc: Global,
    asked: bool,
    desk: &Holdings,
) -> Result<Option<Before>, Memory>
    ensures { IfOk result (IsAsked asked desk.now) }
{
    if asked {
        let before = before_of(alloc, desk)?;
        Ok(Some(before))
    } else {
        Ok(None)
    }
}

/// What is kept of a desk.
fn before_of(alloc: Global, desk: &Holdings) -> Result<Before, Memory>
    ensures { IfOk result (IsBefore desk.now) }
{
    let messages = copies(alloc, desk.held())?;
    Ok(Before { messages })
}

/// The lines of the sub-messages that fail.
fn failing_set(alloc: Global, lines: &[FindingLine]) -> Result<BTreeSet<Vec<u8>>, Memory>
    ensures { IfOk result (λ set. HasFailing set lines.now) }
{
    let mut set = BTreeSet::new(alloc);
    for found in lines {
        add_failing(alloc, &mut set, found)?;
    }
    Ok(set)
}

/// Adds the line of a sub-message to a set, if it fails.
fn add_failing(
    alloc: Global,
    set: &mut BTreeSet<Vec<u8>>,
    found: &FindingLine,
) -> Result<(), Memory>
    ensures { OnOk result ((text : List ℕ)
        → is_in set.new text ≡ (is_in set.old text || fails_as text found.now)) }
{
    if fails(&found.finding) {
        let line = line_of(alloc, found)?;
        add_line(set, line)
    } else {
        Ok(())
    }
}

/// Adds a line to a set.
fn add_line(set: &mut BTreeSet<Vec<u8>>, line: Vec<u8>) -> Result<(), Memory>
    ensures { OnOk result ((text : List ℕ)
        → is_in set.new text ≡ (is_in set.old text || bytes_eq text line.items)) }
{
    set.insert(line)?;
    Ok(())
}

/// The line of a sub-message.
fn line_of(alloc: Global, found: &FindingLine) -> Result<Vec<u8>, Memory>
    ensures { IfOk result (λ line. line.items ≡ finding_line found.now) }
{
    let mut line = Vec::new(alloc);
    push_finding(&mut line, found)?;
    Ok(line)
}

/// Adds the effects of a change to lines, if something is kept of the desk before it. A change keeps
/// the base.
pub(crate) fn push_effects(
    alloc: Global,
    lines: &mut Vec<u8>,
    before: &Option<Before>,
    after: &Holdings,
) -> Result<(), Memory>
    ensures { OnOk result ((asked : Bool) (first : DeskSeen) → IsAsked asked first before.now
        → first.base ≡ after.now.base
        → lines.new.items ≡ with_effects asked first after.now lines.old.items) }
{
    match before {
        None => Ok(()),
        Some(before) => {
            let effects = effects(alloc, before, after)?;
            lines.extend_from_slice(&effects)?;
            Ok(())
        }
    }
}

/// The effects of a change, which keeps the base.
pub(crate) fn effects(alloc: Global, before: &Before, after: &Holdings) -> Result<Vec<u8>, Memory>
    ensures { (first : DeskSeen) → IsBefore first before.now → first.base ≡ after.now.base
        → IfOk result (λ lines. lines.items ≡ effects first after.now) }
{
    let outcomes = after.outcomes_since(&before.messages)?;
    let failing = failing_set(alloc, &outcomes.before.lines)?;
    let known = KnownLines {
        alloc,
        failing: &failing,
    };
    let mut lines = Vec::new(alloc);
    push_each(&mut lines, &known, &outcomes.after.lines)?;
    push_last(
        alloc,
        &mut lines,
        &outcomes.before.flights,
        &outcomes.after.flights,
    )?;
    Ok(lines)
}

/// The lines of the sub-messages that failed before.
#[derive(Clone, Copy)]
struct KnownLines<'a> {
    alloc: Global,
    failing: &'a BTreeSet<Vec<u8>>,
}

impl Printed<KnownLines<'_>> for FindingLine {
    ghost text = { λ known found. line_unless known.failing.now found };

    fn print(&self, known: &KnownLines<'_>, lines: &mut Vec<u8>) -> Result<(), Memory> {
        if !fails(&self.finding) {
            return Ok(());
        }
        let line = line_of(known.alloc, self)?;
        if known.failing.contains(line.as_slice()) {
            return Ok(());
        }
        lines.extend_from_slice(&line)?;
        Ok(())
    }
}

/// Adds the last line of the difference of two timetables.
fn push_last(
    alloc: Global,
    lines: &mut Vec<u8>,
    old: &[FlightPieces],
    new: &[FlightPieces],
) -> Result<(), Memory>
    ensures { (before after : FlightNumber → Days)
        → old.now ≡ divided_flights before → new.now ≡ divided_flights after
        → OnOk result (lines.new.items ≡ lines.old.items ++ last_difference before after) }
{
    let flights = differences(alloc, old, new)?;
    let dates = date_count(alloc, &flights)?;
    push_count(lines, &flights, dates)
}

/// Adds `same`, or the number of flights that differ and of their dates.
fn push_count(lines: &mut Vec<u8>, flights: &[FlightDifference], dates: u64) -> Result<(), Memory>
    ensures { OnOk result (lines.new.items ≡ lines.old.items ++ last_line flights.now dates) }
{
    let count = flights.len();
    if count == 0 {
        lines.extend_from_slice(b"same\n")?;
        return Ok(());
    }
    written(writeln!(lines, "different flights {count} dates {dates}"))
}
