//! The differences of two timetables as lines.

ghost use Rattle.std.specs.Prelude.{◌≡◌, ◌<◌, ◌++◌, IfOk, OnOk};
ghost use Rattle.std.specs.List.{flat_map};
ghost use Rattle.std.specs.Option.{option_map};
ghost use Rattle.ssim_values.specs.Flight.{FlightNumber};
ghost use Rattle.ssim_base.specs.Timetable.{Days};
ghost use Rattle.ssim_difference.specs.Differences.{differences};
ghost use Rattle.ssim_difference.specs.Lines.{both_lines, changed_legs, changed_lines};
ghost use Rattle.ssim_difference.specs.Lines.{difference_legs, difference_lines, flight_lines};
ghost use Rattle.ssim_difference.specs.Lines.{last_line, leg_at, listed_lines, none_line};
ghost use Rattle.ssim_difference.specs.Lines.{pair_lines, piece_lines, sequence_lines, sequences};
ghost use Rattle.ssim_difference.specs.Lines.{signed_line};

use crate::dates::date_count;
use crate::difference::Difference;
use crate::flight_difference::FlightDifference;
use ssim_lines::{Printed, PrintedAt, push_each, push_range, written};
use ssim_listing::{is_like, mark_of, name_of, push_leg_text, push_period};
use ssim_schedule::PlacedLeg;
use ssim_values::{Airline, Memory, Period};
use std::alloc::Global;
use std::io::Write;

/// The flights of an airline that differ.
#[derive(Clone, Copy)]
struct Flights {
    alloc: Global,
    airline: Airline,
}

/// The name of a flight that differs.
#[derive(Clone, Copy)]
struct ChangedFlight<'a> {
    alloc: Global,
    name: &'a [u8],
}

/// Old and new legs, which are printed by sequence.
#[derive(Clone, Copy)]
struct LegPairs<'a, 'b> {
    alloc: Global,
    old: &'a [PlacedLeg],
    new: &'b [PlacedLeg],
}

/// The lines of the flights of an airline that differ, each with the periods on which it does and the
/// old and new legs of each; and a last line, with the number of these flights and of their dates. The
/// flights are those of [`differences`] or of [`chosen_differences`].
///
/// [`differences`]: crate::differences
/// [`chosen_differences`]: crate::chosen_differences
pub fn difference_lines(
    alloc: Global,
    airline: Airline,
    flights: &[FlightDifference],
) -> Result<Vec<u8>, Memory>
    ensures { (old new : FlightNumber → Days) → flights.now ≡ differences old new
        → IfOk result (λ lines. lines.items ≡ difference_lines airline old new) }
{
    let dates = date_count(alloc, flights)?;
    let lines = listed(alloc, airline, flights, dates)?;
    Ok(lines)
}

// The lines of some flights, and the last line.
fn listed(
    alloc: Global,
    airline: Airline,
    flights: &[FlightDifference],
    dates: u64,
) -> Result<Vec<u8>, Memory>
    ensures { IfOk result (λ lines. lines.items ≡ listed_lines airline flights.now dates) }
{
    let mut lines = Vec::new(alloc);
    push_each(&mut lines, &Flights { alloc, airline }, flights)?;
    push_last(&mut lines, flights, dates)?;
    Ok(lines)
}

/// Adds the last line: `same`, or the number of flights that differ and of their dates.
pub(crate) fn push_last(
    lines: &mut Vec<u8>,
    flights: &[FlightDifference],
    dates: u64,
) -> Result<(), Memory>
    ensures { OnOk result (lines.new.items ≡ lines.old.items ++ last_line flights.now dates) }
{
    let count = flights.len();
    if count == 0 {
        lines.extend_from_slice(b"same\n")?;
        return Ok(());
    }
    written(writeln!(lines, "different flights {count} dates {dates}"))
}

impl Printed<Flights> for FlightDifference {
    ghost text = { λ flights flight. flight_lines flights.airline flight };

    fn print(&self, flights: &Flights, lines: &mut Vec<u8>) -> Result<(), Memory> {
        let name = name_of(flights.airline, self.flight());
        let named = ChangedFlight {
            alloc: flights.alloc,
            name: name.as_slice(),
        };
        push_each(lines, &named, self.pieces())
    }
}

impl Printed<ChangedFlight<'_>> for (Period, Difference) {
    ghost text = { λ named piece. piece_lines named.name.now piece };

    fn print(&self, named: &ChangedFlight<'_>, lines: &mut Vec<u8>) -> Result<(), Memory> {
        push_period(lines, named.name, self.0)?;
        push_difference(named.alloc, lines, &self.1)?;
        Ok(())
    }
}

/// Adds the lines of the old and the new itinerary of a difference: by leg sequence, after `- ` a leg
/// that is only in the old one, after `+ ` one that is only in the new one, and after two blanks one
/// that is in both.
pub fn push_difference(
    alloc: Global,
    lines: &mut Vec<u8>,
    difference: &Difference,
) -> Result<(), Memory>
    ensures { OnOk result (lines.new.items ≡ lines.old.items ++ difference_legs difference.now) }
{
    let old = difference.old.legs();
    let new = difference.new.legs();
    push_changed_legs(alloc, lines, old, new)
}

// Adds the lines of old and new legs, and a line if there are none.
fn push_changed_legs(
    alloc: Global,
    lines: &mut Vec<u8>,
    old: &[PlacedLeg],
    new: &[PlacedLeg],
) -> Result<(), Memory>
    ensures { OnOk result (lines.new.items ≡ lines.old.items ++ changed_legs old.now new.now) }
{
    push_none(lines, b"- no flight", old)?;
    push_range(lines, &LegPairs { alloc, old, new }, 1, 100)?;
    push_none(lines, b"+ no flight", new)
}

// Adds a line if there are no legs.
fn push_none(lines: &mut Vec<u8>, text: &[u8], legs: &[PlacedLeg]) -> Result<(), Memory>
    ensures { OnOk result (lines.new.items ≡ lines.old.items ++ none_line text.now legs.now) }
{
    if legs.is_empty() {
        lines.extend_from_slice(text)?;
        lines.push(b'\n')?;
    }
    Ok(())
}

impl PrintedAt for LegPairs<'_, '_> {
    ghost has = { λ legs sequence. sequence < 100 };

    ghost text = { λ legs sequence. sequence_lines legs.old.now legs.new.now sequence };

    fn print_at(&self, sequence: usize, lines: &mut Vec<u8>) -> Result<(), Memory> {
        let old = leg_at(self.old, sequence as u8);
        let new = leg_at(self.new, sequence as u8);
        push_pair(self.alloc, lines, old, new)
    }
}

// The leg with a sequence.
pub(crate) fn leg_at(legs: &[PlacedLeg], sequence: u8) -> Option<&PlacedLeg>
    ensures { option_map (λ leg. leg.now) result ≡ leg_at legs.now sequence }
{
    legs.iter().find(|leg| leg.sequence() == sequence)
}

// Adds the lines of the old and the new leg of one sequence.
fn push_pair(
    alloc: Global,
    lines: &mut Vec<u8>,
    old: Option<&PlacedLeg>,
    new: Option<&PlacedLeg>,
) -> Result<(), Memory>
    ensures { OnOk result (lines.new.items ≡ lines.old.items ++ pair_lines
        (option_map (λ leg. leg.now) old.entry) (option_map (λ leg. leg.now) new.entry)) }
{
    match (old, new) {
        (None, None) => Ok(()),
        (Some(old), None) => push_signed(lines, b"- ", old, b""),
        (None, Some(new)) => push_signed(lines, b"+ ", new, b""),
        (Some(old), Some(new)) => push_both(alloc, lines, old, new),
    }
}

// Adds the line of an old and a new leg that are equal, or the lines of both.
fn push_both(
    alloc: Global,
    lines: &mut Vec<u8>,
    old: &PlacedLeg,
    new: &PlacedLeg,
) -> Result<(), Memory>
    ensures { OnOk result (lines.new.items ≡ lines.old.items ++ both_lines old.now new.now) }
{
    if old.same(new) {
        return push_signed(lines, b"  ", old, b"");
    }
    push_changed(alloc, lines, old, new)
}

// Adds the lines of an old and a new leg that differ.
fn push_changed(
    alloc: Global,
    lines: &mut Vec<u8>,
    old: &PlacedLeg,
    new: &PlacedLeg,
) -> Result<(), Memory>
    ensures { OnOk result (lines.new.items ≡ lines.old.items ++ changed_lines old.now new.now) }
{
    let marked = is_like(alloc, old, new)?;
    let mark = mark_of(marked);
    push_signed(lines, b"- ", old, mark)?;
    push_signed(lines, b"+ ", new, mark)
}

// Adds the line of a leg, after two characters and before a mark.
fn push_signed(lines: &mut Vec<u8>, sign: &[u8], leg: &PlacedLeg, mark: &[u8]) -> Result<(), Memory>
    ensures { OnOk result
        (lines.new.items ≡ lines.old.items ++ signed_line sign.now leg.now mark.now) }
{
    lines.extend_from_slice(sign)?;
    push_leg_text(lines, leg)?;
    lines.extend_from_slice(mark)?;
    lines.push(b'\n')?;
    Ok(())
}
