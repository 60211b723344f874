//! The flights of a timetable as lines: their periods with the legs of each, or date by date.

ghost use Rattle.std.specs.Prelude.{◌≡◌, ◌++◌, ◌∷◌, IfOk, OnOk};
ghost use Rattle.std.specs.List.{flat_map};
ghost use Rattle.ssim_values.specs.Day.{day_text};
ghost use Rattle.ssim_base.specs.Export.{line};
ghost use Rattle.ssim_listing.specs.Dates.{dated_listing};
ghost use Rattle.ssim_listing.specs.Lines.{flight_name, legs_of, listing, no_flight, period_text};
ghost use Rattle.ssim_listing.specs.Lines.{piece_lines};
ghost use Rattle.ssim_listing.specs.internal.Divisions.{divided_lines, divided_listing, part_lines};
ghost use Rattle.ssim_listing.specs.clauses.Groups.{group_in, is_mixed};
ghost use Rattle.ssim_listing.specs.internal.GroupedLines.{grouped_line, grouped_lines};

use crate::dates::push_dates;
use crate::division::Division;
use crate::groups::{LegGroups, are_mixed, groups_of};
use crate::leg_text::{push_leg_text, push_shown};
use crate::marks::mark_of;
use arrayvec::ArrayVec;
use ssim_lines::{Printed, push_each};
use ssim_schedule::{FlightPieces, Itinerary, PlacedLeg};
use ssim_values::{Airline, Day, Designator, Flight, Memory, Period};
use std::alloc::Global;

/// How the flights of an airline are listed.
#[derive(Clone, Copy)]
pub(crate) struct Layout {
    pub alloc: Global,
    pub airline: Airline,
    pub division: Division,
}

/// The name of a flight, and the groups of its legs, by which they are marked.
#[derive(Drop)]
struct Marks<'a> {
    name: &'a [u8],
    groups: LegGroups<'a>,
}

/// The flights of an airline, each with its periods, and the legs of each period. A leg is marked
/// if one of all legs of the flight differs from it, but has the same line.
pub fn listing(alloc: Global, airline: Airline, flights: &[FlightPieces]) -> Result<Vec<u8>, Memory>
    ensures { IfOk result (λ lines. lines.items ≡ listing airline flights.now) }
{
    lines_of(alloc, airline, flights, Division::Periods)
}

/// The flights of an airline date by date, a line for each leg.
pub fn dated_listing(
    alloc: Global,
    airline: Airline,
    flights: &[FlightPieces],
) -> Result<Vec<u8>, Memory>
    ensures { IfOk result (λ lines. lines.items ≡ dated_listing airline flights.now) }
{
    lines_of(alloc, airline, flights, Division::Dates)
}

// The lines of the flights of an airline.
fn lines_of(
    alloc: Global,
    airline: Airline,
    flights: &[FlightPieces],
    division: Division,
) -> Result<Vec<u8>, Memory>
    ensures { IfOk result (λ lines. lines.items ≡ divided_listing division airline flights.now) }
{
    let mut lines = Vec::new(alloc);
    let layout = Layout {
        alloc,
        airline,
        division,
    };
    push_each(&mut lines, &layout, flights)?;
    Ok(lines)
}

impl Printed<Layout> for FlightPieces {
    ghost text = { λ layout flight.
        divided_lines layout.division (flight_name layout.airline flight.0) flight.1 };

    fn print(&self, layout: &Layout, lines: &mut Vec<u8>) -> Result<(), Memory> {
        let name = name_of(layout.airline, self.flight());
        push_flight(
            layout.alloc,
            lines,
            name.as_slice(),
            self.pieces(),
            layout.division,
        )
    }
}

/// The designator of a flight of the airline.
pub fn name_of(airline: Airline, flight: Flight) -> ArrayVec<u8, 8>
    ensures { result.items ≡ flight_name airline flight }
{
    Designator { airline, flight }.write()
}

// Adds the lines of a flight with this name.
fn push_flight<'a>(
    alloc: Global,
    lines: &mut Vec<u8>,
    name: &'a [u8],
    pieces: &'a [(Period, Itinerary)],
    division: Division,
) -> Result<(), Memory>
    ensures { OnOk result
        (lines.new.items ≡ lines.old.items ++ divided_lines division name.now pieces.now) }
{
    match pieces.split_first() {
        None => push_no_flight(lines, name),
        Some(_) => push_parts(alloc, lines, name, pieces, division),
    }
}

// Adds the lines of the pieces or of the dates of a flight.
fn push_parts<'a>(
    alloc: Global,
    lines: &mut Vec<u8>,
    name: &'a [u8],
    pieces: &'a [(Period, Itinerary)],
    division: Division,
) -> Result<(), Memory>
    ensures { OnOk result
        (lines.new.items ≡ lines.old.items ++ part_lines division name.now pieces.now) }
{
    match division {
        Division::Periods => push_pieces(alloc, lines, name, pieces),
        Division::Dates => push_dates(alloc, lines, name, pieces),
    }
}

// Adds the line of a flight that flies on no date.
fn push_no_flight(lines: &mut Vec<u8>, name: &[u8]) -> Result<(), Memory>
    ensures { OnOk result (lines.new.items ≡ lines.old.items ++ no_flight name.now) }
{
    lines.extend_from_slice(name)?;
    lines.extend_from_slice(b" no flight\n")?;
    Ok(())
}

// Adds the lines of the pieces of a flight.
fn push_pieces<'a>(
    alloc: Global,
    lines: &mut Vec<u8>,
    name: &'a [u8],
    pieces: &'a [(Period, Itinerary)],
) -> Result<(), Memory>
    ensures { OnOk result (lines.new.items
        ≡ lines.old.items ++ flat_map (piece_lines name.now (legs_of pieces.now)) pieces.now) }
{
    let groups = groups_of(alloc, pieces)?;
    push_each(lines, &Marks { name, groups }, pieces)
}

impl Printed<Marks<'_>> for (Period, Itinerary) {
    ghost text = { λ marks piece. grouped_lines marks.name.now
        (λ text. is_mixed (group_in marks.groups text)) piece };

    // Adds the lines of a piece.
    fn print(&self, marks: &Marks<'_>, lines: &mut Vec<u8>) -> Result<(), Memory> {
        push_period(lines, marks.name, self.0)?;
        push_each(lines, marks, self.1.legs())
    }
}

/// Adds the line of a period of a flight with this name: its first and last day, and the days of
/// operation in seven characters, with a full stop for each day without.
pub fn push_period(lines: &mut Vec<u8>, name: &[u8], period: Period) -> Result<(), Memory>
    ensures { OnOk result
        (lines.new.items ≡ lines.old.items ++ line (name.now ++ 32 ∷ period_text period)) }
{
    lines.extend_from_slice(name)?;
    push_day(lines, period.first())?;
    push_day(lines, period.last())?;
    push_shown(lines, &period.mask().write())?;
    lines.push(b'\n')?;
    Ok(())
}

/// Adds a blank and a day.
pub(crate) fn push_day(lines: &mut Vec<u8>, day: Day) -> Result<(), Memory>
    ensures { OnOk result (lines.new.items ≡ lines.old.items ++ 32 ∷ day_text day) }
{
    lines.push(b' ')?;
    lines.extend_from_slice(&day.write())?;
    Ok(())
}

impl Printed<Marks<'_>> for PlacedLeg {
    ghost text = { λ marks leg.
        grouped_line (λ text. is_mixed (group_in marks.groups text)) leg };

    // Adds the line of a leg, two blanks before it, and its mark.
    fn print(&self, marks: &Marks<'_>, lines: &mut Vec<u8>) -> Result<(), Memory> {
        lines.extend_from_slice(b"  ")?;
        let begin = lines.len();
        push_leg_text(lines, self)?;
        let marked = are_mixed(&marks.groups, &lines[begin..]);
        lines.extend_from_slice(mark_of(marked))?;
        lines.push(b'\n')?;
        Ok(())
    }
}
