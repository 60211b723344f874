//! The lines that say what the other time mode leaves, and how many flight dates it keeps.

ghost use Rattle.std.specs.Prelude.{◌≡◌, ◌++◌, ◌∷◌, ◌%◌, List, ℕ, codes, IfOk, OnOk};
ghost use Rattle.ssim_values.specs.Characters.{two_digits};
ghost use Rattle.ssim_values.specs.Flight.{FlightNumber};
ghost use Rattle.ssim_values.specs.declared.time_mode.TimeMode.{TimeMode};
ghost use Rattle.ssim_base.specs.Export.{line};
ghost use Rattle.ssim_base.specs.Stations.{Row};
ghost use Rattle.ssim_base.specs.Timetable.{Days};
ghost use Rattle.ssim_listing.specs.Lines.{period_text};
ghost use Rattle.ssim_schedule.specs.clauses.Schedule.{days_in};
ghost use Rattle.ssim_parts.specs.FlightFates.{fates_of};
ghost use Rattle.ssim_parts.specs.ConversionLines.{conversion_lines, last_line, left_line};
ghost use Rattle.ssim_parts.specs.ConversionLines.{left_lines, reason_text, unconverted_lines};

use crate::converted::FlightFates;
use crate::date_counts::{DateCounts, flown_dates};
use crate::fate::{Fate, LeftReason};
use ssim_lines::{Printed, push_each, written};
use ssim_listing::{name_of, push_period};
use ssim_schedule::Schedule;
use ssim_values::{Airline, Memory, Period, write_two_digits};
use std::alloc::Global;
use std::io::Write;

/// The airline of the flights whose lines are printed.
#[derive(Clone, Copy)]
struct OfAirline {
    airline: Airline,
}

/// The name of a flight.
#[derive(Clone, Copy)]
struct Named<'a> {
    name: &'a [u8],
}

/// The lines of what becomes of flights of an airline: `left`, the flight, the period and the reason
/// for each period of dates that are left, then the numbers of flight dates.
pub fn conversion_lines(
    alloc: Global,
    airline: Airline,
    fates: &[FlightFates],
) -> Result<Vec<u8>, Memory>
    ensures { (rows : List Row) (wanted : TimeMode) (days : FlightNumber → Days)
        → fates.now ≡ fates_of rows wanted days
        → IfOk result (λ lines. lines.items ≡ conversion_lines airline rows wanted days) }
{
    let mut lines = Vec::new(alloc);
    push_each(&mut lines, &OfAirline { airline }, fates)?;
    let counts = DateCounts::of_flights(fates);
    push_last(&mut lines, counts.kept, counts.moved, counts.left)?;
    Ok(lines)
}

/// The line of a timetable that stays as it is: how many flight dates it has.
pub fn unconverted_lines(alloc: Global, schedule: Schedule) -> Result<Vec<u8>, Memory>
    ensures { IfOk result (λ lines. lines.items ≡ unconverted_lines (days_in schedule)) }
{
    let flights = schedule.into_flights()?;
    let dates = flown_dates(&flights);
    let mut lines = Vec::new(alloc);
    push_last(&mut lines, dates, 0, 0)?;
    Ok(lines)
}

// Adds the last line.
fn push_last(lines: &mut Vec<u8>, kept: u64, moved: u64, left: u64) -> Result<(), Memory>
    ensures { OnOk result (lines.new.items ≡ lines.old.items ++ last_line kept moved left) }
{
    written(writeln!(lines, "dates {kept} moved {moved} left {left}"))
}

impl Printed<OfAirline> for FlightFates {
    ghost text = { λ of flight. left_lines of.airline flight };

    fn print(&self, of: &OfAirline, lines: &mut Vec<u8>) -> Result<(), Memory> {
        let name = name_of(of.airline, self.flight());
        let named = Named {
            name: name.as_slice(),
        };
        push_each(lines, &named, self.pieces())
    }
}

impl Printed<Named<'_>> for (Period, Fate) {
    ghost text = { λ named piece. left_line named.name.now piece };

    fn print(&self, named: &Named<'_>, lines: &mut Vec<u8>) -> Result<(), Memory> {
        match self.1 {
            Fate::Absent | Fate::Kept(_) => Ok(()),
            Fate::Left(reason) => push_left(lines, named.name, self.0, reason),
        }
    }
}

// Adds the line of a period that is left.
fn push_left(
    lines: &mut Vec<u8>,
    name: &[u8],
    period: Period,
    reason: LeftReason,
) -> Result<(), Memory>
    ensures { OnOk result (lines.new.items ≡ lines.old.items
        ++ line (codes "left " ++ name.now ++ 32 ∷ period_text period ++ 32 ∷ reason_text reason)) }
{
    lines.extend_from_slice(b"left ")?;
    push_name(lines, name, period)?;
    lines.push(b' ')?;
    push_reason(lines, reason)?;
    lines.push(b'\n')?;
    Ok(())
}

// Adds a name and a period.
fn push_name(lines: &mut Vec<u8>, name: &[u8], period: Period) -> Result<(), Memory>
    ensures { OnOk result
        (lines.new.items ≡ lines.old.items ++ (name.now ++ 32 ∷ period_text period)) }
{
    push_period(lines, name, period)?;
    let _ = lines.pop();
    Ok(())
}

// Adds the words of a reason.
fn push_reason(lines: &mut Vec<u8>, reason: LeftReason) -> Result<(), Memory>
    ensures { OnOk result (lines.new.items ≡ lines.old.items ++ reason_text reason) }
{
    match reason {
        LeftReason::Station(sequence) => push_numbered(lines, b"station ", sequence),
        LeftReason::Letter(sequence) => push_numbered(lines, b"letter ", sequence),
        LeftReason::Calendar => {
            lines.extend_from_slice(b"calendar")?;
            Ok(())
        }
        LeftReason::Days(sequence) => push_numbered(lines, b"days ", sequence),
        LeftReason::Date => {
            lines.extend_from_slice(b"date")?;
            Ok(())
        }
    }
}

// Adds a word and a leg sequence, 1 to 99, in two digits.
fn push_numbered(lines: &mut Vec<u8>, word: &[u8], sequence: u8) -> Result<(), Memory>
    ensures { OnOk result
        (lines.new.items ≡ lines.old.items ++ (word.now ++ two_digits (sequence % 100))) }
{
    lines.extend_from_slice(word)?;
    lines.extend_from_slice(&write_two_digits(sequence % 100))?;
    Ok(())
}
