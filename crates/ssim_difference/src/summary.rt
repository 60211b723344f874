//! How many changes of each kind two timetables have, as lines.

ghost use Rattle.std.specs.Prelude.{◌≡◌, ◌+◌, ◌++◌, IfOk, OnOk};
ghost use Rattle.ssim_values.specs.Flight.{FlightNumber};
ghost use Rattle.ssim_base.specs.Timetable.{Days};
ghost use Rattle.ssim_difference.specs.Differences.{differences};
ghost use Rattle.ssim_difference.specs.Kinds.{counted_line, summary_lines};
ghost use Rattle.ssim_difference.specs.internal.KindCounts.{all_of_kind, capped, counted_lines};
ghost use Rattle.ssim_difference.specs.internal.KindCounts.{dates_of_kind, days_of_kind};
ghost use Rattle.ssim_difference.specs.internal.KindCounts.{flights_of_kind, line_of_kind};
ghost use Rattle.ssim_difference.specs.internal.KindCounts.{one_if_any};

use crate::change_kind::ChangeKind;
use crate::dates::date_count;
use crate::difference::Difference;
use crate::flight_difference::FlightDifference;
use crate::lines::push_last;
use ssim_lines::{Printed, push_each, written};
use ssim_periods::number_of_days;
use ssim_values::{Memory, Period};
use std::alloc::Global;
use std::io::Write;

/// All kinds, in the order of their lines.
const KINDS: [ChangeKind; 6] = [
    ChangeKind::Added,
    ChangeKind::Cancelled,
    ChangeKind::Rerouted,
    ChangeKind::Retimed,
    ChangeKind::Equipment,
    ChangeKind::Other,
];

/// The flights whose changes are counted.
#[derive(Clone, Copy)]
struct Changes<'a> {
    flights: &'a [FlightDifference],
}

/// How many flights have a change of a kind, and on how many dates.
#[derive(Clone, Copy)]
struct KindCount {
    flights: u64,
    dates: u64,
}

/// The lines of the flights that differ: of each kind of change that has dates the number of the
/// flights that have such a change and of these dates; and the last line of [`difference_lines`]. The
/// flights are those of [`differences`] or of [`chosen_differences`].
///
/// [`difference_lines`]: crate::difference_lines
/// [`differences`]: crate::differences
/// [`chosen_differences`]: crate::chosen_differences
pub fn summary_lines(alloc: Global, flights: &[FlightDifference]) -> Result<Vec<u8>, Memory>
    ensures { (old new : FlightNumber → Days) → flights.now ≡ differences old new
        → IfOk result (λ lines. lines.items ≡ summary_lines old new) }
{
    let dates = date_count(alloc, flights)?;
    let lines = counted(alloc, flights, dates)?;
    Ok(lines)
}

// The lines of the kinds of some flights, and the last line.
fn counted(alloc: Global, flights: &[FlightDifference], dates: u64) -> Result<Vec<u8>, Memory>
    ensures { IfOk result (λ lines. lines.items ≡ counted_lines flights.now dates) }
{
    let mut lines = Vec::new(alloc);
    push_each(&mut lines, &Changes { flights }, &KINDS)?;
    push_last(&mut lines, flights, dates)?;
    Ok(lines)
}

impl Printed<Changes<'_>> for ChangeKind {
    ghost text = { λ changes kind. line_of_kind changes.flights.now kind };

    fn print(&self, changes: &Changes<'_>, lines: &mut Vec<u8>) -> Result<(), Memory> {
        let count = KindCount::of(*self, changes.flights);
        push_count(lines, *self, count.flights, count.dates)
    }
}

// Adds the line of a kind, if there are dates.
fn push_count(lines: &mut Vec<u8>, kind: ChangeKind, flights: u64, dates: u64) -> Result<(), Memory>
    ensures { OnOk result (lines.new.items ≡ lines.old.items ++ counted_line kind flights dates) }
{
    if dates == 0 {
        return Ok(());
    }
    let name = kind.name();
    written(writeln!(lines, "{name} flights {flights} dates {dates}"))
}

impl KindCount {
    // The numbers of a kind.
    fn of(kind: ChangeKind, flights: &[FlightDifference]) -> KindCount
        ensures flights { result.flights ≡ capped (flights_of_kind kind flights.now) }
        ensures dates { result.dates ≡ capped (all_of_kind kind flights.now) }
    {
        let mut count = KindCount {
            flights: 0,
            dates: 0,
        };
        for flight in flights {
            count = count.plus(dates_of_kind(kind, flight.pieces()));
        }
        count
    }

    // The numbers with those of a flight that has so many dates.
    fn plus(self, dates: u64) -> KindCount
        ensures flights { result.flights ≡ capped (self.flights + one_if_any dates) }
        ensures dates { result.dates ≡ capped (self.dates + dates) }
    {
        KindCount {
            flights: self.flights.saturating_add(one_if_any(dates)),
            dates: self.dates.saturating_add(dates),
        }
    }
}

// 1 if a number is not 0.
fn one_if_any(dates: u64) -> u64
    ensures { result ≡ one_if_any dates }
{
    if dates > 0 { 1 } else { 0 }
}

// The number of days of the pieces of a kind.
fn dates_of_kind(kind: ChangeKind, pieces: &[(Period, Difference)]) -> u64
    ensures { result ≡ capped (dates_of_kind kind pieces.now) }
{
    let mut count: u64 = 0;
    for piece in pieces {
        count = count.saturating_add(days_of_kind(kind, piece));
    }
    count
}

// The number of days of a piece, if it is of a kind.
fn days_of_kind(kind: ChangeKind, piece: &(Period, Difference)) -> u64
    ensures { result ≡ days_of_kind kind piece.now }
{
    if kind.has(&piece.1) {
        number_of_days(&piece.0) as u64
    } else {
        0
    }
}
