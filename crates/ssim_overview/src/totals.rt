//! How much a timetable has: its flights, stations and flight dates, and its first and last date.

ghost use Rattle.std.specs.Prelude.{◌≡◌, ◌<◌, ◌^◌, IfOk};
ghost use Rattle.ssim_periods.specs.Days.{each_day};
ghost use Rattle.ssim_schedule.specs.FlightPieces.{divided_flights};
ghost use Rattle.ssim_overview.specs.internal.Totals.{dates_of_flights, dates_of_pieces};
ghost use Rattle.ssim_overview.specs.internal.Totals.{ends_of_flights, widened, widened_by};

use crate::station_marks::station_count;
use ssim_periods::number_of_days;
use ssim_schedule::{FlightPieces, Itinerary};
use ssim_values::{Day, Memory, Period};
use std::alloc::Global;

/// How much a timetable has.
#[derive(Clone, Copy, Debug, PartialEq, Eq)]
pub struct Totals {
    /// The number of flights that fly on some date.
    pub flights: usize,
    /// The number of stations that a leg departs from or arrives at.
    pub stations: usize,
    /// The number of pairs of a flight and a date on which it flies.
    pub dates: u64,
    /// The first and the last date on which a flight flies.
    pub first_and_last: Option<(Day, Day)>,
}

impl Totals {
    ghost use Rattle.ssim_overview.specs.Totals.{LegsOn, totals};

    /// The totals of the timetable whose flights these are, each with its pieces. The cost is one
    /// look at each piece and its legs.
    pub fn of(alloc: Global, flights: &[FlightPieces]) -> Result<Totals, Memory>
        ensures { (legs_on : LegsOn)
            → flights.now ≡ divided_flights (λ flight. each_day (legs_on flight))
            → IfOk result (λ found. found ≡ totals legs_on) }
    {
        let stations = station_count(alloc, flights)?;
        Ok(Totals {
            flights: flights.len(),
            stations,
            dates: dates_of_flights(flights),
            first_and_last: ends_of_flights(flights),
        })
    }
}

// The number of dates of the pieces of flights.
fn dates_of_flights(flights: &[FlightPieces]) -> u64
    ensures { dates_of_flights flights.now < 2 ^ 64 → result ≡ dates_of_flights flights.now }
{
    let mut count: u64 = 0;
    for flight in flights {
        count = count.saturating_add(dates_of_pieces(flight.pieces()));
    }
    count
}

// The number of dates of pieces.
fn dates_of_pieces(pieces: &[(Period, Itinerary)]) -> u64
    ensures { dates_of_pieces pieces.now < 2 ^ 64 → result ≡ dates_of_pieces pieces.now }
{
    let mut count: u64 = 0;
    for piece in pieces {
        count = count.saturating_add(number_of_days(&piece.0) as u64);
    }
    count
}

// The first day of the first piece of flights, and the last day of the last.
fn ends_of_flights(flights: &[FlightPieces]) -> Option<(Day, Day)>
    ensures { result ≡ ends_of_flights flights.now }
{
    let mut ends = None;
    for flight in flights {
        ends = widened_by(ends, flight.pieces());
    }
    ends
}

// A first and a last day after these pieces, too.
fn widened_by(ends: Option<(Day, Day)>, pieces: &[(Period, Itinerary)]) -> Option<(Day, Day)>
    ensures { result ≡ widened_by ends pieces.now }
{
    let mut ends = ends;
    for piece in pieces {
        ends = widened(ends, piece.0);
    }
    ends
}

// A first and a last day after one more period.
fn widened(ends: Option<(Day, Day)>, period: Period) -> Option<(Day, Day)>
    ensures { result ≡ widened ends period }
{
    match ends {
        None => Some((period.first(), period.last())),
        Some((first, last)) => Some((first.min(period.first()), last.max(period.last()))),
    }
}
