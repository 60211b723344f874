//! How many stations the legs of flights depart from or arrive at: a mark for each of the 17,576.

ghost use Rattle.std.specs.Prelude.{◌≡◌, ◌<◌, ℕ, IfOk, false, length, nat_eq, slice_index_or};
ghost use Rattle.std.specs.List.{count_by};
ghost use Rattle.std.specs.Str.{bytes_eq};
ghost use Rattle.ssim_overview.specs.Totals.{all_stations, calls_at, serves, station_at};
ghost use Rattle.ssim_overview.specs.internal.Totals.{AddsMarks, is_in_flights, is_in_pieces};

use ssim_schedule::{FlightPieces, Itinerary, PlacedLeg};
use ssim_values::{Memory, Period, Station};
use std::alloc::Global;

/// The number of stations: three letters each.
const STATIONS: usize = 17_576;

/// How many stations the legs of flights depart from or arrive at.
pub(crate) fn station_count(alloc: Global, flights: &[FlightPieces]) -> Result<usize, Memory>
    ensures { IfOk result (λ count. count ≡ count_by (is_in_flights flights.now) all_stations) }
{
    let mut marks = no_marks(alloc)?;
    mark_flights(&mut marks, flights);
    Ok(count_marks(&marks))
}

// A mark for each station, none of which is set.
fn no_marks(alloc: Global) -> Result<Vec<bool>, Memory>
    ensures count { IfOk result (λ marks. length marks.items ≡ 17576) }
    ensures none { IfOk result
        (λ marks. (k : ℕ) → slice_index_or marks.items k false ≡ false) }
{
    let marks = vec![in alloc; false; STATIONS]?;
    Ok(marks)
}

/// The number of marks.
pub(crate) fn count_marks(marks: &[bool]) -> usize
    ensures { result ≡ count_by (λ mark. mark) marks.now }
{
    marks.iter().filter(|mark| **mark).count()
}

// Marks the stations of each of the flights.
fn mark_flights(marks: &mut [bool], flights: &[FlightPieces])
    requires { length marks.old ≡ 17576 }
    ensures { AddsMarks (is_in_flights flights.now) marks.old marks.new }
{
    for flight in flights {
        mark_pieces(marks, flight.pieces());
    }
}

// Marks the stations of each of the pieces.
fn mark_pieces(marks: &mut [bool], pieces: &[(Period, Itinerary)])
    requires { length marks.old ≡ 17576 }
    ensures { AddsMarks (is_in_pieces pieces.now) marks.old marks.new }
{
    for piece in pieces {
        mark_legs(marks, piece.1.legs());
    }
}

// Marks the stations of each of the legs.
fn mark_legs(marks: &mut [bool], legs: &[PlacedLeg])
    requires { length marks.old ≡ 17576 }
    ensures { AddsMarks (λ station. serves station legs.now) marks.old marks.new }
{
    for leg in legs {
        mark_leg(marks, leg);
    }
}

// Marks the stations of a leg.
fn mark_leg(marks: &mut [bool], leg: &PlacedLeg)
    requires { length marks.old ≡ 17576 }
    ensures { AddsMarks (λ station. calls_at station leg.now) marks.old marks.new }
{
    let columns = leg.columns();
    mark(marks, columns.departure_station());
    mark(marks, columns.arrival_station());
}

// Marks a station.
fn mark(marks: &mut [bool], station: Station)
    requires { length marks.old ≡ 17576 }
    ensures { AddsMarks (λ other. bytes_eq station other) marks.old marks.new }
{
    marks[number_of(station)] = true;
}

/// The rank of a station among all, in order of letters.
pub(crate) fn number_of(station: Station) -> usize
    ensures bound { result < 17576 }
    ensures only { (k : ℕ) → k < 17576 → nat_eq result k ≡ bytes_eq station (station_at k) }
{
    let [a, b, c] = station.write();
    (a - b'A') as usize * 676 + (b - b'A') as usize * 26 + (c - b'A') as usize
}

/// The station with a rank.
pub(crate) fn station_at(rank: usize) -> Station
    requires { rank < 17576 }
    ensures { result ≡ station_at rank }
{
    let letters = [
        b'A' + (rank / 676) as u8,
        b'A' + (rank / 26 % 26) as u8,
        b'A' + (rank % 26) as u8,
    ];
    match Station::parse(&letters) {
        Ok(station) => station,
        Err(_) => unreachable!(),
    }
}
