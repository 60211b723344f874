//! A set of flights.

ghost use Rattle.std.specs.Prelude.{◌≡◌, false, filter, length, vec_len, IfOk};
ghost use Rattle.ssim_schedule.specs.internal.FlightSet.{is_marked, is_record_of};
ghost use Rattle.ssim_base.specs.Export.{all_flights};
ghost use Rattle.ssim_base.specs.Timetable.{is_among};
ghost use Rattle.ssim_values.specs.Flight.{FlightNumber, IsFlight};

use crate::timetable::flight_table::{flight_at, place};
use ssim_records::Record;
use ssim_values::{Flight, Memory};
use std::alloc::Global;

/// The number of flights.
const PLACES: usize = 270_000;

/// A set of flights. The search takes the same time however many flights are in it.
#[derive(Drop)]
pub(crate) struct FlightSet {
    /// For each rank of a flight, whether the flight is in the set.
    marks: Vec<bool>,
    ghost whole: { vec_len marks ≡ 270000 },
}

impl FlightSet {
    /// The set of these flights, which need not be in order and may repeat.
    pub(crate) fn of(alloc: Global, flights: &[Flight]) -> Result<FlightSet, Memory>
        ensures { IfOk result (λ set. (g : FlightNumber) → IsFlight g
            → is_marked set.marks.items g ≡ is_among flights.now g) }
    {
        let mut marks = blank(alloc, PLACES)?;
        for flight in flights {
            marks[place(*flight) as usize] = true;
        }
        Ok(FlightSet { marks })
    }

    /// Whether a record is a leg or a segment of a flight of the set.
    pub(crate) fn has_flight_of(&self, one: &Record) -> bool
        ensures { result ≡ is_record_of (is_marked self.now.marks.items) one.now }
    {
        match one {
            Record::Leg(leg) => self.has(leg.flight()),
            Record::Segment(segment) => self.has(segment.name().flight()),
            Record::Header(_) | Record::Carrier(_) | Record::Trailer(_) => false,
        }
    }

    /// The flights of the set, by number and suffix.
    pub(crate) fn flights(&self, alloc: Global) -> Result<Vec<Flight>, Memory>
        ensures { IfOk result
            (λ flights. flights.items ≡ filter (is_marked self.now.marks.items) all_flights) }
    {
        let mut flights = Vec::new(alloc);
        for place in 0..PLACES {
            if self.marks[place] {
                flights.push(flight_at(place as u32))?;
            }
        }
        Ok(flights)
    }

    // Whether a flight is in the set.
    fn has(&self, flight: Flight) -> bool
        ensures { result ≡ is_marked self.now.marks.items flight }
    {
        self.marks[place(flight) as usize]
    }
}

// Marks none of which is set.
fn blank(alloc: Global, count: usize) -> Result<Vec<bool>, Memory>
    ensures count { IfOk result (λ marks. length marks.items ≡ count) }
    ensures none { IfOk result (λ marks. (f : FlightNumber) → is_marked marks.items f ≡ false) }
{
    let marks = vec![in alloc; false; count]?;
    Ok(marks)
}
