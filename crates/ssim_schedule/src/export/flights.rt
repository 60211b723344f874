//! The flights of a timetable, one after another, with the pieces that an export has.

ghost use Rattle.std.specs.Prelude.{◌≡◌, IfOk, filter, map};
ghost use Rattle.ssim_schedule.specs.FlightPieces.{AreExported, divided, divided_flights, flies};
ghost use Rattle.ssim_schedule.specs.FlightPieces.{in_order};
ghost use Rattle.ssim_schedule.specs.clauses.Schedule.{days_in};

use crate::builder::flight_set::FlightSet;
use crate::export::plan::{FlightPieces, divide};
use crate::schedule::Schedule;
use ssim_values::{Flight, Memory};
use std::alloc::Global;

impl Schedule {
    /// The flights that fly on some date, by number and suffix, each with its pieces: those of the
    /// export, in its order and without its limits. Parts that no copy of the schedule shares are
    /// freed flight by flight.
    pub fn into_flights(self) -> Result<Vec<FlightPieces>, Memory>
        ensures { IfOk result (λ flights. flights.items ≡ divided_flights (days_in self)) }
    {
        let Schedule { table } = self;
        let alloc = table.allocator();
        let plan = divide(alloc, table.into_blocks())?;
        flying(alloc, plan)
    }

    /// Some flights, each with its pieces, in the order of the list.
    pub fn pieces_of(&self, alloc: Global, flights: &[Flight]) -> Result<Vec<FlightPieces>, Memory>
        ensures { IfOk result
            (λ pieces. pieces.items ≡ map (divided (days_in self.now)) flights.now) }
    {
        let mut pieces = Vec::with_capacity(alloc, flights.len())?;
        for flight in flights {
            let periods = self.table.copy_of(*flight)?;
            pieces.push(FlightPieces::of(*flight, &periods)?)?;
        }
        Ok(pieces)
    }
}

/// The law of listed flights: the records of an export are those of the flights that fly on some
/// date, with these pieces.
pub fn listed_flights_are_exported()
    ensures { AreExported }
{}

/// The flights of a list, by number and suffix, each once.
pub fn flights_in_order(alloc: Global, flights: &[Flight]) -> Result<Vec<Flight>, Memory>
    ensures { IfOk result (λ ordered. ordered.items ≡ in_order flights.now) }
{
    let set = FlightSet::of(alloc, flights)?;
    set.flights(alloc)
}

// Those of the flights that fly on some date.
fn flying(alloc: Global, plan: Vec<FlightPieces>) -> Result<Vec<FlightPieces>, Memory>
    ensures { IfOk result (λ flights. flights.items ≡ filter flies plan.items) }
{
    let mut flights = Vec::with_capacity(alloc, plan.len())?;
    for flight in plan {
        if !flight.pieces().is_empty() {
            flights.push(flight)?;
        }
    }
    Ok(flights)
}
