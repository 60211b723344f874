//! A flight with what it has in two timetables.

ghost use Rattle.std.specs.Prelude.{◌≡◌, IfOk};
ghost use Rattle.ssim_schedule.specs.clauses.Schedule.{days_in};
ghost use Rattle.ssim_outbox.specs.internal.Drafts.{IsChangeOf};

use ssim_periods::Periods;
use ssim_schedule::{Itinerary, Schedule};
use ssim_values::{Flight, Memory};

/// A flight with its old and its new itinerary of each day.
#[derive(Drop)]
pub(crate) struct FlightChange {
    pub flight: Flight,
    pub old: Periods<Itinerary>,
    pub new: Periods<Itinerary>,
}

impl FlightChange {
    /// The itineraries of a flight in an old and a new timetable.
    pub(crate) fn of(flight: Flight, from: &Schedule, to: &Schedule) -> Result<FlightChange, Memory>
        ensures flight { IfOk result (λ change. change.flight ≡ flight) }
        ensures days { IfOk result (IsChangeOf (days_in from.now) (days_in to.now)) }
    {
        Ok(FlightChange {
            flight,
            old: from.days(&flight)?,
            new: to.days(&flight)?,
        })
    }
}
