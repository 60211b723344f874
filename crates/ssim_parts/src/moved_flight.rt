//! A flight date in another time mode.

ghost use Rattle.std.specs.Prelude.{◌≡◌, ◌≤◌, IfOk};
ghost use Rattle.ssim_parts.specs.MovedLegs.{moved_flight, shift_of};
ghost use Rattle.ssim_parts.specs.internal.Placed.{IsShort};

use crate::fate::Fate;
use crate::moved_legs::{MovedLegs, shift_of};
use ssim_base::StationRow;
use ssim_periods::Value;
use ssim_schedule::{FlightDate, Itinerary, PlacedLeg};
use ssim_values::{Day, Memory, TimeMode};
use std::alloc::Global;

/// What becomes of a flight date, other dates left aside, and its legs in the new time mode; none
/// if it is left.
#[derive(Drop)]
pub(crate) struct MovedFlight {
    pub fate: Fate,
    pub legs: Itinerary,
}

impl MovedFlight {
    /// The flight date with these legs.
    pub(crate) fn of(
        alloc: Global,
        rows: &[StationRow],
        wanted: TimeMode,
        day: Day,
        legs: &[PlacedLeg],
    ) -> Result<MovedFlight, Memory>
        ensures value { IfOk result (λ moved. moved ≡ moved_flight rows.now wanted day legs.now) }
        ensures shift { shift_of rows.now wanted day legs.now ≤ 2 }
        ensures short { IfOk result (λ moved. IsShort moved.fate) }
    {
        let shift = shift_of(rows, wanted, day, legs);
        let moved = MovedLegs::of(alloc, rows, wanted, day, shift, legs)?;
        let fate = moved.own_fate(day, shift);
        let legs = match fate {
            Fate::Kept(_) => FlightDate::of(alloc, day, moved.legs)?.itinerary()?,
            Fate::Absent | Fate::Left(_) => Itinerary::empty(),
        };
        Ok(MovedFlight { fate, legs })
    }
}
