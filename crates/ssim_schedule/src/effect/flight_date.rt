//! A flight on one date.

ghost use Rattle.std.specs.Prelude.{◌≡◌, IfOk, OnErr};
ghost use Rattle.ssim_schedule.specs.Effect.{effect};

use crate::effect::sub_message_change::SubMessageChange;
use crate::finding::Reason;
use crate::itinerary::Itinerary;
use crate::leg::PlacedLeg;
use ssim_base::StationRow;
use ssim_periods::{Change, Value};
use ssim_text::Action;
use ssim_values::{Day, Memory};
use std::alloc::Global;
use std::marker::Model;

/// What a flight has on one date, on which actions act one after another. It costs the legs of this
/// date alone, whatever the schedule has on other dates.
#[derive(Drop)]
pub struct FlightDate {
    day: Day,
    itinerary: Itinerary,
    alloc: Global,
}

impl Model for FlightDate {
    ghost use Rattle.ssim_schedule.specs.clauses.FlightDate.{DateSeen};

    ghost Value = { DateSeen };

    ghost view = { λ d. record { day = d.day; legs = d.itinerary } };
}

impl FlightDate {
    /// These legs, on a date of origin.
    pub fn of(alloc: Global, day: Day, legs: Vec<PlacedLeg>) -> Result<FlightDate, Memory>
        ensures { IfOk result (λ date. date ≡ record { day = day; legs = legs.items }) }
    {
        Ok(FlightDate {
            day,
            itinerary: Itinerary::of(alloc, legs)?,
            alloc,
        })
    }

    /// The date of origin.
    pub fn day(&self) -> Day
        ensures { result ≡ self.now.day }
    {
        self.day
    }

    /// The itinerary, which is shared with this one.
    pub fn itinerary(&self) -> Result<Itinerary, Memory>
        ensures { IfOk result (λ itinerary. itinerary ≡ self.now.legs) }
    {
        self.itinerary.copy(self.alloc)
    }

    /// An action acts on the date, by these rows of a station table. Returns what it found.
    pub fn act(&mut self, rows: &[StationRow], action: &Action) -> Result<Reason, Memory>
        ensures ok { IfOk result (λ reason. (self.new.legs, reason)
            ≡ effect rows.now action.now self.old.day self.old.legs) }
        ensures day { self.new.day ≡ self.old.day }
        ensures err { OnErr result (self.new ≡ self.old) }
    {
        let change = SubMessageChange::on(self.alloc, rows, action, self.day)?;
        let reason = change.reason(&self.itinerary);
        self.itinerary = change.after(self.alloc, &self.itinerary)?;
        Ok(reason)
    }
}
