//! The itinerary of each flight on each date.

ghost use Rattle.std.specs.Prelude.{◌≡◌, ℕ, ◌<◌, ◌≤◌, nat_eq, if◌then◌else◌, false, [], length, All};
ghost use Rattle.std.specs.Prelude.{Contains, IfOk, OnErr, OnOk, slice_index_or};
ghost use Rattle.std.specs.List.Sorted.{IsStrictlyIncreasing};
ghost use Rattle.ssim_values.specs.Calendar.{weekday};
ghost use Rattle.ssim_values.specs.Flight.{FlightNumber, IsFlight};
ghost use Rattle.ssim_periods.specs.Calendar.{day_count, holds};
ghost use Rattle.ssim_periods.specs.Days.{changed_on, each_day};
ghost use Rattle.ssim_base.specs.ReadBack.{place_of};
ghost use Rattle.ssim_base.specs.Timetable.{Above, Legs, is_among, on_day};

// The worked examples, which are computed: a false one is an error in this file.
ghost use Rattle.ssim_schedule.specs.examples.Blocks;
ghost use Rattle.ssim_schedule.specs.examples.Effects;

use crate::itinerary::Itinerary;
use crate::leg::PlacedLeg;
use crate::timetable::flight_table::{FlightTable, place};
use ssim_periods::{Change, Periods};
use ssim_values::{Day, Flight, Memory, Period};
use std::marker::Model;

/// The itinerary of each flight on each date. On each date the legs of a flight rise by leg
/// sequence.
#[derive(Drop)]
pub struct Schedule {
    pub(crate) table: FlightTable,
}

impl Model for Schedule {
    ghost use Rattle.ssim_base.specs.ReadBack.{IsTimetable};
    ghost use Rattle.ssim_schedule.specs.clauses.Schedule.{Flown, flown_by, flown_code};
    ghost use Rattle.ssim_schedule.specs.internal.Table.{table_days};

    ghost Value = { Flown };

    ghost coded = { flown_code };

    ghost view = { λ s. flown_by s.table };

    ghost invariant = { λ s. IsTimetable (table_days s.table) };
}

impl Schedule {
    ghost use Rattle.ssim_schedule.specs.clauses.Schedule.{cuts_in, days_in};

    /// The legs of a flight on a date of origin, by leg sequence. The list is empty if the flight
    /// does not fly on the date.
    pub fn itinerary(&self, flight: &Flight, day: Day) -> &[PlacedLeg]
        ensures value { result.now ≡ slice_index_or (days_in self.now flight.now) day [] }
        ensures in_order { Above 0 result.now }
    {
        // No effect at run time. The proof reads from these uses that the flight and the day are in
        // range.
        let _ = place(*flight);
        let _ = day.number();
        self.table.itinerary(flight, day)
    }

    /// The rising days at which a stored range of the flight begins, or the day after its last;
    /// none for a flight that was never named.
    pub fn cuts(&self, flight: &Flight) -> &[u32]
        ensures cuts { result.now ≡ cuts_in self.now flight.now }
        ensures rising { IsStrictlyIncreasing result.now }
        ensures in_calendar { All (λ cut. cut ≤ 36525) result.now }

        // Two days of one weekday have the same itinerary if no cut is after the earlier and not
        // after the later.
        ensures weekly { (m n : ℕ) → m ≤ n → n < 36525 → weekday m ≡ weekday n
            → ((cut : ℕ) → Contains result.now cut → m < cut → n < cut)
            → on_day (days_in self.now flight.now) m ≡ on_day (days_in self.now flight.now) n }
    {
        self.table.cuts(flight)
    }

    /// The itinerary of a flight on each day. It shares the legs with the schedule.
    pub fn days(&self, flight: &Flight) -> Result<Periods<Itinerary>, Memory>
        ensures { IfOk result (λ itineraries. itineraries.days ≡ days_in self.now flight.now) }
    {
        self.table.copy_of(*flight)
    }

    /// The flights that were named, by number and suffix. Each other flight flies on no date.
    pub fn flights(&self) -> Result<Vec<Flight>, Memory>
        ensures exist { IfOk result (λ flights. All IsFlight flights.items) }
        ensures others { IfOk result (λ flights. (g : FlightNumber) → IsFlight g
            → is_among flights.items g ≡ false
            → days_in self.now g ≡ each_day (λ _. [])) }

        // Each flight has a value for each day.
        ensures whole { (g : FlightNumber) → IsFlight g → length (days_in self.now g) ≡ day_count }
    {
        self.table.flights()
    }

    /// Replaces the itinerary of a flight on each date of a period by the outcome of a change. If
    /// memory is out, nothing has changed.
    ///
    /// The cost is finding the flight, and changing the ranges of the flight that the period
    /// touches, as in `Periods::apply`. The flight's periods are copied if a copy of the schedule
    /// shares them.
    pub fn change<C: Change<Itinerary>>(
        &mut self,
        flight: Flight,
        period: &Period,
        change: &C,
    ) -> Result<(), Memory>
        requires in_order { (legs : Legs) → Above 0 legs → Above 0 (C.outcome change.now legs) }
        ensures days { OnOk result ((g : FlightNumber)
            → days_in self.new g ≡ (if nat_eq (place_of flight) (place_of g)
            then changed_on (holds period.now) (C.outcome change.now) 0 (days_in self.old g)
            else days_in self.old g)) }
        ensures err { OnErr result (self.new ≡ self.old) }
    {
        self.table.change(flight, period, change)?;
        Ok(())
    }

    /// The same itineraries with the same cuts. The copy and the original share the flights in
    /// blocks. One of the two that changes a flight first gets that flight's block and periods for
    /// itself. So a copy costs one pointer for each of 264 blocks.
    pub fn copy(&self) -> Result<Schedule, Memory>
        ensures { IfOk result (λ copy. copy ≡ self.now) }
    {
        Ok(Schedule {
            table: self.table.copy()?,
        })
    }
}
