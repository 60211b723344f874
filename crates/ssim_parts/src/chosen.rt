//! A timetable without the flight dates that are not chosen.

ghost use Rattle.std.specs.Prelude.{◌≡◌, ◌≤◌, ◌<◌, ◌&&◌, [], if◌then◌else◌, nat_le, nat_lt, ℕ};
ghost use Rattle.std.specs.Prelude.{IfNone, IfSome, OnOk};
ghost use Rattle.ssim_values.specs.Flight.{FlightNumber, IsFlight};
ghost use Rattle.ssim_periods.specs.Calendar.{holds};
ghost use Rattle.ssim_schedule.specs.clauses.Schedule.{days_in};
ghost use Rattle.ssim_parts.specs.Chosen.{chosen_days, chosen_legs, chooses_legs};
ghost use Rattle.ssim_parts.specs.internal.Changes.{ChangesFlight, cancelled};

use crate::choice::Choice;
use ssim_periods::{Change, Value};
use ssim_schedule::{Itinerary, Schedule};
use ssim_values::{Day, DayMask, Flight, Memory, Period};
use std::alloc::Global;

/// The number after the last day of the calendar.
const DAYS: u16 = 36_525;

/// No itinerary in place of any.
struct Cancelled;

impl Change<Itinerary> for Cancelled {
    ghost use Rattle.std.specs.Prelude.{[]};

    ghost outcome = { λ _ legs. [] };

    ghost class_of = { λ _ legs. 0 };

    fn after(&self, _alloc: Global, _legs: &Itinerary) -> Result<Itinerary, Memory> {
        Ok(Itinerary::empty())
    }

    fn class(&self, _legs: &Itinerary) -> u8 {
        0
    }
}

/// Of an itinerary that is not chosen nothing is left.
#[derive(Clone, Copy)]
struct ChosenLegs<'a> {
    choice: &'a Choice,
}

impl<'a> Change<Itinerary> for ChosenLegs<'a> {
    ghost use Rattle.std.specs.Prelude.{if◌then◌else◌, []};
    ghost use Rattle.ssim_parts.specs.Chosen.{chooses_legs};

    ghost outcome = { λ c legs. if chooses_legs c.choice.now legs then legs else [] };

    ghost class_of = { λ _ legs. 0 };

    fn after(&self, alloc: Global, legs: &Itinerary) -> Result<Itinerary, Memory> {
        if self.choice.has_legs(legs.legs()) {
            legs.copy(alloc)
        } else {
            Ok(Itinerary::empty())
        }
    }

    fn class(&self, _legs: &Itinerary) -> u8 {
        0
    }
}

/// Leaves of a timetable the chosen flight dates. Each other date of each flight is cancelled. The
/// schedule may be changed in part if memory is out.
///
/// The cost is, for each flight, two changes of its dates, and a look at each of its itineraries if
/// stations or aircraft types are named.
pub fn choose(choice: &Choice, schedule: &mut Schedule) -> Result<(), Memory>
    ensures { OnOk result ((g : FlightNumber) → IsFlight g
        → days_in schedule.new g ≡ chosen_days choice.now (days_in schedule.old) g) }
{
    let flights = schedule.flights()?;
    for flight in &flights {
        choose_dates(choice, *flight, schedule)?;
    }
    Ok(())
}

// Leaves of a flight its chosen dates.
fn choose_dates(choice: &Choice, flight: Flight, schedule: &mut Schedule) -> Result<(), Memory>
    ensures { OnOk result
        (ChangesFlight flight (chosen_legs choice.now flight) schedule.old schedule.new) }
{
    if !choice.has_flight(flight) {
        return cancel(flight, 0, DAYS, schedule);
    }
    cancel(flight, 0, choice.first.number(), schedule)?;
    cancel(flight, choice.last.number() + 1, DAYS, schedule)?;
    choose_legs(choice, flight, schedule)
}

// Cancels a flight on the dates from a first one to the one before an end.
fn cancel(flight: Flight, first: u16, end: u16, schedule: &mut Schedule) -> Result<(), Memory>
    requires { end ≤ 36525 }
    ensures { OnOk result (ChangesFlight flight (cancelled first end) schedule.old schedule.new) }
{
    match daily_period(first, end) {
        None => Ok(()),
        Some(period) => schedule.change(flight, &period, &Cancelled),
    }
}

/// The period of all days from a first one to the one before an end; none if the end is not after the
/// first.
pub fn daily_period(first: u16, end: u16) -> Option<Period>
    requires { end ≤ 36525 }
    ensures some { IfSome result (λ period. (n : ℕ) → holds period n
        ≡ (nat_le first n && nat_lt n end)) }
    ensures none { IfNone result (end ≤ first) }
{
    if end <= first {
        return None;
    }
    let first = Day::from_number(first)?;
    let last = Day::from_number(end - 1)?;
    match Period::new(first, last, DayMask::daily()) {
        Ok(period) => Some(period),
        Err(_) => None,
    }
}

// Leaves of a flight its chosen itineraries.
fn choose_legs(choice: &Choice, flight: Flight, schedule: &mut Schedule) -> Result<(), Memory>
    ensures { OnOk result (ChangesFlight flight
        (λ n legs. if chooses_legs choice.now legs then legs else []) schedule.old schedule.new) }
{
    if choice.has_all_legs() {
        return Ok(());
    }
    match daily_period(0, DAYS) {
        None => Ok(()),
        Some(calendar) => schedule.change(flight, &calendar, &ChosenLegs { choice }),
    }
}
