//! The chosen flight dates of a desk.

ghost use Rattle.std.specs.Prelude.{◌≡◌, length, true, IfOk};
ghost use Rattle.ssim_values.specs.Flight.{FlightNumber, IsFlight};
ghost use Rattle.ssim_base.specs.Timetable.{is_among};
ghost use Rattle.ssim_schedule.specs.clauses.Schedule.{days_in};
ghost use Rattle.ssim_schedule.specs.FlightPieces.{divided_among, divided_flights};
ghost use Rattle.ssim_desk.specs.Desk.{days_of_desk};
ghost use Rattle.ssim_parts.specs.Chosen.{chosen_days};
ghost use Rattle.ssim_program.specs.Answers.{listed};
ghost use Rattle.ssim_program.specs.internal.Choices.{HasAllDates};

use crate::some_flights::schedule_of;
use ssim_desk::Holdings;
use ssim_parts::{Choice, choose};
use ssim_schedule::{FlightPieces, Schedule, flights_in_order};
use ssim_values::Memory;
use std::alloc::Global;

/// The number of the last day of the calendar.
const LAST: u16 = 36_524;

/// The flights of the choice, each with the pieces of its chosen dates; all that fly on one if none
/// is named.
pub(crate) fn chosen_flights(
    alloc: Global,
    desk: Holdings,
    choice: &Choice,
) -> Result<Vec<FlightPieces>, Memory>
    ensures { IfOk result (λ divided. divided.items
        ≡ listed choice.now.flights (chosen_days choice.now (days_of_desk desk))) }
{
    match choice.flights.split_first() {
        None => all_flights(desk, choice),
        Some(_) => some_flights(alloc, &desk, choice),
    }
}

/// The flights that fly on a chosen date, each with the pieces of these dates.
fn all_flights(desk: Holdings, choice: &Choice) -> Result<Vec<FlightPieces>, Memory>
    ensures { IfOk result (λ divided. divided.items
        ≡ divided_flights (chosen_days choice.now (days_of_desk desk))) }
{
    if has_all(choice) {
        return desk.into_flights();
    }
    let mut schedule = desk.schedule()?;
    drop(desk);
    choose(choice, &mut schedule)?;
    schedule.into_flights()
}

/// The flights that are named, each with the pieces of its chosen dates.
fn some_flights(
    alloc: Global,
    desk: &Holdings,
    choice: &Choice,
) -> Result<Vec<FlightPieces>, Memory>
    ensures { IfOk result (λ divided. divided.items
        ≡ divided_among choice.now.flights (chosen_days choice.now (days_of_desk desk.now))) }
{
    let flights = flights_in_order(alloc, &choice.flights)?;
    let schedule = chosen_schedule(desk, choice)?;
    schedule.pieces_of(alloc, &flights)
}

/// The schedule of the chosen dates of the flights that are named.
pub(crate) fn chosen_schedule(desk: &Holdings, choice: &Choice) -> Result<Schedule, Memory>
    ensures { IfOk result (λ schedule. (g : FlightNumber) → IsFlight g
        → is_among choice.now.flights g ≡ true
        → days_in schedule g ≡ chosen_days choice.now (days_of_desk desk.now) g) }
{
    let mut schedule = schedule_of(desk, &choice.flights)?;
    if has_all_dates(choice) {
        return Ok(schedule);
    }
    choose(choice, &mut schedule)?;
    Ok(schedule)
}

/// Whether all flights are chosen on all dates, with each itinerary.
fn has_all(choice: &Choice) -> bool
    ensures { result ≡ true → (length choice.now.flights ≡ 0) × HasAllDates choice.now }
{
    choice.flights.is_empty() && has_all_dates(choice)
}

/// Whether all dates are chosen, with each itinerary. So the choice is of flights alone.
fn has_all_dates(choice: &Choice) -> bool
    ensures { result ≡ true → HasAllDates choice.now }
{
    choice.first.number() == 0
        && choice.last.number() == LAST
        && choice.stations.is_empty()
        && choice.aircraft.is_empty()
}
