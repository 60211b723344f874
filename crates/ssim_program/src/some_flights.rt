//! The schedule of some flights of a desk, made without the others.

ghost use Rattle.std.specs.Prelude.{◌≡◌, true, IfOk, OnOk};
ghost use Rattle.std.specs.List.{list_any};
ghost use Rattle.ssim_values.specs.Flight.{FlightNumber, IsFlight};
ghost use Rattle.ssim_periods.specs.Days.{each_day};
ghost use Rattle.ssim_base.specs.Timetable.{is_among};
ghost use Rattle.ssim_schedule.specs.Acts.{finding_of};
ghost use Rattle.ssim_schedule.specs.clauses.Schedule.{days_in};
ghost use Rattle.ssim_desk.specs.Desk.{days_of_desk};
ghost use Rattle.ssim_desk.specs.Meaning.{Timetable, after_entries, after_entry, after_one};
ghost use Rattle.ssim_program.specs.internal.SomeFlights.{AgreeAt, Shows};

use ssim_base::{ResolvedSub, StationRow};
use ssim_desk::{Held, Holdings};
use ssim_schedule::{Finding, Schedule};
use ssim_text::Sub;
use ssim_values::{Flight, Memory};

/// The schedule of some flights of a desk. Of the timetable of its data set only these flights are
/// made, and only the messages that name one of them act.
pub(crate) fn schedule_of(desk: &Holdings, flights: &[Flight]) -> Result<Schedule, Memory>
    ensures { IfOk result (λ schedule. (g : FlightNumber) → IsFlight g
        → is_among flights.now g ≡ true → days_in schedule g ≡ days_of_desk desk.now g) }
{
    let mut schedule = Schedule::of_flights(desk.data_set(), flights)?;
    act_on(desk.base().rows(), &mut schedule, flights, desk.held())?;
    Ok(schedule)
}

/// Those messages that name one of the flights act in their order.
fn act_on(
    rows: &[StationRow],
    schedule: &mut Schedule,
    flights: &[Flight],
    messages: &[Held],
) -> Result<(), Memory>
    ensures { OnOk result ((before : Timetable) → Shows schedule.old before → (after : Timetable)
        × Shows schedule.new after
        × AgreeAt flights.now after (after_entries rows.now messages.now before)) }
{
    for held in messages {
        if names_one(held, flights) {
            act(rows, schedule, held)?;
        }
    }
    Ok(())
}

/// The sub-messages of a message act in their order.
fn act(rows: &[StationRow], schedule: &mut Schedule, held: &Held) -> Result<(), Memory>
    ensures { OnOk result ((before : Timetable) → Shows schedule.old before
        → Shows schedule.new (after_entry rows.now held.now before)) }
{
    for (place, sub) in held.message().subs().iter().enumerate() {
        act_one(rows, schedule, sub, held.dates()[place])?;
    }
    Ok(())
}

/// A sub-message acts on its dates. Returns what it found.
pub(crate) fn act_one(
    rows: &[StationRow],
    schedule: &mut Schedule,
    sub: &Sub,
    dated: ResolvedSub,
) -> Result<Finding, Memory>
    ensures shows { OnOk result ((before : Timetable) → Shows schedule.old before
        → Shows schedule.new (after_one rows.now sub.now.action dated before)) }
    ensures found { IfOk result (λ found. (before : Timetable) → Shows schedule.old before → found
        ≡ finding_of rows.now sub.now.action dated.period (each_day (before dated.flight))) }
{
    // No effect at run time. The proof reads from these uses that the flight is one.
    let _ = dated.flight.number();
    let _ = dated.flight.suffix();
    schedule.apply_sub(rows, &dated.with(&sub.action))
}

/// Whether a sub-message of the message names one of the flights.
fn names_one(held: &Held, flights: &[Flight]) -> bool
    ensures { result ≡ list_any (λ sub. is_among flights.now sub.flight) held.now.dates }
{
    held.dates().iter().any(|sub| is_among(sub.flight, flights))
}

/// Whether a flight is one of these.
pub(crate) fn is_among(flight: Flight, flights: &[Flight]) -> bool
    ensures { result ≡ is_among flights.now flight }
{
    flights.iter().any(|other| flight == *other)
}
