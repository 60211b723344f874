//! The flights that messages name, and the timetable of some flights, or of some dates, after
//! messages.

ghost use Rattle.std.specs.Prelude.{◌≡◌, ◌&&◌, ◌++◌, map, nat_le, true, IfOk, OnOk};
ghost use Rattle.std.specs.List.{list_any};
ghost use Rattle.ssim_periods.specs.Days.{each_day};
ghost use Rattle.ssim_values.specs.Flight.{FlightNumber, IsFlight};
ghost use Rattle.ssim_base.specs.Timetable.{is_among};
ghost use Rattle.ssim_schedule.specs.FlightPieces.{divided_among};
ghost use Rattle.ssim_schedule.specs.clauses.Schedule.{days_in};
ghost use Rattle.ssim_desk.specs.Desk.{entry_lines};
ghost use Rattle.ssim_desk.specs.Meaning.{Timetable, after_entries, entries_findings, found_by};
ghost use Rattle.ssim_desk.specs.Meaning.{left_by};
ghost use Rattle.ssim_desk.specs.internal.Changes.{AgreeAt, AgreeFrom, Shows, flights_of, reaches};

use crate::finding_line::{FindingLine, push_subs};
use crate::message_effect::act;
use ssim_base::{Base, ResolvedSub, StationRow};
use ssim_held::Held;
use ssim_periods::Periods;
use ssim_schedule::{FlightPieces, Itinerary, PlacedLeg, Schedule, copy_legs, flights_in_order};
use ssim_values::{Day, Flight, Memory};
use std::alloc::Global;

/// The legs of a flight on a date of origin that messages, in this order, leave of the timetable of
/// a base.
pub(crate) fn legs_after(
    alloc: Global,
    base: &Base,
    messages: &[Held],
    flight: &Flight,
    day: Day,
) -> Result<Vec<PlacedLeg>, Memory>
    ensures { IfOk result (λ legs. legs.items ≡ left_by base.now messages.now flight.now day) }
{
    // No effect at run time. The proof reads from this use that the day exists.
    let _ = day.number();
    let schedule = schedule_after(alloc, base, messages, flight)?;
    copy_legs(alloc, schedule.itinerary(flight, day))
}

/// The itinerary of a flight on each day that messages, in this order, leave of the timetable of a
/// base.
pub(crate) fn days_after(
    alloc: Global,
    base: &Base,
    messages: &[Held],
    flight: &Flight,
) -> Result<Periods<Itinerary>, Memory>
    ensures { IfOk result (λ itineraries. itineraries.days
        ≡ each_day (left_by base.now messages.now flight.now)) }
{
    let schedule = schedule_after(alloc, base, messages, flight)?;
    schedule.days(flight)
}

// The schedule of a flight that messages, in this order, leave of the timetable of a base. Of this
// timetable only the flight's is made, and only the messages that name the flight act.
fn schedule_after(
    alloc: Global,
    base: &Base,
    messages: &[Held],
    flight: &Flight,
) -> Result<Schedule, Memory>
    ensures { IfOk result (λ schedule. days_in schedule flight.now
        ≡ each_day (left_by base.now messages.now flight.now)) }
{
    // No effect at run time. The proof reads from these uses that the flight exists.
    let _ = flight.number();
    let _ = flight.suffix();
    schedule_of(alloc, base, messages, &[*flight])
}

/// Some flights, in the order of the list, each with the pieces of what messages, in this order,
/// leave of the timetable of a base.
pub(crate) fn pieces_after(
    alloc: Global,
    base: &Base,
    messages: &[Held],
    flights: &[Flight],
) -> Result<Vec<FlightPieces>, Memory>
    ensures { IfOk result (λ divided. divided.items ≡ divided_among flights.now
        (λ g. each_day (left_by base.now messages.now g))) }
{
    let ordered = flights_in_order(alloc, flights)?;
    let schedule = schedule_of(alloc, base, messages, flights)?;
    schedule.pieces_of(alloc, &ordered)
}

// The schedule of some flights that messages, in this order, leave of the timetable of a base. Of
// this timetable only these flights are made, and only the messages that name one of them act.
fn schedule_of(
    alloc: Global,
    base: &Base,
    messages: &[Held],
    flights: &[Flight],
) -> Result<Schedule, Memory>
    ensures { IfOk result (λ schedule. (g : FlightNumber) → IsFlight g
        → is_among flights.now g ≡ true
        → days_in schedule g ≡ each_day (left_by base.now messages.now g)) }
{
    let mut schedule = Schedule::of_flights(base.data_set(), flights)?;
    act_on(alloc, base.rows(), &mut schedule, flights, messages)?;
    Ok(schedule)
}

/// A line for each sub-message of these messages: what it finds if they act in this order. Of the
/// base's timetable only the flights are made that the messages name.
pub(crate) fn lines_found(
    alloc: Global,
    base: &Base,
    messages: &[Held],
) -> Result<Vec<FindingLine>, Memory>
    ensures { IfOk result
        (λ lines. lines.items ≡ entry_lines messages.now (found_by base.now messages.now)) }
{
    let flights = flights_of(alloc, messages)?;
    let mut schedule = Schedule::of_flights(base.data_set(), &flights)?;
    act_all(alloc, base.rows(), &mut schedule, messages)
}

/// The flights of the sub-messages, in their order.
pub(crate) fn flights_of(alloc: Global, messages: &[Held]) -> Result<Vec<Flight>, Memory>
    ensures { IfOk result (λ flights. flights.items ≡ flights_of messages.now) }
{
    let mut flights = Vec::new(alloc);
    for held in messages {
        push_flights(&mut flights, held.dates())?;
    }
    Ok(flights)
}

fn push_flights(flights: &mut Vec<Flight>, subs: &[ResolvedSub]) -> Result<(), Memory>
    ensures { OnOk result (flights.new.items ≡ flights.old.items ++ map
        (λ sub. sub.flight) subs.now) }
{
    for sub in subs {
        flights.push(sub.flight)?;
    }
    Ok(())
}

/// The messages act in their order. Returns a line for what each sub-message found.
pub(crate) fn act_all(
    alloc: Global,
    rows: &[StationRow],
    schedule: &mut Schedule,
    messages: &[Held],
) -> Result<Vec<FindingLine>, Memory>
    ensures lines { IfOk result (λ lines. (before : Timetable) → Shows schedule.old before
        → lines.items
        ≡ entry_lines messages.now (entries_findings rows.now messages.now before)) }
    ensures shows { OnOk result ((before : Timetable) → Shows schedule.old before
        → Shows schedule.new (after_entries rows.now messages.now before)) }
{
    let mut lines = Vec::new(alloc);
    for held in messages {
        let found = act(alloc, rows, schedule, held)?;
        push_subs(
            &mut lines,
            &held.reference(),
            1,
            held.message().subs(),
            &found,
        )?;
    }
    Ok(lines)
}

// Those messages that name one of the flights act in their order.
fn act_on(
    alloc: Global,
    rows: &[StationRow],
    schedule: &mut Schedule,
    flights: &[Flight],
    messages: &[Held],
) -> Result<(), Memory>
    ensures { OnOk result ((before : Timetable) → Shows schedule.old before → (after : Timetable)
        × Shows schedule.new after
        × AgreeAt flights.now after (after_entries rows.now messages.now before)) }
{
    for held in messages {
        if names_one(held, flights) {
            act(alloc, rows, schedule, held)?;
        }
    }
    Ok(())
}

/// Those messages act in their order that have a sub-message whose period reaches into the dates
/// from a first to a last.
pub(crate) fn act_between(
    alloc: Global,
    rows: &[StationRow],
    schedule: &mut Schedule,
    first: Day,
    last: Day,
    messages: &[Held],
) -> Result<(), Memory>
    ensures { OnOk result ((before : Timetable) → Shows schedule.old before → (after : Timetable)
        × Shows schedule.new after
        × AgreeFrom first last after (after_entries rows.now messages.now before)) }
{
    for held in messages {
        if reaches_one(held, first, last) {
            act(alloc, rows, schedule, held)?;
        }
    }
    Ok(())
}

// Whether the period of a sub-message reaches into the dates.
fn reaches_one(held: &Held, first: Day, last: Day) -> bool
    ensures { result ≡ list_any (reaches first last) held.now.dates }
{
    held.dates().iter().any(|sub| reaches(sub, first, last))
}

fn reaches(sub: &ResolvedSub, first: Day, last: Day) -> bool
    ensures { result ≡ reaches first last sub.now }
{
    first <= sub.period.last() && sub.period.first() <= last
}

// Whether a sub-message names one of the flights.
fn names_one(held: &Held, flights: &[Flight]) -> bool
    ensures { result ≡ list_any (λ sub. is_among flights.now sub.flight) held.now.dates }
{
    held.dates().iter().any(|sub| is_among(sub.flight, flights))
}

fn is_among(flight: Flight, flights: &[Flight]) -> bool
    ensures { result ≡ is_among flights.now flight }
{
    flights.iter().any(|other| flight == *other)
}
