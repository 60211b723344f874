//! Sub-messages of single dates: whatever is left to say, date by date.

ghost use Rattle.std.specs.Prelude.{◌≡◌, OnOk};
ghost use Rattle.ssim_values.specs.Flight.{FlightNumber};
ghost use Rattle.ssim_base.specs.Timetable.{Days};
ghost use Rattle.ssim_schedule.specs.clauses.Schedule.{days_in};
ghost use Rattle.ssim_outbox.specs.internal.Drafts.{IsChangeOf, IsDraft, Settles, date_at};
ghost use Rattle.ssim_outbox.specs.internal.Drafts.{dates_of_flights, dates_of_period};
ghost use Rattle.ssim_outbox.specs.internal.Drafts.{dates_of_pieces, one_date};

use crate::date_actions::say;
use crate::draft::PlanDraft;
use crate::flight_change::FlightChange;
use crate::held_days::holds_number;
use crate::single_period::period_of;
use ssim_base::StationRow;
use ssim_difference::{Difference, FlightDifference};
use ssim_schedule::{Schedule, same_legs};
use ssim_values::{Day, Memory, Period};
use std::alloc::Global;

/// Settles each date on which flights differ.
pub(crate) fn settle_flights(
    alloc: Global,
    rows: &[StationRow],
    draft: &mut PlanDraft,
    from: &Schedule,
    to: &Schedule,
    flights: &[FlightDifference],
) -> Result<(), Memory>
    ensures { OnOk result (IsDraft rows.now (days_in from.now) (days_in to.now) draft.old
        → Settles rows.now (days_in from.now) (days_in to.now) (dates_of_flights flights.now)
        draft.old draft.new) }
{
    for flight in flights {
        let change = FlightChange::of(flight.flight(), from, to)?;
        settle_pieces(alloc, rows, draft, &change, flight.pieces())?;
    }
    Ok(())
}

// Settles each date of the pieces of a flight.
fn settle_pieces(
    alloc: Global,
    rows: &[StationRow],
    draft: &mut PlanDraft,
    change: &FlightChange,
    pieces: &[(Period, Difference)],
) -> Result<(), Memory>
    ensures { OnOk result ((from to : FlightNumber → Days) → IsChangeOf from to change.now
        → IsDraft rows.now from to draft.old
        → Settles rows.now from to (dates_of_pieces change.now.flight pieces.now)
        draft.old draft.new) }
{
    for piece in pieces {
        settle_period(alloc, rows, draft, change, piece.0)?;
    }
    Ok(())
}

// Settles each date of a period.
fn settle_period(
    alloc: Global,
    rows: &[StationRow],
    draft: &mut PlanDraft,
    change: &FlightChange,
    period: Period,
) -> Result<(), Memory>
    ensures { OnOk result ((from to : FlightNumber → Days) → IsChangeOf from to change.now
        → IsDraft rows.now from to draft.old
        → Settles rows.now from to (dates_of_period change.now.flight period)
        draft.old draft.new) }
{
    let first = period.first().number();
    let end = period.last().number() + 1;
    for number in first..end {
        settle_number(alloc, rows, draft, change, period, number)?;
    }
    Ok(())
}

// Settles the date with a day number, if the period holds it.
fn settle_number(
    alloc: Global,
    rows: &[StationRow],
    draft: &mut PlanDraft,
    change: &FlightChange,
    period: Period,
    number: u16,
) -> Result<(), Memory>
    ensures { OnOk result ((from to : FlightNumber → Days) → IsChangeOf from to change.now
        → IsDraft rows.now from to draft.old
        → Settles rows.now from to (date_at change.now.flight period number) draft.old draft.new) }
{
    let Some(day) = Day::from_number(number) else {
        return Ok(());
    };
    if !holds_number(period, number) {
        return Ok(());
    }
    settle_date(alloc, rows, draft, change, day)
}

/// Settles a date, by sub-messages of the actions that are said of it, if any are.
pub(crate) fn settle_date(
    alloc: Global,
    rows: &[StationRow],
    draft: &mut PlanDraft,
    change: &FlightChange,
    day: Day,
) -> Result<(), Memory>
    ensures { OnOk result ((from to : FlightNumber → Days) → IsChangeOf from to change.now
        → IsDraft rows.now from to draft.old
        → Settles rows.now from to (one_date change.now.flight day) draft.old draft.new) }
{
    // No effect at run time. The proof reads from these uses that the flight and the day exist.
    let flight = change.flight;
    let _ = flight.number();
    let _ = flight.suffix();
    let _ = day.number();
    let new = change.new.at(day);
    if same_legs(draft.schedule.itinerary(&flight, day), new.legs()) {
        return Ok(());
    }
    if let Some(actions) = say(alloc, rows, day, change.old.at(day), new)? {
        draft.act(rows, actions, flight, period_of(day))?;
    }
    Ok(())
}
