//! Sub-messages of the periods on which flights differ.

ghost use Rattle.std.specs.Prelude.{IfOk, OnOk};
ghost use Rattle.std.specs.List.{AllByRecursion};
ghost use Rattle.ssim_values.specs.Flight.{FlightNumber};
ghost use Rattle.ssim_base.specs.Timetable.{Days};
ghost use Rattle.ssim_schedule.specs.clauses.Schedule.{days_in};
ghost use Rattle.ssim_outbox.specs.Reach.{IsSaid};
ghost use Rattle.ssim_outbox.specs.internal.Drafts.{IsChangeOf, IsDraft};

use crate::date_actions::say;
use crate::draft::PlanDraft;
use crate::flight_change::FlightChange;
use crate::mark::Mark;
use crate::period_actions::add_period;
use crate::said_days::{SaidPeriods, said_periods};
use crate::single_dates::settle_date;
use ssim_base::StationRow;
use ssim_difference::FlightDifference;
use ssim_schedule::{Itinerary, Schedule};
use ssim_text::Action;
use ssim_values::{Day, Memory, Period};
use std::alloc::Global;
use std::mem;

/// Adds the sub-messages of the periods on which flights differ. One sub-message serves all days of
/// which the same is said.
pub(crate) fn add_flights(
    alloc: Global,
    rows: &[StationRow],
    draft: &mut PlanDraft,
    from: &Schedule,
    to: &Schedule,
    flights: &[FlightDifference],
) -> Result<(), Memory>
    ensures { OnOk result (IsDraft rows.now (days_in from.now) (days_in to.now) draft.old
        → IsDraft rows.now (days_in from.now) (days_in to.now) draft.new) }
{
    for flight in flights {
        let found: SaidPeriods<Vec<Action>> = said_periods(alloc, rows, flight.pieces())?;
        let SaidPeriods { said, periods } = found;
        let change = FlightChange::of(flight.flight(), from, to)?;
        add_periods(alloc, rows, draft, &change, said, &periods)?;
    }
    Ok(())
}

// Adds the sub-messages of the periods of a flight, each with the number of its actions.
fn add_periods(
    alloc: Global,
    rows: &[StationRow],
    draft: &mut PlanDraft,
    change: &FlightChange,
    said: Vec<Vec<Action>>,
    periods: &[(Period, Mark)],
) -> Result<(), Memory>
    requires { AllByRecursion (λ actions. AllByRecursion IsSaid actions.items) said.items }
    ensures { OnOk result ((from to : FlightNumber → Days) → IsChangeOf from to change.now
        → IsDraft rows.now from to draft.old → IsDraft rows.now from to draft.new) }
{
    let mut said = said;
    for piece in periods {
        add_piece(alloc, rows, draft, change, &mut said, piece)?;
    }
    Ok(())
}

// Adds the sub-messages of a period of a flight, with the number of its actions. Those of one date
// are tried on the date alone, not on a copy of the timetable.
fn add_piece(
    alloc: Global,
    rows: &[StationRow],
    draft: &mut PlanDraft,
    change: &FlightChange,
    said: &mut Vec<Vec<Action>>,
    piece: &(Period, Mark),
) -> Result<(), Memory>
    requires { AllByRecursion (λ actions. AllByRecursion IsSaid actions.items) said.old.items }
    ensures draft { OnOk result ((from to : FlightNumber → Days) → IsChangeOf from to change.now
        → IsDraft rows.now from to draft.old → IsDraft rows.now from to draft.new) }
    ensures left { OnOk result
        (AllByRecursion (λ actions. AllByRecursion IsSaid actions.items) said.new.items) }
{
    let period = piece.0;
    let day = period.first();
    if day == period.last() {
        return settle_date(alloc, rows, draft, change, day);
    }
    let mut actions = taken(alloc, said, piece.1.place());
    if actions.is_empty() {
        actions = said_again(alloc, rows, day, change.old.at(day), change.new.at(day))?;
    }
    add_period(rows, draft, change, period, actions)
}

// Takes the actions with a place out of the lists; none if they are taken already.
fn taken(alloc: Global, said: &mut Vec<Vec<Action>>, place: usize) -> Vec<Action>
    requires { AllByRecursion (λ actions. AllByRecursion IsSaid actions.items) said.old.items }
    ensures taken { AllByRecursion IsSaid result.items }
    ensures left { AllByRecursion (λ actions. AllByRecursion IsSaid actions.items) said.new.items }
{
    if place >= said.len() {
        return Vec::new(alloc);
    }
    mem::replace(&mut said[place], Vec::new(alloc))
}

// What the first day of a period needs, for a second period with the same actions.
fn said_again(
    alloc: Global,
    rows: &[StationRow],
    day: Day,
    old: &Itinerary,
    new: &Itinerary,
) -> Result<Vec<Action>, Memory>
    ensures { IfOk result (λ actions. AllByRecursion IsSaid actions.items) }
{
    match say(alloc, rows, day, old, new)? {
        None => Ok(Vec::new(alloc)),
        Some(actions) => Ok(actions),
    }
}
