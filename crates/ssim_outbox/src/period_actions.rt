//! Sub-messages of a period, which are kept only if they do on each of its dates what they should.

ghost use Rattle.std.specs.Prelude.{OnOk};
ghost use Rattle.std.specs.List.{AllByRecursion};
ghost use Rattle.ssim_values.specs.Flight.{FlightNumber};
ghost use Rattle.ssim_base.specs.Timetable.{Days};
ghost use Rattle.ssim_outbox.specs.Reach.{IsSaid};
ghost use Rattle.ssim_outbox.specs.internal.Drafts.{IsChangeOf, IsDraft};

use crate::draft::{PlanDraft, act_on, push_subs};
use crate::flight_change::FlightChange;
use crate::made_dates::is_made;
use ssim_base::StationRow;
use ssim_text::Action;
use ssim_values::{Memory, Period};

/// Adds sub-messages of a flight and a period to a draft, if each acts on each date of the period,
/// and they make there the new itinerary, which no sub-messages before them made. Otherwise the
/// draft stays as it is.
pub(crate) fn add_period(
    rows: &[StationRow],
    draft: &mut PlanDraft,
    change: &FlightChange,
    period: Period,
    actions: Vec<Action>,
) -> Result<(), Memory>
    requires { AllByRecursion IsSaid actions.items }
    ensures { OnOk result ((from to : FlightNumber → Days) → IsChangeOf from to change.now
        → IsDraft rows.now from to draft.old → IsDraft rows.now from to draft.new) }
{
    let flight = change.flight;
    // No effect at run time. The proof reads from these uses that the flight exists, and has an
    // itinerary on each day of the period.
    let _ = flight.number();
    let _ = flight.suffix();
    let _ = change.old.at(period.last());
    let mut trial = draft.schedule.copy()?;
    let each = act_on(&mut trial, rows, &actions, flight, period)?;
    if !each {
        return Ok(());
    }
    if !is_made(&trial, &draft.schedule, change, period) {
        return Ok(());
    }
    draft.schedule = trial;
    push_subs(&mut draft.subs, actions, flight, period)
}
