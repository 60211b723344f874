//! The sub-messages that lead one timetable to another.

ghost use Rattle.std.specs.Prelude.{◌≡◌, IfOk};
ghost use Rattle.std.specs.List.{AllByRecursion};
ghost use Rattle.ssim_values.specs.Flight.{FlightNumber, IsFlight};
ghost use Rattle.ssim_base.specs.Timetable.{Days};
ghost use Rattle.ssim_schedule.specs.FlightPieces.{divided_flights};
ghost use Rattle.ssim_schedule.specs.clauses.Schedule.{days_in};
ghost use Rattle.ssim_difference.specs.Differences.{differences};
ghost use Rattle.ssim_outbox.specs.Acting.{ActOnTheirDates};
ghost use Rattle.ssim_outbox.specs.PlanOrder.{ComeInOrder, DoNotOverlap};
ghost use Rattle.ssim_outbox.specs.Published.{IsPublished, Leave, NamesDifferences};
ghost use Rattle.ssim_outbox.specs.Reach.{IsSaid};

use crate::draft::PlanDraft;
use crate::flight_periods::add_flights;
use crate::plan_order::{flights_exist, in_order};
use crate::planned_sub::PlannedSub;
use crate::single_dates::settle_flights;
use ssim_base::StationRow;
use ssim_difference::{FlightDifference, differences};
use ssim_schedule::{FlightPieces, Schedule};
use ssim_values::Memory;
use std::alloc::Global;

/// The sub-messages that lead a timetable towards another, what they leave of it, and what cannot
/// be said.
#[derive(Drop)]
pub struct Plan {
    /// In the order in which they act.
    pub subs: Vec<PlannedSub>,
    /// What they leave of the old timetable.
    pub after: Schedule,
    /// The flights that still differ then, with the dates: what no messages can say.
    pub unsaid: Vec<FlightDifference>,
}

/// The sub-messages that make of each itinerary of a timetable the itinerary of another one, if
/// messages can, by these rows of a station table. A date on which they cannot stays as it is.
pub fn make_plan(
    alloc: Global,
    rows: &[StationRow],
    from: &Schedule,
    to: &Schedule,
) -> Result<Plan, Memory>
    // The timetable `after` is what the sub-messages, one after another, leave of the old one.
    ensures leave { IfOk result
        (λ plan. Leave rows.now plan.subs.items (days_in from.now) (days_in plan.after)) }

    // It has the new itinerary on each date on which messages can make it, and else the old one.
    ensures published { IfOk result
        (λ plan. IsPublished rows.now (days_in from.now) (days_in to.now) (days_in plan.after)) }

    // What is unsaid are exactly the dates on which it still differs from the new timetable.
    ensures unsaid { IfOk result
        (λ plan. plan.unsaid.items ≡ differences (days_in plan.after) (days_in to.now)) }

    // Each sub-message is one that a text can have, and names only dates on which its flight
    // differs in the two timetables.
    ensures said { IfOk result
        (λ plan. AllByRecursion (λ sub. IsSaid sub.action) plan.subs.items) }
    ensures differing { IfOk result
        (λ plan. AllByRecursion (NamesDifferences (days_in from.now) (days_in to.now))
        plan.subs.items) }

    // Each acts on each of these dates.
    ensures acting { IfOk result
        (λ plan. ActOnTheirDates rows.now plan.subs.items (days_in from.now)) }

    // They come by flight, and those of one flight by first day. Two of one flight have the same
    // period, or no date of both.
    ensures ordered { IfOk result (λ plan. ComeInOrder plan.subs.items) }
    ensures apart { IfOk result (λ plan. DoNotOverlap plan.subs.items) }
    ensures exist { IfOk result
        (λ plan. AllByRecursion (λ sub. IsFlight sub.flight) plan.subs.items) }
{
    let wanted = to.copy()?.into_flights()?;
    let mut draft = PlanDraft::of(alloc, from)?;
    let differing = left_in(alloc, &draft, &wanted)?;
    add_flights(alloc, rows, &mut draft, from, to, &differing)?;
    let left = left_in(alloc, &draft, &wanted)?;
    settle_flights(alloc, rows, &mut draft, from, to, &left)?;
    let unsaid = left_in(alloc, &draft, &wanted)?;
    let PlanDraft { subs, schedule } = draft;
    flights_exist(&subs);
    let subs = in_order(subs)?;
    Ok(Plan {
        subs,
        after: schedule,
        unsaid,
    })
}

// The flights that differ in what the sub-messages so far leave and in the new timetable.
fn left_in(
    alloc: Global,
    draft: &PlanDraft,
    wanted: &[FlightPieces],
) -> Result<Vec<FlightDifference>, Memory>
    ensures { (new : FlightNumber → Days) → wanted.now ≡ divided_flights new
        → IfOk result (λ left. left.items ≡ differences (days_in draft.now.schedule) new) }
{
    let flights = draft.schedule.copy()?.into_flights()?;
    differences(alloc, &flights, wanted)
}
