//! What messages find and leave before a change of what is held, and after it.

ghost use Rattle.std.specs.Prelude.{IfOk};
ghost use Rattle.ssim_desk.specs.clauses.Outcomes.{AreOutcomes};
ghost use Rattle.ssim_desk.specs.internal.Outcomes.{IsOutcome};

use crate::finding_line::FindingLine;
use crate::flights::{act_all, flights_of};
use ssim_base::Base;
use ssim_held::Held;
use ssim_schedule::{FlightPieces, Schedule};
use ssim_values::{Flight, Memory};
use std::alloc::Global;

/// What messages find and leave.
#[derive(Drop)]
pub struct Outcome {
    /// A line for each sub-message, in order: what it found on the dates of its period.
    pub lines: Vec<FindingLine>,
    /// Of the flights that are made, those that fly on some date, by number and suffix, each with
    /// its pieces.
    pub flights: Vec<FlightPieces>,
}

/// What messages find and leave before a change and after it. The flights of both are those that a
/// message names, before the change or after it: the timetables differ on no other flight.
#[derive(Drop)]
pub struct Outcomes {
    pub before: Outcome,
    pub after: Outcome,
}

/// What these messages find and leave of a base, and what those after a change do.
pub(crate) fn outcomes_of(
    alloc: Global,
    base: &Base,
    before: &[Held],
    after: &[Held],
) -> Result<Outcomes, Memory>
    ensures { IfOk result (AreOutcomes base.now before.now after.now) }
{
    let mut flights = flights_of(alloc, before)?;
    let others = flights_of(alloc, after)?;
    flights.extend_from_slice(&others)?;
    let before = outcome_of(alloc, base, &flights, before)?;
    let after = outcome_of(alloc, base, &flights, after)?;
    Ok(Outcomes { before, after })
}

// What messages, in this order, find and leave of some flights of a base.
fn outcome_of(
    alloc: Global,
    base: &Base,
    flights: &[Flight],
    messages: &[Held],
) -> Result<Outcome, Memory>
    ensures { IfOk result (IsOutcome base.now flights.now messages.now) }
{
    let mut schedule = Schedule::of_flights(base.data_set(), flights)?;
    let lines = act_all(alloc, base.rows(), &mut schedule, messages)?;
    let flights = schedule.into_flights()?;
    Ok(Outcome { lines, flights })
}
