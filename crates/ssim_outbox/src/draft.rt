//! Sub-messages so far, and the timetable that they leave.

ghost use Rattle.std.specs.Prelude.{◌≡◌, ◌++◌, [], true, IfOk, OnOk, map};
ghost use Rattle.ssim_outbox.specs.internal.Drafts.{ActOnEach, Acts, AreAsLong, IsAllActed};
ghost use Rattle.ssim_outbox.specs.internal.Drafts.{planned};

use crate::planned_sub::PlannedSub;
use ssim_base::{Resolved, StationRow};
use ssim_schedule::{Finding, Schedule};
use ssim_text::Action;
use ssim_values::{Flight, Memory, Period};
use std::alloc::Global;

/// Sub-messages so far, and the timetable that they leave.
#[derive(Drop)]
pub(crate) struct PlanDraft {
    pub subs: Vec<PlannedSub>,
    pub schedule: Schedule,
}

impl PlanDraft {
    /// No sub-messages so far.
    pub(crate) fn of(alloc: Global, from: &Schedule) -> Result<PlanDraft, Memory>
        ensures subs { IfOk result (λ draft. draft.subs.items ≡ []) }
        ensures schedule { IfOk result (λ draft. draft.schedule ≡ from.now) }
    {
        Ok(PlanDraft {
            subs: Vec::new(alloc),
            schedule: from.copy()?,
        })
    }

    /// One more sub-message for each of the actions, for the flight and the period. Each acts in
    /// its order.
    pub(crate) fn act(
        &mut self,
        rows: &[StationRow],
        actions: Vec<Action>,
        flight: Flight,
        period: Period,
    ) -> Result<(), Memory>
        ensures subs { OnOk result (self.new.subs.items
            ≡ self.old.subs.items ++ map (planned flight period) actions.items) }
        ensures acts { OnOk result
            (Acts rows.now actions.items flight period self.old.schedule self.new.schedule) }
        ensures as_long { OnOk result (AreAsLong self.old.schedule self.new.schedule) }
    {
        act_on(&mut self.schedule, rows, &actions, flight, period)?;
        push_subs(&mut self.subs, actions, flight, period)
    }
}

/// The actions act on the dates of the period of the flight, one after another. Returns whether
/// each of them acts on each of these dates.
pub(crate) fn act_on(
    schedule: &mut Schedule,
    rows: &[StationRow],
    actions: &[Action],
    flight: Flight,
    period: Period,
) -> Result<bool, Memory>
    ensures acts { OnOk result (Acts rows.now actions.now flight period schedule.old schedule.new) }
    ensures as_long { OnOk result (AreAsLong schedule.old schedule.new) }
    ensures each { IfOk result
        (λ each. each ≡ true → ActOnEach rows.now actions.now flight period schedule.old) }
{
    // No effect at run time. The proof reads from these uses that the flight exists.
    let _ = flight.number();
    let _ = flight.suffix();
    match actions.split_first() {
        None => Ok(true),
        Some((action, rest)) => {
            let sub = Resolved {
                action,
                flight,
                period,
            };
            let finding = schedule.apply_sub(rows, &sub)?;
            let rest_act = act_on(schedule, rows, rest, flight, period)?;
            Ok(rest_act && is_all_acted(finding))
        }
    }
}

// Whether a finding counts no date on which the sub-message did not act.
fn is_all_acted(finding: Finding) -> bool
    ensures { result ≡ true → IsAllActed finding }
{
    finding.absent == 0 && finding.present == 0 && finding.leg == 0 && finding.station == 0
}

/// Adds a sub-message for each of the actions, for the flight and the period.
pub(crate) fn push_subs(
    subs: &mut Vec<PlannedSub>,
    actions: Vec<Action>,
    flight: Flight,
    period: Period,
) -> Result<(), Memory>
    ensures { OnOk result
        (subs.new.items ≡ subs.old.items ++ map (planned flight period) actions.items) }
{
    for action in actions {
        subs.push(PlannedSub {
            action,
            flight,
            period,
        })?;
    }
    Ok(())
}
