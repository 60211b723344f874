//! The plan between the timetables of two desks, and its sub-messages.

ghost use Rattle.std.specs.Prelude.{◌≡◌, IfOk};
ghost use Rattle.std.specs.List.{AllByRecursion};
ghost use Rattle.ssim_base.specs.Resolve.{AreResolved};
ghost use Rattle.ssim_records.specs.Carrier.{CarrierFields};
ghost use Rattle.ssim_text.specs.declared.kind.Kind.TheVariants.{Ssm};
ghost use Rattle.ssim_outbox.specs.Reach.{IsSaid};
ghost use Rattle.ssim_outbox.specs.clauses.Messages.{IsAlone};
ghost use Rattle.ssim_outbox.specs.Publication.{dates_of_plan, subs_of_plan};
ghost use Rattle.ssim_outbox.specs.internal.Addressed.{HasPlan};

use crate::full_dates::dated_sub;
use crate::plan::{Plan, make_plan};
use crate::planned_sub::PlannedSub;
use ssim_desk::Holdings;
use ssim_text::{Message, Sub};
use ssim_values::{Airline, Designator, Memory};
use std::alloc::Global;

/// The plan between the timetables of two desks, by the station table of the first.
pub(crate) fn plan_between(alloc: Global, from: &Holdings, to: &Holdings) -> Result<Plan, Memory>
    ensures { IfOk result
        (λ plan. HasPlan from.now to.now plan.subs.items plan.unsaid.items) }
{
    let old = from.schedule()?;
    let new = to.schedule()?;
    let plan = make_plan(alloc, from.base().rows(), &old, &new)?;
    Ok(plan)
}

/// The sub-messages of a plan, for flights of an airline and with full dates. A text with the
/// heading can have each of them.
pub(crate) fn subs_of_plan(
    alloc: Global,
    heading: &Message,
    airline: Airline,
    plan: Vec<PlannedSub>,
) -> Result<Vec<Sub>, Memory>
    requires ssm { heading.now.kind ≡ Ssm }
    requires said { AllByRecursion (λ sub. IsSaid sub.action) plan.items }
    ensures value { IfOk result (λ subs. subs.items ≡ subs_of_plan airline plan.items) }
    ensures alone { IfOk result (λ subs. AllByRecursion (IsAlone heading.now) subs.items) }
    ensures resolved { (carrier : CarrierFields) → airline ≡ carrier.airline
        → IfOk result (λ subs. AreResolved carrier subs.items (dates_of_plan plan.items)) }
{
    let mut subs = Vec::with_capacity(alloc, plan.len())?;
    for sub in plan {
        let PlannedSub {
            action,
            flight,
            period,
        } = sub;
        let designator = Designator { airline, flight };
        subs.push(dated_sub(heading, designator, period, action))?;
    }
    Ok(subs)
}
