//! The order of the sub-messages of a plan.

ghost use Rattle.std.specs.Prelude.{IfOk};
ghost use Rattle.std.specs.List.{AllByRecursion};
ghost use Rattle.ssim_values.specs.Flight.{IsFlight};
ghost use Rattle.ssim_outbox.specs.internal.Sorted.{AreSorted};

use crate::planned_sub::PlannedSub;
use ssim_values::Memory;

/// The same sub-messages by flight, and those of one flight by first day. Those of one flight with
/// one first day keep their order.
pub(crate) fn in_order(mut subs: Vec<PlannedSub>) -> Result<Vec<PlannedSub>, Memory>
    ensures { IfOk result (λ sorted. AreSorted subs.items sorted.items) }
{
    subs.sort_by_key(|sub| sub.rank())?;
    Ok(subs)
}

/// No effect at run time. The proof reads from the uses in it that the flights exist.
pub(crate) fn flights_exist(subs: &[PlannedSub])
    ensures { AllByRecursion (λ sub. IsFlight sub.flight) subs.now }
{
    for sub in subs {
        let _ = sub.flight.number();
        let _ = sub.flight.suffix();
    }
}
