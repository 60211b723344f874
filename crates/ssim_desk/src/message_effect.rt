//! Messages act on a schedule, sub-message by sub-message.

ghost use Rattle.std.specs.Prelude.{◌≡◌, ◌∷◌, [], IfOk, OnOk};
ghost use Rattle.ssim_periods.specs.Days.{each_day};
ghost use Rattle.ssim_schedule.specs.Acts.{finding_of};
ghost use Rattle.ssim_schedule.specs.clauses.Schedule.{cuts_in};
ghost use Rattle.ssim_values.specs.Flight.{FlightNumber, IsFlight};
ghost use Rattle.ssim_desk.specs.internal.Changes.{AddsSubPoints, Shows};
ghost use Rattle.ssim_desk.specs.Meaning.{Timetable, after_entries, after_entry, after_one};
ghost use Rattle.ssim_desk.specs.Meaning.{subs_findings};

use ssim_base::{ResolvedSub, StationRow};
use ssim_held::Held;
use ssim_schedule::{Finding, Schedule};
use ssim_text::Sub;
use ssim_values::Memory;
use std::alloc::Global;

// A sub-message acts on its dates.
fn act_one(
    rows: &[StationRow],
    schedule: &mut Schedule,
    sub: &Sub,
    dated: ResolvedSub,
) -> Result<Finding, Memory>
    ensures shows { OnOk result ((before : Timetable) → Shows schedule.old before
        → Shows schedule.new (after_one rows.now sub.now.action dated before)) }
    ensures found { IfOk result (λ found. (before : Timetable) → Shows schedule.old before → found
        ≡ finding_of rows.now sub.now.action dated.period (each_day (before dated.flight))) }
    ensures cuts { OnOk result ((g : FlightNumber) → IsFlight g
        → AddsSubPoints rows.now (dated ∷ []) g (cuts_in schedule.old g) (cuts_in schedule.new g)) }
{
    // No effect at run time. The proof reads from these uses that the flight is one.
    let _ = dated.flight.number();
    let _ = dated.flight.suffix();
    schedule.apply_sub(rows, &dated.with(&sub.action))
}

/// The sub-messages of a message act in their order. Returns what each found.
pub(crate) fn act(
    alloc: Global,
    rows: &[StationRow],
    schedule: &mut Schedule,
    held: &Held,
) -> Result<Vec<Finding>, Memory>
    ensures shows { OnOk result ((before : Timetable) → Shows schedule.old before
        → Shows schedule.new (after_entry rows.now held.now before)) }
    ensures found { IfOk result (λ found. (before : Timetable) → Shows schedule.old before
        → found.items ≡ subs_findings rows.now held.now.message.subs held.now.dates before) }
    ensures cuts { OnOk result ((g : FlightNumber) → IsFlight g
        → AddsSubPoints rows.now held.now.dates g (cuts_in schedule.old g)
        (cuts_in schedule.new g)) }
{
    let mut found = Vec::new(alloc);
    for (place, sub) in held.message().subs().iter().enumerate() {
        found.push(act_one(rows, schedule, sub, held.dates()[place])?)?;
    }
    Ok(found)
}

/// Messages act in their order. What they find is not kept.
pub(crate) fn act_in_order(
    alloc: Global,
    rows: &[StationRow],
    schedule: &mut Schedule,
    messages: &[Held],
) -> Result<(), Memory>
    ensures { OnOk result ((before : Timetable) → Shows schedule.old before
        → Shows schedule.new (after_entries rows.now messages.now before)) }
{
    for held in messages {
        act(alloc, rows, schedule, held)?;
    }
    Ok(())
}
