//! The effect of an action on a flight's days, part by part.

ghost use Rattle.std.specs.Prelude.{◌≡◌, ℕ, ◌<◌, ◌≤◌, ◌+◌, IfOk, OnOk, slice_index_or};
ghost use Rattle.ssim_periods.specs.Calendar.{holds};
ghost use Rattle.ssim_periods.specs.clauses.Days.{AddsOnly};
ghost use Rattle.ssim_schedule.specs.internal.ActionParts.{AddsPoints, IsUniform, counts_by, sums_of};
ghost use Rattle.ssim_schedule.specs.clauses.Acts.{acted_on};

use crate::effect::division_points::next_point;
use crate::effect::sub_message_change::SubMessageChange;
use crate::itinerary::Itinerary;
use ssim_base::StationRow;
use ssim_periods::Periods;
use ssim_text::Action;
use ssim_values::{Day, Memory, Period};
use std::alloc::Global;

// Applies the action to the days of a part. Its effect is the same on all of them.
fn act_on_part(
    alloc: Global,
    rows: &[StationRow],
    action: &Action,
    part: &Period,
    periods: &mut Periods<Itinerary>,
) -> Result<[u32; 5], Memory>
    requires { IsUniform rows.now action.now part.now }
    ensures days { OnOk result (periods.new.days
        ≡ acted_on rows.now action.now part.now periods.old.days) }
    ensures counts { IfOk result (λ counts. counts
        ≡ counts_by rows.now action.now (holds part.now) periods.old.days) }
    ensures cuts { OnOk result (AddsOnly periods.old.cuts periods.new.cuts part.now.first
        (part.now.last + 1)) }
{
    let change = SubMessageChange::on(alloc, rows, action, part.first())?;
    periods.apply(part, &change)
}

// The days of a period from `at` to the day before `next`.
fn part_of(period: &Period, at: u32, next: u32) -> Period
    requires from { period.now.first ≤ at }
    requires some { at < next }
    requires to { next ≤ period.now.last + 1 }
    ensures first { result.first ≡ at }
    ensures last { result.last + 1 ≡ next }
    ensures days { result.days ≡ period.now.days }
{
    let _ = period.last().number();
    match Period::new(day_at(at), day_at(next - 1), period.mask()) {
        Ok(part) => part,
        Err(_) => unreachable!(),
    }
}

fn day_at(number: u32) -> Day
    requires { number < 36525 }
    ensures { result ≡ number }
{
    match Day::from_number(number as u16) {
        Some(day) => day,
        None => unreachable!(),
    }
}

fn sums(counts: &[u32; 5], more: &[u32; 5]) -> [u32; 5]
    requires { (k : ℕ) → k < 5 → slice_index_or counts.now k 0 + slice_index_or more.now k 0
        ≤ 36525 }
    ensures { result ≡ sums_of counts.now more.now }
{
    [
        counts[0] + more[0],
        counts[1] + more[1],
        counts[2] + more[2],
        counts[3] + more[3],
        counts[4] + more[4],
    ]
}

/// Applies an action to a flight's days in a period. The period is divided at the days at which
/// station rows begin and end, so that each station has one UTC variation in a part.
pub(crate) fn act_on_parts(
    alloc: Global,
    rows: &[StationRow],
    action: &Action,
    period: &Period,
    periods: &mut Periods<Itinerary>,
) -> Result<[u32; 5], Memory>
    ensures days { OnOk result (periods.new.days
        ≡ acted_on rows.now action.now period.now periods.old.days) }
    ensures counts { IfOk result (λ counts. counts
        ≡ counts_by rows.now action.now (holds period.now) periods.old.days) }
    ensures cuts { OnOk result (AddsPoints rows.now action.now period.now periods.old.cuts
        periods.new.cuts) }
{
    let mut counts = [0; 5];
    let mut at = period.first().number() as u32;
    let end = period.last().number() as u32 + 1;
    while at < end {
        let next = next_point(rows, action, at, end);
        let part = part_of(period, at, next);
        let more = act_on_part(alloc, rows, action, &part, periods)?;
        counts = sums(&counts, &more);
        at = next;
    }
    Ok(counts)
}
