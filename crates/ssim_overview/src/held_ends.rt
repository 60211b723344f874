//! The days that one of some periods holds.

ghost use Rattle.std.specs.Prelude.{◌≡◌, ℕ, ◌≤◌, ◌<◌, ◌+◌, ◌-◌, IfOk, length, max, slice_index_or};
ghost use Rattle.ssim_overview.specs.internal.HeldEnds.{begun_end, first_end, latest_end};

use crate::sayings::Saying;
use ssim_values::{Memory, Period};
use std::alloc::Global;

/// For each day of a range the latest end of the periods that have begun and operate on its weekday,
/// the day after their last one; 0 if there is none. One of them holds the day if this is after it.
/// The cost is one week of each period, and one look at each day.
pub(crate) fn held_ends(
    alloc: Global,
    sayings: &[(Period, Saying)],
    from: u32,
    end: u32,
) -> Result<Vec<u32>, Memory>
    requires ordered { from ≤ end }
    requires within { end ≤ 36525 }
    ensures len { IfOk result (λ ends. length ends.items ≡ end - from) }
    ensures each { IfOk result (λ ends. (j : ℕ) → j < end - from
        → slice_index_or ends.items j 0 ≡ latest_end (begun_end (from + j)) sayings.now) }
{
    let mut ends = first_ends(alloc, sayings, from, end)?;
    for place in 7..ends.len() {
        ends[place] = ends[place].max(ends[place - 7]);
    }
    Ok(ends)
}

// For each day of a range the latest end of the periods that operate on its weekday and have the day
// in their first week, or in that of the range.
fn first_ends(
    alloc: Global,
    sayings: &[(Period, Saying)],
    from: u32,
    end: u32,
) -> Result<Vec<u32>, Memory>
    requires ordered { from ≤ end }
    requires within { end ≤ 36525 }
    ensures len { IfOk result (λ ends. length ends.items ≡ end - from) }
    ensures each { IfOk result (λ ends. (j : ℕ) → j < end - from
        → slice_index_or ends.items j 0 ≡ latest_end (first_end from (from + j)) sayings.now) }
{
    let mut ends = vec![in alloc; 0; (end - from) as usize]?;
    for saying in sayings {
        add_period(&mut ends, &saying.0, from);
    }
    Ok(ends)
}

// Adds the end of a period on the days of its first week, or of that of a range.
fn add_period(ends: &mut Vec<u32>, period: &Period, from: u32)
    requires { from + length ends.old.items ≤ 36525 }
    ensures len { length ends.new.items ≡ length ends.old.items }
    ensures each { (j : ℕ) → j < length ends.old.items
        → slice_index_or ends.new.items j 0
        ≡ max (slice_index_or ends.old.items j 0) (first_end from (from + j) period.now) }
{
    let first = period.first().number() as u32;
    let begin = (first.max(from) - from) as usize;
    for place in begin..ends.len().min(begin + 7) {
        ends[place] = ends[place].max(begun_end(period, from + place as u32));
    }
}

// The day after the last one of a period that has begun by a day and operates on its weekday; 0 for
// another period.
fn begun_end(period: &Period, day: u32) -> u32
    requires { day < 36525 }
    ensures { result ≡ begun_end day period.now }
{
    let first = period.first().number() as u32;
    let last = period.last().number() as u32;
    if first <= day && period.mask().days()[((day + 5) % 7) as usize] {
        last + 1
    } else {
        0
    }
}
