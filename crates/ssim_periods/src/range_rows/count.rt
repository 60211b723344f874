//! Days counted by arithmetic.
ghost use Rattle.std.specs.Prelude.{◌≡◌, ℕ, ◌+◌, ◌-◌, ◌<◌, ◌≤◌, length, slice_index};
ghost use Rattle.std.specs.List.{All};
ghost use Rattle.ssim_periods.specs.Calendar.{holds};
ghost use Rattle.ssim_values.specs.Calendar.{slot};
ghost use Rattle.ssim_periods.specs.Days.{counts_on, each_day};
ghost use Rattle.ssim_periods.specs.internal.Count.{tally, is_counted, is_of_class};
ghost use Rattle.ssim_periods.specs.internal.Rows.{AreRows};

use crate::period_days::number_of_days;
use crate::rows::{has_days, place_of, range_end, row_at};
use crate::{Change, Value};
use ssim_values::{Period, days_before};

// Adds to the count of each class the days of a range whose weekday is in the mask and whose old
// value is of that class.
fn count_range<V: Value, C: Change<V>>(
    counts: &mut [u32; 5],
    row: &[V; 7],
    mask: &[bool; 7],
    change: &C,
    from: u32,
    to: u32,
)
    requires ordered { from ≤ to }
    requires in_calendar { to ≤ 36525 }
    requires low { All (λ n. n ≤ from) counts.old }
    ensures { (k : ℕ) → k < 5 → slice_index counts.new k ≡ slice_index counts.old k
        + tally (λ n. is_counted V.nothing mask.now (C.class_of change.now) row.now k (slot n)) from
        (to - from) }
{
    for weekday in 0..7u32 {
        let wanted = has_days(mask, weekday, from, to);
        if wanted {
            let class = change.class(&row[weekday as usize]) as usize;
            let days = days_before(weekday, to) - days_before(weekday, from);
            counts[class] += days;
        }
    }
}

// How many days of a period have an old value of each class.
pub(crate) fn class_counts<V: Value, C: Change<V>>(
    before: &[V; 7],
    cuts: &[u32],
    rows: &[[V; 7]],
    first: u32,
    last: u32,
    mask: &[bool; 7],
    change: &C,
) -> [u32; 5]
    requires rows { AreRows before.now cuts.now rows.now }
    requires ordered { first ≤ last }
    requires in_calendar { last < 36525 }
    ensures len { length result ≡ 5 }
    ensures counts { (k : ℕ) → k < 5
        → slice_index result k ≡ tally
        (is_of_class V.nothing (C.class_of change.now) before.now cuts.now rows.now first last
        mask.now k) first (last + 1 - first) }
{
    let mut counts = [0; 5];
    let end = last + 1;
    let mut day = first;
    let mut place = place_of(cuts, day);
    while day < end {
        let next = range_end(cuts, place, end);
        count_range(
            &mut counts,
            row_at(before, rows, place),
            mask,
            change,
            day,
            next,
        );
        day = next;
        place += 1;
    }
    counts
}

// How many days of a period a change finds of each class, if all of them have this value.
pub(crate) fn counts_of<V: Value, C: Change<V>>(period: &Period, change: &C, value: &V) -> [u32; 5]
    ensures { result ≡ counts_on {V = ℕ} (holds period.now) (λ _. C.class_of change.now value.now)
        (each_day (λ _. 0)) }
{
    let mut counts = [0; 5];
    counts[change.class(value) as usize] = number_of_days(period);
    counts
}
