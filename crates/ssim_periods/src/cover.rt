//! The parts of which covers are made.
ghost use Rattle.std.specs.Prelude.{◌≡◌, ℕ, ◌+◌, ◌-◌, ◌<◌, ◌≤◌, false, true, slice_index_or};
ghost use Rattle.ssim_values.specs.DayMask.{IsMask};
ghost use Rattle.ssim_values.specs.Calendar.{slot};
ghost use Rattle.ssim_periods.specs.Cover.{first_where, last_where, differ};

pub(crate) mod separate;
pub(crate) mod trim;
pub(crate) mod union;

use crate::Value;
use ssim_values::{Day, DayMask, Period, weekday_of};

// The first day of a range with one row that has the value although its weekday is not one of
// `days`, or the other way round. The end of the range if there is none. Looks at no more than
// seven days.
pub(crate) fn unlike_in_row<V: Value>(
    row: &[V; 7],
    value: &V,
    days: &[bool; 7],
    from: u32,
    to: u32,
) -> u32
    requires ordered { from ≤ to }
    requires in_calendar { to ≤ 36525 }
    ensures { result ≡ first_where
        (λ n. differ (V.alike value.now (slice_index_or row.now (slot n) V.nothing))
        (slice_index_or days.now (slot n) false)) from (to - from) }
{
    let week = if to - from < 7 { to } else { from + 7 };
    for day in from..week {
        let weekday = weekday_of(day);
        let has = value.same(&row[weekday]);
        if has != days[weekday] {
            return day;
        }
    }
    to
}

// The last day of a range whose weekday is one of `days`. The weekday of the first day is one of
// them.
pub(crate) fn last_in(days: &[bool; 7], first: u32, after: u32) -> u32
    requires ordered { first < after }
    requires own { slice_index_or days.now (slot first) false ≡ true }
    ensures { result ≡ last_where (λ n. slice_index_or days.now (slot n) false) first
        (after - first) }
{
    let mut day = after - 1;
    while first < day {
        let weekday = weekday_of(day);
        if days[weekday] {
            return day;
        }
        day -= 1;
    }
    first
}

// The period with these parts.
pub(crate) fn period_of(first: u32, last: u32, days: [bool; 7]) -> Period
    requires ordered { first ≤ last }
    requires in_calendar { last < 36525 }
    requires mask { IsMask days }
    ensures first { result.first ≡ first }
    ensures last { result.last ≡ last }
    ensures days { result.days ≡ days }
{
    let Some(first) = Day::from_number(first as u16) else {
        unreachable!();
    };
    let Some(last) = Day::from_number(last as u16) else {
        unreachable!();
    };
    let Some(mask) = DayMask::of(days) else {
        unreachable!();
    };
    let Ok(period) = Period::new(first, last, mask) else {
        unreachable!();
    };
    period
}
