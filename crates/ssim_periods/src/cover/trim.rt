//! The cover of one period's days: the period itself, trimmed to the days that it holds.
ghost use Rattle.std.specs.Prelude.{◌≡◌, ℕ, ◌+◌, ◌-◌, ◌%◌, ◌<◌, ◌≤◌, ◌&&◌, false, true, nat_lt, [], ◌∷◌, slice_index_or, IfSome, IfNone, IsTrue};
ghost use Rattle.ssim_values.specs.clauses.Period.{IsPeriod};
ghost use Rattle.ssim_periods.specs.internal.Apart.{weekdays_within};
ghost use Rattle.ssim_periods.specs.Calendar.{day_count, holds};
ghost use Rattle.ssim_values.specs.Calendar.{first_on, slot};
ghost use Rattle.ssim_periods.specs.Cover.{cover, first_where};

use crate::cover::{last_in, period_of};
use ssim_values::{Period, first_on, weekday_of};

// The period from the first to the last day of a period that it holds, on the weekdays that these
// days have. None if it holds no day.
pub(crate) fn trimmed(period: &Period) -> Option<Period>
    ensures some { IfSome result (λ trimmed. cover (holds period.now) day_count ≡ trimmed ∷ []) }
    ensures none { IfNone result (cover (holds period.now) day_count ≡ []) }
{
    if is_trimmed(period) {
        return Some(*period);
    }
    let mask = period.mask().days();
    let from = period.first().number() as u32;
    let end = period.last().number() as u32 + 1;
    let first = first_in(&mask, from, end);
    if first == end {
        return None;
    }
    let last = last_in(&mask, first, end);
    let days = weekdays_before(&mask, first, end);
    Some(period_of(first, last, days))
}

// Whether a period of a week or more holds its first and its last day. Most periods do.
#[inline(always)]
fn is_trimmed(period: &Period) -> bool
    ensures valid { IsTrue result → IsPeriod period.now }
    ensures week { IsTrue result → period.now.first + 6 ≤ period.now.last }
    ensures first { IsTrue result → slice_index_or period.now.days (slot period.now.first) false
        ≡ true }
    ensures last { IsTrue result → slice_index_or period.now.days (slot period.now.last) false
        ≡ true }
{
    let days = period.mask().days();
    let first = period.first().number() as u32;
    let last = period.last().number() as u32;
    if last < first + 6 {
        return false;
    }
    let weekday = weekday_of(first);
    let other = weekday_of(last);
    days[weekday] && days[other]
}

// The first day of a range whose weekday is one of `days`. The end of the range if there is none.
pub(crate) fn first_in(days: &[bool; 7], from: u32, to: u32) -> u32
    requires ordered { from ≤ to }
    requires in_calendar { to ≤ 36525 }
    ensures { result ≡ first_where (λ n. slice_index_or days.now (slot n) false) from (to - from) }
{
    for day in from..to {
        let weekday = weekday_of(day);
        if days[weekday] {
            return day;
        }
    }
    to
}

// Whether the first day from `first` on that has a weekday is before `end`, and the weekday is one
// of `days`.
fn has_weekday(days: &[bool; 7], weekday: u32, first: u32, end: u32) -> bool
    requires weekday { weekday < 7 }
    requires in_calendar { first < 36525 }
    ensures { result ≡ (nat_lt (first_on weekday first) end
        && slice_index_or days.now weekday false) }
{
    let day = first_on(weekday, first);
    if day < end {
        days[weekday as usize]
    } else {
        false
    }
}

// Which of the weekdays `days` have one of the seven days from `first` on before `end`.
fn weekdays_before(days: &[bool; 7], first: u32, end: u32) -> [bool; 7]
    requires in_calendar { first < 36525 }
    ensures { result ≡ weekdays_within days.now first end }
{
    [
        has_weekday(days, 0, first, end),
        has_weekday(days, 1, first, end),
        has_weekday(days, 2, first, end),
        has_weekday(days, 3, first, end),
        has_weekday(days, 4, first, end),
        has_weekday(days, 5, first, end),
        has_weekday(days, 6, first, end),
    ]
}
