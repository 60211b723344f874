//! How many days a period holds.
ghost use Rattle.std.specs.Prelude.{◌≡◌, ◌+◌, ◌<◌, ◌≤◌, false, slice_index_or, if◌then◌else◌};
ghost use Rattle.std.specs.List.{count_by, range_with_len};
ghost use Rattle.ssim_periods.specs.Calendar.{day_count, holds};
ghost use Rattle.ssim_values.specs.clauses.Weekdays.{below};

use ssim_values::{Period, days_before};

/// The number of days that a period holds, counted by arithmetic for each weekday.
pub fn number_of_days(period: &Period) -> u32
    ensures { result ≡ count_by (holds period.now) (range_with_len 0 day_count) }
{
    let first = period.first().number() as u32;
    let end = period.last().number() as u32 + 1;
    let days = period.mask().days();
    let mut count = 0;
    for weekday in 0..7u32 {
        count += days_on(&days, weekday, first, end);
    }
    count
}

// The number of days of a weekday from `first` on and before `end`; none unless it is one of
// `days`.
fn days_on(days: &[bool; 7], weekday: u32, first: u32, end: u32) -> u32
    requires weekday { weekday < 7 }
    requires ordered { first ≤ end }
    requires in_calendar { end ≤ 36525 }
    ensures { result + (if slice_index_or days.now weekday false then below weekday first else 0)
        ≡ (if slice_index_or days.now weekday false then below weekday end else 0) }
{
    if days[weekday as usize] {
        days_before(weekday, end) - days_before(weekday, first)
    } else {
        0
    }
}
