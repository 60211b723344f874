//! Periods that lie apart: their cover is the cover of each, one after another.
ghost use Rattle.std.specs.Prelude.{◌≡◌, ℕ, ◌+◌, ◌<◌, ◌≤◌, ◌∷◌, [], true, false, slice_index_or, IsTrue};
ghost use Rattle.std.specs.List.{flat_map};
ghost use Rattle.ssim_periods.specs.internal.Apart.{is_held};
ghost use Rattle.ssim_periods.specs.Calendar.{day_count};
ghost use Rattle.ssim_values.specs.Calendar.{slot};
ghost use Rattle.ssim_periods.specs.Cover.{cover};

use crate::cover::trim::{first_in, trimmed};
use crate::rows::DAYS;
use ssim_values::{Period, weekday_of};

// Whether some periods in order of their first days lie so far apart that the cover of their days
// is the cover of each, one after another. They are looked at from the last one on. May be false
// although it is so.
pub(crate) fn are_separate(periods: &[Period]) -> bool
    requires in_calendar { (n : ℕ) → 36525 ≤ n → is_held periods.now n ≡ false }
    ensures { IsTrue result → cover (is_held periods.now) day_count
        ≡ flat_map (λ period. cover (is_held (period ∷ [])) day_count) periods.now }
{
    let mut next = DAYS;
    let mut place = periods.len();
    while place > 0 {
        place -= 1;
        let Some(own) = trimmed(&periods[place]) else {
            return false;
        };
        if !breaks_off_before(&own, next) {
            return false;
        }
        next = own.first().number() as u32;
    }
    true
}

// Whether a period begins a week or more before a day, and has one of its weekdays on a day after
// its last day and before this day.
fn breaks_off_before(period: &Period, day: u32) -> bool
    requires in_calendar { day ≤ 36525 }
    ensures week { IsTrue result → period.now.first + 7 ≤ day }
    ensures between { IsTrue result → (n : ℕ) × (period.now.last < n) × (n < day)
        × (slice_index_or period.now.days (slot n) false ≡ true) }
{
    let first = period.first().number() as u32;
    let end = period.last().number() as u32 + 1;
    if day < first + 7 || day < end {
        return false;
    }
    let days = period.mask().days();
    if day > end + 6 && days[weekday_of(end - 1)] {
        return true;
    }
    first_in(&days, end, day) < day
}
