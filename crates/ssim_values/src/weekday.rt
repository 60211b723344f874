//! The weekdays of days by their numbers, from 0 for Monday to 6 for Sunday.
//!
//! They are counted from day 0, a Saturday, since `tidy` asks for so many that `jiff` would cost it 5
//! to 7 % more instructions. That both say the same is proved: [`Day::weekday`](crate::Day::weekday),
//! which asks `jiff`, has the same definition.
ghost use Rattle.std.specs.Prelude.{◌≡◌, ℕ, ◌<◌, ◌≤◌};
ghost use Rattle.ssim_values.specs.Calendar.{first_on, slot};
ghost use Rattle.ssim_values.specs.clauses.Weekdays.{below};

/// The weekday of a day.
#[inline(always)]
pub fn weekday_of(day: u32) -> usize
    ensures value { result ≡ slot day }
    ensures below { result < 7 }
{
    (day as usize + 5) % 7
}

/// The first day with a weekday that is not before `from`.
#[inline(always)]
pub fn first_on(weekday: u32, from: u32) -> u32
    requires weekday { weekday < 7 }
    requires in_calendar { from < 36525 }
    ensures value { result ≡ first_on weekday from }
    ensures weekday { slot result ≡ weekday }
    ensures from { from ≤ result }
    ensures least { (n : ℕ) → from ≤ n → slot n ≡ weekday → result ≤ n }
{
    from + (weekday + 7 - (from + 5) % 7) % 7
}

/// The number of days before a day that have a weekday.
pub fn days_before(weekday: u32, day: u32) -> u32
    requires weekday { weekday < 7 }
    requires in_calendar { day ≤ 36525 }
    ensures { result ≡ below weekday day }
{
    (day + 6 - (weekday + 2) % 7) / 7
}
