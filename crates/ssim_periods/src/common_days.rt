//! Whether two periods have a day in common.
ghost use Rattle.std.specs.Prelude.{◌≡◌, ℕ, ◌<◌, ◌≤◌, ◌&&◌, true, false, not};
ghost use Rattle.ssim_periods.specs.Calendar.{holds};
ghost use Rattle.ssim_periods.specs.CommonDays.{meet};

use ssim_values::{Period, first_on};

/// Whether two periods have no day in common. Mostly one ends before the other begins.
#[inline(always)]
pub fn are_apart(one: &Period, other: &Period) -> bool
    ensures value { result ≡ not (meet one.now other.now) }
    ensures none { result ≡ true → (n : ℕ) → holds one.now n ≡ true → holds other.now n ≡ false }
{
    if one.last().number() < other.first().number() {
        return true;
    }
    if other.last().number() < one.first().number() {
        return true;
    }
    !meets(one, other)
}

/// Whether two periods have a day in common. Mostly periods that do not lie apart are of other
/// weekdays.
#[inline(always)]
pub fn meets(one: &Period, other: &Period) -> bool
    ensures value { result ≡ meet one.now other.now }
    ensures none { result ≡ false → (n : ℕ) → holds one.now n ≡ true → holds other.now n ≡ false }
{
    !are_of_other_weekdays(one, other) && meet_on_a_weekday(one, other)
}

// Whether two periods have no weekday in common. Every weekday is looked at, since a branch at each
// would often be predicted wrongly.
#[inline(always)]
fn are_of_other_weekdays(one: &Period, other: &Period) -> bool
    ensures value { result ≡ true → meet one.now other.now ≡ false }
    ensures none { result ≡ true → (n : ℕ) → holds one.now n ≡ true → holds other.now n ≡ false }
{
    let days = one.mask().days();
    let others = other.mask().days();
    let common = (days[0] & others[0])
        | (days[1] & others[1])
        | (days[2] & others[2])
        | (days[3] & others[3])
        | (days[4] & others[4])
        | (days[5] & others[5])
        | (days[6] & others[6]);
    !common
}

// The same as `meets`, weekday by weekday.
#[inline(never)]
fn meet_on_a_weekday(one: &Period, other: &Period) -> bool
    ensures value { result ≡ meet one.now other.now }
    ensures none { result ≡ false → (n : ℕ) → holds one.now n ≡ true → holds other.now n ≡ false }
{
    let first = one.first().number().max(other.first().number()) as u32;
    let last = one.last().number().min(other.last().number()) as u32;
    if last < first {
        return false;
    }
    let days = one.mask().days();
    let other_days = other.mask().days();
    for weekday in 0..7 {
        if days[weekday] && other_days[weekday] && first_on(weekday as u32, first) <= last {
            return true;
        }
    }
    false
}
