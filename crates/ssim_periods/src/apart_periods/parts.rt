//! The parts of a period without the days of another, and the days that both have.
ghost use Rattle.std.specs.Prelude.{◌≡◌, ◌≤◌, ℕ};
ghost use Rattle.ssim_periods.specs.internal.Parts.{any_weekday, days_of_both, days_of_one, part, part_within, before_part, beside_part, after_part, common_part, first_part, second_part, third_part};

use crate::cover::period_of;
use ssim_values::Period;

// Whether a weekday is set.
fn has_weekday(days: &[bool; 7]) -> bool
    ensures { result ≡ any_weekday days.now }
{
    days[0] | days[1] | days[2] | days[3] | days[4] | days[5] | days[6]
}

// The weekdays of both of two masks.
fn of_both(days: &[bool; 7], others: &[bool; 7]) -> [bool; 7]
    ensures { result ≡ days_of_both days.now others.now }
{
    [
        days[0] & others[0],
        days[1] & others[1],
        days[2] & others[2],
        days[3] & others[3],
        days[4] & others[4],
        days[5] & others[5],
        days[6] & others[6],
    ]
}

// The weekdays of the first mask that the other has not.
fn of_one(days: &[bool; 7], others: &[bool; 7]) -> [bool; 7]
    ensures { result ≡ days_of_one days.now others.now }
{
    [
        days[0] & !others[0],
        days[1] & !others[1],
        days[2] & !others[2],
        days[3] & !others[3],
        days[4] & !others[4],
        days[5] & !others[5],
        days[6] & !others[6],
    ]
}

// The period of the days before `end` from `first` on that have one of the weekdays. None if there
// is no day before `end`, or no weekday is set.
fn part(first: u32, end: u32, days: [bool; 7]) -> Option<Period>
    requires { end ≤ 36525 }
    ensures { result ≡ part first end days }
{
    if end <= first || !has_weekday(&days) {
        return None;
    }
    Some(period_of(first, end - 1, days))
}

// The part of a period between the first and the last day of another, on these weekdays.
fn part_within(own: &Period, other: &Period, days: [bool; 7]) -> Option<Period>
    ensures { result ≡ part_within own.now other.now days }
{
    let first = own.first().number().max(other.first().number()) as u32;
    let last = own.last().number().min(other.last().number()) as u32;
    part(first, last + 1, days)
}

// The days of a period before the first day of another.
fn before_part(own: &Period, other: &Period) -> Option<Period>
    ensures { result ≡ before_part own.now other.now }
{
    let end = own.last().number() as u32 + 1;
    let from = other.first().number() as u32;
    part(
        own.first().number() as u32,
        end.min(from),
        own.mask().days(),
    )
}

// The days of a period between the first and the last day of another, on other weekdays.
fn beside_part(own: &Period, other: &Period) -> Option<Period>
    ensures { result ≡ beside_part own.now other.now }
{
    let days = of_one(&own.mask().days(), &other.mask().days());
    part_within(own, other, days)
}

// The days of a period after the last day of another.
fn after_part(own: &Period, other: &Period) -> Option<Period>
    ensures { result ≡ after_part own.now other.now }
{
    let first = own.first().number() as u32;
    let to = other.last().number() as u32 + 1;
    let end = own.last().number() as u32 + 1;
    part(first.max(to), end, own.mask().days())
}

// The days of a period that another has too.
pub(crate) fn common_part(own: &Period, other: &Period) -> Option<Period>
    ensures { result ≡ common_part own.now other.now }
{
    let days = of_both(&own.mask().days(), &other.mask().days());
    part_within(own, other, days)
}

// The first of the parts of a period without the days of another: before it, between its first and
// its last day on other weekdays, and after it.
pub(crate) fn first_part(own: &Period, other: &Period) -> Option<Period>
    ensures { result ≡ first_part own.now other.now }
{
    if let Some(part) = before_part(own, other) {
        return Some(part);
    }
    if let Some(part) = beside_part(own, other) {
        return Some(part);
    }
    after_part(own, other)
}

// The part between, unless it is the first.
pub(crate) fn second_part(own: &Period, other: &Period) -> Option<Period>
    ensures { result ≡ second_part own.now other.now }
{
    if before_part(own, other).is_some() {
        beside_part(own, other)
    } else {
        None
    }
}

// The part after the other period, unless it is the first.
pub(crate) fn third_part(own: &Period, other: &Period) -> Option<Period>
    ensures { result ≡ third_part own.now other.now }
{
    if before_part(own, other).is_some() || beside_part(own, other).is_some() {
        after_part(own, other)
    } else {
        None
    }
}
