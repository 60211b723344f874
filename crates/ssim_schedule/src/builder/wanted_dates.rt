//! The parts of periods on the dates of which a timetable is made.

ghost use Rattle.std.specs.Prelude.{◌≡◌, ◌≤◌, ◌&&◌, ℕ, Some, nat_le, true, false};
ghost use Rattle.ssim_schedule.specs.internal.WantedDates.{IsPart, is_wanted};

use ssim_values::{Day, Period};

/// Whether none of the days from a first to a last is wanted. It is false if no dates are given.
pub(crate) fn are_unwanted(wanted: Option<(Day, Day)>, first: Day, last: Day) -> bool
    ensures { result ≡ true → (n : ℕ) → first ≤ n → n ≤ last → is_wanted wanted n ≡ false }
{
    match wanted {
        None => false,
        Some((from, to)) => last < from || to < first,
    }
}

/// The part of a period from a first date to a last, if there is one. The whole period if no dates
/// are given.
pub(crate) fn wanted_part(wanted: Option<(Day, Day)>, period: Period) -> Option<Period>
    ensures { IsPart wanted period result }
{
    match wanted {
        None => Some(period),
        Some((first, last)) => part_between(period, first, last),
    }
}

// The part of a period from a first date to a last, if there is one.
fn part_between(period: Period, first: Day, last: Day) -> Option<Period>
    ensures { IsPart (Some (first, last)) period result }
{
    let first = later(first, period.first());
    let last = earlier(last, period.last());
    match Period::new(first, last, period.mask()) {
        Ok(part) => Some(part),
        Err(_) => None,
    }
}

// The later of two days.
fn later(one: Day, other: Day) -> Day
    ensures { (n : ℕ) → nat_le result n ≡ (nat_le one n && nat_le other n) }
{
    if one < other { other } else { one }
}

// The earlier of two days.
fn earlier(one: Day, other: Day) -> Day
    ensures { (n : ℕ) → nat_le n result ≡ (nat_le n one && nat_le n other) }
{
    if one < other { one } else { other }
}
