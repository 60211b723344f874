//! Periods with the days of several periods.
ghost use Rattle.std.specs.Prelude.{◌≡◌, ◌⊎◌, ℕ, ◌+◌, ◌<◌, ◌≤◌, ◌||◌, false, length, max, slice_index_or, IfSome, IsTrue, OnOk};
ghost use Rattle.ssim_periods.specs.internal.Apart.{is_held};
ghost use Rattle.ssim_periods.specs.Calendar.{holds};
ghost use Rattle.ssim_values.specs.Calendar.{slot};

use crate::weekday_bits::WeekdayBits;
use ssim_values::{DayMask, Memory, Period, weekday_of};

/// How many of the last periods of a list are tried, at most.
const TRIED: usize = 4;

/// Adds the days of a period to those of a list: to one of the last periods of the list, if one
/// period has the days of both, else as a new last period.
pub(crate) fn join(periods: &mut Vec<Period>, period: &Period) -> Result<(), Memory>
    ensures { OnOk result ((n : ℕ)
        → is_held periods.new.items n ≡ (holds period.now n || is_held periods.old.items n)) }
{
    if let Some(found) = joined_with_last(periods, period) {
        periods[found.0] = found.1;
        return Ok(());
    }
    periods.push(*period)?;
    Ok(())
}

// The place of one of the last periods of a list, and the period with exactly its days and those of
// another period.
fn joined_with_last(periods: &[Period], period: &Period) -> Option<(usize, Period)>
    ensures place { IfSome result (λ found. found.0 < length periods.now) }
    ensures days { IfSome result (λ found. (n : ℕ)
        → holds found.1 n ≡ (holds (slice_index_or periods.now found.0 found.1) n
        || holds period.now n)) }
{
    let mut place = periods.len();
    let least = place.saturating_sub(TRIED);
    while place > least {
        place -= 1;
        if let Some(both) = union(&periods[place], period) {
            return Some((place, both));
        }
    }
    None
}

/// The period with exactly the days of two periods. May be none although there is one.
pub fn union(one: &Period, other: &Period) -> Option<Period>
    ensures days { IfSome result (λ both. (n : ℕ)
        → holds both n ≡ (holds one.now n || holds other.now n)) }
    ensures first { IfSome result (λ both. (both.first ≡ one.now.first)
        ⊎ (both.first ≡ other.now.first)) }
    ensures last { IfSome result (λ both. (both.last ≡ one.now.last)
        ⊎ (both.last ≡ other.now.last)) }
{
    if one.first().number() <= other.first().number() {
        in_order(one, other)
    } else {
        in_order(other, one)
    }
}

// The same if the first period begins no later than the other.
fn in_order(one: &Period, other: &Period) -> Option<Period>
    requires { one.now.first ≤ other.now.first }
    ensures days { IfSome result (λ both. (n : ℕ)
        → holds both n ≡ (holds one.now n || holds other.now n)) }
    ensures first { IfSome result (λ both. both.first ≡ one.now.first) }
    ensures last { IfSome result (λ both. (both.last ≡ one.now.last)
        ⊎ (both.last ≡ other.now.last)) }
{
    if lie_apart(one, other) {
        return None;
    }
    if let Some(both) = begun_earlier(one, other) {
        return Some(both);
    }
    let days = WeekdayBits::of(one.mask().days());
    let others = WeekdayBits::of(other.mask().days());
    let all = days.either(others);
    if !have_days(all, one, days, other, others) {
        return None;
    }
    let mask = DayMask::of(all.days())?;
    let last = if one.last().number() < other.last().number() {
        other.last()
    } else {
        one.last()
    };
    match Period::new(one.first(), last, mask) {
        Ok(period) => Some(period),
        Err(_) => None,
    }
}

// Whether a week or more lies between two periods. Most periods that are not joined do.
#[inline(always)]
fn lie_apart(one: &Period, other: &Period) -> bool {
    one.last().number() as u32 + 7 < other.first().number() as u32
}

// The other period, begun with the first one, if that is of one day and the other begins on its
// next day. Records of one date mostly are.
fn begun_earlier(one: &Period, other: &Period) -> Option<Period>
    ensures days { IfSome result (λ both. (n : ℕ)
        → holds both n ≡ (holds one.now n || holds other.now n)) }
    ensures first { IfSome result (λ both. both.first ≡ one.now.first) }
    ensures last { IfSome result (λ both. both.last ≡ other.now.last) }
{
    let day = one.first().number() as u32;
    let next = other.first().number() as u32;
    if one.last().number() as u32 != day || next <= day {
        return None;
    }
    let days = other.mask().days();
    let weekday = weekday_of(day);
    if !days[weekday] || !one.mask().days()[weekday] {
        return None;
    }
    if day + 1 < next && !have_no_day(WeekdayBits::of(days), day + 1, next) {
        return None;
    }
    match Period::new(one.first(), other.last(), other.mask()) {
        Ok(period) => Some(period),
        Err(_) => None,
    }
}

// Whether the weekdays of either of two periods, from the first day of the one to the last day of
// both, give exactly the days of the periods.
fn have_days(
    all: WeekdayBits,
    one: &Period,
    days: WeekdayBits,
    other: &Period,
    others: WeekdayBits,
) -> bool
    requires ordered { one.now.first ≤ other.now.first }
    requires days { days.days ≡ one.now.days }
    requires others { others.days ≡ other.now.days }
    requires all { (w : ℕ) → slice_index_or all.days w false
        ≡ (slice_index_or one.now.days w false || slice_index_or other.now.days w false) }
    ensures { IsTrue result → (n : ℕ) → one.now.first ≤ n → n ≤ max one.now.last other.now.last
        → slice_index_or all.days (slot n) false ≡ (holds one.now n || holds other.now n) }
{
    let first = one.first().number() as u32;
    let next = other.first().number() as u32;
    let end = one.last().number() as u32 + 1;
    let other_end = other.last().number() as u32 + 1;
    agree(all, days, first, next.min(end))
        && have_no_day(all, end, next)
        && agree(all, days, other_end, end)
        && agree(all, others, next.max(end), other_end)
}

// Whether the weekday of each day of a range is in both of two sets or in none.
#[inline(always)]
fn agree(days: WeekdayBits, others: WeekdayBits, from: u32, to: u32) -> bool
    ensures { IsTrue result → (n : ℕ) → from ≤ n → n < to
        → slice_index_or days.days (slot n) false ≡ slice_index_or others.days (slot n) false }
{
    have_no_day(days.unlike(others), from, to)
}

// Whether no day of a range has one of these weekdays. Of any seven days one has.
#[inline(always)]
fn have_no_day(days: WeekdayBits, from: u32, to: u32) -> bool
    ensures { IsTrue result → (n : ℕ) → from ≤ n → n < to
        → slice_index_or days.days (slot n) false ≡ false }
{
    if to <= from || days.is_empty() {
        return true;
    }
    let count = to - from;
    if count >= 7 {
        return false;
    }
    days.from_day(from) & ((1 << count) - 1) == 0
}
