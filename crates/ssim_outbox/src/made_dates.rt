//! Whether sub-messages do on each date of a period what they should.

ghost use Rattle.std.specs.Prelude.{◌≡◌, ℕ, ◌+◌, ◌<◌, ◌≤◌, length, slice_index_or, true};
ghost use Rattle.std.specs.List.{Contains};
ghost use Rattle.std.specs.List.Sorted.{IsStrictlyIncreasing};
ghost use Rattle.ssim_periods.specs.Calendar.{day_count, holds};
ghost use Rattle.ssim_schedule.specs.clauses.Schedule.{days_in};
ghost use Rattle.ssim_outbox.specs.internal.Drafts.{AreWeekly, IsMadeOn};

use crate::flight_change::FlightChange;
use crate::held_days::holds_number;
use ssim_schedule::{Schedule, same_legs};
use ssim_values::{Day, Period};

/// The days of a week.
const WEEK: u16 = 7;

/// Whether the period holds its first day, and the new itinerary is made on each day that it holds,
/// on none of which it was there before.
///
/// Between two cuts all days of one weekday have the same itineraries, so that one week is
/// compared.
pub(crate) fn is_made(
    made: &Schedule,
    before: &Schedule,
    change: &FlightChange,
    period: Period,
) -> bool
    ensures first { result ≡ true → (period.first < day_count)
        × (holds period period.first ≡ true) }
    ensures made { result ≡ true → (n : ℕ) → n < day_count → holds period n ≡ true
        → IsMadeOn (days_in made.now change.now.flight) (days_in before.now change.now.flight)
        change.now.new.days n }
{
    let mut first = period.first().number();
    if !holds_number(period, first) {
        return false;
    }
    let end = period.last().number() + 1;
    while first < end {
        if holds_number(period, first) {
            let next = next_cut(made, before, change, first, end);
            if !is_made_between(made, before, change, period, first, next) {
                return false;
            }
            first = next;
        } else {
            first += 1;
        }
    }
    true
}

// The first cut of the itineraries after a day number and before an end; the end if there is none.
fn next_cut(made: &Schedule, before: &Schedule, change: &FlightChange, first: u16, end: u16) -> u16
    requires { first < end }
    ensures from { first < result }
    ensures to { result ≤ end }
    ensures made { AreWeekly (days_in made.now change.now.flight) first result }
    ensures before { AreWeekly (days_in before.now change.now.flight) first result }
    ensures new { AreWeekly change.now.new.days first result }
{
    let made_end = cut_after(made.cuts(&change.flight), first, end);
    let before_end = cut_after(before.cuts(&change.flight), first, made_end);
    cut_after(change.new.cuts(), first, before_end)
}

// The first of some cuts after a day number and before an end; the end if there is none.
fn cut_after(cuts: &[u32], first: u16, end: u16) -> u16
    requires rising { IsStrictlyIncreasing cuts.now }
    requires before { first < end }
    ensures from { first < result }
    ensures to { result ≤ end }
    ensures none { (cut : ℕ) → Contains cuts.now cut → first < cut → result ≤ cut }
{
    let place = place_after(cuts, first as u32);
    if place >= cuts.len() {
        return end;
    }
    if cuts[place] < end as u32 {
        cuts[place] as u16
    } else {
        end
    }
}

// The place of the first cut after a day number.
fn place_after(cuts: &[u32], day: u32) -> usize
    requires { IsStrictlyIncreasing cuts.now }
    ensures before { (k d : ℕ) → k < result → slice_index_or cuts.now k d ≤ day }
    ensures after { result < length cuts.now → day < slice_index_or cuts.now result 0 }
{
    cuts.partition_point(|cut| *cut <= day)
}

// Whether the new itinerary is made on each day of the first week from a day number on and up to
// an end, if the period holds the day, and was not there before.
fn is_made_between(
    made: &Schedule,
    before: &Schedule,
    change: &FlightChange,
    period: Period,
    first: u16,
    end: u16,
) -> bool
    requires { first ≤ end }
    ensures { result ≡ true → (n : ℕ) → first ≤ n → n < end → n < first + 7 → n < day_count
        → holds period n ≡ true
        → IsMadeOn (days_in made.now change.now.flight) (days_in before.now change.now.flight)
        change.now.new.days n }
{
    let end = if end - first > WEEK {
        first + WEEK
    } else {
        end
    };
    for number in first..end {
        if holds_number(period, number) && !is_made_at(made, before, change, number) {
            return false;
        }
    }
    true
}

// Whether the new itinerary is made on the day with a number, and was not there before.
fn is_made_at(made: &Schedule, before: &Schedule, change: &FlightChange, number: u16) -> bool
    ensures { result ≡ true → number < day_count → IsMadeOn (days_in made.now change.now.flight)
        (days_in before.now change.now.flight) change.now.new.days number }
{
    let Some(day) = Day::from_number(number) else {
        return false;
    };
    let wanted = change.new.at(day).legs();
    same_legs(made.itinerary(&change.flight, day), wanted)
        && !same_legs(before.itinerary(&change.flight, day), wanted)
}
