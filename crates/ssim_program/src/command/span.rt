//! The choice of flights and of a span of dates that words of the command line make.

ghost use Rattle.std.specs.Prelude.{◌≡◌, ℕ, IfNone, IfSome, false, if◌then◌else◌, map, nat_le};
ghost use Rattle.ssim_periods.specs.Calendar.{holds};
ghost use Rattle.ssim_periods.specs.CommonDays.{have_common_date};
ghost use Rattle.ssim_parts.specs.Chosen.{chooses_date, chooses_flight};
ghost use Rattle.ssim_command_line.specs.Line.{span_line};
ghost use Rattle.ssim_program.specs.Choices.{choice_in};
ghost use Rattle.ssim_program.specs.Spans.{dates_alone, has_end};
ghost use Rattle.ssim_program.specs.internal.Spans.{part_of};

use crate::command::choice::choice_in;
use crate::refusal::Refusal;
use crate::some_flights::is_among;
use ssim_command_line::{ChoiceWords, SpanWords};
use ssim_parts::Choice;
use ssim_periods::meets;
use ssim_values::{Airline, Day, Flight, Period};
use std::alloc::Global;

/// The choice of flights of the airline, and of dates.
pub(crate) fn dates_alone(
    alloc: Global,
    airline: Airline,
    span: SpanWords<'_>,
    flights: &[&str],
) -> Result<Choice, Refusal>
    ensures { choice_in airline (dates_alone (span_line span.entry)) (map (λ t. t.now) flights.now) result }
{
    let words = ChoiceWords {
        from: span.from,
        to: span.to,
        stations: Vec::new(alloc),
        aircraft: Vec::new(alloc),
    };
    choice_in(alloc, airline, &words, flights)
}

/// Whether the first date or the last is given.
pub(crate) fn has_end(span: SpanWords<'_>) -> bool
    ensures { result ≡ has_end (span_line span.entry) }
{
    span.from.is_some() || span.to.is_some()
}

/// Whether a flight is chosen.
pub(crate) fn has_flight(choice: &Choice, flight: Flight) -> bool
    ensures { result ≡ chooses_flight choice.now flight }
{
    match choice.flights.split_first() {
        None => true,
        Some(_) => is_among(flight, &choice.flights),
    }
}

/// Whether a date of the period is chosen.
pub(crate) fn has_date(period: &Period, choice: &Choice) -> bool
    ensures { result ≡ have_common_date (holds period.now) (chooses_date choice.now) }
{
    match part_of(period, choice) {
        Some(part) => meets(period, &part),
        None => false,
    }
}

/// The chosen part of a period, if its first day is not after its last.
pub(crate) fn part_of(period: &Period, choice: &Choice) -> Option<Period>
    ensures some { IfSome result (λ part. part ≡ part_of choice.now period.now) }
    ensures none { IfNone result ((n : ℕ) → holds (part_of choice.now period.now) n ≡ false) }
{
    let first = later(period.first(), choice.first);
    let last = earlier(period.last(), choice.last);
    match Period::new(first, last, period.mask()) {
        Ok(part) => Some(part),
        Err(_) => None,
    }
}

fn later(one: Day, other: Day) -> Day
    ensures { result ≡ (if nat_le one other then other else one) }
{
    if one <= other { other } else { one }
}

fn earlier(one: Day, other: Day) -> Day
    ensures { result ≡ (if nat_le one other then one else other) }
{
    if one <= other { one } else { other }
}
