//! The flights that differ in two timetables.

ghost use Rattle.std.specs.Prelude.{◌≡◌, ◌++◌, IfOk, OnOk};
ghost use Rattle.ssim_values.specs.Flight.{FlightNumber};
ghost use Rattle.ssim_base.specs.Timetable.{Days};
ghost use Rattle.ssim_schedule.specs.FlightPieces.{divided_flights};
ghost use Rattle.ssim_difference.specs.ChosenDates.{chosen_side};
ghost use Rattle.ssim_difference.specs.Differences as defined;
ghost use Rattle.ssim_difference.specs.internal.Choosing.{part};
ghost use Rattle.ssim_difference.specs.internal.Matched.{listed, next, only_new, only_old, seen};
ghost use Rattle.std.specs.Option.{option_map};

use crate::flight_difference::FlightDifference;
use ssim_parts::Choice;
use ssim_schedule::{FlightPieces, Itinerary};
use ssim_values::{Flight, Memory, Period};
use std::alloc::Global;
use std::cmp::Ordering;

/// The pieces of a flight in two timetables, and the flights after it.
#[derive(Drop)]
struct NextFlight<'a> {
    flight: Flight,
    old: &'a [(Period, Itinerary)],
    new: &'a [(Period, Itinerary)],
    old_left: &'a [FlightPieces],
    new_left: &'a [FlightPieces],
}

/// The flights that differ on some date, by number and suffix, each with the periods on which it
/// does. The two lists are the flights that fly in the old and in the new timetable, by number and
/// suffix, each with the pieces of its days.
pub fn differences(
    alloc: Global,
    old: &[FlightPieces],
    new: &[FlightPieces],
) -> Result<Vec<FlightDifference>, Memory>
    ensures { (before after : FlightNumber → Days)
        → old.now ≡ divided_flights before → new.now ≡ divided_flights after
        → IfOk result (λ listed. listed.items ≡ defined.differences before after) }
{
    differing(alloc, None, old, new)
}

/// The flights that differ on some chosen date, by number and suffix, each with the periods of these
/// dates. The two lists are those of [`differences`].
pub fn chosen_differences(
    alloc: Global,
    choice: &Choice,
    old: &[FlightPieces],
    new: &[FlightPieces],
) -> Result<Vec<FlightDifference>, Memory>
    ensures { (before after : FlightNumber → Days)
        → old.now ≡ divided_flights before → new.now ≡ divided_flights after
        → IfOk result (λ listed. listed.items ≡ defined.differences
        (chosen_side choice.now before after before) (chosen_side choice.now before after after)) }
{
    differing(alloc, Some(choice), old, new)
}

// The flights that differ on some date, or on one that is chosen.
fn differing(
    alloc: Global,
    choice: Option<&Choice>,
    old: &[FlightPieces],
    new: &[FlightPieces],
) -> Result<Vec<FlightDifference>, Memory>
    ensures { (before after : FlightNumber → Days)
        → old.now ≡ divided_flights before → new.now ≡ divided_flights after
        → let of = part (option_map (λ c. c.now) choice.entry) before after in
        IfOk result (λ listed. listed.items ≡ defined.differences (of before) (of after)) }
{
    let mut listed = Vec::new(alloc);
    let mut old_left = old;
    let mut new_left = new;
    while let Some(next) = next_flight(old_left, new_left) {
        let found = FlightDifference::between(alloc, choice, next.flight, next.old, next.new)?;
        add(&mut listed, found)?;
        old_left = next.old_left;
        new_left = next.new_left;
    }
    Ok(listed)
}

// Adds a flight if it differs.
fn add(flights: &mut Vec<FlightDifference>, found: FlightDifference) -> Result<(), Memory>
    ensures { OnOk result (flights.new.items ≡ flights.old.items ++ listed found) }
{
    if found.differs() {
        flights.push(found)?;
    }
    Ok(())
}

// The next flight of two lists of flights.
fn next_flight<'a>(old: &'a [FlightPieces], new: &'a [FlightPieces]) -> Option<NextFlight<'a>>
    ensures { option_map seen result ≡ next old.now new.now }
{
    match (old.split_first(), new.split_first()) {
        (None, None) => None,
        (Some((one, left)), None) => Some(only_old(one, left, new)),
        (None, Some((other, left))) => Some(only_new(other, old, left)),
        (Some((one, old_left)), Some((other, new_left))) => {
            match one.flight().order(&other.flight()) {
                Ordering::Less => Some(only_old(one, old_left, new)),
                Ordering::Greater => Some(only_new(other, old, new_left)),
                Ordering::Equal => Some(NextFlight {
                    flight: one.flight(),
                    old: one.pieces(),
                    new: other.pieces(),
                    old_left,
                    new_left,
                }),
            }
        }
    }
}

// A flight that is only in the old timetable.
fn only_old<'a>(
    one: &'a FlightPieces,
    old_left: &'a [FlightPieces],
    new_left: &'a [FlightPieces],
) -> NextFlight<'a>
    ensures { seen result ≡ only_old one.now old_left.now new_left.now }
{
    NextFlight {
        flight: one.flight(),
        old: one.pieces(),
        new: &[],
        old_left,
        new_left,
    }
}

// A flight that is only in the new timetable.
fn only_new<'a>(
    other: &'a FlightPieces,
    old_left: &'a [FlightPieces],
    new_left: &'a [FlightPieces],
) -> NextFlight<'a>
    ensures { seen result ≡ only_new other.now old_left.now new_left.now }
{
    NextFlight {
        flight: other.flight(),
        old: &[],
        new: other.pieces(),
        old_left,
        new_left,
    }
}
