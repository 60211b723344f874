//! The dates on which a flight differs, in periods.

ghost use Rattle.std.specs.Prelude.{◌≡◌, ◌⊎◌, ◌+◌, ◌<◌, length, slice_get, IfOk, Some, true};
ghost use Rattle.std.specs.Option.{option_map};
ghost use Rattle.ssim_values.specs.Flight.{FlightNumber};
ghost use Rattle.ssim_base.specs.Timetable.{Days};
ghost use Rattle.ssim_base.specs.Export.{pieces};
ghost use Rattle.ssim_difference.specs.ChosenDates.{chosen_side};
ghost use Rattle.ssim_difference.specs.Differences.{compared, differing_days, differs};
ghost use Rattle.ssim_difference.specs.internal.Between.{AreDisjoint, days_between};
ghost use Rattle.ssim_difference.specs.internal.Choosing.{part};

use crate::chosen::choose;
use crate::difference::Difference;
use crate::piece_changes::{NewItinerary, OldItinerary};
use ssim_parts::Choice;
use ssim_periods::{Periods, Value};
use ssim_schedule::Itinerary;
use ssim_values::{Flight, Memory, Period};
use std::alloc::Global;
use std::marker::Model;

/// A flight that differs, and the periods on which it does: the canonical division of these dates
/// in order of first day, each period with the old and the new itinerary of its dates.
#[derive(Drop)]
pub struct FlightDifference {
    flight: Flight,
    pieces: Vec<(Period, Difference)>,
}

impl Model for FlightDifference {
    ghost use Rattle.ssim_difference.specs.Differences.{Compared};

    ghost Value = { Compared };

    ghost view = { λ d. (d.flight, d.pieces.items) };
}

impl FlightDifference {
    /// A flight with the pieces of the difference of two lists of pieces, or of what is chosen of it.
    pub(crate) fn between(
        alloc: Global,
        choice: Option<&Choice>,
        flight: Flight,
        old: &[(Period, Itinerary)],
        new: &[(Period, Itinerary)],
    ) -> Result<FlightDifference, Memory>
        ensures { (before after : FlightNumber → Days)
            → old.now ≡ pieces (before flight) → new.now ≡ pieces (after flight)
            → let of = part (option_map (λ c. c.now) choice.entry) before after in
            IfOk result (λ found. found ≡ compared (of before) (of after) flight) }
    {
        let days = chosen_between(alloc, choice, flight, old, new)?;
        Ok(FlightDifference {
            flight,
            pieces: days.pieces()?,
        })
    }

    /// The flight.
    pub fn flight(&self) -> Flight
        ensures { result ≡ self.now.0 }
    {
        self.flight
    }

    /// Whether the flight differs on some date.
    pub(crate) fn differs(&self) -> bool
        ensures { result ≡ differs self.now }
    {
        !self.pieces.is_empty()
    }

    /// Its pieces. There is at least one if the flight differs.
    pub fn pieces(&self) -> &[(Period, Difference)]
        ensures { result.now ≡ self.now.1 }
    {
        &self.pieces
    }
}

// The difference of two lists of pieces of a flight on each day, or what is chosen of it.
fn chosen_between(
    alloc: Global,
    choice: Option<&Choice>,
    flight: Flight,
    old: &[(Period, Itinerary)],
    new: &[(Period, Itinerary)],
) -> Result<Periods<Difference>, Memory>
    ensures { (before after : FlightNumber → Days)
        → old.now ≡ pieces (before flight) → new.now ≡ pieces (after flight)
        → let of = part (option_map (λ c. c.now) choice.entry) before after in
        IfOk result (λ days. days.days ≡ differing_days (of before flight) (of after flight)) }
{
    match choice {
        None => days_between(alloc, old, new),
        Some(choice) => chosen_days(alloc, choice, flight, old, new),
    }
}

// What is chosen of the difference of two lists of pieces of a flight on each day.
fn chosen_days(
    alloc: Global,
    choice: &Choice,
    flight: Flight,
    old: &[(Period, Itinerary)],
    new: &[(Period, Itinerary)],
) -> Result<Periods<Difference>, Memory>
    ensures { (before after : FlightNumber → Days)
        → old.now ≡ pieces (before flight) → new.now ≡ pieces (after flight)
        → IfOk result (λ days. days.days ≡ differing_days
        (chosen_side choice.now before after before flight)
        (chosen_side choice.now before after after flight)) }
{
    if !choice.has_flight(flight) {
        return Ok(Periods::new(alloc));
    }
    let mut days = days_between(alloc, old, new)?;
    choose(choice, &mut days)?;
    Ok(days)
}

/// Which piece comes next of two lists in order of first day.
#[derive(Drop)]
enum NextPiece {
    /// A piece of the old list.
    Old,
    /// A piece of the new list.
    New,
    /// Two equal pieces.
    Both,
}

// The difference of two lists of pieces on each day. The pieces of both are taken in order of first
// day, so that a change is mostly of the last days so far. Pieces that are in both lists make none.
fn days_between(
    alloc: Global,
    old: &[(Period, Itinerary)],
    new: &[(Period, Itinerary)],
) -> Result<Periods<Difference>, Memory>
    ensures { AreDisjoint old.now → AreDisjoint new.now
        → IfOk result (λ days. days.days ≡ days_between old.now new.now) }
{
    let mut days = Periods::new(alloc);
    let mut i = 0;
    let mut j = 0;
    while i < old.len() || j < new.len() {
        match next_piece(old, i, new, j) {
            NextPiece::Old => {
                let (period, itinerary) = &old[i];
                days.replace(period, &OldItinerary { itinerary })?;
                i += 1;
            }
            NextPiece::New => {
                let (period, itinerary) = &new[j];
                days.replace(period, &NewItinerary { itinerary })?;
                j += 1;
            }
            NextPiece::Both => {
                i += 1;
                j += 1;
            }
        }
    }
    Ok(days)
}

// Which piece comes next.
fn next_piece(
    old: &[(Period, Itinerary)],
    i: usize,
    new: &[(Period, Itinerary)],
    j: usize,
) -> NextPiece
    requires { (i < length old.now) ⊎ (j < length new.now) }
    ensures old { result ≡ NextPiece.Old → i < length old.now }
    ensures new { result ≡ NextPiece.New → j < length new.now }
    ensures both { result ≡ NextPiece.Both → (i < length old.now) × (j < length new.now)
        × (slice_get old.now i ≡ slice_get new.now j) }
{
    if i >= old.len() {
        return NextPiece::New;
    }
    if j >= new.len() {
        return NextPiece::Old;
    }
    if is_same(&old[i], &new[j]) {
        return NextPiece::Both;
    }
    if old[i].0.first() <= new[j].0.first() {
        NextPiece::Old
    } else {
        NextPiece::New
    }
}

// Whether two pieces are equal.
fn is_same(piece: &(Period, Itinerary), other: &(Period, Itinerary)) -> bool
    ensures { result ≡ true → piece.now ≡ other.now }
{
    piece.0 == other.0 && piece.1.same(&other.1)
}
