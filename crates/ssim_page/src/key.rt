//! The different itineraries of a flight, and their keys.

ghost use Rattle.std.specs.Prelude.{◌≡◌, IfOk};
ghost use Rattle.ssim_page.specs.Flight.{itineraries, key_at, key_of};

use ssim_calendar::{DistinctValues, add_new, letter_at, place_of};
use ssim_lines::written;
use ssim_schedule::Itinerary;
use ssim_values::{Memory, Period};
use std::alloc::Global;
use std::io::Write;

/// How many itineraries of a flight have a letter.
const LETTERS: usize = 52;

/// The different itineraries of the pieces of a flight, by first date.
pub(crate) fn itineraries<'a>(
    alloc: Global,
    pieces: &'a [(Period, Itinerary)],
) -> Result<DistinctValues<'a, Itinerary>, Memory>
    ensures { IfOk result (λ found. found ≡ itineraries pieces.now) }
{
    let mut found = DistinctValues::new(alloc);
    for piece in pieces {
        add_new(&mut found, &piece.1)?;
    }
    Ok(found)
}

/// The key of an itinerary among the different ones of its flight.
pub(crate) fn key_of<'a>(
    alloc: Global,
    found: &DistinctValues<'a, Itinerary>,
    itinerary: &'a Itinerary,
) -> Result<Vec<u8>, Memory>
    ensures { IfOk result (λ key. key.items ≡ key_of found.now itinerary.now) }
{
    key_at(alloc, place_of(found, itinerary))
}

// The key of the itinerary at a place.
#[tactic(auto, unfolding(crate::specs::Flight::key_at))]
fn key_at(alloc: Global, place: usize) -> Result<Vec<u8>, Memory>
    ensures { IfOk result (λ key. key.items ≡ key_at place) }
{
    let mut key = Vec::new(alloc);
    if place < LETTERS {
        key.push(letter_at(place))?;
        return Ok(key);
    }
    let number = place as u128 + 1;
    written(write!(key, "{number}"))?;
    Ok(key)
}
