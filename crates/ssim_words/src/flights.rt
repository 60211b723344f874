//! The flights that several words name.

ghost use Rattle.std.specs.Prelude.{IfNone, IfOk, IfSome, List, map};
ghost use Rattle.ssim_values.specs.declared.designator.Designator.{Designator};
ghost use Rattle.ssim_words.specs.Flight.{NameEach};

use crate::flight::typed_flight;
use ssim_values::{Airline, Designator, Memory};
use std::alloc::Global;

/// The flights that the words name, in their order; nothing if one of them names no flight. See
/// [`typed_flight`].
pub fn typed_flights(
    alloc: Global,
    airline: Airline,
    words: &[&str],
) -> Result<Option<Vec<Designator>>, Memory>
    ensures some { IfOk result (λ found. IfSome found
        (λ flights. NameEach airline (map (λ word. word.now) words.now) flights.items)) }
    ensures none { IfOk result (λ found. IfNone found ((flights : List Designator)
        → NameEach airline (map (λ word. word.now) words.now) flights → ⊥)) }
{
    let mut flights = Vec::with_capacity(alloc, words.len())?;
    for word in words {
        let Some(flight) = typed_flight(alloc, airline, word.as_bytes())? else {
            return Ok(None);
        };
        flights.push(flight)?;
    }
    Ok(Some(flights))
}
