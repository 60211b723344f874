//! Flights.

ghost use Rattle.std.specs.Prelude.{IfNone, IfOk, IfSome};
ghost use Rattle.ssim_values.specs.declared.designator.Designator.{Designator};
ghost use Rattle.ssim_words.specs.Flight.{NamesFlight};

use crate::letters::typed;
use ssim_values::{Airline, Designator, Flight, Memory};
use std::alloc::Global;

/// The flight that a word names: a flight designator such as `LX544`, or one to four digits and
/// perhaps a letter, a flight of this airline.
pub fn typed_flight(
    alloc: Global,
    airline: Airline,
    word: &[u8],
) -> Result<Option<Designator>, Memory>
    ensures some { IfOk result (λ found. IfSome found (NamesFlight airline word.now)) }
    ensures none { IfOk result
        (λ found. IfNone found ((flight : Designator) → NamesFlight airline word.now flight → ⊥)) }
{
    let letters = typed(alloc, word)?;
    if let Ok(designator) = Designator::parse(&letters) {
        return Ok(Some(designator));
    }
    match Flight::parse(&letters) {
        Ok(flight) => Ok(Some(Designator { airline, flight })),
        Err(_) => Ok(None),
    }
}
