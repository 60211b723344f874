//! Flights by number and suffix.

ghost use Rattle.std.specs.Prelude.{◌≡◌, [], ◌∷◌, IfOk};
ghost use Rattle.ssim_schedule.specs.FlightPieces.{in_order};

use ssim_schedule::flights_in_order;
use ssim_values::{Flight, Memory};
use std::alloc::Global;

/// The flights of a list, by number and suffix, each once. A flight alone is in order, so it is not
/// looked for among all flights.
pub(crate) fn in_order(alloc: Global, flights: &[Flight]) -> Result<Vec<Flight>, Memory>
    ensures { IfOk result (λ ordered. ordered.items ≡ in_order flights.now) }
{
    match flights {
        [flight] => alone(alloc, *flight),
        _ => flights_in_order(alloc, flights),
    }
}

/// One flight.
#[tactic(auto, using(crate::proofs::FlightAlone::alone_in_order))]
fn alone(alloc: Global, flight: Flight) -> Result<Vec<Flight>, Memory>
    ensures { IfOk result (λ ordered. ordered.items ≡ in_order (flight ∷ [])) }
{
    // No effect at run time. The proof reads from these uses that the flight is one.
    let _ = flight.number();
    let _ = flight.suffix();
    let mut ordered = Vec::with_capacity(alloc, 1)?;
    ordered.push(flight)?;
    Ok(ordered)
}
