//! The flights that words of the command line name.

ghost use Rattle.std.specs.Prelude.{◌≡◌, ◌⊎◌, All, IfErr, IfOk, List, false, map, true};
ghost use Rattle.ssim_values.specs.declared.designator.Designator.{Designator};
ghost use Rattle.ssim_values.specs.declared.fault.Fault.TheVariants as value_fault;
ghost use Rattle.ssim_program.specs.Messages.{IsOf};
ghost use Rattle.ssim_words.specs.Flight.{NameEach};
ghost use Rattle.ssim_program.specs.print.Refusal.{IsMemory};
ghost use Rattle.ssim_program.specs.declared.refusal.Refusal.TheVariants as refused;

use crate::refusal::Refusal;
use ssim_values::{Airline, Designator, Fault};
use ssim_words::typed_flights;
use std::alloc::Global;

/// The flights that the words name, also those of other airlines.
pub(crate) fn flights_of(
    alloc: Global,
    airline: Airline,
    words: &[&str],
) -> Result<Vec<Designator>, Refusal>
    ensures ok { IfOk result
        (λ flights. NameEach airline (map (λ t. t.now) words.now) flights.items) }
    ensures err { IfErr result (λ refusal. IsMemory refusal
        ⊎ ((refusal ≡ refused.Value value_fault.BadDesignator)
        × ((flights : List Designator) → NameEach airline (map (λ t. t.now) words.now) flights
        → ⊥))) }
{
    match typed_flights(alloc, airline, words)? {
        Some(flights) => Ok(flights),
        None => Err(Refusal::from(Fault::BadDesignator)),
    }
}

/// Whether one of the flights is another airline's.
pub(crate) fn has_other(airline: Airline, flights: &[Designator]) -> bool
    ensures other { result ≡ true → All (IsOf airline) flights.now → ⊥ }
    ensures none { result ≡ false → All (IsOf airline) flights.now }
{
    for flight in flights {
        if flight.airline != airline {
            return true;
        }
    }
    false
}
