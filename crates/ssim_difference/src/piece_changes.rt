//! A piece as a change of the differences of a flight.

ghost use Rattle.ssim_difference.specs.Differences.{difference};

use crate::difference::Difference;
use ssim_periods::Change;
use ssim_schedule::Itinerary;
use ssim_values::Memory;
use std::alloc::Global;

/// The old itinerary of the dates of a piece.
#[derive(Drop)]
pub(crate) struct OldItinerary<'a> {
    pub(crate) itinerary: &'a Itinerary,
}

/// The new itinerary of the dates of a piece.
#[derive(Drop)]
pub(crate) struct NewItinerary<'a> {
    pub(crate) itinerary: &'a Itinerary,
}

impl<'a> Change<Difference> for OldItinerary<'a> {
    ghost outcome = { λ change before. difference change.itinerary.now before.new };

    ghost class_of = { λ _ _. 0 };

    fn after(&self, alloc: Global, before: &Difference) -> Result<Difference, Memory> {
        Difference::between(alloc, self.itinerary, &before.new)
    }

    fn class(&self, _before: &Difference) -> u8 {
        0
    }
}

impl<'a> Change<Difference> for NewItinerary<'a> {
    ghost outcome = { λ change before. difference before.old change.itinerary.now };

    ghost class_of = { λ _ _. 0 };

    fn after(&self, alloc: Global, before: &Difference) -> Result<Difference, Memory> {
        Difference::between(alloc, &before.old, self.itinerary)
    }

    fn class(&self, _before: &Difference) -> u8 {
        0
    }
}
