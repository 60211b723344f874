//! A sub-message of a plan.

ghost use Rattle.std.specs.Prelude.{◌≡◌};

use ssim_text::Action;
use ssim_values::{Flight, Period};

/// A sub-message: what it does, to which flight, and the period of its dates of origin.
#[derive(Drop)]
pub struct PlannedSub {
    pub action: Action,
    pub flight: Flight,
    pub period: Period,
}

impl PlannedSub {
    ghost use Rattle.ssim_outbox.specs.internal.Sorted.{rank};

    /// Its rank in a plan: by flight number, then by suffix, then by first day.
    pub(crate) fn rank(&self) -> u64
        ensures { result ≡ rank self.now }
    {
        let flight = self.flight.number() as u64 * 128 + self.flight.suffix() as u64;
        flight * 65_536 + self.period.first().number() as u64
    }
}
