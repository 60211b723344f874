//! The leg records of one leg sequence of a flight.

ghost use Rattle.ssim_periods.specs.CommonDays.{have_common_date};
ghost use Rattle.std.specs.Prelude.{◌≡◌, ℕ, ◌<◌, ◌||◌, false, nat_eq, OnOk, IfOk};
ghost use Rattle.ssim_periods.specs.Calendar.{holds};
ghost use Rattle.ssim_base.specs.internal.LegTable.{has_variation, is_used};

use crate::leg_table::used_dates::UsedDates;
use ssim_values::{Memory, Period};
use std::alloc::Global;

/// Which itinerary variations and which dates the leg records of one leg sequence of a flight have.
#[derive(Drop)]
pub(crate) struct LegSequence {
    /// The leg sequence, 1 to 99.
    pub(crate) number: u8,
    /// The bit of itinerary variation v is bit v.
    variations: u128,
    /// The dates of all itinerary variations.
    dates: UsedDates,
}

impl LegSequence {
    /// No leg record.
    pub(crate) fn new(number: u8) -> LegSequence
        ensures number { result.number ≡ number }
        ensures variations { (v : ℕ) → has_variation result v ≡ false }
        ensures dates { (n : ℕ) → is_used result.dates n ≡ false }
    {
        LegSequence {
            number,
            variations: 0,
            dates: UsedDates::new(),
        }
    }

    /// One more leg record, of an itinerary variation and a period. Returns whether another one had
    /// one of the dates.
    pub(crate) fn add(
        &mut self,
        alloc: Global,
        variation: u8,
        period: &Period,
    ) -> Result<bool, Memory>
        requires { variation < 128 }
        ensures number { self.new.number ≡ self.old.number }
        ensures variations { OnOk result ((v : ℕ)
            → has_variation self.new v ≡ (nat_eq v variation || has_variation self.old v)) }
        ensures dates { OnOk result ((n : ℕ)
            → is_used self.new.dates n ≡ (holds period.now n || is_used self.old.dates n)) }
        ensures met { IfOk result (λ met. met
            ≡ have_common_date (holds period.now) (is_used self.old.dates)) }
    {
        self.variations |= 1 << variation;
        self.dates.take(alloc, period)
    }

    /// Whether a leg record has one of the dates of a period.
    pub(crate) fn meets(&self, period: &Period) -> bool
        ensures { result ≡ have_common_date (holds period.now) (is_used self.now.dates) }
    {
        self.dates.meets(period)
    }

    /// Whether a leg record has this itinerary variation.
    pub(crate) fn has(&self, variation: u8) -> bool
        requires { variation < 128 }
        ensures { result ≡ has_variation self.now variation }
    {
        (self.variations >> variation) & 1 == 1
    }
}
