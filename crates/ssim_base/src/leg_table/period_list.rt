//! A list of the periods of some leg records.

ghost use Rattle.std.specs.Prelude.{◌≡◌, ℕ, ◌<◌, ◌||◌, ◌∷◌, [], true, false, OnOk, IfOk};
ghost use Rattle.std.specs.List.{list_any};
ghost use Rattle.ssim_periods.specs.Calendar.{holds};
ghost use Rattle.ssim_periods.specs.CommonDays.{have_common_date, meet};
ghost use Rattle.ssim_base.specs.internal.Dates.{is_in};

use ssim_periods::are_apart;
use ssim_values::{Memory, Period};
use std::alloc::Global;

/// The most periods that are compared with another one. A flight rarely has as many itinerary
/// variations.
const MOST: usize = 64;

/// The most periods of a list: a set of dates takes as much memory.
const MOST_IN_ORDER: usize = 380;

/// The number of periods for which a list first has room. A leg with two itinerary variations
/// mostly has some more.
const FIRST_ROOM: usize = 8;

/// A list of periods.
#[derive(Drop)]
pub(crate) struct PeriodList {
    periods: Vec<Period>,
    /// No period has a later last day.
    latest: u16,
    ghost ended: { (n : ℕ) → latest < n → is_in periods.items n ≡ false },
}

impl PeriodList {
    /// Two periods.
    pub(crate) fn of_two(alloc: Global, one: &Period, other: &Period) -> Result<PeriodList, Memory>
        ensures { IfOk result (λ both. both.periods.items ≡ one.now ∷ other.now ∷ []) }
    {
        let mut periods = Vec::with_capacity(alloc, FIRST_ROOM)?;
        periods.push(*one)?;
        periods.push(*other)?;
        let latest = one.last().number().max(other.last().number());
        Ok(PeriodList { periods, latest })
    }

    /// The periods.
    pub(crate) fn periods(&self) -> &[Period]
        ensures { result.now ≡ self.now.periods.items }
    {
        &self.periods
    }

    // Whether each period ends before another one begins.
    fn ends_before(&self, period: &Period) -> bool
        ensures { result ≡ true → have_common_date (holds period.now) (is_in self.now.periods.items)
            ≡ false }
    {
        self.latest < period.first().number()
    }

    /// Whether one more period is put into the list. Most periods of a leg follow one another, and
    /// are compared with none.
    pub(crate) fn has_room_for(&self, period: &Period) -> bool {
        let most = if self.ends_before(period) {
            MOST_IN_ORDER
        } else {
            MOST
        };
        self.periods.len() < most
    }

    /// Whether a period has a date in common with one of the list.
    pub(crate) fn meets_any(&self, period: &Period) -> bool
        ensures { result ≡ have_common_date (holds period.now) (is_in self.now.periods.items) }
    {
        if self.ends_before(period) {
            return false;
        }
        any_meets(&self.periods, period)
    }

    /// One more period. Returns whether it has a date in common with another one.
    pub(crate) fn add(&mut self, period: &Period) -> Result<bool, Memory>
        ensures days { OnOk result ((n : ℕ)
            → is_in self.new.periods.items n
            ≡ (holds period.now n || is_in self.old.periods.items n)) }
        ensures met { IfOk result (λ met. met
            ≡ have_common_date (holds period.now) (is_in self.old.periods.items)) }
    {
        let met = self.meets_any(period);
        self.periods.push(*period)?;
        self.latest = self.latest.max(period.last().number());
        Ok(met)
    }
}

// Whether a period has a date in common with one of some periods. Most of the many periods of one
// leg end before another one begins, which `are_apart` sees first.
fn any_meets(periods: &[Period], period: &Period) -> bool
    ensures { result ≡ list_any (λ earlier. meet period.now earlier) periods.now }
{
    periods.iter().any(|earlier| !are_apart(period, earlier))
}
