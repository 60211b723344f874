//! The dates that the leg records of one flight and leg sequence have.

ghost use Rattle.std.specs.Prelude.{◌≡◌, ℕ, ◌||◌, false, OnOk, IfOk};
ghost use Rattle.ssim_periods.specs.Calendar.{holds};
ghost use Rattle.ssim_periods.specs.CommonDays.{have_common_date};
ghost use Rattle.ssim_base.specs.internal.Dates.{has_date, is_in};
ghost use Rattle.ssim_base.specs.internal.LegTable.{is_used};

use crate::leg_table::day_set::DaySet;
use crate::leg_table::period_list::PeriodList;
use ssim_periods::meets;
use ssim_values::{Memory, Period};
use std::alloc::Global;

/// The dates that leg records have.
#[derive(Drop)]
pub(crate) enum UsedDates {
    /// No record.
    Empty,
    /// The period of the only record. It needs no list.
    One(Period),
    /// The periods of the records.
    Few(PeriodList),
    /// A bit for each date, if the list has no room. A data set is refused at the first date that
    /// is added twice, so all sets together have no more bits set than the calendar has dates.
    Many(DaySet),
}

impl UsedDates {
    /// No date is used.
    pub(crate) fn new() -> UsedDates
        ensures { (n : ℕ) → is_used result n ≡ false }
    {
        UsedDates::Empty
    }

    /// The dates of a period are used. Returns whether one of them was used before.
    pub(crate) fn take(&mut self, alloc: Global, period: &Period) -> Result<bool, Memory>
        ensures days { OnOk result ((n : ℕ)
            → is_used self.new n ≡ (holds period.now n || is_used self.old n)) }
        ensures met { IfOk result (λ met. met
            ≡ have_common_date (holds period.now) (is_used self.old)) }
    {
        if let UsedDates::Few(periods) = self {
            if periods.has_room_for(period) {
                return periods.add(period);
            }
        }
        self.take_in_next_form(alloc, period)
    }

    /// Whether one of the dates of a period is used.
    pub(crate) fn meets(&self, period: &Period) -> bool
        ensures { result ≡ have_common_date (holds period.now) (is_used self.now) }
    {
        match self {
            UsedDates::Empty => false,
            UsedDates::One(first) => meets(period, first),
            UsedDates::Few(periods) => periods.meets_any(period),
            UsedDates::Many(set) => set.meets(period),
        }
    }

    // Does what `take` does if the dates change their form or are already a set. It is a function
    // of its own so that `take` stays short.
    #[inline(never)]
    fn take_in_next_form(&mut self, alloc: Global, period: &Period) -> Result<bool, Memory>
        ensures days { OnOk result ((n : ℕ)
            → is_used self.new n ≡ (holds period.now n || is_used self.old n)) }
        ensures met { IfOk result (λ met. met
            ≡ have_common_date (holds period.now) (is_used self.old)) }
    {
        match self {
            UsedDates::Empty => {
                *self = UsedDates::One(*period);
                Ok(false)
            }
            UsedDates::One(first) => {
                let met = meets(period, first);
                *self = UsedDates::Few(PeriodList::of_two(alloc, first, period)?);
                Ok(met)
            }
            UsedDates::Many(set) => Ok(set.add_period(period)),
            UsedDates::Few(periods) => {
                let mut set = set_of(alloc, periods.periods())?;
                let met = set.add_period(period);
                *self = UsedDates::Many(set);
                Ok(met)
            }
        }
    }
}

// The dates of some periods.
fn set_of(alloc: Global, periods: &[Period]) -> Result<DaySet, Memory>
    ensures { IfOk result (λ set. (n : ℕ) → has_date set.words.items n ≡ is_in periods.now n) }
{
    let mut set = DaySet::new(alloc)?;
    for period in periods {
        let _ = set.add_period(period);
    }
    Ok(set)
}
