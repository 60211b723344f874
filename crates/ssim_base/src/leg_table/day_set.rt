//! A set of dates, with a bit for each date of the calendar.

ghost use Rattle.ssim_periods.specs.CommonDays.{have_common_date};
ghost use Rattle.std.specs.Prelude.{◌≡◌, ℕ, ◌<◌, ◌||◌, false, nat_eq, vec_len, IfOk};
ghost use Rattle.ssim_periods.specs.Calendar.{holds};
ghost use Rattle.ssim_base.specs.internal.Dates.{has_date};

use ssim_values::{Memory, Period, weekday_of};
use std::alloc::Global;

/// The number of words that have a bit for each date from 1 January 2000 to 31 December 2099.
const WORDS: usize = 571;

/// A set of dates.
#[derive(Drop)]
pub(crate) struct DaySet {
    /// The bit of day n is bit n % 64 of the word n / 64.
    words: Vec<u64>,
    ghost whole: { vec_len words ≡ 571 },
}

impl DaySet {
    /// No date.
    pub(crate) fn new(alloc: Global) -> Result<DaySet, Memory>
        ensures { IfOk result (λ set. (n : ℕ) → has_date set.words.items n ≡ false) }
    {
        let words = vec![in alloc; 0; WORDS]?;
        Ok(DaySet { words })
    }

    /// Adds the dates of a period. Returns whether one of them was in the set.
    pub(crate) fn add_period(&mut self, period: &Period) -> bool
        ensures days { (n : ℕ) → has_date self.new.words.items n
            ≡ (holds period.now n || has_date self.old.words.items n) }
        ensures met { result ≡ have_common_date (holds period.now) (has_date self.old.words.items) }
    {
        let first = period.first().number() as usize;
        let end = period.last().number() as usize + 1;
        let weekdays = period.mask().days();
        let mut met = false;
        for day in first..end {
            let weekday = weekday_of(day as u32);
            if weekdays[weekday] {
                met |= self.add(day);
            }
        }
        met
    }

    /// Whether one of the dates of a period is in the set.
    pub(crate) fn meets(&self, period: &Period) -> bool
        ensures { result ≡ have_common_date (holds period.now) (has_date self.now.words.items) }
    {
        let first = period.first().number() as usize;
        let end = period.last().number() as usize + 1;
        let weekdays = period.mask().days();
        let mut met = false;
        for day in first..end {
            let weekday = weekday_of(day as u32);
            if weekdays[weekday] {
                met |= self.has(day);
            }
        }
        met
    }

    // Whether a date is in the set.
    fn has(&self, day: usize) -> bool
        requires { day < 36525 }
        ensures { result ≡ has_date self.now.words.items day }
    {
        (self.words[day / 64] >> (day % 64)) & 1 == 1
    }

    // Adds a date. Returns whether it was in the set.
    fn add(&mut self, day: usize) -> bool
        requires { day < 36525 }
        ensures days { (n : ℕ) → has_date self.new.words.items n
            ≡ (nat_eq n day || has_date self.old.words.items n) }
        ensures met { result ≡ has_date self.old.words.items day }
    {
        let met = self.has(day);
        self.words[day / 64] |= 1 << (day % 64);
        met
    }
}
