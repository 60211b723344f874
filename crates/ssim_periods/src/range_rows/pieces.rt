//! The pieces of a list of one value per day, read from the rows.
ghost use Rattle.std.specs.Prelude.{◌≡◌, length, ℕ, ◌+◌, ◌-◌, ◌%◌, ◌<◌, ◌≤◌, ◌++◌, map, IfOk, OnOk};
ghost use Rattle.ssim_periods.specs.Calendar.{day_count};
ghost use Rattle.ssim_values.specs.Calendar.{first_on, slot};
ghost use Rattle.ssim_periods.specs.Cover.{first_where, cover, weekdays_of, breaks};
ghost use Rattle.ssim_periods.specs.Pieces.{has_value, pieces_of};

use crate::Value;
use crate::apart_periods::entry_pieces::push_days;
use crate::cover::{last_in, period_of, unlike_in_row};
use crate::numbers::numbered_days;
use crate::range_rows::RangeRows;
use crate::rows::{DAYS, place_of, range_end, row_at};
use ssim_values::{Day, Memory, Period, first_on};

const NO_DAYS: [bool; 7] = [false; 7];

impl<V: Value> RangeRows<V> {
    /// The cover of the days of each value other than the empty one, each period with its value,
    /// sorted by first day.
    ///
    /// Each value of a row first gets a number: mostly by one comparison, with the value of the
    /// same weekday in the row before, else by its order among the distinct values. One
    /// pass over the ranges then puts the days of each number into periods, and each value's cover
    /// is made of its own periods alone.
    pub(crate) fn pieces(&self) -> Result<Vec<(Period, V)>, Memory>
        ensures pieces { IfOk result (λ pieces. pieces.items
            ≡ pieces_of V.alike V.nothing self.now.days) }
        ensures each_day { OnOk result (length self.now.days ≡ day_count) }
    {
        let (values, numbers) = numbered_days(self.alloc, &self.before, &self.cuts, &self.rows)?;
        let values = values.values();
        let periods = numbers.periods_of_numbers(values.len())?;
        let mut pieces = Vec::new(self.alloc);
        for place in 0..values.len() {
            push_days(self.alloc, &mut pieces, &periods[place], values[place])?;
        }
        pieces.sort_by_key(|piece| piece.0.first().number())?;
        Ok(pieces)
    }

    /// Appends the cover of the days that have the value, each period with the label.
    pub(crate) fn push_cover<L: Value>(
        &self,
        value: &V,
        label: &L,
        pieces: &mut Vec<(Period, L)>,
    ) -> Result<(), Memory>
        ensures { OnOk result (pieces.new.items
            ≡ pieces.old.items ++ map (λ period. (period, label.now))
            (cover (has_value V.alike self.now.days value.now) (length self.now.days))) }
    {
        let mut first = self.first_unlike(value, &NO_DAYS, 0);
        while first < DAYS {
            let days = self.weekdays_from(value, first);
            let after = self.break_after(value, &days, first);
            let period = period_of(first, last_in(&days, first, after), days);
            pieces.push((period, label.copy(self.alloc)?))?;
            first = self.first_unlike(value, &NO_DAYS, after);
        }
        Ok(())
    }

    // The first day from a day on that has the value although its weekday is not one of `days`, or
    // does not have it although its weekday is one. 36,525 if there is none.
    fn first_unlike(&self, value: &V, days: &[bool; 7], from: u32) -> u32
        requires { from ≤ 36525 }
        ensures { result ≡ first_where (breaks (has_value V.alike self.now.days value.now) days.now)
            from (length self.now.days - from) }
    {
        let mut day = from;
        let mut place = place_of(&self.cuts, from);
        while day < DAYS {
            let next = range_end(&self.cuts, place, DAYS);
            let row = row_at(&self.before, &self.rows, place);
            let found = unlike_in_row(row, value, days, day, next);
            if found < next {
                return found;
            }
            day = next;
            place += 1;
        }
        DAYS
    }

    // The day after the last day up to which the value is on exactly these weekdays, from a first
    // day on.
    fn break_after(&self, value: &V, days: &[bool; 7], first: u32) -> u32
        requires { first ≤ 36525 }
        ensures { result ≡ first_where (breaks (has_value V.alike self.now.days value.now) days.now)
            first (length self.now.days - first) }
    {
        self.first_unlike(value, days, first)
    }

    // Whether the value is on the first day with a weekday, from a day on.
    fn has_on(&self, value: &V, first: u32, weekday: u32) -> bool
        requires weekday { weekday < 7 }
        requires in_calendar { first < 36525 }
        requires all_days { length self.now.days ≡ 36525 }
        ensures { result ≡ has_value V.alike self.now.days value.now
            (first_on weekday first) }
    {
        let day = first_on(weekday, first);
        match Day::from_number(day as u16) {
            Some(day) => value.same(self.at(day)),
            None => false,
        }
    }

    // The weekdays of the value in the seven days from a day on.
    fn weekdays_from(&self, value: &V, first: u32) -> [bool; 7]
        requires in_calendar { first < 36525 }
        requires all_days { length self.now.days ≡ 36525 }
        ensures { result ≡ weekdays_of (has_value V.alike self.now.days value.now) first }
    {
        [
            self.has_on(value, first, 0),
            self.has_on(value, first, 1),
            self.has_on(value, first, 2),
            self.has_on(value, first, 3),
            self.has_on(value, first, 4),
            self.has_on(value, first, 5),
            self.has_on(value, first, 6),
        ]
    }
}
