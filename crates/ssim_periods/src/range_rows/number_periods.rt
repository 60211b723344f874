//! The periods of the days with each number.
ghost use Rattle.std.specs.Prelude.{◌≡◌, ℕ, ◌+◌, ◌<◌, ◌≤◌, ◌&&◌, [], length, map, nat_eq};
ghost use Rattle.std.specs.Prelude.{replicate, slice_index_or, IfOk, OnOk};
ghost use Rattle.ssim_periods.specs.Calendar.{holds};
ghost use Rattle.ssim_values.specs.Calendar.{slot};
ghost use Rattle.ssim_periods.specs.internal.Numbers.{is_between, is_numbered_in, is_numbered_on};
ghost use Rattle.ssim_periods.specs.internal.Numbers.{AddsDays, HaveDays};

use crate::cover::period_of;
use crate::cover::union::join;
use crate::numbers::ValueNumber;
use crate::range_rows::RangeRows;
use crate::rows::{DAYS, place_of, range_end, row_at};
use ssim_values::{Memory, Period, first_on};
use std::alloc::Global;

impl RangeRows<ValueNumber> {
    /// For each number from 1 to `count` periods with the days that have it.
    pub(crate) fn periods_of_numbers(&self, count: usize) -> Result<Vec<Vec<Period>>, Memory>
        ensures count { IfOk result (λ lists. length lists.items ≡ count) }
        ensures days { IfOk result (λ lists. HaveDays (λ n. slice_index_or self.now.days n 0) 36525
            (map (λ list. list.items) lists.items)) }
    {
        let mut lists = empty_lists(self.alloc, count)?;
        let mut day = 0;
        let mut place = place_of(&self.cuts, 0);
        while day < DAYS {
            let next = range_end(&self.cuts, place, DAYS);
            add_row(
                &mut lists,
                row_at(&self.before, &self.rows, place),
                day,
                next,
            )?;
            day = next;
            place += 1;
        }
        Ok(lists)
    }
}

// Empty lists.
fn empty_lists(alloc: Global, count: usize) -> Result<Vec<Vec<Period>>, Memory>
    ensures { IfOk result (λ lists. map (λ list. list.items) lists.items ≡ replicate count []) }
{
    let mut lists = Vec::with_capacity(alloc, count)?;
    for _ in 0..count {
        lists.push(Vec::new(alloc))?;
    }
    Ok(lists)
}

// Adds the days of a range with one row to the lists of their numbers.
fn add_row(
    lists: &mut Vec<Vec<Period>>,
    row: &[ValueNumber; 7],
    from: u32,
    to: u32,
) -> Result<(), Memory>
    requires ordered { from < to }
    requires in_calendar { to ≤ 36525 }
    ensures days { OnOk result (AddsDays (is_numbered_in row.now from to)
        (map (λ list. list.items) lists.old.items) (map (λ list. list.items) lists.new.items)) }
{
    for weekday in 0..7 {
        add_weekday(lists, row[weekday], weekday as u32, from, to)?;
    }
    Ok(())
}

// Adds the days of a range with one weekday to the list of their number.
fn add_weekday(
    lists: &mut Vec<Vec<Period>>,
    number: ValueNumber,
    weekday: u32,
    from: u32,
    to: u32,
) -> Result<(), Memory>
    requires weekday { weekday < 7 }
    requires ordered { from < to }
    requires in_calendar { to ≤ 36525 }
    ensures days { OnOk result (AddsDays (is_numbered_on weekday number from to)
        (map (λ list. list.items) lists.old.items) (map (λ list. list.items) lists.new.items)) }
{
    let number = number.number;
    if number == 0 || lists.len() < number {
        return Ok(());
    }
    if first_on(weekday, from) >= to {
        return Ok(());
    }
    join(&mut lists[number - 1], &one_weekday(weekday, from, to - 1))
}

// The period on one weekday.
fn one_weekday(weekday: u32, first: u32, last: u32) -> Period
    requires weekday { weekday < 7 }
    requires ordered { first ≤ last }
    requires in_calendar { last < 36525 }
    ensures { (n : ℕ) → holds result n
        ≡ (is_between first (last + 1) n && nat_eq (slot n) weekday) }
{
    let mut days = [false; 7];
    days[weekday as usize] = true;
    period_of(first, last, days)
}
