//! Lists of periods with values.
ghost use Rattle.std.specs.Prelude.{◌≡◌, ◌≤◌, ◌++◌, ◌∷◌, ℕ, List, [], true, false, ◌||◌, length, slice_get, slice_index_or, Some, IfOk, IfSome, IsTrue, OnOk};
ghost use Rattle.std.specs.List.{Contains};
ghost use Rattle.ssim_values.specs.Period.{DayRange};
ghost use Rattle.ssim_periods.specs.internal.Apart.{given_on, is_held, mark_on, value_in, AreDivided};
ghost use Rattle.ssim_periods.specs.Calendar.{holds};
ghost use Rattle.ssim_periods.specs.Days.{each_day};
ghost use Rattle.ssim_periods.specs.Pieces.{held_on};

use crate::common_days::are_apart;
use crate::cover::union::join;
use crate::numbers::ValueNumber;
use crate::range_rows::RangeRows;
use crate::value::are_equal;
use crate::{Change, Value};
use ssim_values::{Day, Memory, Period};
use std::alloc::Global;

// The value of a day: the value of the last period that holds it, or the empty value.
pub(crate) fn value_at<'a, V: Value>(entries: &'a [(Period, V)], empty: &'a V, day: Day) -> &'a V
    ensures { result.now ≡ value_in empty.now entries.now day }
{
    let mut place = entries.len();
    while place > 0 {
        place -= 1;
        if entries[place].0.holds(day) {
            return &entries[place].1;
        }
    }
    empty
}

// Whether a period has no day in common with any of a list.
pub(crate) fn meets_none<V: Value>(entries: &[(Period, V)], period: &Period) -> bool
    ensures { IsTrue result → (n : ℕ) → holds period.now n ≡ true → held_on entries.now n ≡ [] }
{
    for entry in entries {
        if !are_apart(period, &entry.0) {
            return false;
        }
    }
    true
}

// Copies of periods with values.
pub(crate) fn copy_entries<V: Value>(
    alloc: Global,
    entries: &[(Period, V)],
) -> Result<Vec<(Period, V)>, Memory>
    ensures { IfOk result (λ copies. copies.items ≡ entries.now) }
{
    let mut copies = Vec::new(alloc);
    copies.reserve(entries.len())?;
    for entry in entries {
        let value = entry.1.copy(alloc)?;
        copies.push((entry.0, value))?;
    }
    Ok(copies)
}

// Copies of periods with values. A value that is equal to the one before it is a copy of that copy.
pub(crate) fn shared_entries<V: Value>(
    alloc: Global,
    entries: &[(Period, V)],
) -> Result<Vec<(Period, V)>, Memory>
    ensures { IfOk result (λ copies. copies.items ≡ entries.now) }
{
    let mut copies = Vec::new(alloc);
    copies.reserve(entries.len())?;
    for entry in entries {
        let value = shared_value(alloc, &copies, &entry.1)?;
        copies.push((entry.0, value))?;
    }
    Ok(copies)
}

// A copy of a value: of the last one of a list, if that is equal.
fn shared_value<V: Value>(alloc: Global, copies: &[(Period, V)], value: &V) -> Result<V, Memory>
    ensures { IfOk result (λ copy. copy ≡ value.now) }
{
    if let Some(latest) = copies.last() {
        if are_equal(value, &latest.1) {
            return Ok(latest.1.copy(alloc)?);
        }
    }
    Ok(value.copy(alloc)?)
}

// The change that gives each day one value.
#[derive(Drop)]
pub(crate) struct SetTo<'a, V: Value> {
    pub(crate) value: &'a V,
}

impl<'a, V: Value> Change<V> for SetTo<'a, V> {
    ghost outcome = { λ set _. set.value.now };

    ghost class_of = { λ _ _. 0 };

    fn after(&self, alloc: Global, _old: &V) -> Result<V, Memory> {
        self.value.copy(alloc)
    }

    fn class(&self, _old: &V) -> u8 {
        0
    }
}

// The rows with these values, if no day is held twice. Their cuts are those that divide the
// periods. The periods mostly come from the last day to the first. So they are put in from the end
// of the list: each then lies after those before it.
pub(crate) fn rows_of<V: Value>(
    alloc: Global,
    entries: &[(Period, V)],
) -> Result<RangeRows<V>, Memory>
    requires once { (n : ℕ) → length (held_on entries.now n) ≤ 1 }
    ensures days { IfOk result (λ rows. rows.days ≡ each_day (value_in V.nothing entries.now)) }
    ensures cuts { IfOk result (λ rows. (cuts : List ℕ) → AreDivided cuts entries.now
        → (cut : ℕ) → Contains rows.cuts cut → Contains cuts cut) }
{
    let mut rows = RangeRows::new(alloc);
    let mut place = entries.len();
    while place > 0 {
        place -= 1;
        let entry = &entries[place];
        rows.replace(&entry.0, &SetTo { value: &entry.1 })?;
    }
    Ok(rows)
}

// Makes a list of periods with the days of a value, given the last entry that has it and the
// earlier ones. The entries are taken from the end, so that most periods lie after those before
// them. Entries that are done have other values. Those that have the value are done afterwards.
pub(crate) fn take_days_of_value<V: Value>(
    periods: &mut Vec<Period>,
    done: &mut Vec<bool>,
    earlier: &[(Period, V)],
    entry: &(Period, V),
) -> Result<(), Memory>
    requires size { length earlier.now ≤ length done.old.items }
    requires others { (i : ℕ) (other : DayRange × V) → slice_get earlier.now i ≡ Some other
        → slice_index_or done.old.items i false ≡ true → V.alike entry.now.1 other.1 ≡ false }
    ensures days { OnOk result ((n : ℕ) → is_held periods.new.items n
        ≡ given_on V.alike (earlier.now ++ entry.now ∷ []) entry.now.1 n) }
    ensures size { length done.new.items ≡ length done.old.items }
    ensures done { OnOk result ((i : ℕ) (other : DayRange × V)
        → slice_get earlier.now i ≡ Some other
        → slice_index_or done.new.items i false
        ≡ (slice_index_or done.old.items i false || V.alike entry.now.1 other.1)) }
{
    periods.clear();
    join(periods, &entry.0)?;
    let mut place = earlier.len();
    while place > 0 {
        place -= 1;
        if done[place] {
            continue;
        }
        let other = &earlier[place];
        if entry.1.same(&other.1) {
            join(periods, &other.0)?;
            done[place] = true;
        }
    }
    Ok(())
}

// The rows with 1 on each day of some periods, and 0 on each other day.
pub(crate) fn rows_of_periods(
    alloc: Global,
    periods: &[Period],
) -> Result<RangeRows<ValueNumber>, Memory>
    ensures { IfOk result (λ rows. rows.days ≡ each_day (mark_on periods.now)) }
{
    let mut rows = RangeRows::new(alloc);
    for period in periods {
        rows.mark(period)?;
    }
    Ok(rows)
}
