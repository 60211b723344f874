//! The pieces of a list of periods with values.
ghost use Rattle.std.specs.Prelude.{◌≡◌, ℕ, ◌<◌, ◌≤◌, ◌++◌, ◌∷◌, [], true, false, ◌||◌, length, slice_get, slice_index_or, Some, IfOk, OnOk};
ghost use Rattle.std.specs.List.{All, flat_map};
ghost use Rattle.ssim_values.specs.Period.{DayRange};
ghost use Rattle.ssim_periods.specs.internal.Apart.{given_cover, held_cover, is_held, last_values};

use crate::Value;
use crate::apart_periods::entries::{rows_of_periods, take_days_of_value};
use crate::cover::separate::are_separate;
use crate::cover::trim::trimmed;
use crate::numbers::ValueNumber;
use ssim_values::{Memory, Period};
use std::alloc::Global;

/// For how many pieces a list has room at first, at most.
const FIRST: usize = 8;

// The cover of the days of each value, each period with the value. An entry is done if a later one
// has its value.
pub(crate) fn covers<V: Value>(
    alloc: Global,
    entries: &[(Period, V)],
) -> Result<Vec<(Period, V)>, Memory>
    requires { All (λ entry. entry.0.last < 36525) entries.now }
    ensures { IfOk result (λ pieces. pieces.items
        ≡ flat_map (given_cover V.alike entries.now) (last_values V.alike entries.now)) }
{
    let mut pieces = Vec::with_capacity(alloc, entries.len().min(FIRST))?;
    let mut periods = Vec::new(alloc);
    let mut done = vec![in alloc; false; entries.len()]?;
    let mut place = entries.len();
    while place > 0 {
        place -= 1;
        if done[place] {
            continue;
        }
        let (earlier, entry) = (&entries[..place], &entries[place]);
        push_value(alloc, &mut pieces, &mut periods, &mut done, earlier, entry)?;
    }
    Ok(pieces)
}

// Appends the cover of the days of a value, given the last entry that has it and the earlier ones.
// The list of periods is only there to be used again. Entries that are done have other values.
fn push_value<V: Value>(
    alloc: Global,
    pieces: &mut Vec<(Period, V)>,
    periods: &mut Vec<Period>,
    done: &mut Vec<bool>,
    earlier: &[(Period, V)],
    entry: &(Period, V),
) -> Result<(), Memory>
    requires earlier { All (λ other. other.0.last < 36525) earlier.now }
    requires own { entry.now.0.last < 36525 }
    requires size { length earlier.now ≤ length done.old.items }
    requires others { (i : ℕ) (other : DayRange × V) → slice_get earlier.now i ≡ Some other
        → slice_index_or done.old.items i false ≡ true → V.alike entry.now.1 other.1 ≡ false }
    ensures pieces { OnOk result (pieces.new.items
        ≡ pieces.old.items ++ given_cover V.alike (earlier.now ++ entry.now ∷ []) entry.now.1) }
    ensures size { length done.new.items ≡ length done.old.items }
    ensures done { OnOk result ((i : ℕ) (other : DayRange × V)
        → slice_get earlier.now i ≡ Some other
        → slice_index_or done.new.items i false
        ≡ (slice_index_or done.old.items i false || V.alike entry.now.1 other.1)) }
{
    take_days_of_value(periods, done, earlier, entry)?;
    periods.sort_by_key(|period| period.first().number())?;
    push_days(alloc, pieces, periods, &entry.1)
}

/// Appends the cover of the days of some periods, with a value.
pub(crate) fn push_days<V: Value>(
    alloc: Global,
    pieces: &mut Vec<(Period, V)>,
    periods: &[Period],
    value: &V,
) -> Result<(), Memory>
    requires in_calendar { (n : ℕ) → 36525 ≤ n → is_held periods.now n ≡ false }
    ensures { OnOk result (pieces.new.items
        ≡ pieces.old.items ++ held_cover periods.now value.now) }
{
    if periods.len() == 1 {
        return push_period(alloc, pieces, &periods[0], value);
    }
    if are_separate(periods) {
        return push_each(alloc, pieces, periods, value);
    }
    let rows = rows_of_periods(alloc, periods)?;
    rows.push_cover(&ValueNumber { number: 1 }, value, pieces)
}

// Appends the cover of the days of each of some periods, with a value.
fn push_each<V: Value>(
    alloc: Global,
    pieces: &mut Vec<(Period, V)>,
    periods: &[Period],
    value: &V,
) -> Result<(), Memory>
    ensures { OnOk result (pieces.new.items
        ≡ pieces.old.items ++ flat_map (λ period. held_cover (period ∷ []) value.now) periods.now) }
{
    for period in periods {
        push_period(alloc, pieces, period, value)?;
    }
    Ok(())
}

// Appends the cover of a period's days, with a value.
#[tactic(auto, using(crate::proofs::ListPieces::pushed_one, crate::proofs::ListPieces::pushed_none))]
fn push_period<V: Value>(
    alloc: Global,
    pieces: &mut Vec<(Period, V)>,
    period: &Period,
    value: &V,
) -> Result<(), Memory>
    ensures { OnOk result (pieces.new.items
        ≡ pieces.old.items ++ held_cover (period.now ∷ []) value.now) }
{
    if let Some(own) = trimmed(period) {
        let value = value.copy(alloc)?;
        pieces.push((own, value))?;
        return Ok(());
    }
    Ok(())
}
