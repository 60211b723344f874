//! The first periods of a list, which several changes give together.
ghost use Rattle.std.specs.Prelude.{◌≡◌, ◌≤◌, length, IfOk, IfSome, OnOk};
ghost use Rattle.std.specs.List.Sorted.{IsStrictlyIncreasing};
ghost use Rattle.ssim_periods.specs.internal.Apart.{AreCutsOf, AreOutcomes};
ghost use Rattle.ssim_periods.specs.internal.Rows.{place};
ghost use Rattle.ssim_periods.specs.internal.Splits.{with_cut};

use crate::apart_periods::entries::meets_none;
use crate::apart_periods::within::push_outcome;
use crate::rows::is_last;
use crate::{Change, Value};
use ssim_values::{Memory, Period};
use std::alloc::Global;

/// The periods of changes of the empty value, with their outcomes. None if two of the periods that
/// get a value have a common day.
pub(crate) fn outcomes_of<V: Value, C: Change<V>>(
    alloc: Global,
    empty: &V,
    changes: &[(Period, C)],
) -> Result<Option<Vec<(Period, V)>>, Memory>
    requires { empty.now ≡ V.nothing }
    ensures { IfOk result (λ made.
        IfSome made (λ entries. AreOutcomes V.nothing C.outcome changes.now entries.items)) }
{
    let mut entries = Vec::with_capacity(alloc, changes.len())?;
    for change in changes {
        if !meets_none(&entries, &change.0) {
            return Ok(None);
        }
        push_outcome(alloc, &mut entries, Some(change.0), empty, &change.1)?;
    }
    Ok(Some(entries))
}

/// The rising days at which a period begins, or the day after one ends. Periods mostly come from
/// the last to the first, so they are taken from the end: few days are moved then.
pub(crate) fn cuts_of<V: Value>(alloc: Global, entries: &[(Period, V)]) -> Result<Vec<u32>, Memory>
    ensures { IfOk result (λ cuts. AreCutsOf entries.now cuts.items) }
{
    let mut cuts = Vec::with_capacity(alloc, entries.len().saturating_mul(2))?;
    let mut place = entries.len();
    while place > 0 {
        place -= 1;
        let period = &entries[place].0;
        let first = period.first().number() as u32;
        let end = period.last().number() as u32 + 1;
        add_cut(&mut cuts, first)?;
        add_cut(&mut cuts, end)?;
    }
    Ok(cuts)
}

// Adds a day, unless it is there.
fn add_cut(cuts: &mut Vec<u32>, day: u32) -> Result<(), Memory>
    requires { IsStrictlyIncreasing cuts.old.items }
    ensures { OnOk result (cuts.new.items ≡ with_cut cuts.old.items day) }
{
    let place = place_from_end(cuts, day);
    if is_last(cuts, place, day) {
        return Ok(());
    }
    cuts.insert(place, day)?;
    Ok(())
}

// The number of cuts that are not after the day, of which the last are looked at first.
fn place_from_end(cuts: &[u32], day: u32) -> usize
    requires { IsStrictlyIncreasing cuts.now }
    ensures place { result ≡ place cuts.now day }
    ensures within { result ≤ length cuts.now }
{
    let mut place = cuts.len();
    while place > 0 {
        if cuts[place - 1] <= day {
            return place;
        }
        place -= 1;
    }
    0
}
