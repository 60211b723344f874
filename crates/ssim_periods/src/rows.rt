//! Cuts and rows: the first row holds up to the first cut, each other row from its cut to the next.
ghost use Rattle.std.specs.Prelude.{◌≡◌, ℕ, ◌+◌, ◌-◌, ◌<◌, ◌≤◌, ◌&&◌, Bool, false, nat_lt, List, ◌∷◌, length, IfOk, slice_index, slice_index_or, is_none, IfSome, IsTrue, if◌then◌else◌};
ghost use Rattle.std.specs.List.{All};
ghost use Rattle.std.specs.List.Sorted.{IsStrictlyIncreasing};
ghost use Rattle.ssim_periods.specs.internal.Rows.{place, row_on};
ghost use Rattle.ssim_periods.specs.internal.Splits.{has_cut};
ghost use Rattle.ssim_periods.specs.internal.Count.{with_days};
ghost use Rattle.ssim_values.specs.clauses.Weekdays.{below};

use crate::Value;
use ssim_values::{Memory, days_before};
use std::alloc::Global;

/// The number of days from 1 January 2000 to 31 December 2099.
pub(crate) const DAYS: u32 = 36_525;

// The number of cuts that are not after the day, which is the index of its row. Periods mostly come
// from the last to the first, so the first cuts are compared first.
pub(crate) fn place_of(cuts: &[u32], day: u32) -> usize
    requires { IsStrictlyIncreasing cuts.now }
    ensures place { result ≡ place cuts.now day }
    ensures within { result ≤ length cuts.now }
{
    if cuts.is_empty() || day < cuts[0] {
        return 0;
    }
    if cuts.len() == 1 || day < cuts[1] {
        return 1;
    }
    if cuts.len() == 2 || day < cuts[2] {
        return 2;
    }
    cuts.partition_point(|cut| *cut <= day)
}

// Whether each cut is after the day.
pub(crate) fn is_before_cuts(cuts: &[u32], day: u32) -> bool
    requires { IsStrictlyIncreasing cuts.now }
    ensures { IsTrue result → All (λ cut. day < cut) cuts.now }
{
    if cuts.is_empty() {
        return true;
    }
    day < cuts[0]
}

// Whether no cut is after the day.
pub(crate) fn is_after_cuts(cuts: &[u32], day: u32) -> bool
    requires { IsStrictlyIncreasing cuts.now }
    ensures { IsTrue result → All (λ cut. cut ≤ day) cuts.now }
{
    let count = cuts.len();
    if count == 0 {
        return true;
    }
    cuts[count - 1] <= day
}

// Whether a day is a cut.
pub(crate) fn has_cut(cuts: &[u32], day: u32) -> bool
    requires { IsStrictlyIncreasing cuts.now }
    ensures { result ≡ has_cut cuts.now day }
{
    is_last(cuts, place_of(cuts, day), day)
}

// Whether a day is a cut, given the number of cuts that are not after it.
pub(crate) fn is_last(cuts: &[u32], count: usize, day: u32) -> bool
    requires rising { IsStrictlyIncreasing cuts.now }
    requires place { count ≡ place cuts.now day }
    requires within { count ≤ length cuts.now }
    ensures { result ≡ has_cut cuts.now day }
{
    if count == 0 {
        false
    } else {
        cuts[count - 1] == day
    }
}

// The row with this index.
pub(crate) fn row_at<'a, V: Value>(
    before: &'a [V; 7],
    rows: &'a [[V; 7]],
    place: usize,
) -> &'a [V; 7]
    requires { place ≤ length rows.now }
    ensures { (other : List V) → result.now ≡ slice_index_or (before.now ∷ rows.now) place other }
{
    if place == 0 { before } else { &rows[place - 1] }
}

// The end of the range with this index, or `end` if that is earlier.
pub(crate) fn range_end(cuts: &[u32], place: usize, end: u32) -> u32
    ensures before_end { result ≤ end }
    ensures before_cut { place < length cuts.now → result ≤ slice_index cuts.now place }
    ensures at_cut { result < end → (place < length cuts.now)
        × (result ≡ slice_index cuts.now place) }
{
    if place < cuts.len() && cuts[place] < end {
        cuts[place]
    } else {
        end
    }
}

// Whether a weekday is in the mask and has a day in a range.
pub(crate) fn has_days(mask: &[bool; 7], weekday: u32, from: u32, to: u32) -> bool
    requires weekday { weekday < 7 }
    requires from { from ≤ 36525 }
    requires to { to ≤ 36525 }
    ensures { result ≡ (slice_index_or mask.now weekday false
        && nat_lt (below weekday from) (below weekday to)) }
{
    if mask[weekday as usize] {
        days_before(weekday, from) < days_before(weekday, to)
    } else {
        false
    }
}

// A copy of a row.
pub(crate) fn copy_row<V: Value>(alloc: Global, row: &[V; 7]) -> Result<[V; 7], Memory>
    ensures { IfOk result (λ copy. copy ≡ row.now) }
{
    let monday = row[0].copy(alloc)?;
    let tuesday = row[1].copy(alloc)?;
    let wednesday = row[2].copy(alloc)?;
    let thursday = row[3].copy(alloc)?;
    let friday = row[4].copy(alloc)?;
    let saturday = row[5].copy(alloc)?;
    let sunday = row[6].copy(alloc)?;
    Ok([
        monday, tuesday, wednesday, thursday, friday, saturday, sunday,
    ])
}

// Copies of rows.
pub(crate) fn copy_rows<V: Value>(alloc: Global, rows: &[[V; 7]]) -> Result<Vec<[V; 7]>, Memory>
    ensures { IfOk result (λ copies. copies.items ≡ rows.now) }
{
    let mut copies = Vec::new(alloc);
    copies.reserve(rows.len())?;
    for row in rows {
        let copy = copy_row(alloc, row)?;
        copies.push(copy)?;
    }
    Ok(copies)
}

// The row for a cut at a day, if there is none yet.
pub(crate) fn row_for_cut<V: Value>(
    alloc: Global,
    before: &[V; 7],
    cuts: &[u32],
    rows: &[[V; 7]],
    day: u32,
) -> Result<Option<[V; 7]>, Memory>
    requires rising { IsStrictlyIncreasing cuts.now }
    requires row_count { length rows.now ≡ length cuts.now }
    ensures missing { IfOk result (λ row. is_none row ≡ has_cut cuts.now day) }
    ensures row { IfOk result (λ row.
        IfSome row (λ r. r ≡ row_on before.now cuts.now rows.now day)) }
{
    if has_cut(cuts, day) {
        return Ok(None);
    }
    let place = place_of(cuts, day);
    Ok(Some(copy_row(alloc, row_at(before, rows, place))?))
}
