//! New values put into cuts and rows.
ghost use Rattle.std.specs.Prelude.{◌≡◌, ℕ, ◌+◌, ◌-◌, ◌<◌, ◌≤◌, Bool, false, unwrap_or, is_none, map, List, [], ◌∷◌, length, IfOk, slice_index_or, vec_len, vec_capacity, if◌then◌else◌, Some, None, IfSome};
ghost use Rattle.std.specs.List.{All};
ghost use Rattle.std.specs.List.Sorted.{IsStrictlyIncreasing};
ghost use Rattle.ssim_values.specs.Calendar.{slot};
ghost use Rattle.ssim_periods.specs.internal.Count.{with_days};
ghost use Rattle.ssim_periods.specs.internal.Rows.{place, value_on, AreRows};
ghost use Rattle.ssim_periods.specs.internal.Splits.{has_cut, with_cut, with_row, patch_of, patched, patched_from};

use crate::rows::{has_days, place_of, range_end, row_at};
use crate::value::are_equal;
use crate::{Change, Value};
use ssim_values::Memory;
use std::alloc::Global;

// The new value for an old one: a copy of the latest new value, if that was made for an equal old
// one, so that the two share memory. If it cannot be copied, it is made again: a copy that fails is
// no error unless a range is divided.
fn new_value<V: Value, C: Change<V>>(
    alloc: Global,
    old: &V,
    latest: &Option<(&V, V)>,
    change: &C,
) -> Result<V, Memory>
    requires { IfSome latest.now (λ l. l.1 ≡ C.outcome change.now l.0.now) }
    ensures { IfOk result (λ new. new ≡ C.outcome change.now old.now) }
{
    if let Some((earlier, new)) = latest {
        if are_equal(old, earlier) {
            return copied_value(alloc, old, new, change);
        }
    }
    change.after(alloc, old)
}

// A copy of the new value for an old one. If it cannot be copied, it is made again.
fn copied_value<V: Value, C: Change<V>>(
    alloc: Global,
    old: &V,
    new: &V,
    change: &C,
) -> Result<V, Memory>
    requires { new.now ≡ C.outcome change.now old.now }
    ensures { IfOk result (λ new. new ≡ C.outcome change.now old.now) }
{
    match new.copy(alloc) {
        Ok(copy) => Ok(copy),
        Err(_) => change.after(alloc, old),
    }
}

// A new value beside the old one that it was made for, if it can be copied.
fn made_for<'a, V: Value>(alloc: Global, old: &'a V, new: &V) -> Option<(&'a V, V)>
    ensures { IfSome result (λ made. (made.0.now ≡ old.now) × (made.1 ≡ new.now)) }
{
    match new.copy(alloc) {
        Ok(kept) => Some((old, kept)),
        Err(_) => None,
    }
}

// The new values of a row on the weekdays of the mask that have a day in a range.
fn new_row<V: Value, C: Change<V>>(
    alloc: Global,
    row: &[V; 7],
    mask: &[bool; 7],
    from: u32,
    to: u32,
    change: &C,
) -> Result<Vec<Option<V>>, Memory>
    requires from { from ≤ 36525 }
    requires to { to ≤ 36525 }
    ensures { IfOk result (λ patch. patch.items
        ≡ patch_of (with_days 0 mask.now from to) (C.outcome change.now) row.now) }
{
    let mut patch = Vec::with_capacity(alloc, 7)?;
    let mut latest = None;
    for weekday in 0..7u32 {
        let mut new = None;
        let wanted = has_days(mask, weekday, from, to);
        if wanted {
            let old = &row[weekday as usize];
            let value = new_value(alloc, old, &latest, change)?;
            latest = made_for(alloc, old, &value);
            new = Some(value);
        }
        patch.push(new)?;
    }
    Ok(patch)
}

// The new values of the rows that a period touches.
pub(crate) fn new_rows<V: Value, C: Change<V>>(
    alloc: Global,
    before: &[V; 7],
    cuts: &[u32],
    rows: &[[V; 7]],
    first: u32,
    last: u32,
    mask: &[bool; 7],
    change: &C,
) -> Result<Vec<Vec<Option<V>>>, Memory>
    requires rows { AreRows before.now cuts.now rows.now }
    requires ordered { first ≤ last }
    requires in_calendar { last < 36525 }
    ensures len { IfOk result (λ patches. vec_len patches + place cuts.now first
        ≡ place cuts.now last + 1) }
    ensures short { IfOk result (λ patches. All (λ patch. vec_len patch ≤ 7) patches.items) }
    ensures patches { IfOk result (λ patches. (n : ℕ) → first ≤ n → n ≤ last
        → slice_index_or (slice_index_or (map (λ patch. patch.items) patches.items)
        (place cuts.now n - place cuts.now first) []) (slot n) None
        ≡ (if slice_index_or mask.now (slot n) false
        then Some (C.outcome change.now (value_on V.nothing before.now cuts.now rows.now n))
        else None)) }
{
    let mut patches = Vec::new(alloc);
    let end = last + 1;
    let mut day = first;
    let mut place = place_of(cuts, first);
    while day < end {
        let next = range_end(cuts, place, end);
        let patch = new_row(alloc, row_at(before, rows, place), mask, day, next, change)?;
        patches.push(patch)?;
        day = next;
        place += 1;
    }
    Ok(patches)
}

// Puts the new values into a row.
fn put<V: Value>(row: &mut [V; 7], mut patch: Vec<Option<V>>)
    requires { vec_len patch ≤ 7 }
    ensures { row.new ≡ patched row.old patch.items }
{
    while let Some(new) = patch.pop() {
        if let Some(value) = new {
            row[patch.len()] = value;
        }
    }
}

// Puts new values into the rows from `from` on.
fn put_rows<V: Value>(rows: &mut Vec<[V; 7]>, from: usize, mut patches: Vec<Vec<Option<V>>>)
    requires room { from + vec_len patches ≤ vec_len rows.old }
    requires short { All (λ patch. vec_len patch ≤ 7) patches.items }
    ensures { rows.new.items
        ≡ patched_from from (map (λ patch. patch.items) patches.items) rows.old.items }
{
    while let Some(patch) = patches.pop() {
        let row = &mut rows[from + patches.len()];
        put(row, patch);
    }
}

// Adds a cut and its row, if there is one to add.
fn add_cut<V: Value>(cuts: &mut Vec<u32>, rows: &mut Vec<[V; 7]>, day: u32, row: Option<[V; 7]>)
    requires rising { IsStrictlyIncreasing cuts.old.items }
    requires room_for_cut { vec_len cuts.old < vec_capacity cuts.old }
    requires room_for_row { vec_len rows.old < vec_capacity rows.old }
    requires row_count { length rows.old.items ≡ length cuts.old.items }
    requires missing { is_none row ≡ has_cut cuts.old.items day }
    ensures cuts { cuts.new.items ≡ with_cut cuts.old.items day }
    ensures rows { rows.new.items ≡ with_row cuts.old.items day (unwrap_or row []) rows.old.items }
    ensures cut_capacity { vec_capacity cuts.old ≤ vec_capacity cuts.new }
    ensures row_capacity { vec_capacity rows.old ≤ vec_capacity rows.new }
{
    if let Some(row) = row {
        let place = place_of(cuts, day);
        if let Err(_) = cuts.insert(place, day) {
            unreachable!();
        }
        if let Err(_) = rows.insert(place, row) {
            unreachable!();
        }
    }
}

// Adds the cuts of a period with their rows, and puts the new values in.
pub(crate) fn put_period<V: Value>(
    cuts: &mut Vec<u32>,
    rows: &mut Vec<[V; 7]>,
    first: u32,
    end: u32,
    head: Option<[V; 7]>,
    tail: Option<[V; 7]>,
    patches: Vec<Vec<Option<V>>>,
)
    requires ordered { first < end }
    requires rising { IsStrictlyIncreasing cuts.old.items }
    requires room_for_cuts { vec_len cuts.old + 2 ≤ vec_capacity cuts.old }
    requires room_for_rows { vec_len rows.old + 2 ≤ vec_capacity rows.old }
    requires row_count { length rows.old.items ≡ length cuts.old.items }
    requires head { is_none head ≡ has_cut cuts.old.items first }
    requires tail { is_none tail ≡ has_cut cuts.old.items end }
    requires patch_count { vec_len patches + place cuts.old.items first
        ≡ place cuts.old.items (end - 1) + 1 }
    requires short { All (λ patch. vec_len patch ≤ 7) patches.items }
    ensures cuts { cuts.new.items ≡ with_cut (with_cut cuts.old.items first) end }
    ensures rows { rows.new.items
        ≡ patched_from (place (with_cut cuts.old.items first) first - 1)
        (map (λ patch. patch.items) patches.items)
        (with_row (with_cut cuts.old.items first) end (unwrap_or tail [])
        (with_row cuts.old.items first (unwrap_or head []) rows.old.items)) }
{
    add_cut(cuts, rows, first, head);
    let from = place_of(cuts, first) - 1;
    add_cut(cuts, rows, end, tail);
    put_rows(rows, from, patches);
}
