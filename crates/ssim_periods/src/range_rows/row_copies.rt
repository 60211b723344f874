//! Copies of rows in which equal values are copies of one value, for values whose copies share
//! memory.
ghost use Rattle.std.specs.Prelude.{◌≡◌, ◌<◌, slice_index_or, IfOk};

use crate::Value;
use crate::value::are_equal;
use ssim_values::Memory;
use std::alloc::Global;

// Copies of rows. Equal values of a range, and equal values of one weekday in neighbouring ranges,
// are copies of one value.
pub(crate) fn shared_rows<V: Value>(
    alloc: Global,
    before: &[V; 7],
    rows: &[[V; 7]],
) -> Result<Vec<[V; 7]>, Memory>
    ensures { IfOk result (λ copies. copies.items ≡ rows.now) }
{
    let mut copies = Vec::new(alloc);
    copies.reserve(rows.len())?;
    for row in rows {
        let copy = match copies.last() {
            Some(latest) => shared_row(alloc, latest, row)?,
            None => shared_row(alloc, before, row)?,
        };
        copies.push(copy)?;
    }
    Ok(copies)
}

// A copy of a row, given the copy of the row before.
pub(crate) fn shared_row<V: Value>(
    alloc: Global,
    latest: &[V; 7],
    row: &[V; 7],
) -> Result<[V; 7], Memory>
    ensures { IfOk result (λ copy. copy ≡ row.now) }
{
    let monday = source(latest, row, 0).copy(alloc)?;
    let tuesday = source(latest, row, 1).copy(alloc)?;
    let wednesday = source(latest, row, 2).copy(alloc)?;
    let thursday = source(latest, row, 3).copy(alloc)?;
    let friday = source(latest, row, 4).copy(alloc)?;
    let saturday = source(latest, row, 5).copy(alloc)?;
    let sunday = source(latest, row, 6).copy(alloc)?;
    Ok([
        monday, tuesday, wednesday, thursday, friday, saturday, sunday,
    ])
}

// The equal value to share for a weekday: from the row before, or from an earlier weekday of this
// row; else the value itself.
fn source<'a, V: Value>(latest: &'a [V; 7], row: &'a [V; 7], weekday: usize) -> &'a V
    requires { weekday < 7 }
    ensures { result.now ≡ slice_index_or row.now weekday result.now }
{
    let value = &row[weekday];
    if are_equal(value, &latest[weekday]) {
        return &latest[weekday];
    }
    for earlier in &row[..weekday] {
        if are_equal(value, earlier) {
            return earlier;
        }
    }
    value
}
