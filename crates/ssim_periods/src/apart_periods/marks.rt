//! Marks: 1 on each day of some periods, and 0 on each other day.
ghost use Rattle.std.specs.Prelude.{◌≡◌, ℕ, ◌+◌, ◌<◌, ◌≤◌, false, nat_lt, List, length, slice_index_or, if◌then◌else◌, OnOk};
ghost use Rattle.std.specs.List.{All};
ghost use Rattle.std.specs.List.Sorted.{IsStrictlyIncreasing};
ghost use Rattle.ssim_periods.specs.Calendar.{holds};
ghost use Rattle.ssim_periods.specs.internal.Count.{is_within};
ghost use Rattle.ssim_periods.specs.Days.{changed_on};
ghost use Rattle.ssim_periods.specs.internal.Rows.{row_on, value_on, AreRows};

use crate::apart_periods::entries::SetTo;
use crate::numbers::ValueNumber;
use crate::range_rows::RangeRows;
use crate::rows::{is_after_cuts, row_at};
use ssim_values::{Memory, Period};

const MARK: ValueNumber = ValueNumber { number: 1 };

impl RangeRows<ValueNumber> {
    /// Gives each day of the period the number 1. A period that comes after all earlier ones is
    /// appended, at the cost of two rows.
    pub(crate) fn mark(&mut self, period: &Period) -> Result<(), Memory>
        ensures { OnOk result (self.new.days
            ≡ changed_on (holds period.now) (λ _. 1) 0 self.old.days) }
    {
        let first = period.first().number() as u32;
        if !is_after_cuts(&self.cuts, first) {
            self.replace(period, &SetTo { value: &MARK })?;
            return Ok(());
        }
        let last = period.last().number() as u32;
        let mask = period.mask().days();
        append(
            &self.before,
            &mut self.cuts,
            &mut self.rows,
            first,
            last,
            &mask,
        )?;
        Ok(())
    }
}

// Marks the days of a period. No cut is after its first day.
fn append(
    before: &[ValueNumber; 7],
    cuts: &mut Vec<u32>,
    rows: &mut Vec<[ValueNumber; 7]>,
    first: u32,
    last: u32,
    mask: &[bool; 7],
) -> Result<(), Memory>
    requires valid { AreRows before.now cuts.old.items rows.old.items }
    requires until { All (λ cut. cut ≤ first) cuts.old.items }
    requires ordered { first ≤ last }
    requires in_calendar { last < 36525 }
    ensures valid { AreRows before.now cuts.new.items rows.new.items }
    ensures values { OnOk result ((n : ℕ) → value_on 0 before.now cuts.new.items rows.new.items n
        ≡ (if is_within first last mask.now n then 1
        else value_on 0 before.now cuts.old.items rows.old.items n)) }
{
    let old = *row_at(before, rows, rows.len());
    set_from(cuts, rows, first, marked(&old, mask))?;
    set_from(cuts, rows, last + 1, old)?;
    Ok(())
}

// A row with 1 on the weekdays of a mask.
fn marked(row: &[ValueNumber; 7], mask: &[bool; 7]) -> [ValueNumber; 7]
    ensures { (slot : ℕ) → slot < 7
        → slice_index_or result slot 0
        ≡ (if slice_index_or mask.now slot false then 1 else slice_index_or row.now slot 0) }
{
    let mut marked = *row;
    for weekday in 0..7 {
        if mask[weekday] {
            marked[weekday] = MARK;
        }
    }
    marked
}

// Sets the row from a day on. No cut is after this day.
fn set_from(
    cuts: &mut Vec<u32>,
    rows: &mut Vec<[ValueNumber; 7]>,
    day: u32,
    row: [ValueNumber; 7],
) -> Result<(), Memory>
    requires row_count { length rows.old.items ≡ length cuts.old.items }
    requires rising { IsStrictlyIncreasing cuts.old.items }
    requires until { All (λ cut. cut ≤ day) cuts.old.items }
    requires in_calendar { day ≤ 36525 }
    ensures valid { (before : List ℕ) → AreRows before cuts.old.items rows.old.items
        → AreRows before cuts.new.items rows.new.items }
    ensures until { OnOk result (All (λ cut. cut ≤ day) cuts.new.items) }
    ensures row_on { OnOk result ((before : List ℕ) (n : ℕ)
        → row_on before cuts.new.items rows.new.items n
        ≡ (if nat_lt n day then row_on before cuts.old.items rows.old.items n else row)) }
{
    let count = cuts.len();
    if 0 < count && cuts[count - 1] == day {
        rows[count - 1] = row;
        return Ok(());
    }
    cuts.reserve(1)?;
    rows.push(row)?;
    if let Err(_) = cuts.push(day) {
        unreachable!();
    }
    Ok(())
}
