ghost use Rattle.std.specs.Prelude.{◌≡◌, ℕ, ◌+◌, ◌<◌, ◌≤◌, [], slice_get, Some, IfOk, OnOk, OnErr};
ghost use Rattle.std.specs.List.{All, Contains};
ghost use Rattle.std.specs.List.Sorted.{IsStrictlyIncreasing};
ghost use Rattle.ssim_values.specs.Calendar.{weekday};
ghost use Rattle.ssim_periods.specs.Calendar.{holds};
ghost use Rattle.ssim_periods.specs.Days.{each_day, changed_on, counts_on};
ghost use Rattle.ssim_periods.specs.clauses.Days.{AddsOnly};
ghost use Rattle.ssim_periods.specs.internal.Rows.{value_on, AreRows};

pub(crate) mod count;
mod number_periods;
pub(crate) mod patches;
mod pieces;
mod row_copies;

use crate::range_rows::count::class_counts;
use crate::range_rows::patches::{new_rows, put_period};
use crate::range_rows::row_copies::{shared_row, shared_rows};
use crate::rows::{copy_row, copy_rows, place_of, row_for_cut};
use crate::{Change, Value};
use ssim_values::{Day, Memory, Period, weekday_of};
use std::alloc::Global;
use std::marker::Model;

/// A value for each day, as rising cuts and a row of seven values for each range between them.
#[derive(Drop)]
pub(crate) struct RangeRows<V: Value> {
    /// The values by weekday up to the first cut.
    pub(crate) before: [V; 7],
    /// The days at which a range begins, rising; the last may be 36,525, the day after the
    /// calendar.
    pub(crate) cuts: Vec<u32>,
    /// For each cut the values by weekday from it to the next.
    pub(crate) rows: Vec<[V; 7]>,
    pub(crate) alloc: Global,
}

impl<V: Value> Model for RangeRows<V> {
    ghost use Rattle.ssim_periods.specs.clauses.Days.{Seen};
    ghost use Rattle.ssim_periods.specs.Days.{each_day};
    ghost use Rattle.ssim_periods.specs.internal.Rows.{value_on, AreRows};

    ghost Value = { Seen V };

    ghost view = { λ p. record {
      days = each_day
          (value_on V.nothing p.before p.cuts.items p.rows.items);
      cuts = p.cuts.items;
    } };

    ghost invariant = { λ p. AreRows p.before p.cuts.items p.rows.items };
}

impl<V: Value> RangeRows<V> {
    /// The empty value on each day. Allocates nothing.
    pub(crate) fn new(alloc: Global) -> Self
        ensures days { result.days ≡ each_day (λ _. V.nothing) }
        ensures cuts { result.cuts ≡ [] }
    {
        RangeRows {
            before: [
                V::empty(),
                V::empty(),
                V::empty(),
                V::empty(),
                V::empty(),
                V::empty(),
                V::empty(),
            ],
            cuts: Vec::new(alloc),
            rows: Vec::new(alloc),
            alloc,
        }
    }

    /// The value of a day, found by binary search in the cuts.
    pub(crate) fn at(&self, day: Day) -> &V
        ensures { slice_get self.now.days day ≡ Some result.now }
    {
        let number = day.number();
        let weekday = weekday_of(number as u32);
        let place = place_of(&self.cuts, number as u32);
        if place == 0 {
            &self.before[weekday]
        } else {
            &self.rows[place - 1][weekday]
        }
    }

    /// Replaces the value of each day of the period by the outcome of the change, and keeps the
    /// value of each other day. Returns for each class the number of days of the period whose old
    /// value is of that class.
    ///
    /// All new values are computed, and all memory is reserved, before the first value is replaced:
    /// after an error nothing has changed. The cost grows with the ranges that the period touches
    /// and with the later ranges, which are moved.
    pub(crate) fn apply<C: Change<V>>(
        &mut self,
        period: &Period,
        change: &C,
    ) -> Result<[u32; 5], Memory>
        ensures days { OnOk result (self.new.days
            ≡ changed_on (holds period.now) (C.outcome change.now) 0 self.old.days) }
        ensures counts { IfOk result (λ counts. counts
            ≡ counts_on (holds period.now) (C.class_of change.now) self.old.days) }
        ensures cuts { OnOk result (AddsOnly self.old.cuts self.new.cuts period.now.first
            (period.now.last + 1)) }
        ensures err { OnErr result (self.new ≡ self.old) }
    {
        let first = period.first().number() as u32;
        let last = period.last().number() as u32;
        let mask = period.mask().days();
        let counts = class_counts(
            &self.before,
            &self.cuts,
            &self.rows,
            first,
            last,
            &mask,
            change,
        );
        self.replace(period, change)?;
        Ok(counts)
    }

    /// Replaces the values of the days of the period as `apply` does, and counts no days.
    pub(crate) fn replace<C: Change<V>>(
        &mut self,
        period: &Period,
        change: &C,
    ) -> Result<(), Memory>
        ensures days { OnOk result (self.new.days
            ≡ changed_on (holds period.now) (C.outcome change.now) 0 self.old.days) }
        ensures cuts { OnOk result (AddsOnly self.old.cuts self.new.cuts period.now.first
            (period.now.last + 1)) }
        ensures err { OnErr result (self.new ≡ self.old) }
    {
        let alloc = self.alloc;
        let first = period.first().number() as u32;
        let last = period.last().number() as u32;
        let mask = period.mask().days();
        self.cuts.reserve(2)?;
        self.rows.reserve(2)?;
        let patches = new_rows(
            alloc,
            &self.before,
            &self.cuts,
            &self.rows,
            first,
            last,
            &mask,
            change,
        )?;
        let head = row_for_cut(alloc, &self.before, &self.cuts, &self.rows, first)?;
        let tail = row_for_cut(alloc, &self.before, &self.cuts, &self.rows, last + 1)?;
        put_period(
            &mut self.cuts,
            &mut self.rows,
            first,
            last + 1,
            head,
            tail,
            patches,
        );
        Ok(())
    }

    /// A copy with the same values and cuts.
    pub(crate) fn copy(&self) -> Result<RangeRows<V>, Memory>
        ensures { IfOk result (λ copy. copy ≡ self.now) }
    {
        let before = copy_row(self.alloc, &self.before)?;
        let rows = copy_rows(self.alloc, &self.rows)?;
        RangeRows::of(self.alloc, before, &self.cuts, rows)
    }

    /// A copy with the same values and cuts. Equal values of a range, and equal values of one
    /// weekday in neighbouring ranges, are copies of one value. If copies of a value share memory,
    /// that memory is used once.
    pub(crate) fn shared(&self) -> Result<RangeRows<V>, Memory>
        ensures { IfOk result (λ shared. shared ≡ self.now) }
    {
        let before = shared_row(self.alloc, &self.before, &self.before)?;
        let rows = shared_rows(self.alloc, &before, &self.rows)?;
        RangeRows::of(self.alloc, before, &self.cuts, rows)
    }

    /// The values of these rows, with these cuts.
    fn of(
        alloc: Global,
        before: [V; 7],
        cuts: &[u32],
        rows: Vec<[V; 7]>,
    ) -> Result<RangeRows<V>, Memory>
        requires { AreRows before cuts.now rows.items }
        ensures days { IfOk result (λ copy.
            copy.days ≡ each_day (value_on V.nothing before cuts.now rows.items)) }
        ensures cuts { IfOk result (λ copy. copy.cuts ≡ cuts.now) }
    {
        let cuts = Vec::from_slice(alloc, cuts)?;
        Ok(RangeRows {
            before,
            cuts,
            rows,
            alloc,
        })
    }

    /// The rising days at which a stored range begins or ends. 36,525 is a cut if a period ended
    /// with the calendar.
    pub(crate) fn cuts(&self) -> &[u32]
        ensures cuts { result.now ≡ self.now.cuts }
        ensures rising { IsStrictlyIncreasing result.now }
        ensures in_calendar { All (λ cut. cut ≤ 36525) result.now }

        // Two days of one weekday have the same value if no cut is after the earlier and not after
        // the later.
        ensures weekly { (m n : ℕ) → m ≤ n → n < 36525 → weekday m ≡ weekday n
            → ((cut : ℕ) → Contains result.now cut → m < cut → n < cut)
            → slice_get self.now.days m ≡ slice_get self.now.days n }
    {
        &self.cuts
    }
}
