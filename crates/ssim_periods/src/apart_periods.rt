//! Values given to periods of which no two have a common day.
ghost use Rattle.std.specs.Prelude.{◌≡◌, ◌≢◌, ◌⊎◌, ℕ, ◌+◌, ◌<◌, ◌≤◌, List, [], true, false, length};
ghost use Rattle.std.specs.Prelude.{slice_get, slice_index_or, Some, IfOk, IfSome, IfNone, OnOk};
ghost use Rattle.std.specs.Prelude.{OnErr, OnSome, IsTrue};
ghost use Rattle.std.specs.List.{All, Contains};
ghost use Rattle.std.specs.List.Sorted.{IsStrictlyIncreasing};
ghost use Rattle.ssim_values.specs.Calendar.{weekday};
ghost use Rattle.ssim_periods.specs.internal.Apart.{empty_week, list_seen, AreApart, AreDivided};
ghost use Rattle.ssim_periods.specs.Calendar.{day_count, holds};
ghost use Rattle.ssim_periods.specs.Days.{each_day, changed_on, counts_on};
ghost use Rattle.ssim_periods.specs.clauses.Days.{changed_by_each, ends_of, AddsOnly};
ghost use Rattle.ssim_periods.specs.Pieces.{pieces_of, held_on};

pub(crate) mod entries;
pub(crate) mod entry_pieces;
pub(crate) mod first_entries;
pub(crate) mod marks;
pub(crate) mod parts;
pub(crate) mod spaced_days;
pub(crate) mod within;

use crate::apart_periods::entries::{copy_entries, meets_none, rows_of, shared_entries, value_at};
use crate::apart_periods::entry_pieces::covers;
use crate::apart_periods::first_entries::{cuts_of, outcomes_of};
use crate::apart_periods::spaced_days::SpacedDays;
use crate::apart_periods::within::{added_parts, counts_within, divide, keeps_empty};
use crate::range_rows::RangeRows;
use crate::range_rows::count::counts_of;
use crate::rows::{is_after_cuts, is_before_cuts};
use crate::{Change, Value};
use ssim_values::{Day, Memory, Period, weekday_of};
use std::alloc::Global;
use std::marker::Model;

/// The most periods in a list. A new period between the others is compared with all of them.
const MOST: usize = 512;

/// The most periods in a list after a change that adds more than one.
const MOST_DIVIDED: usize = 64;

/// How many periods a list has room for at first.
const FIRST: usize = 8;

/// A value for each day, as a list of periods with values.
#[derive(Drop)]
pub(crate) struct ApartPeriods<V: Value> {
    /// The values by weekday of a range that no period holds: each is the empty value.
    empty: [V; 7],
    /// Periods without a common day, in the order in which they came, and their values, which are
    /// not empty.
    entries: Vec<(Period, V)>,
    /// The first day of each period and the day after its last, rising.
    cuts: SpacedDays,
    alloc: Global,
}

impl<V: Value> Model for ApartPeriods<V> {
    ghost use Rattle.std.specs.Prelude.{◌≡◌};
    ghost use Rattle.ssim_periods.specs.internal.Apart.{empty_week, list_seen, AreApart};
    ghost use Rattle.ssim_periods.specs.clauses.Days.{Seen};

    ghost Value = { Seen V };

    ghost view = { λ p. list_seen V.nothing p.entries.items p.cuts.days };

    ghost invariant = { λ p. (p.empty ≡ empty_week V.nothing)
        × AreApart V.nothing p.entries.items p.cuts.days };
}

impl<V: Value> ApartPeriods<V> {
    /// The values of these periods, with these cuts.
    fn of(alloc: Global, entries: Vec<(Period, V)>, cuts: SpacedDays) -> ApartPeriods<V>
        requires { AreApart V.nothing entries.items cuts.days }
        ensures { result ≡ list_seen V.nothing entries.items cuts.days }
    {
        ApartPeriods {
            empty: empty_row(),
            entries,
            cuts,
            alloc,
        }
    }

    /// The empty value on each day. Allocates nothing.
    pub(crate) fn new(alloc: Global) -> Self
        ensures days { result.days ≡ each_day (λ _. V.nothing) }
        ensures cuts { result.cuts ≡ [] }
    {
        ApartPeriods {
            empty: empty_row(),
            entries: Vec::new(alloc),
            cuts: SpacedDays::new(alloc),
            alloc,
        }
    }

    /// The value of a day, found by looking at each period.
    pub(crate) fn at(&self, day: Day) -> &V
        ensures { slice_get self.now.days day ≡ Some result.now }
    {
        let number = day.number();
        let weekday = weekday_of(number as u32);
        value_at(&self.entries, &self.empty[weekday], day)
    }

    /// Whether the list is not full and has no day of the period.
    pub(crate) fn has_room_for(&self, period: &Period) -> bool
        ensures { IsTrue result → (n : ℕ) → holds period.now n ≡ true
            → slice_index_or self.now.days n V.nothing ≡ V.nothing }
    {
        self.entries.len() < MOST && is_free(&self.entries, self.cuts.days(), period)
    }

    /// Whether the period comes before all of the list or after all of them. Its days then have the
    /// empty value.
    pub(crate) fn is_outside(&self, period: &Period) -> bool
        ensures { IsTrue result → (n : ℕ) → holds period.now n ≡ true
            → slice_index_or self.now.days n V.nothing ≡ V.nothing }
    {
        lies_outside(self.cuts.days(), period)
    }

    /// Whether the list is so long that it is better kept as rows.
    pub(crate) fn is_long(&self) -> bool {
        self.entries.len() > MOST
    }

    /// Gives the days of the period, which have the empty value, the outcome of the change for it.
    /// Returns for each class the number of these days if the empty value is of that class.
    pub(crate) fn apply<C: Change<V>>(
        &mut self,
        period: &Period,
        change: &C,
    ) -> Result<[u32; 5], Memory>
        requires { (n : ℕ) → holds period.now n ≡ true
            → slice_index_or self.old.days n V.nothing ≡ V.nothing }
        ensures days { OnOk result
            (self.new.days ≡ changed_on (holds period.now) (C.outcome change.now) 0 self.old.days) }
        ensures counts { IfOk result
            (λ counts. counts ≡ counts_on (holds period.now) (C.class_of change.now)
            self.old.days) }
        ensures cuts { OnOk result
            (AddsOnly self.old.cuts self.new.cuts period.now.first (period.now.last + 1)) }
        ensures err { OnErr result (self.new ≡ self.old) }
    {
        let counts = counts_of(period, change, &self.empty[0]);
        self.replace(period, change)?;
        Ok(counts)
    }

    /// Gives the days of the period, which have the empty value, the outcome of the change for it.
    pub(crate) fn replace<C: Change<V>>(
        &mut self,
        period: &Period,
        change: &C,
    ) -> Result<(), Memory>
        requires { (n : ℕ) → holds period.now n ≡ true
            → slice_index_or self.old.days n V.nothing ≡ V.nothing }
        ensures days { OnOk result
            (self.new.days ≡ changed_on (holds period.now) (C.outcome change.now) 0 self.old.days) }
        ensures cuts { OnOk result
            (AddsOnly self.old.cuts self.new.cuts period.now.first (period.now.last + 1)) }
        ensures err { OnErr result (self.new ≡ self.old) }
    {
        let value = change.after(self.alloc, &self.empty[0])?;
        if value.is_empty() {
            return Ok(());
        }
        self.make_first_room()?;
        self.put(period, value)?;
        Ok(())
    }

    /// Applies changes one after another if no day has a value yet. Returns false and changes
    /// nothing if a day has one, if two of the periods have a common day, or if there are too many
    /// of them.
    pub(crate) fn begin<C: Change<V>>(&mut self, changes: &[(Period, C)]) -> Result<bool, Memory>
        ensures days { IfOk result
            (λ done. done ≡ true
            → self.new.days ≡ changed_by_each C.outcome changes.now self.old.days) }
        ensures cuts { IfOk result
            (λ done. done ≡ true → (cut : ℕ) → Contains self.new.cuts cut
            → Contains (ends_of changes.now) cut) }
        ensures other { IfOk result (λ done. done ≡ false → self.new ≡ self.old) }
    {
        if !self.entries.is_empty() || changes.len() > MOST {
            return Ok(false);
        }
        let Some(entries) = outcomes_of(self.alloc, &self.empty[0], changes)? else {
            return Ok(false);
        };
        let cuts = cuts_of(self.alloc, &entries)?;
        self.entries = entries;
        self.cuts = SpacedDays::of(cuts);
        Ok(true)
    }

    /// Replaces the value of each day of the period by the outcome of the change, and returns for
    /// each class the number of these days whose old value is of that class. A period of the list
    /// that has such a day is divided, and no other one is touched. Returns None and changes
    /// nothing if days that no period of the list has would get a value, or if the list would be
    /// too long.
    pub(crate) fn apply_within<C: Change<V>>(
        &mut self,
        period: &Period,
        change: &C,
    ) -> Result<Option<[u32; 5]>, Memory>
        ensures days { IfOk result
            (λ done. OnSome done
            (self.new.days ≡ changed_on (holds period.now) (C.outcome change.now) 0
            self.old.days)) }
        ensures counts { IfOk result
            (λ done. IfSome done
            (λ counts. counts ≡ counts_on (holds period.now) (C.class_of change.now)
            self.old.days)) }
        ensures none { IfOk result (λ done. IfNone done (self.new ≡ self.old)) }
        ensures cuts { IfOk result
            (λ done. OnSome done
            (AddsOnly self.old.cuts self.new.cuts period.now.first (period.now.last + 1))) }
        ensures err { OnErr result (self.new ≡ self.old) }
    {
        let (counts, free) = counts_within(&self.entries, period, change);
        if !keeps_empty::<V, C>(self.alloc, free, change)? {
            return Ok(None);
        }
        let added = added_parts(self.alloc, &self.entries, period, change)?;
        if !has_room(self.entries.len(), added.len()) {
            return Ok(None);
        }
        divide(self.alloc, &mut self.entries, &mut self.cuts, period, added)?;
        Ok(Some(counts))
    }

    // Gives the days of the period, which have the empty value, a value that is not empty.
    fn put(&mut self, period: &Period, value: V) -> Result<(), Memory>
        requires free { (n : ℕ) → holds period.now n ≡ true
            → slice_index_or self.old.days n V.nothing ≡ V.nothing }
        requires given { value ≢ V.nothing }
        ensures days { OnOk result
            (self.new.days ≡ changed_on (holds period.now) (λ _. value) 0 self.old.days) }
        ensures cuts { OnOk result
            (AddsOnly self.old.cuts self.new.cuts period.now.first (period.now.last + 1)) }
        ensures err { OnErr result (self.new ≡ self.old) }
    {
        let first = period.first().number() as u32;
        let end = period.last().number() as u32 + 1;
        self.cuts.make_room(self.alloc)?;
        self.entries.push((*period, value))?;
        self.cuts.add(first);
        self.cuts.add(end);
        Ok(())
    }

    // Makes room for the first periods at once, so that their list grows less often.
    fn make_first_room(&mut self) -> Result<(), Memory>
        ensures { self.new ≡ self.old }
    {
        if self.entries.is_empty() {
            self.entries.reserve(FIRST)?;
        }
        Ok(())
    }

    /// A copy with the same values and cuts.
    pub(crate) fn copy(&self) -> Result<ApartPeriods<V>, Memory>
        ensures { IfOk result (λ copy. copy ≡ self.now) }
    {
        let entries = copy_entries(self.alloc, &self.entries)?;
        Ok(ApartPeriods::of(self.alloc, entries, self.cuts.copy(self.alloc)?))
    }

    /// A copy in which a value that is equal to the one before it in the list is a copy of that
    /// copy.
    pub(crate) fn shared(&self) -> Result<ApartPeriods<V>, Memory>
        ensures { IfOk result (λ shared. shared ≡ self.now) }
    {
        let entries = shared_entries(self.alloc, &self.entries)?;
        Ok(ApartPeriods::of(self.alloc, entries, self.cuts.copy(self.alloc)?))
    }

    /// The rising days at which a period begins, or the day after one ends.
    pub(crate) fn cuts(&self) -> &[u32]
        ensures cuts { result.now ≡ self.now.cuts }
        ensures rising { IsStrictlyIncreasing result.now }
        ensures in_calendar { All (λ cut. cut ≤ 36525) result.now }
        ensures weekly { (m n : ℕ) → m ≤ n → n < 36525 → weekday m ≡ weekday n
            → ((cut : ℕ) → Contains result.now cut → m < cut → n < cut)
            → slice_get self.now.days m ≡ slice_get self.now.days n }
    {
        self.cuts.days()
    }

    /// The same values as rows. Their cuts are among those of the list.
    pub(crate) fn to_rows(&mut self) -> Result<RangeRows<V>, Memory>
        ensures days { IfOk result (λ rows. rows.days ≡ self.old.days) }
        ensures cuts { IfOk result
            (λ rows. (cut : ℕ) → Contains rows.cuts cut → Contains self.old.cuts cut) }
        ensures same { self.new ≡ self.old }
    {
        self.sort()?;
        rows_of(self.alloc, &self.entries)
    }

    // Puts the latest periods first, in which order they are soonest made into rows.
    fn sort(&mut self) -> Result<(), Memory>
        ensures { self.new ≡ self.old }
    {
        self.entries
            .sort_by_key(|entry| u16::MAX - entry.0.first().number())?;
        Ok(())
    }

    /// The cover of the days of each value, each period with its value, sorted by first day. The
    /// periods of a value are joined as far as that is simple. If one is left, the cover is found
    /// from its days, else from rows that are made of the periods.
    pub(crate) fn pieces(&self) -> Result<Vec<(Period, V)>, Memory>
        ensures pieces { IfOk result
            (λ pieces. pieces.items ≡ pieces_of V.alike V.nothing self.now.days) }
        ensures each_day { OnOk result (length self.now.days ≡ day_count) }
    {
        let mut pieces = covers(self.alloc, &self.entries)?;
        pieces.sort_by_key(|piece| piece.0.first().number())?;
        Ok(pieces)
    }
}

// Whether a list of `count` periods is short enough for more of them.
fn has_room(count: usize, more: usize) -> bool {
    let most = if more > 1 { MOST_DIVIDED } else { MOST };
    more <= most.saturating_sub(count)
}

// The values by weekday of a range without a value.
fn empty_row<V: Value>() -> [V; 7]
    ensures { result ≡ empty_week V.nothing }
{
    [
        V::empty(),
        V::empty(),
        V::empty(),
        V::empty(),
        V::empty(),
        V::empty(),
        V::empty(),
    ]
}

// Whether a period has no day in common with any of a list. One before all of them or after all of
// them is not compared with each.
fn is_free<V: Value>(entries: &[(Period, V)], cuts: &[u32], period: &Period) -> bool
    requires rising { IsStrictlyIncreasing cuts.now }
    requires divided { AreDivided cuts.now entries.now }
    ensures { IsTrue result → (n : ℕ) → holds period.now n ≡ true → held_on entries.now n ≡ [] }
{
    lies_outside(cuts, period) || meets_none(entries, period)
}

// Whether a period ends before all of some days, or begins on the last of them or later.
fn lies_outside(cuts: &[u32], period: &Period) -> bool
    requires { IsStrictlyIncreasing cuts.now }
    ensures { IsTrue result → All (λ cut. period.now.last < cut) cuts.now
        ⊎ All (λ cut. cut ≤ period.now.first) cuts.now }
{
    let first = period.first().number() as u32;
    let last = period.last().number() as u32;
    is_before_cuts(cuts, last) || is_after_cuts(cuts, first)
}
