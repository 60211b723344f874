ghost use Rattle.std.specs.Prelude.{◌≡◌, ℕ, ◌+◌, ◌<◌, ◌≤◌, ◌++◌, [], true, false, slice_get, Some, IfOk, OnOk, OnErr};
ghost use Rattle.std.specs.List.{All, Contains};
ghost use Rattle.std.specs.List.Sorted.{IsStrictlyIncreasing};
ghost use Rattle.ssim_values.specs.Calendar.{weekday};
ghost use Rattle.ssim_periods.specs.Calendar.{holds};
ghost use Rattle.ssim_periods.specs.Days.{each_day, changed_on, counts_on};
ghost use Rattle.ssim_periods.specs.clauses.Days.{changed_by_each, ends_of, AddsOnly};

pub(crate) mod pieces;

use crate::apart_periods::ApartPeriods;
use crate::range_rows::RangeRows;
use crate::{Change, Value};
use ssim_values::{Day, Memory, Period};
use std::alloc::Global;
use std::marker::Model;

/// A value for each day. Contracts see it as the list of the values and the rising cuts.
#[derive(Drop)]
pub struct Periods<V: Value> {
    /// The values, in the form that takes less time and memory.
    form: Form<V>,
}

/// The two forms of the values.
#[derive(Drop)]
pub(crate) enum Form<V: Value> {
    /// A list of a few periods with values, while no two of them have a common date.
    Apart(ApartPeriods<V>),
    /// A row of seven values for each range.
    Rows(RangeRows<V>),
}

impl<V: Value> Model for Periods<V> {
    ghost use Rattle.ssim_periods.specs.clauses.Days.{Seen};
    ghost use Rattle.ssim_periods.specs.internal.Forms.{seen};

    ghost Value = { Seen V };

    ghost view = { λ p. seen p.form };
}

impl<V: Value> Periods<V> {
    /// The empty value on each day. Allocates nothing.
    pub fn new(alloc: Global) -> Self
        ensures days { result.days ≡ each_day (λ _. V.nothing) }
        ensures cuts { result.cuts ≡ [] }
    {
        Periods {
            form: Form::Apart(ApartPeriods::new(alloc)),
        }
    }

    /// The value of a day, found among a few periods, or by binary search in the cuts.
    pub fn at(&self, day: Day) -> &V
        ensures { slice_get self.now.days day ≡ Some result.now }
    {
        match &self.form {
            Form::Apart(periods) => periods.at(day),
            Form::Rows(rows) => rows.at(day),
        }
    }

    /// Replaces the value of each day of the period by the outcome of the change, and keeps the
    /// value of each other day. Returns for each class the number of days of the period whose old
    /// value is of that class.
    ///
    /// All new values are computed, and all memory is reserved, before the first value is replaced:
    /// after an error nothing has changed. While no two periods that were applied have a common
    /// day, a change costs one new value and the comparison of its period with the earlier ones,
    /// and copies no value. A change of days of earlier periods makes one new value for each of
    /// these periods. What is left of such a period is up to three parts, and each but the first
    /// gets a copy of its value. The values so far are copied into rows, one value for each range
    /// and weekday, by the first such change that also gives values to days that no period has, or
    /// after which there would be too many parts (more than 64, or 512 if one is added at most),
    /// and by the 513th period. From then on the cost grows with the ranges that the period touches
    /// and with the later ranges, which are moved.
    pub fn apply<C: Change<V>>(&mut self, period: &Period, change: &C) -> Result<[u32; 5], Memory>
        ensures days { OnOk result (self.new.days
            ≡ changed_on (holds period.now) (C.outcome change.now) 0 self.old.days) }
        ensures counts { IfOk result (λ counts. counts
            ≡ counts_on (holds period.now) (C.class_of change.now) self.old.days) }
        ensures cuts { OnOk result (AddsOnly self.old.cuts self.new.cuts period.now.first
            (period.now.last + 1)) }
        ensures err { OnErr result (self.new ≡ self.old) }
    {
        match &mut self.form {
            Form::Apart(periods) => {
                if periods.has_room_for(period) {
                    return periods.apply(period, change);
                }
                if let Some(counted) = periods.apply_within(period, change)? {
                    return Ok(counted);
                }
                let mut rows = periods.to_rows()?;
                let counts = rows.apply(period, change)?;
                self.form = Form::Rows(rows);
                Ok(counts)
            }
            Form::Rows(rows) => rows.apply(period, change),
        }
    }

    /// Replaces the values of the days of the period as `apply` does, and counts no days.
    pub fn replace<C: Change<V>>(&mut self, period: &Period, change: &C) -> Result<(), Memory>
        ensures days { OnOk result (self.new.days
            ≡ changed_on (holds period.now) (C.outcome change.now) 0 self.old.days) }
        ensures cuts { OnOk result (AddsOnly self.old.cuts self.new.cuts period.now.first
            (period.now.last + 1)) }
        ensures err { OnErr result (self.new ≡ self.old) }
    {
        match &mut self.form {
            Form::Apart(periods) => {
                if periods.has_room_for(period) {
                    return periods.replace(period, change);
                }
                if let Some(_) = periods.apply_within(period, change)? {
                    return Ok(());
                }
                let mut rows = periods.to_rows()?;
                rows.replace(period, change)?;
                self.form = Form::Rows(rows);
                Ok(())
            }
            Form::Rows(rows) => rows.replace(period, change),
        }
    }

    /// Applies changes one after another, each to the days of its period, as `replace` does. If no
    /// day has a value yet and no two of the periods have a common day, they become a list at once.
    /// The list grows without limit while each period comes before all earlier ones or after all of
    /// them; `settle` ends that.
    pub fn replace_each<C: Change<V>>(&mut self, changes: &[(Period, C)]) -> Result<(), Memory>
        ensures days { OnOk result (self.new.days
            ≡ changed_by_each C.outcome changes.now self.old.days) }
        ensures cuts { OnOk result ((cut : ℕ) → Contains self.new.cuts cut
            → Contains (ends_of changes.now ++ self.old.cuts) cut) }
    {
        if self.begin(changes)? {
            return Ok(());
        }
        for change in changes {
            self.extend(&change.0, &change.1)?;
        }
        Ok(())
    }

    // Does what `replace` does. A period before or after all others joins the list, however long
    // that is: it need not be compared with them.
    fn extend<C: Change<V>>(&mut self, period: &Period, change: &C) -> Result<(), Memory>
        ensures days { OnOk result (self.new.days
            ≡ changed_on (holds period.now) (C.outcome change.now) 0 self.old.days) }
        ensures cuts { OnOk result (AddsOnly self.old.cuts self.new.cuts period.now.first
            (period.now.last + 1)) }
    {
        if let Form::Apart(periods) = &mut self.form {
            if periods.is_outside(period) {
                return periods.replace(period, change);
            }
        }
        self.replace(period, change)
    }

    /// Makes rows of the list that `replace_each` made, if it is longer than the other changes
    /// allow. In rows the value of a day is found by binary search.
    pub fn settle(&mut self) -> Result<(), Memory>
        ensures days { OnOk result (self.new.days ≡ self.old.days) }
        ensures cuts { OnOk result ((cut : ℕ) → Contains self.new.cuts cut
            → Contains self.old.cuts cut) }
    {
        if let Form::Apart(periods) = &mut self.form {
            if periods.is_long() {
                self.form = Form::Rows(periods.to_rows()?);
            }
        }
        Ok(())
    }

    // Makes a list of the periods of changes, if that has the effect of the changes. The result
    // says whether it has; if not, nothing is changed.
    fn begin<C: Change<V>>(&mut self, changes: &[(Period, C)]) -> Result<bool, Memory>
        ensures days { IfOk result (λ done. done ≡ true
            → self.new.days ≡ changed_by_each C.outcome changes.now self.old.days) }
        ensures cuts { IfOk result (λ done. done ≡ true → (cut : ℕ) → Contains self.new.cuts cut
            → Contains (ends_of changes.now) cut) }
        ensures other { IfOk result (λ done. done ≡ false → self.new ≡ self.old) }
    {
        if let Form::Apart(periods) = &mut self.form {
            return periods.begin(changes);
        }
        Ok(false)
    }

    /// A copy with the same values and cuts.
    pub fn copy(&self) -> Result<Periods<V>, Memory>
        ensures { IfOk result (λ copy. copy ≡ self.now) }
    {
        let form = match &self.form {
            Form::Apart(periods) => Form::Apart(periods.copy()?),
            Form::Rows(rows) => Form::Rows(rows.copy()?),
        };
        Ok(Periods { form })
    }

    /// A copy with the same values and cuts. Equal values of neighbouring ranges are copies of one
    /// value, and so are equal values of a range, or of one period and the one that was given a
    /// value before it. If copies of a value share memory, that memory is used once.
    pub fn shared(&self) -> Result<Periods<V>, Memory>
        ensures { IfOk result (λ shared. shared ≡ self.now) }
    {
        let form = match &self.form {
            Form::Apart(periods) => Form::Apart(periods.shared()?),
            Form::Rows(rows) => Form::Rows(rows.shared()?),
        };
        Ok(Periods { form })
    }

    /// The rising days at which a stored range begins or ends. 36,525 is a cut if a period ended
    /// with the calendar.
    pub fn cuts(&self) -> &[u32]
        ensures cuts { result.now ≡ self.now.cuts }
        ensures rising { IsStrictlyIncreasing result.now }
        ensures in_calendar { All (λ cut. cut ≤ 36525) result.now }

        // Two days of one weekday have the same value if no cut is after the earlier and not after
        // the later.
        ensures weekly { (m n : ℕ) → m ≤ n → n < 36525 → weekday m ≡ weekday n
            → ((cut : ℕ) → Contains result.now cut → m < cut → n < cut)
            → slice_get self.now.days m ≡ slice_get self.now.days n }
    {
        match &self.form {
            Form::Apart(periods) => periods.cuts(),
            Form::Rows(rows) => rows.cuts(),
        }
    }
}
