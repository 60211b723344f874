//! A change of days of which a list's periods hold some.
ghost use Rattle.std.specs.Prelude.{◌≡◌, ◌≢◌, ◌⊎◌, ◌&&◌, ◌∷◌, ℕ, ◌+◌, ◌<◌, ◌≤◌, ◌++◌, List, [], true, nat_eq, length, slice_index_or, vec_len, IfOk, OnOk, OnErr, IsTrue};
ghost use Rattle.std.specs.List.Sorted.{IsStrictlyIncreasing};
ghost use Rattle.ssim_values.specs.Period.{DayRange};
ghost use Rattle.ssim_values.specs.clauses.Period.{IsPeriod};
ghost use Rattle.ssim_periods.specs.Calendar.{day_count, holds};
ghost use Rattle.ssim_periods.specs.Days.{counts_on, each_day};
ghost use Rattle.ssim_periods.specs.Pieces.{held_on};
ghost use Rattle.ssim_periods.specs.internal.Apart.{value_in};
ghost use Rattle.ssim_periods.specs.internal.Count.{tally};
ghost use Rattle.ssim_periods.specs.internal.Parts.{added_of, added_parts, any_value, finds, kept_parts, with_outcome, with_value};
ghost use Rattle.ssim_periods.specs.internal.Parts.{first_part as the_first_part};
ghost use Rattle.ssim_periods.specs.internal.Splits.{with_cut};

use crate::apart_periods::parts::{common_part, first_part, second_part, third_part};
use crate::apart_periods::spaced_days::SpacedDays;
use crate::common_days::meets;
use crate::period_days::number_of_days;
use crate::{Change, Value};
use ssim_values::{Memory, Period};
use std::alloc::Global;

// The number of days that two periods have in common.
fn common_days(own: &Period, other: &Period) -> u32
    ensures value { result ≡ tally (λ n. holds other.now n && holds own.now n) 0 day_count }
    ensures bound { result ≤ 36525 }
{
    if !meets(other, own) {
        return 0;
    }
    match common_part(own, other) {
        Some(common) => number_of_days(&common),
        None => 0,
    }
}

// How many days of a period the list holds with values of each class, and how many in all.
fn count_held<V: Value, C: Change<V>>(
    entries: &[(Period, V)],
    period: &Period,
    change: &C,
) -> ([u32; 5], u32)
    requires once { (n : ℕ) → length (held_on entries.now n) ≤ 1 }
    ensures len { length result.0 ≡ 5 }
    ensures counts { (k : ℕ) → k < 5
        → slice_index_or result.0 k 0
        ≡ tally (finds (holds period.now)
        (λ v. nat_eq (C.class_of change.now v) k) entries.now) 0 day_count }
    ensures held { result.1 ≡ tally (finds (holds period.now) any_value entries.now) 0 day_count }
{
    let mut counts = [0; 5];
    let mut held = 0;
    let mut place = entries.len();
    while place > 0 {
        place -= 1;
        let entry = &entries[place];
        let days = common_days(&entry.0, period);
        if days > 0 {
            counts[change.class(&entry.1) as usize] += days;
            held += days;
        }
    }
    (counts, held)
}

// How many days of a period have a value of each class, and how many the list does not hold, which
// have the empty value.
pub(crate) fn counts_within<V: Value, C: Change<V>>(
    entries: &[(Period, V)],
    period: &Period,
    change: &C,
) -> ([u32; 5], u32)
    requires once { (n : ℕ) → length (held_on entries.now n) ≤ 1 }
    ensures counts { result.0
        ≡ counts_on (holds period.now) (C.class_of change.now)
        (each_day (value_in V.nothing entries.now)) }
    ensures free { result.1 ≡ 0 → (n : ℕ) → n < 36525 → holds period.now n ≡ true
        → held_on entries.now n ≢ [] }
{
    let (mut counts, held) = count_held(entries, period, change);
    let free = number_of_days(period) - held;
    if free > 0 {
        let empty = V::empty();
        counts[change.class(&empty) as usize] += free;
    }
    (counts, free)
}

// Whether no day has the empty value, or each that has it keeps it.
pub(crate) fn keeps_empty<V: Value, C: Change<V>>(
    alloc: Global,
    free: u32,
    change: &C,
) -> Result<bool, Memory>
    ensures { IfOk result
        (λ keeps. IsTrue keeps → (free ≡ 0) ⊎ (C.outcome change.now V.nothing ≡ V.nothing)) }
{
    if free == 0 {
        return Ok(true);
    }
    let empty = V::empty();
    let value = change.after(alloc, &empty)?;
    Ok(value.is_empty())
}

// Appends a part of a period, if there is one, with a copy of a value.
fn push_part<V: Value>(
    alloc: Global,
    added: &mut Vec<(Period, V)>,
    part: Option<Period>,
    value: &V,
) -> Result<(), Memory>
    ensures { OnOk result (added.new.items ≡ added.old.items ++ with_value part value.now) }
{
    if let Some(part) = part {
        let value = value.copy(alloc)?;
        added.push((part, value))?;
        return Ok(());
    }
    Ok(())
}

// Appends a part of a period, if there is one, with the outcome of a change, unless that is empty.
pub(crate) fn push_outcome<V: Value, C: Change<V>>(
    alloc: Global,
    added: &mut Vec<(Period, V)>,
    part: Option<Period>,
    value: &V,
    change: &C,
) -> Result<(), Memory>
    ensures { OnOk result
        (added.new.items ≡ added.old.items
        ++ with_outcome V.alike V.nothing part (C.outcome change.now value.now)) }
{
    let value = change.after(alloc, value)?;
    if value.is_empty() {
        return Ok(());
    }
    if let Some(part) = part {
        added.push((part, value))?;
        return Ok(());
    }
    Ok(())
}

// Appends what a change of the days of a period adds for one entry of a list.
fn push_added<V: Value, C: Change<V>>(
    alloc: Global,
    added: &mut Vec<(Period, V)>,
    entry: &(Period, V),
    period: &Period,
    change: &C,
) -> Result<(), Memory>
    ensures { OnOk result
        (added.new.items ≡ added.old.items
        ++ added_of V.alike V.nothing (C.outcome change.now) period.now entry.now) }
{
    if !meets(period, &entry.0) {
        return Ok(());
    }
    push_part(alloc, added, second_part(&entry.0, period), &entry.1)?;
    push_part(alloc, added, third_part(&entry.0, period), &entry.1)?;
    push_outcome(
        alloc,
        added,
        common_part(&entry.0, period),
        &entry.1,
        change,
    )
}

// What a change of the days of a period adds to a list, beside what stays of its periods.
pub(crate) fn added_parts<V: Value, C: Change<V>>(
    alloc: Global,
    entries: &[(Period, V)],
    period: &Period,
    change: &C,
) -> Result<Vec<(Period, V)>, Memory>
    ensures { IfOk result
        (λ added. added.items
        ≡ added_parts V.alike V.nothing (C.outcome change.now) period.now entries.now) }
{
    let mut added = Vec::new(alloc);
    let mut place = entries.len();
    while place > 0 {
        place -= 1;
        push_added(alloc, &mut added, &entries[place], period, change)?;
    }
    Ok(added)
}

// Divides the periods of a list that have a day of a period: each keeps the first of its parts
// without these days, the other parts come to the end of the list, and the ends of the period to
// the cuts. After an error nothing has changed.
pub(crate) fn divide<V: Value>(
    alloc: Global,
    entries: &mut Vec<(Period, V)>,
    cuts: &mut SpacedDays,
    period: &Period,
    mut added: Vec<(Period, V)>,
) -> Result<(), Memory>
    requires { IsStrictlyIncreasing cuts.old.days }
    ensures entries { OnOk result
        (entries.new.items ≡ kept_parts period.now entries.old.items ++ added.items) }
    ensures cuts { OnOk result (cuts.new.days
        ≡ with_cut (with_cut cuts.old.days period.now.first) (period.now.last + 1)) }
    ensures period { IsPeriod period.now }
    ensures kept_entries { OnErr result (entries.new.items ≡ entries.old.items) }
    ensures kept_cuts { OnErr result (cuts.new.days ≡ cuts.old.days) }
{
    let first = period.first().number() as u32;
    let end = period.last().number() as u32 + 1;
    let count = entries.len();
    cuts.make_room(alloc)?;
    entries.append(&mut added)?;
    keep_first_parts(entries, count, period);
    cuts.add(first);
    cuts.add(end);
    Ok(())
}

// Leaves of each of the first periods of a list the first of its parts without the days of a
// period.
fn keep_first_parts<V: Value>(entries: &mut Vec<(Period, V)>, count: usize, period: &Period)
    requires { count ≤ vec_len entries.old }
    ensures { (first added : List (DayRange × V)) → entries.old.items ≡ first ++ added
        → length first ≡ count → entries.new.items ≡ kept_parts period.now first ++ added }
{
    let mut place = count;
    while place > 0 {
        place -= 1;
        if meets(period, &entries[place].0) {
            keep_first_part(entries, place, period);
        }
    }
}

// Leaves of a period of a list the first of its parts without the days of a period.
fn keep_first_part<V: Value>(entries: &mut Vec<(Period, V)>, place: usize, period: &Period)
    requires { place < vec_len entries.old }
    ensures items { (before after : List (DayRange × V)) (entry : DayRange × V)
        → entries.old.items ≡ before ++ entry ∷ after → length before ≡ place
        → entries.new.items
        ≡ before ++ (with_value (the_first_part entry.0 period.now) entry.1 ++ after) }
    ensures len { place ≤ vec_len entries.new }
{
    match first_part(&entries[place].0, period) {
        Some(part) => entries[place].0 = part,
        None => {
            let _ = entries.remove(place);
        }
    }
}
