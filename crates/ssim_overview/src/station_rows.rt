//! The rows of one station: its dates, cut where its variation changes or nothing is said for long.

ghost use Rattle.std.specs.Prelude.{◌≡◌, ◌≤◌, ◌<◌, ◌-◌, ◌⊎◌, ℕ, IfOk, OnOk, [], filter, length, min};
ghost use Rattle.std.specs.Prelude.{◌+◌, map, nat_lt, if◌then◌else◌, None, Some};
ghost use Rattle.std.specs.List.{list_all, range_with_len};
ghost use Rattle.std.specs.Option.{option_to_list};
ghost use Rattle.ssim_periods.specs.Calendar.{holds};
ghost use Rattle.ssim_periods.specs.Pieces.{held_on};
ghost use Rattle.ssim_overview.specs.SaidRows.{is_same, said, with_variation};
ghost use Rattle.ssim_overview.specs.internal.HeldEnds.{before_ends};
ghost use Rattle.ssim_overview.specs.internal.SaidRows.{Unchanged, by_week, dates_said, extended};
ghost use Rattle.ssim_overview.specs.internal.SaidRows.{goes_on, grown, is_steady, meets};

use crate::held_ends::held_ends;
use crate::said_variation::{is_same, said};
use crate::sayings::Saying;
use ssim_values::{Day, Memory, Period, Station, Variation};
use std::alloc::Global;
use std::marker::Model;

/// The most days from one date of a row to the next.
const GAP: u32 = 28;

/// The number of days of the calendar.
const DAYS: u32 = 36_525;

/// A row: the variation that a station has from a first date of origin to a last.
#[derive(Clone, Copy, Debug, PartialEq, Eq)]
pub struct SaidRow {
    station: Station,
    first: Day,
    last: Day,
    variation: Variation,
}

impl Model for SaidRow {
    ghost use Rattle.ssim_base.specs.Stations.{Row};

    ghost Value = { Row };

    ghost view = { λ r. record {
      station = r.station;
      first = r.first;
      last = r.last;
      variation = r.variation;
    } };

    ghost inverse = { λ v. record {
      station = v.station;
      first = v.first;
      last = v.last;
      variation = v.variation;
    } };
}

impl SaidRow {
    /// The station.
    pub fn station(&self) -> Station
        ensures { result ≡ self.now.station }
    {
        self.station
    }

    /// The first date on which it has the variation.
    pub fn first(&self) -> Day
        ensures { result ≡ self.now.first }
    {
        self.first
    }

    /// The last such date.
    pub fn last(&self) -> Day
        ensures { result ≡ self.now.last }
    {
        self.last
    }

    /// The variation.
    pub fn variation(&self) -> Variation
        ensures { result ≡ self.now.variation }
    {
        self.variation
    }
}

/// The rows of a station by what is said of it, and on which dates.
pub(crate) fn station_rows(
    alloc: Global,
    station: Station,
    sayings: &[(Period, Saying)],
) -> Result<Vec<SaidRow>, Memory>
    ensures { IfOk result
        (λ rows. rows.items ≡ grown station [] (dates_said sayings.now 0 36525)) }
{
    let mut rows = Vec::new(alloc);
    let (from, end) = span(sayings);
    if from < end {
        push_days(alloc, &mut rows, station, sayings, from, end)?;
    }
    Ok(rows)
}

// The first day on which something is said, and the day after the last one.
fn span(sayings: &[(Period, Saying)]) -> (u32, u32)
    ensures others { (n : ℕ) → (n < result.0) ⊎ (result.1 ≤ n) → held_on sayings.now n ≡ [] }
    ensures within { result.1 ≤ 36525 }
{
    let mut from = DAYS;
    let mut end = 0;
    for saying in sayings {
        from = from.min(saying.0.first().number() as u32);
        let last = saying.0.last().number() as u32;
        if end <= last {
            end = last + 1;
        }
    }
    (from, end)
}

// Adds the dates from a day to the one before an end: half by half, until one variation is said, or
// no period begins or is over in between.
fn push_days(
    alloc: Global,
    rows: &mut Vec<SaidRow>,
    station: Station,
    sayings: &[(Period, Saying)],
    from: u32,
    end: u32,
) -> Result<(), Memory>
    requires ordered { from < end }
    requires within { end ≤ 36525 }
    ensures { OnOk result (rows.new.items
        ≡ grown station rows.old.items (dates_said sayings.now from (end - from))) }
{
    if sayings.is_empty() {
        return Ok(());
    }
    let variation = sayings[0].1.variation;
    if is_only(sayings, variation) {
        let ends = held_ends(alloc, sayings, from, end)?;
        return push_held(rows, station, variation, &ends, from);
    }
    let middle = from + (end - from) / 2;
    if middle == from || is_unchanged(sayings, from, end) {
        return push_range(alloc, rows, station, sayings, from, end);
    }
    let before = between(alloc, sayings, from, middle)?;
    push_days(alloc, rows, station, &before, from, middle)?;
    let after = between(alloc, sayings, middle, end)?;
    push_days(alloc, rows, station, &after, middle, end)
}

// Whether all say this variation.
fn is_only(sayings: &[(Period, Saying)], variation: Variation) -> bool
    ensures { result ≡ list_all (λ saying. is_same saying.1.variation variation) sayings.now }
{
    for saying in sayings {
        if !is_same(saying.1.variation, variation) {
            return false;
        }
    }
    true
}

// Adds the days of a range that are before the end at their place.
fn push_held(
    rows: &mut Vec<SaidRow>,
    station: Station,
    variation: Variation,
    ends: &[u32],
    from: u32,
) -> Result<(), Memory>
    requires { from + length ends.now ≤ 36525 }
    ensures { OnOk result (rows.new.items ≡ grown station rows.old.items
        (with_variation (before_ends ends.now from variation)
        (range_with_len from (length ends.now)))) }
{
    for day in from..from + ends.len() as u32 {
        let said = said_before(day, ends[(day - from) as usize], variation);
        push_said(rows, station, day, said)?;
    }
    Ok(())
}

// The variation on a day that is before an end, and none on another day.
fn said_before(day: u32, end: u32, variation: Variation) -> Option<Variation>
    ensures { result ≡ (if nat_lt day end then Some variation else None) }
{
    if day < end { Some(variation) } else { None }
}

// Whether no period begins or is over after a day and before an end.
fn is_unchanged(sayings: &[(Period, Saying)], from: u32, end: u32) -> bool
    ensures { result ≡ list_all (λ saying. is_steady from end saying.0) sayings.now }
{
    for saying in sayings {
        if !is_steady(&saying.0, from, end) {
            return false;
        }
    }
    true
}

// Whether a period neither begins nor is over after a day and before an end.
fn is_steady(period: &Period, from: u32, end: u32) -> bool
    ensures { result ≡ is_steady from end period.now }
{
    let first = period.first().number() as u32;
    let last = period.last().number() as u32;
    (first <= from || end <= first) && (last + 1 <= from || end <= last + 1)
}

// What is said on days from one to another.
fn between(
    alloc: Global,
    sayings: &[(Period, Saying)],
    from: u32,
    end: u32,
) -> Result<Vec<(Period, Saying)>, Memory>
    ensures { IfOk result (λ found. found.items ≡ filter (λ saying. meets from end saying.0) sayings.now) }
{
    let mut found = Vec::with_capacity(alloc, sayings.len())?;
    for saying in sayings {
        if meets(&saying.0, from, end) {
            found.push(*saying)?;
        }
    }
    Ok(found)
}

// Whether a period has a day from one to another.
fn meets(period: &Period, from: u32, end: u32) -> bool
    ensures { result ≡ meets from end period.now }
{
    let first = period.first().number() as u32;
    let last = period.last().number() as u32;
    first < end && from <= last
}

// Adds the dates from a day to the one before an end, between which no period begins or is over.
fn push_range(
    alloc: Global,
    rows: &mut Vec<SaidRow>,
    station: Station,
    sayings: &[(Period, Saying)],
    from: u32,
    end: u32,
) -> Result<(), Memory>
    requires ordered { from < end }
    requires within { end ≤ 36525 }
    requires same { Unchanged from end sayings.now }
    ensures { OnOk result (rows.new.items
        ≡ grown station rows.old.items (dates_said sayings.now from (end - from))) }
{
    let week = week(alloc, sayings, from, end)?;
    push_dates(rows, station, &week, from, end)
}

// What is said on the first dates of a range, on seven at most.
fn week(
    alloc: Global,
    sayings: &[(Period, Saying)],
    from: u32,
    end: u32,
) -> Result<Vec<Option<Variation>>, Memory>
    requires ordered { from < end }
    requires within { end ≤ 36525 }
    ensures { IfOk result (λ week. week.items
        ≡ map (λ n. said (held_on sayings.now n)) (range_with_len from (min 7 (end - from)))) }
{
    let mut week = Vec::new(alloc);
    for day in from..end.min(from + 7) {
        let held = held_on(alloc, sayings, day)?;
        week.push(said(alloc, &held)?)?;
    }
    Ok(week)
}

// What is said on a day.
fn held_on(alloc: Global, sayings: &[(Period, Saying)], day: u32) -> Result<Vec<Saying>, Memory>
    requires { day < 36525 }
    ensures { IfOk result (λ held. held.items ≡ held_on sayings.now day) }
{
    let mut held = Vec::new(alloc);
    for saying in sayings {
        if holds(&saying.0, day) {
            held.push(saying.1)?;
        }
    }
    Ok(held)
}

/// Whether a period holds a day.
pub(crate) fn holds(period: &Period, day: u32) -> bool
    requires { day < 36525 }
    ensures { result ≡ holds period.now day }
{
    let first = period.first().number() as u32;
    let last = period.last().number() as u32;
    first <= day && day <= last && period.mask().days()[((day + 5) % 7) as usize]
}

// Adds the dates from a day to the one before an end, whose weeks are all as the first.
fn push_dates(
    rows: &mut Vec<SaidRow>,
    station: Station,
    week: &[Option<Variation>],
    from: u32,
    end: u32,
) -> Result<(), Memory>
    requires ordered { from < end }
    requires within { end ≤ 36525 }
    requires week { length week.now ≡ min 7 (end - from) }
    ensures { OnOk result (rows.new.items
        ≡ grown station rows.old.items
        (with_variation (by_week week.now from) (range_with_len from (end - from)))) }
{
    for day in from..end {
        let said = week[((day - from) % 7) as usize];
        push_said(rows, station, day, said)?;
    }
    Ok(())
}

// Adds a day, if something is said on it.
fn push_said(
    rows: &mut Vec<SaidRow>,
    station: Station,
    day: u32,
    said: Option<Variation>,
) -> Result<(), Memory>
    requires { day < 36525 }
    ensures { OnOk result (rows.new.items
        ≡ grown station rows.old.items (map (λ v. (day, v)) (option_to_list said))) }
{
    let Some(variation) = said else {
        return Ok(());
    };
    let Some(date) = Day::from_number(day as u16) else {
        return Ok(());
    };
    push_date(rows, station, date, variation)
}

// Adds a date: the last row goes on to it, or a row begins.
fn push_date(
    rows: &mut Vec<SaidRow>,
    station: Station,
    date: Day,
    variation: Variation,
) -> Result<(), Memory>
    ensures { OnOk result (rows.new.items ≡ extended station rows.old.items (date, variation)) }
{
    let new = SaidRow {
        station,
        first: date,
        last: date,
        variation,
    };
    let Some(row) = rows.pop() else {
        rows.push(new)?;
        return Ok(());
    };
    if goes_on(&row, date, variation) {
        rows.push(SaidRow { last: date, ..row })?;
        return Ok(());
    }
    rows.push(row)?;
    rows.push(new)?;
    Ok(())
}

// Whether a row goes on to a date.
fn goes_on(row: &SaidRow, date: Day, variation: Variation) -> bool
    ensures { result ≡ goes_on row.now (date, variation) }
{
    is_same(row.variation, variation) && date.number() as u32 <= row.last.number() as u32 + GAP
}
