//! The different values of the days, and a letter for each day.

ghost use Rattle.std.specs.Prelude.{◌≡◌, ◌++◌, Some, slice_index_or, IfOk, OnOk, map};
ghost use Rattle.ssim_periods.specs.Days.{each_day};
ghost use Rattle.ssim_calendar.specs.Letters.{cell, cells, different, if_new, letter_at, place_of};

use crate::week::day_at;
use ssim_periods::{DistinctValues, Periods, Value};
use ssim_values::Memory;
use std::alloc::Global;

/// The number of days of the calendar.
const DAYS: u16 = 36_525;

/// The different values of the days, and a letter for each day.
#[derive(Drop)]
pub struct Calendar<V: Value> {
    /// The different values other than the empty one, by first day.
    pub values: Vec<V>,
    /// For each day the letter of its value, or a full stop if the value is the empty one.
    pub cells: Vec<u8>,
}

impl<V: Value> Calendar<V> {
    /// The calendar of a value for each day.
    pub fn of(alloc: Global, days: &Periods<V>) -> Result<Calendar<V>, Memory>
        ensures values { IfOk result
            (λ calendar. calendar.values.items ≡ different V.alike V.nothing days.now.days) }
        ensures cells { IfOk result
            (λ calendar. calendar.cells.items ≡ cells V.alike V.nothing days.now.days) }
    {
        let values = values_of(alloc, days)?;
        let cells = cells_of(alloc, days, &values)?;
        let values = copies(alloc, values.values())?;
        Ok(Calendar { values, cells })
    }
}

// The different values of the days.
fn values_of<'a, V: Value>(
    alloc: Global,
    days: &'a Periods<V>,
) -> Result<DistinctValues<'a, V>, Memory>
    ensures { IfOk result (λ values. values ≡ different V.alike V.nothing days.now.days) }
{
    let mut values = DistinctValues::new(alloc);
    for number in 0..DAYS {
        add_new(&mut values, days.at(day_at(number)))?;
    }
    Ok(values)
}

/// Adds the value, if it is not the empty one and none of these. The only error is out of memory.
pub fn add_new<'a, V: Value>(values: &mut DistinctValues<'a, V>, value: &'a V) -> Result<(), Memory>
    ensures { OnOk result (values.new
        ≡ values.old ++ if_new V.alike V.nothing values.old (Some value.now)) }
{
    if value.is_empty() {
        return Ok(());
    }
    match values.index_of(value) {
        Some(_) => Ok(()),
        None => values.add(value),
    }
}

// Copies of values.
fn copies<V: Value>(alloc: Global, values: &[&V]) -> Result<Vec<V>, Memory>
    ensures { IfOk result (λ copies. copies.items ≡ map (λ value. value.now) values.now) }
{
    let mut copies = Vec::with_capacity(alloc, values.len())?;
    for value in values {
        copies.push(value.copy(alloc)?)?;
    }
    Ok(copies)
}

// The letter of each day.
fn cells_of<'a, V: Value>(
    alloc: Global,
    days: &'a Periods<V>,
    values: &DistinctValues<'a, V>,
) -> Result<Vec<u8>, Memory>
    ensures { IfOk result (λ cells. cells.items ≡ each_day
        (λ n. cell V.alike V.nothing values.now (slice_index_or days.now.days n V.nothing))) }
{
    let mut cells = Vec::new(alloc);
    for number in 0..DAYS {
        cells.push(cell_of(values, days.at(day_at(number))))?;
    }
    Ok(cells)
}

// The letter of a value, or a full stop for the empty one.
fn cell_of<'a, V: Value>(values: &DistinctValues<'a, V>, value: &'a V) -> u8
    ensures { result ≡ cell V.alike V.nothing values.now value.now }
{
    if value.is_empty() {
        return b'.';
    }
    letter_at(place_of(values, value))
}

/// The place of a value among these; their number if it is none of them.
pub fn place_of<'a, V: Value>(values: &DistinctValues<'a, V>, value: &'a V) -> usize
    ensures { result ≡ place_of V.alike values.now value.now }
{
    match values.index_of(value) {
        Some(index) => index,
        None => values.values().len(),
    }
}

/// The letter of the value at a place among the different ones: A to Z, then a to z, and # for all
/// others.
pub fn letter_at(place: usize) -> u8
    ensures { result ≡ letter_at place }
{
    if place < 26 {
        b'A' + place as u8
    } else if place < 52 {
        b'a' + (place as u8 - 26)
    } else {
        b'#'
    }
}
