//! The leg records of a data set, flight by flight.

ghost use Rattle.ssim_periods.specs.CommonDays.{have_common_date};
ghost use Rattle.std.specs.Prelude.{◌≡◌, ◌≢◌, ℕ, ◌+◌, ◌*◌, ◌/◌, ◌%◌, ◌<◌, ◌++◌, [], Bool, length, OnOk, IfOk, slice_get};
ghost use Rattle.ssim_values.specs.Flight.{IsFlight};
ghost use Rattle.ssim_periods.specs.Calendar.{holds};
ghost use Rattle.ssim_base.specs.Export.{flight_at};
ghost use Rattle.ssim_base.specs.internal.LegTable.{AddsLeg, AddsLegAt, flights_in, flights_left, flights_of, has_legs, legs_at, legs_in, names_leg, uses_date};
ghost use Rattle.ssim_base.specs.ReadBack.{place_of};

pub(crate) mod day_set;
pub(crate) mod flight_legs;
pub(crate) mod leg_sequence;
pub(crate) mod period_list;
pub(crate) mod used_dates;

use crate::leg_table::flight_legs::FlightLegs;
use ssim_records::LegName;
use ssim_values::{Flight, Memory, Period};
use std::alloc::Global;

/// The number of flight numbers.
const NUMBERS: usize = 10_000;

/// The number of flights of one number: without a suffix, and A to Z.
const SUFFIXES: usize = 27;

/// What the leg records so far name and which dates they have, by flight. A look-up is by index,
/// and takes the same time however many flights there are.
#[derive(Drop)]
pub(crate) struct LegTable {
    /// At the index of a flight number a list of flights, and there at the index of a suffix its
    /// flight. The lists end at the last number and suffix of a leg record.
    numbers: Vec<Vec<FlightLegs>>,
    alloc: Global,
}

impl LegTable {
    /// No leg record.
    pub(crate) fn new(alloc: Global) -> LegTable
        ensures { (place : ℕ) → legs_at result place ≡ [] }
    {
        LegTable {
            numbers: Vec::new(alloc),
            alloc,
        }
    }

    /// One more leg record, of a period. Returns whether another one of its flight and leg sequence
    /// had one of the dates.
    pub(crate) fn add(&mut self, name: LegName, period: &Period) -> Result<bool, Memory>
        ensures ok { OnOk result (AddsLegAt self.old self.new (place_of name.flight) name.sequence
            name.variation period.now) }
        ensures met { IfOk result (λ met. met
            ≡ have_common_date (holds period.now)
            (uses_date (legs_at self.old (place_of name.flight)) name.sequence)) }
        ensures flight { IsFlight name.flight }
    {
        let (number, suffix) = indexes(name.flight());
        grow_numbers(self.alloc, &mut self.numbers, number)?;
        add_to(self.alloc, &mut self.numbers[number], suffix, name, period)
    }

    /// Whether a leg record has this name.
    pub(crate) fn has(&self, name: LegName) -> bool
        ensures value { result ≡ names_leg (legs_at self.now (place_of name.flight)) name.sequence
            name.variation }
        ensures flight { IsFlight name.flight }
    {
        let (number, suffix) = indexes(name.flight());
        number < self.numbers.len() && has_in(&self.numbers[number], suffix, name)
    }

    /// Whether a leg record of the same flight and leg sequence has one of the dates of a period.
    pub(crate) fn meets(&self, name: LegName, period: &Period) -> bool
        ensures value { result ≡ have_common_date (holds period.now)
            (uses_date (legs_at self.now (place_of name.flight)) name.sequence) }
        ensures flight { IsFlight name.flight }
    {
        let (number, suffix) = indexes(name.flight());
        number < self.numbers.len() && meets_in(&self.numbers[number], suffix, name, period)
    }

    /// The flights of the leg records, each once, by number and suffix.
    pub(crate) fn flights(&self) -> Result<Vec<Flight>, Memory>
        ensures { IfOk result (λ flights. flights.items ≡ flights_in self.now) }
    {
        let mut flights = Vec::new(self.alloc);
        push_all(&mut flights, &self.numbers)?;
        flights.shrink_to_fit();
        Ok(flights)
    }
}

// The index of the list of a flight's number, and the index of the flight in that list. Dividing
// the flight's rank would take longer.
fn indexes(flight: Flight) -> (usize, usize)
    ensures number { result.0 ≡ place_of flight / 27 }
    ensures number_to { result.0 < 10000 }
    ensures suffix { result.1 ≡ place_of flight % 27 }
    ensures suffix_to { result.1 < 27 }
    ensures flight { IsFlight flight }
{
    let suffix = match flight.suffix() {
        b' ' => 0,
        letter => letter as usize - 64,
    };
    (flight.number() as usize, suffix)
}

// Makes the list of a flight number exist. Mostly it exists.
#[inline(always)]
fn grow_numbers(
    alloc: Global,
    numbers: &mut Vec<Vec<FlightLegs>>,
    number: usize,
) -> Result<(), Memory>
    requires { number < 10000 }
    ensures there { OnOk result (number < length numbers.new.items) }
    ensures same { OnOk result ((k : ℕ)
        → flights_of (slice_get numbers.new.items k) ≡ flights_of (slice_get numbers.old.items k)) }
{
    if number < numbers.len() {
        return Ok(());
    }
    push_numbers(alloc, numbers, number)
}

// Does what `grow_numbers` does if the list does not exist.
#[inline(never)]
fn push_numbers(
    alloc: Global,
    numbers: &mut Vec<Vec<FlightLegs>>,
    number: usize,
) -> Result<(), Memory>
    requires { number < 10000 }
    ensures there { OnOk result (number < length numbers.new.items) }
    ensures same { OnOk result ((k : ℕ)
        → flights_of (slice_get numbers.new.items k) ≡ flights_of (slice_get numbers.old.items k)) }
{
    for _ in numbers.len()..number + 1 {
        numbers.push(Vec::new(alloc))?;
    }
    Ok(())
}

// Adds a leg record to the flight at an index.
fn add_to(
    alloc: Global,
    flights: &mut Vec<FlightLegs>,
    suffix: usize,
    name: LegName,
    period: &Period,
) -> Result<bool, Memory>
    requires { suffix < 27 }
    ensures ok { OnOk result (AddsLeg (legs_in flights.old.items suffix)
        (legs_in flights.new.items suffix) name.sequence name.variation period.now) }
    ensures others { OnOk result ((k : ℕ) → k ≢ suffix
        → legs_in flights.new.items k ≡ legs_in flights.old.items k) }
    ensures met { IfOk result (λ met. met
        ≡ have_common_date (holds period.now)
        (uses_date (legs_in flights.old.items suffix) name.sequence)) }
{
    grow_flights(alloc, flights, suffix)?;
    flights[suffix].add(alloc, name.sequence(), name.variation(), period)
}

// Makes the flight at an index exist. Mostly it exists.
#[inline(always)]
fn grow_flights(alloc: Global, flights: &mut Vec<FlightLegs>, suffix: usize) -> Result<(), Memory>
    requires { suffix < 27 }
    ensures there { OnOk result (suffix < length flights.new.items) }
    ensures same { OnOk result ((k : ℕ)
        → legs_in flights.new.items k ≡ legs_in flights.old.items k) }
{
    if suffix < flights.len() {
        return Ok(());
    }
    push_missing(alloc, flights, suffix)
}

// Does what `grow_flights` does if the flight does not exist.
#[inline(never)]
fn push_missing(alloc: Global, flights: &mut Vec<FlightLegs>, suffix: usize) -> Result<(), Memory>
    requires { suffix < 27 }
    ensures there { OnOk result (suffix < length flights.new.items) }
    ensures same { OnOk result ((k : ℕ)
        → legs_in flights.new.items k ≡ legs_in flights.old.items k) }
{
    if flights.is_empty() {
        // Most flights are the only ones of their number.
        flights.reserve_exact(suffix + 1)?;
    }
    for _ in flights.len()..suffix + 1 {
        flights.push(FlightLegs::new(alloc))?;
    }
    Ok(())
}

// Whether a leg record of the flight at an index has this name.
fn has_in(flights: &[FlightLegs], suffix: usize, name: LegName) -> bool
    ensures { result ≡ names_leg (legs_in flights.now suffix) name.sequence name.variation }
{
    suffix < flights.len() && flights[suffix].has(name.sequence(), name.variation())
}

// Whether a leg record of the flight at an index, and of the leg sequence of this name, has one of
// the dates of a period.
fn meets_in(flights: &[FlightLegs], suffix: usize, name: LegName, period: &Period) -> bool
    ensures { result ≡ have_common_date (holds period.now)
        (uses_date (legs_in flights.now suffix) name.sequence) }
{
    suffix < flights.len() && flights[suffix].meets(name.sequence(), period)
}

// Pushes the flights of all numbers.
fn push_all(all: &mut Vec<Flight>, numbers: &[Vec<FlightLegs>]) -> Result<(), Memory>
    ensures { OnOk result (all.new.items
        ≡ all.old.items ++ flights_left
        (λ place. has_legs (legs_in (flights_of (slice_get numbers.now (place / 27))) (place % 27)))
        0) }
{
    for number in 0..numbers.len().min(NUMBERS) {
        push_flights(all, number, &numbers[number])?;
    }
    Ok(())
}

// Pushes the flights of a number that have leg records.
fn push_flights(all: &mut Vec<Flight>, number: usize, flights: &[FlightLegs]) -> Result<(), Memory>
    requires { number < 10000 }
    ensures { OnOk result ((has : ℕ → Bool)
        → ((suffix : ℕ) → suffix < 27 → has (27 * number + suffix)
        ≡ has_legs (legs_in flights.now suffix))
        → all.new.items ++ flights_left has (27 * number + 27)
        ≡ all.old.items ++ flights_left has (27 * number)) }
{
    for suffix in 0..flights.len().min(SUFFIXES) {
        if flights[suffix].has_legs() {
            all.push(flight_of(number, suffix))?;
        }
    }
    Ok(())
}

// The flight of a number and the index of its suffix, the blank first.
fn flight_of(number: usize, suffix: usize) -> Flight
    requires number { number < 10000 }
    requires suffix { suffix < 27 }
    ensures { result ≡ flight_at (27 * number + suffix) }
{
    let letter = if suffix == 0 { b' ' } else { 64 + suffix as u8 };
    match Flight::new(number as u16, letter) {
        Some(flight) => flight,
        None => unreachable!(),
    }
}
