//! The dates of a flight in parts, on each of which all legs are moved alike.

ghost use Rattle.std.specs.Prelude.{◌≡◌, ◌<◌, ◌≤◌, ◌+◌, ◌++◌, ◌∷◌, [], ℕ, List, true, map};
ghost use Rattle.std.specs.Prelude.{if◌then◌else◌, IfOk, OnOk};
ghost use Rattle.std.specs.List.{AllByRecursion};
ghost use Rattle.ssim_periods.specs.Calendar.{holds};
ghost use Rattle.ssim_periods.specs.Pieces.{held_on};
ghost use Rattle.ssim_base.specs.Stations.{variation_at};
ghost use Rattle.ssim_base.specs.Timetable.{Above};
ghost use Rattle.ssim_parts.specs.MovedLegs.{moved_flight};
ghost use Rattle.ssim_parts.specs.internal.Even.{IsEven, has_variations, have_variations};
ghost use Rattle.ssim_parts.specs.internal.Placed.{IsFit, IsPart};

use crate::moved_flight::MovedFlight;
use ssim_base::StationRow;
use ssim_records::LegColumns;
use ssim_schedule::{Itinerary, PlacedLeg};
use ssim_values::{Day, Memory, Period, TimeMode};
use std::alloc::Global;

/// The last day of the calendar.
const LAST: u16 = 36_524;

/// The dates of pieces in parts.
pub(crate) fn moved_parts(
    alloc: Global,
    rows: &[StationRow],
    wanted: TimeMode,
    pieces: &[(Period, Itinerary)],
) -> Result<Vec<(Period, MovedFlight)>, Memory>
    ensures held { IfOk result (λ parts. (n : ℕ) → held_on parts.items n
        ≡ map (moved_flight rows.now wanted n) (held_on pieces.now n)) }
    ensures fit { AllByRecursion (λ piece. Above 0 piece.1) pieces.now
        → IfOk result (λ parts. AllByRecursion IsFit parts.items) }
{
    let mut parts = Vec::new(alloc);
    for piece in pieces {
        add_parts(alloc, rows, wanted, &mut parts, &piece.0, piece.1.legs())?;
    }
    Ok(parts)
}

// Adds the parts of a period with these legs.
fn add_parts(
    alloc: Global,
    rows: &[StationRow],
    wanted: TimeMode,
    parts: &mut Vec<(Period, MovedFlight)>,
    period: &Period,
    legs: &[PlacedLeg],
) -> Result<(), Memory>
    ensures held { OnOk result ((n : ℕ) → held_on parts.new.items n
        ≡ held_on parts.old.items n
        ++ (if holds period.now n then moved_flight rows.now wanted n legs.now ∷ [] else [])) }
    ensures fit { Above 0 legs.now → AllByRecursion IsFit parts.old.items
        → OnOk result (AllByRecursion IsFit parts.new.items) }
{
    let end = period.last().number() + 1;
    let mut first = period.first().number();
    while first < end {
        let next = next_cut(rows, legs, first, end);
        let part = part_of(period, first, next);
        let made = MovedFlight::of(alloc, rows, wanted, part.first(), legs)?;
        parts.push((part, made))?;
        first = next;
    }
    Ok(())
}

// The part of a period from a day number up to an end.
fn part_of(period: &Period, first: u16, end: u16) -> Period
    requires some { first < end }
    requires to { end ≤ 36525 }
    ensures { IsPart period.now first end result }
{
    let first = Day::from_number(first).unwrap();
    let last = Day::from_number(end - 1).unwrap();
    match Period::new(first, last, period.mask()) {
        Ok(part) => part,
        Err(_) => unreachable!(),
    }
}

// A day, from a day number on and up to an end, before which the legs are moved alike.
fn next_cut(rows: &[StationRow], legs: &[PlacedLeg], first: u16, end: u16) -> u16
    requires from { first < end }
    requires to { end ≤ 36525 }
    ensures from { first < result }
    ensures to { result ≤ end }
    ensures even { IsEven rows.now legs.now first result }
{
    let cut = nearer(LAST, first, nearer(1, first, end));
    if have_variations(legs) {
        cut
    } else {
        row_cut(rows, first, cut)
    }
}

// Whether no UTC variation of the legs is blank.
fn have_variations(legs: &[PlacedLeg]) -> bool
    ensures { result ≡ have_variations legs.now }
{
    match legs.split_first() {
        None => true,
        Some((leg, later)) => has_variations(&leg.columns()) && have_variations(later),
    }
}

// Whether no UTC variation of a leg with these columns is blank.
fn has_variations(columns: &LegColumns) -> bool
    ensures { result ≡ has_variations columns.now }
{
    columns.departure_variation().is_some() && columns.arrival_variation().is_some()
}

// The first day, from a day number on and up to an end, at which a row begins or a row before ended;
// the end if there is none.
fn row_cut(rows: &[StationRow], first: u16, end: u16) -> u16
    requires { first < end }
    ensures from { first < result }
    ensures to { result ≤ end }
    ensures steady { (station : List ℕ) (n : ℕ) → first ≤ n → n < result
        → variation_at rows.now station n ≡ variation_at rows.now station first }
{
    let mut next = end;
    for row in rows {
        let cut = nearer(row.first().number(), first, next);
        next = nearer(row.last().number() + 1, first, cut);
    }
    next
}

// The cut if it lies after the first day and before the end; else the end.
fn nearer(cut: u16, first: u16, end: u16) -> u16
    requires { first < end }
    ensures from { first < result }
    ensures to { result ≤ end }
    ensures cut { first < cut → result ≤ cut }
{
    if first < cut && cut < end { cut } else { end }
}
