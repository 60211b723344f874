//! The legs of a flight date in another time mode, and why it has no place there.

ghost use Rattle.std.specs.Prelude.{◌≡◌, ◌≤◌, List, IfOk};
ghost use Rattle.ssim_values.specs.declared.time_mode.TimeMode.{TimeMode};
ghost use Rattle.ssim_base.specs.Stations.{Row};
ghost use Rattle.ssim_base.specs.Timetable.{Legs};
ghost use Rattle.ssim_parts.specs.MovedLegs.{end_beyond, end_unknown, or_reason};
ghost use Rattle.ssim_parts.specs.MovedLegs.{outside, own_fate, shift_of};
ghost use Rattle.ssim_parts.specs.internal.MovedDates.{AreMoved, IsMovedLeg};
ghost use Rattle.ssim_parts.specs.internal.Placed.{IsShort};

use crate::fate::{Fate, LeftReason};
use crate::leg_end::LegEnd;
use crate::moved_columns::with_ends;
use crate::moved_end::{MovedEnd, days_after};
use ssim_base::StationRow;
use ssim_schedule::PlacedLeg;
use ssim_values::{Day, Memory, TimeMode};
use std::alloc::Global;

/// The number after the last day of the calendar.
const DAYS: u16 = 36_525;

/// A leg of a flight date in the new time mode.
#[derive(Drop)]
struct MovedLeg {
    leg: PlacedLeg,
    /// Whether something is not known of its ends.
    unknown: Option<LeftReason>,
    /// Whether a new date variation of its ends has no digit.
    beyond: Option<LeftReason>,
}

/// The legs of a flight date in the new time mode.
#[derive(Drop)]
pub(crate) struct MovedLegs {
    pub legs: Vec<PlacedLeg>,
    /// The first end of which something is not known.
    unknown: Option<LeftReason>,
    /// The first end whose new date variation has no digit.
    beyond: Option<LeftReason>,
}

impl MovedLegs {
    /// These legs, for a date of origin that moves by this shift.
    pub(crate) fn of(
        alloc: Global,
        rows: &[StationRow],
        wanted: TimeMode,
        day: Day,
        shift: u8,
        legs: &[PlacedLeg],
    ) -> Result<MovedLegs, Memory>
        requires { shift ≤ 2 }
        ensures { IfOk result (AreMoved rows.now wanted day shift legs.now) }
    {
        let mut moved = Vec::with_capacity(alloc, legs.len())?;
        let mut unknown = None;
        let mut beyond = None;
        for leg in legs {
            let one = moved_leg(alloc, rows, wanted, day, shift, leg)?;
            unknown = or_reason(unknown, one.unknown);
            beyond = or_reason(beyond, one.beyond);
            moved.push(one.leg)?;
        }
        Ok(MovedLegs {
            legs: moved,
            unknown,
            beyond,
        })
    }

    /// What becomes of the flight date, other dates left aside.
    pub(crate) fn own_fate(&self, day: Day, shift: u8) -> Fate
        requires { shift ≤ 2 }
        ensures value { (rows : List Row) (wanted : TimeMode) (legs : Legs)
            → AreMoved rows wanted day shift legs self.now → shift ≡ shift_of rows wanted day legs
            → result ≡ own_fate rows wanted day legs }
        ensures short { IsShort result }
    {
        if self.legs.is_empty() {
            return Fate::Absent;
        }
        match self.own_reason(day, shift) {
            None => Fate::Kept(shift),
            Some(reason) => Fate::Left(reason),
        }
    }

    // The first reason for which the flight date is left, if there is one.
    fn own_reason(&self, day: Day, shift: u8) -> Option<LeftReason>
        requires { shift ≤ 2 }
        ensures { result ≡ or_reason self.now.unknown
            (or_reason (outside day shift) self.now.beyond) }
    {
        let outside = outside(day, shift);
        or_reason(self.unknown, or_reason(outside, self.beyond))
    }
}

/// To which day the date of origin moves.
pub(crate) fn shift_of(rows: &[StationRow], wanted: TimeMode, day: Day, legs: &[PlacedLeg]) -> u8
    ensures value { result ≡ shift_of rows.now wanted day legs.now }
    ensures bound { result ≤ 2 }
{
    match legs.split_first() {
        None => 1,
        Some((leg, _)) => {
            let departure = LegEnd::departure_of(&leg.columns());
            departure.moved_time(rows, wanted, day).day
        }
    }
}

// The first reason, or else the next one.
fn or_reason(reason: Option<LeftReason>, next: Option<LeftReason>) -> Option<LeftReason>
    ensures { result ≡ or_reason reason next }
{
    match reason {
        None => next,
        Some(reason) => Some(reason),
    }
}

// Whether something is not known of an end.
fn end_unknown(rows: &[StationRow], day: Day, sequence: u8, end: &LegEnd) -> Option<LeftReason>
    ensures { result ≡ end_unknown rows.now day sequence end.now }
{
    if end.variation_on(rows, day).is_none() {
        return Some(LeftReason::Station(sequence));
    }
    if days_after(end.date_variation).is_none() {
        return Some(LeftReason::Letter(sequence));
    }
    None
}

// Whether the new date is outside of the calendar.
fn outside(day: Day, shift: u8) -> Option<LeftReason>
    requires { shift ≤ 2 }
    ensures { result ≡ outside day shift }
{
    let date = day.number() + shift as u16;
    if date < 1 || DAYS < date {
        Some(LeftReason::Calendar)
    } else {
        None
    }
}

// Whether the new date variation of an end has no digit.
fn end_beyond(sequence: u8, shift: u8, end: &MovedEnd) -> Option<LeftReason>
    requires { shift ≤ 2 }
    ensures { result ≡ end_beyond sequence shift end.now }
{
    if end.day < shift || shift + 9 < end.day {
        Some(LeftReason::Days(sequence))
    } else {
        None
    }
}

// A leg of a flight date in the new time mode.
fn moved_leg(
    alloc: Global,
    rows: &[StationRow],
    wanted: TimeMode,
    day: Day,
    shift: u8,
    leg: &PlacedLeg,
) -> Result<MovedLeg, Memory>
    requires { shift ≤ 2 }
    ensures { IfOk result (IsMovedLeg rows.now wanted day shift leg.now) }
{
    let columns = leg.columns();
    let sequence = leg.sequence();
    let departure = LegEnd::departure_of(&columns);
    let arrival = LegEnd::arrival_of(&columns);
    let first = end_unknown(rows, day, sequence, &departure);
    let second = end_unknown(rows, day, sequence, &arrival);
    let new_departure = departure.moved(rows, wanted, day);
    let new_arrival = arrival.moved(rows, wanted, day);
    let third = end_beyond(sequence, shift, &new_departure);
    let fourth = end_beyond(sequence, shift, &new_arrival);
    let mut moved = leg.copy(alloc)?;
    moved.set_columns(with_ends(&columns, &new_departure, &new_arrival, shift));
    Ok(MovedLeg {
        leg: moved,
        unknown: or_reason(first, second),
        beyond: or_reason(third, fourth),
    })
}
