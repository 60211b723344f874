//! The timetable in the other time mode.

ghost use Rattle.std.specs.Prelude.{◌≡◌, ◌<◌, ◌≤◌, ◌+◌, ◌-◌, ◌∷◌, [], ℕ, length, IfOk};
ghost use Rattle.std.specs.Prelude.{OnOk, true};
ghost use Rattle.std.specs.List.{AllByRecursion};
ghost use Rattle.ssim_values.specs.Flight.{FlightNumber, IsFlight};
ghost use Rattle.ssim_periods.specs.Days.{each_day};
ghost use Rattle.ssim_periods.specs.Pieces.{pieces_of};
ghost use Rattle.ssim_base.specs.Export.{same_itinerary};
ghost use Rattle.ssim_base.specs.Timetable.{Above, Days};
ghost use Rattle.ssim_schedule.specs.clauses.Schedule.{days_in};
ghost use Rattle.ssim_parts.specs.Converted.{converted_days, converted_on};
ghost use Rattle.ssim_parts.specs.FlightFates.{fate_pieces, fates_of};
ghost use Rattle.ssim_parts.specs.declared.fate.Fate.{Fate};
ghost use Rattle.ssim_parts.specs.internal.Changes.{ChangesFlight};
ghost use Rattle.ssim_parts.specs.internal.KeptDates.{or_legs};
ghost use Rattle.ssim_parts.specs.internal.Placed.{IsFit, IsKeptByParts, fate_after, fate_in};
ghost use Rattle.ssim_parts.specs.internal.Placed.{has_shift, legs_put};

use crate::fate::{Fate, LeavesKept};
use crate::fate_runs::fate_runs;
use crate::moved_flight::MovedFlight;
use crate::moved_parts::moved_parts;
use crate::moved_period::moved_period;
use ssim_base::StationRow;
use ssim_periods::{Change, Periods, Value};
use ssim_schedule::{Itinerary, PlacedLeg, Schedule};
use ssim_values::{Flight, Memory, Period, TimeMode};
use std::alloc::Global;
use std::marker::Model;

/// A flight, and what becomes of its dates.
#[derive(Drop)]
pub struct FlightFates {
    flight: Flight,
    pieces: Vec<(Period, Fate)>,
}

impl Model for FlightFates {
    ghost use Rattle.ssim_parts.specs.FlightFates.{FlightFate};

    ghost Value = { FlightFate };

    ghost view = { λ f. (f.flight, f.pieces.items) };
}

impl FlightFates {
    /// The flight.
    pub fn flight(&self) -> Flight
        ensures { result ≡ self.now.0 }
    {
        self.flight
    }

    /// The periods of its dates, each with what becomes of them, by first day.
    pub fn pieces(&self) -> &[(Period, Fate)]
        ensures { result.now ≡ self.now.1 }
    {
        &self.pieces
    }
}

/// A timetable in the other time mode.
#[derive(Drop)]
pub struct Converted {
    pub schedule: Schedule,
    /// The flights of the old timetable that fly on some date, by number and suffix, each with what
    /// becomes of its dates.
    pub fates: Vec<FlightFates>,
}

/// The timetable in the new time mode, which is the other one. The rows are those of a station
/// table: they give the UTC variations that are blank. `into` is a schedule without flights, which
/// becomes the new timetable.
///
/// The cost is, for each flight, its pieces, their legs once, and a change of the new timetable for
/// each piece. Pieces whose legs have blank UTC variations are first divided where rows of the
/// station table begin and end.
pub fn convert(
    alloc: Global,
    rows: &[StationRow],
    wanted: TimeMode,
    old: &Schedule,
    into: Schedule,
) -> Result<Converted, Memory>
    requires { (g : FlightNumber) → IsFlight g → days_in into g ≡ each_day (λ _. []) }
    ensures days { IfOk result (λ made. (g : FlightNumber) → IsFlight g
        → days_in made.schedule g ≡ converted_days rows.now wanted (days_in old.now g)) }
    ensures fates { IfOk result
        (λ made. made.fates.items ≡ fates_of rows.now wanted (days_in old.now)) }
{
    // No effect at run time but a list. The proof reads from this call that each flight has a value
    // for each day.
    let _ = old.flights()?;
    let mut schedule = into;
    let mut fates = Vec::new(alloc);
    let flights = old.copy()?.into_flights()?;
    for one in &flights {
        let flight = one.flight();
        exists(flight);
        look_at_each(old, &flight, one.pieces());
        let pieces = convert_flight(alloc, rows, wanted, flight, one.pieces(), &mut schedule)?;
        fates.push(FlightFates { flight, pieces })?;
    }
    Ok(Converted { schedule, fates })
}

// No effect. The proof reads from it what a flight is.
fn exists(flight: Flight)
    ensures { IsFlight flight }
{
    let _ = (flight.number(), flight.suffix());
}

// No effect. The proof reads from it that the legs of pieces are in order: those of an itinerary of the
// old timetable are, so none is searched for.
fn look_at_each(old: &Schedule, flight: &Flight, pieces: &[(Period, Itinerary)])
    requires { pieces.now ≡ pieces_of same_itinerary [] (days_in old.now flight.now) }
    ensures { AllByRecursion (λ piece. Above 0 piece.1) pieces.now }
{
    for piece in pieces {
        if !are_above(0, piece.1.legs()) {
            let _ = old.itinerary(flight, piece.0.first());
        }
    }
}

// Whether leg sequences rise from a number on.
fn are_above(number: u8, legs: &[PlacedLeg]) -> bool
    ensures { result ≡ true → Above number legs.now }
{
    match legs.split_first() {
        None => true,
        Some((leg, later)) => number < leg.sequence() && are_above(leg.sequence(), later),
    }
}

// Puts a flight of these pieces into the new timetable. Returns what becomes of its dates.
fn convert_flight(
    alloc: Global,
    rows: &[StationRow],
    wanted: TimeMode,
    flight: Flight,
    pieces: &[(Period, Itinerary)],
    schedule: &mut Schedule,
) -> Result<Vec<(Period, Fate)>, Memory>
    requires { AllByRecursion (λ piece. Above 0 piece.1) pieces.now }
    ensures days { (days : Days) → length days ≡ 36525 → pieces.now ≡ pieces_of same_itinerary [] days
        → OnOk result (ChangesFlight flight
        (λ m before. or_legs before (converted_on rows.now wanted days m))
        schedule.old schedule.new) }
    ensures fates { (days : Days) → length days ≡ 36525 → pieces.now ≡ pieces_of same_itinerary [] days
        → IfOk result (λ fates. fates.items ≡ fate_pieces rows.now wanted days) }
{
    let parts = moved_parts(alloc, rows, wanted, pieces)?;
    put_all(schedule, flight, &parts)?;
    fates_of_parts(alloc, &parts)?.pieces()
}

// Puts the legs of all dates on their new dates. Of two dates that come to one, the earlier has the
// greater shift.
fn put_all(
    schedule: &mut Schedule,
    flight: Flight,
    parts: &[(Period, MovedFlight)],
) -> Result<(), Memory>
    requires { AllByRecursion IsFit parts.now }
    ensures { OnOk result (ChangesFlight flight (λ m before. legs_put 0 parts.now m
        (legs_put 1 parts.now m (legs_put 2 parts.now m before))) schedule.old schedule.new) }
{
    put_parts(schedule, flight, parts, 2)?;
    put_parts(schedule, flight, parts, 1)?;
    put_parts(schedule, flight, parts, 0)
}

// Puts the legs of dates with this shift on their new dates, where no legs are yet.
fn put_parts(
    schedule: &mut Schedule,
    flight: Flight,
    parts: &[(Period, MovedFlight)],
    shift: u8,
) -> Result<(), Memory>
    requires fit { AllByRecursion IsFit parts.now }
    requires shift { shift ≤ 2 }
    ensures { OnOk result (ChangesFlight flight (legs_put shift parts.now)
        schedule.old schedule.new) }
{
    for part in parts {
        put_part(schedule, flight, part, shift)?;
    }
    Ok(())
}

// Puts the legs of a part on its new dates, if it has this shift.
fn put_part(
    schedule: &mut Schedule,
    flight: Flight,
    part: &(Period, MovedFlight),
    shift: u8,
) -> Result<(), Memory>
    requires fit { IsFit part.now }
    requires shift { shift ≤ 2 }
    ensures { OnOk result (ChangesFlight flight (legs_put shift (part.now ∷ []))
        schedule.old schedule.new) }
{
    if !part.1.fate.is_kept_with(shift) {
        return Ok(());
    }
    match moved_period(&part.0, shift) {
        None => Ok(()),
        Some(moved) => {
            let itinerary = &part.1.legs;
            schedule.change(flight, &moved, &PutWhereNone { itinerary })
        }
    }
}

// What becomes of the dates of parts.
fn fates_of_parts(alloc: Global, parts: &[(Period, MovedFlight)]) -> Result<Periods<Fate>, Memory>
    ensures { IfOk result (λ fates. fates.days ≡ each_day (fate_in parts.now)) }
{
    let mut fates = Periods::new(alloc);
    fates.replace_each(&fate_runs(alloc, parts)?)?;
    leave_later(&mut fates, parts, 2, 1)?;
    leave_later(&mut fates, parts, 2, 0)?;
    leave_later(&mut fates, parts, 1, 0)?;
    Ok(fates)
}

// Leaves the dates with the shift `later` to whose new dates earlier ones come, which have this
// shift. Mostly no date has the shift `later`.
fn leave_later(
    fates: &mut Periods<Fate>,
    parts: &[(Period, MovedFlight)],
    shift: u8,
    later: u8,
) -> Result<(), Memory>
    requires order { later < shift }
    requires shift { shift ≤ 2 }
    ensures { (before : ℕ → Fate) → IsKeptByParts later parts.now before
        → fates.old.days ≡ each_day before → OnOk result
        (fates.new.days ≡ each_day (λ n. fate_after shift (shift + 1 - later) later parts.now n
        (before n))) }
{
    if !has_shift(parts, later) {
        return Ok(());
    }
    for part in parts {
        leave_dates(fates, part, shift, later)?;
    }
    Ok(())
}

// Whether a part is to be kept with a shift.
fn has_shift(parts: &[(Period, MovedFlight)], shift: u8) -> bool
    ensures { result ≡ has_shift shift parts.now }
{
    match parts.split_first() {
        None => false,
        Some((part, later)) => part.1.fate.is_kept_with(shift) || has_shift(later, shift),
    }
}

// Does so for the dates of a part, if it has this shift.
fn leave_dates(
    fates: &mut Periods<Fate>,
    part: &(Period, MovedFlight),
    shift: u8,
    later: u8,
) -> Result<(), Memory>
    requires order { later < shift }
    requires shift { shift ≤ 2 }
    ensures { (before : ℕ → Fate) → fates.old.days ≡ each_day before → OnOk result
        (fates.new.days ≡ each_day (λ n. fate_after shift (shift + 1 - later) later
        (part.now ∷ []) n (before n))) }
{
    if !part.1.fate.is_kept_with(shift) {
        return Ok(());
    }
    match moved_period(&part.0, shift + 1 - later) {
        None => Ok(()),
        Some(moved) => fates.replace(&moved, &LeavesKept { shift: later }),
    }
}

/// Legs on the dates that have none.
#[derive(Clone, Copy)]
struct PutWhereNone<'a> {
    itinerary: &'a Itinerary,
}

impl<'a> Change<Itinerary> for PutWhereNone<'a> {
    ghost use Rattle.ssim_parts.specs.internal.KeptDates.{or_legs};

    ghost outcome = { λ c legs. or_legs legs c.itinerary.now };

    ghost class_of = { λ _ _. 0 };

    fn after(&self, alloc: Global, legs: &Itinerary) -> Result<Itinerary, Memory> {
        if legs.is_empty() {
            self.itinerary.copy(alloc)
        } else {
            legs.copy(alloc)
        }
    }

    fn class(&self, _legs: &Itinerary) -> u8 {
        0
    }
}
