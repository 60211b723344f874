//! The effect of a sub-message on an itinerary.

ghost use Rattle.std.specs.Prelude.{◌≡◌, IfOk, unwrap_or};
ghost use Rattle.ssim_schedule.specs.Effect.{equip, equipped, fits, has_leg, have_legs, retime, retimed, variation_on, with_line, with_lines};
ghost use Rattle.ssim_schedule.specs.internal.ActionParts.{made_of};

use crate::effect::message_columns::{with_equipment, with_times};
use crate::effect::new_legs::legs_on;
use crate::finding::Reason;
use crate::itinerary::Itinerary;
use crate::leg::{PlacedLeg, copy_legs};
use ssim_base::StationRow;
use ssim_periods::{Change, Value};
use ssim_text::{Action, Equipment, LegLine};
use ssim_values::{Day, Memory};
use std::alloc::Global;

/// The change that a sub-message is on one day.
#[derive(Drop)]
pub(crate) struct SubMessageChange<'a> {
    pub rows: &'a [StationRow],
    pub action: &'a Action,
    pub day: Day,

    /// The new legs, which all dates share.
    pub made: Option<Itinerary>,
    ghost made_is: { made ≡ made_of (variation_on rows.now day) action.now },
}

// Whether the leg has the line's two stations.
fn fits(leg: &PlacedLeg, line: &LegLine) -> bool
    ensures { result ≡ fits line.now leg.now }
{
    let columns = leg.columns();
    columns.departure_station() == line.departure.station
        && columns.arrival_station() == line.arrival.station
}

// Gives the line's times to the first leg that fits it.
fn set_times(legs: &mut [PlacedLeg], line: &LegLine)
    ensures { legs.new ≡ with_line line.now legs.old }
{
    match legs.split_first_mut() {
        None => {}
        Some((leg, rest)) => {
            if fits(leg, line) {
                leg.set_columns(with_times(leg.columns(), line));
            } else {
                set_times(rest, line)
            }
        }
    }
}

// Gives the legs the times of all lines, one line after another.
fn set_all_times(legs: &mut [PlacedLeg], lines: &[LegLine])
    ensures { legs.new ≡ with_lines lines.now legs.old }
{
    match lines.split_first() {
        None => {}
        Some((line, rest)) => {
            set_times(legs, line);
            set_all_times(legs, rest)
        }
    }
}

// Whether there is a leg that fits the line.
fn is_there(legs: &[PlacedLeg], line: &LegLine) -> bool
    ensures { result ≡ has_leg legs.now line.now }
{
    match legs.split_first() {
        None => false,
        Some((leg, rest)) => fits(leg, line) || is_there(rest, line),
    }
}

// Whether each line has a leg that fits it.
fn have_all(legs: &[PlacedLeg], lines: &[LegLine]) -> bool
    ensures { result ≡ have_legs legs.now lines.now }
{
    match lines.split_first() {
        None => true,
        Some((line, rest)) => is_there(legs, line) && have_all(legs, rest),
    }
}

fn equipped_leg(alloc: Global, equipment: &Equipment, leg: &PlacedLeg) -> Result<PlacedLeg, Memory>
    ensures { IfOk result (λ new. new ≡ equipped equipment.now leg.now) }
{
    let mut new = leg.copy(alloc)?;
    new.set_columns(with_equipment(leg.columns(), equipment));
    Ok(new)
}

// The itinerary after other equipment.
fn equipped(alloc: Global, equipment: &Equipment, old: &Itinerary) -> Result<Itinerary, Memory>
    ensures { IfOk result (λ new. new ≡ (equip equipment.now old.now).0) }
{
    if old.is_empty() {
        return old.copy(alloc);
    }
    let mut legs = Vec::with_capacity(alloc, old.legs().len())?;
    for leg in old.legs() {
        legs.push(equipped_leg(alloc, equipment, leg)?)?;
    }
    Itinerary::of(alloc, legs)
}

// The itinerary after new times.
fn retimed(alloc: Global, lines: &[LegLine], old: &Itinerary) -> Result<Itinerary, Memory>
    ensures { IfOk result (λ new. new ≡ (retime lines.now old.now).0) }
{
    if old.is_empty() {
        return old.copy(alloc);
    }
    if !have_all(old.legs(), lines) {
        return old.copy(alloc);
    }
    let legs = retimed_legs(alloc, lines, old.legs())?;
    Itinerary::of(alloc, legs)
}

// Copies of legs, with the times of each line at the first that fits it.
fn retimed_legs(
    alloc: Global,
    lines: &[LegLine],
    legs: &[PlacedLeg],
) -> Result<Vec<PlacedLeg>, Memory>
    ensures { IfOk result (λ new. new.items ≡ with_lines lines.now legs.now) }
{
    let mut new = copy_legs(alloc, legs)?;
    set_all_times(&mut new, lines);
    Ok(new)
}

// The new legs of an action that has them.
fn made_on(
    alloc: Global,
    rows: &[StationRow],
    action: &Action,
    day: Day,
) -> Result<Option<Itinerary>, Memory>
    ensures { IfOk result (λ made. made ≡ made_of (variation_on rows.now day) action.now) }
{
    match action {
        Action::New(new) => legs_on(alloc, rows, day, new),
        Action::Rpl(new) => legs_on(alloc, rows, day, new),
        Action::Cnl => Ok(None),
        Action::Eqt(_) => Ok(None),
        Action::Tim(_) => Ok(None),
    }
}

impl<'a> SubMessageChange<'a> {
    /// The sub-message as it acts on a day.
    pub(crate) fn on(
        alloc: Global,
        rows: &'a [StationRow],
        action: &'a Action,
        day: Day,
    ) -> Result<SubMessageChange<'a>, Memory>
        ensures rows { IfOk result (λ acting. acting.rows.now ≡ rows.now) }
        ensures action { IfOk result (λ acting. acting.action.now ≡ action.now) }
        ensures day { IfOk result (λ acting. acting.day ≡ day) }
    {
        let made = made_on(alloc, rows, action, day)?;
        Ok(SubMessageChange {
            rows,
            action,
            day,
            made,
        })
    }

    // The new legs, or the old ones if none were made.
    fn made_or(&self, alloc: Global, old: &Itinerary) -> Result<Itinerary, Memory>
        ensures { IfOk result (λ new. new ≡ unwrap_or self.now.made old.now) }
    {
        match &self.made {
            None => old.copy(alloc),
            Some(new) => new.copy(alloc),
        }
    }
}

impl<'a> SubMessageChange<'a> {
    ghost use Rattle.std.specs.Prelude.{[]};
    ghost use Rattle.ssim_schedule.specs.Effect.{act_or, effect};
    ghost use Rattle.ssim_schedule.specs.declared.finding.Reason.TheVariants.{Station};

    // Why NEW or RPL acts or not, if there is no other reason against it.
    fn made_reason(&self) -> Reason
        ensures { result ≡ (act_or Station [] self.now.made).1 }
    {
        if self.made.is_some() {
            Reason::Acted
        } else {
            Reason::Station
        }
    }

    // Why the sub-message acts or not, if the flight does not fly.
    fn reason_absent(&self) -> Reason
        ensures { result ≡ (effect self.now.rows.now self.now.action.now self.now.day []).1 }
    {
        match self.action {
            Action::New(_) => self.made_reason(),
            Action::Cnl | Action::Rpl(_) | Action::Eqt(_) | Action::Tim(_) => Reason::Absent,
        }
    }

    // Why the sub-message acts or not.
    pub(crate) fn reason(&self, old: &Itinerary) -> Reason
        ensures { result ≡ (effect self.now.rows.now self.now.action.now self.now.day old.now).1 }
    {
        if old.is_empty() {
            return self.reason_absent();
        }
        match self.action {
            Action::New(_) => Reason::Present,
            Action::Cnl | Action::Eqt(_) => Reason::Acted,
            Action::Rpl(_) => self.made_reason(),
            Action::Tim(lines) => {
                if have_all(old.legs(), lines.lines()) {
                    Reason::Acted
                } else {
                    Reason::Leg
                }
            }
        }
    }
}

impl<'a> Change<Itinerary> for SubMessageChange<'a> {
    ghost use Rattle.ssim_schedule.specs.Effect.{class_number, effect};

    ghost outcome = { λ c old. (effect c.rows.now c.action.now c.day old).0 };

    ghost class_of = { λ c old. class_number (effect c.rows.now c.action.now c.day old).1 };

    fn after(&self, alloc: Global, old: &Itinerary) -> Result<Itinerary, Memory> {
        match self.action {
            Action::New(_) => {
                if old.is_empty() {
                    self.made_or(alloc, old)
                } else {
                    old.copy(alloc)
                }
            }
            Action::Cnl => Ok(Itinerary::empty()),
            Action::Rpl(_) => {
                if old.is_empty() {
                    old.copy(alloc)
                } else {
                    self.made_or(alloc, old)
                }
            }
            Action::Eqt(equipment) => equipped(alloc, equipment, old),
            Action::Tim(lines) => retimed(alloc, lines.lines(), old),
        }
    }

    fn class(&self, old: &Itinerary) -> u8 {
        self.reason(old).class()
    }
}
