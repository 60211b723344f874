//! What each sub-message did with a flight on one date.

ghost use Rattle.std.specs.Prelude.{◌≡◌, ◌+◌, ◌<◌, ◌^◌, ◌++◌, length, IfOk, OnOk};
ghost use Rattle.ssim_base.specs.Timetable.{itinerary};
ghost use Rattle.ssim_desk.specs.DateSteps.{entry_steps, is_on, legs_left, step_of, sub_steps};
ghost use Rattle.ssim_desk.specs.Meaning.{left_by};

use crate::flights::legs_after;
use ssim_base::{Base, ResolvedSub, StationRow};
use ssim_held::Held;
use ssim_schedule::{FlightDate, Itinerary, Reason};
use ssim_text::{ActionIdentifier, Reference, Sub};
use ssim_values::{Day, Flight, Memory};
use std::alloc::Global;

/// What a sub-message did with a flight on a date.
#[derive(Drop)]
pub struct DateStep {
    /// The reference of the message.
    pub reference: Reference,
    /// The number of the sub-message in its message, from 1.
    pub sub: usize,
    pub action: ActionIdentifier,
    /// What it found on the date.
    pub reason: Reason,
    /// What the flight has after it.
    pub itinerary: Itinerary,
}

/// A flight on a date: what the data set has, and what each sub-message did with it.
#[derive(Drop)]
pub struct DateHistory {
    /// In the data set.
    pub first: Itinerary,
    /// In the order in which the sub-messages act.
    pub steps: Vec<DateStep>,
}

/// The history of a flight on a date, over a base and messages in this order.
pub(crate) fn history_of(
    alloc: Global,
    base: &Base,
    messages: &[Held],
    flight: &Flight,
    day: Day,
) -> Result<DateHistory, Memory>
    ensures first { IfOk result
        (λ history. history.first ≡ itinerary base.now.records flight.now day) }
    ensures steps { IfOk result (λ history. history.steps.items
        ≡ entry_steps base.now.rows flight.now day messages.now history.first) }
    ensures last { IfOk result (λ history. legs_left history.first history.steps.items
        ≡ left_by base.now messages.now flight.now day) }
{
    let legs = legs_after(alloc, base, &[], flight, day)?;
    let mut date = FlightDate::of(alloc, day, legs)?;
    let first = date.itinerary()?;
    let mut steps = Vec::new(alloc);
    push_messages(&mut steps, &mut date, base.rows(), *flight, messages)?;
    Ok(DateHistory { first, steps })
}

// Messages act on the date, in this order.
fn push_messages(
    steps: &mut Vec<DateStep>,
    date: &mut FlightDate,
    rows: &[StationRow],
    flight: Flight,
    messages: &[Held],
) -> Result<(), Memory>
    ensures { OnOk result (steps.new.items ≡ steps.old.items
        ++ entry_steps rows.now flight date.old.day messages.now date.old.legs) }
{
    for held in messages {
        push_message(steps, date, rows, flight, held)?;
    }
    Ok(())
}

// The sub-messages of a message act on the date, one after another.
fn push_message(
    steps: &mut Vec<DateStep>,
    date: &mut FlightDate,
    rows: &[StationRow],
    flight: Flight,
    held: &Held,
) -> Result<(), Memory>
    ensures steps { OnOk result (steps.new.items ≡ steps.old.items
        ++ sub_steps rows.now flight date.old.day held.now.reference 1 held.now.message.subs
        held.now.dates date.old.legs) }
    ensures legs { OnOk result (date.new.legs ≡ legs_left date.old.legs
        (sub_steps rows.now flight date.old.day held.now.reference 1 held.now.message.subs
        held.now.dates date.old.legs)) }
    ensures day { date.new.day ≡ date.old.day }
{
    let reference = held.reference();
    let subs = held.message().subs();
    push_subs(steps, date, rows, flight, &reference, 1, subs, held.dates())
}

// Sub-messages act on the date, one after another. The first of them has this number.
fn push_subs(
    steps: &mut Vec<DateStep>,
    date: &mut FlightDate,
    rows: &[StationRow],
    flight: Flight,
    reference: &Reference,
    number: usize,
    subs: &[Sub],
    dates: &[ResolvedSub],
) -> Result<(), Memory>
    requires { number + length subs.now < 2 ^ 64 }
    ensures steps { OnOk result (steps.new.items ≡ steps.old.items
        ++ sub_steps rows.now flight date.old.day reference.now number subs.now dates.now
        date.old.legs) }
    ensures legs { OnOk result (date.new.legs ≡ legs_left date.old.legs
        (sub_steps rows.now flight date.old.day reference.now number subs.now dates.now
        date.old.legs)) }
    ensures day { date.new.day ≡ date.old.day }
{
    match (subs.split_first(), dates.split_first()) {
        (Some((sub, subs)), Some((dated, dates))) => {
            if is_on(dated, flight, date.day()) {
                let step = step_of(date, rows, reference, number, sub)?;
                steps.push(step)?;
            }
            push_subs(
                steps,
                date,
                rows,
                flight,
                reference,
                number + 1,
                subs,
                dates,
            )
        }
        _ => Ok(()),
    }
}

// Whether the sub-message names the flight, and its period holds the day.
fn is_on(sub: &ResolvedSub, flight: Flight, day: Day) -> bool
    ensures { result ≡ is_on flight day sub.now }
{
    sub.flight == flight && sub.period.holds(day)
}

// A sub-message acts on the date.
fn step_of(
    date: &mut FlightDate,
    rows: &[StationRow],
    reference: &Reference,
    number: usize,
    sub: &Sub,
) -> Result<DateStep, Memory>
    ensures step { IfOk result (λ step. step
        ≡ step_of rows.now date.old.day reference.now number sub.now date.old.legs) }
    ensures legs { IfOk result (λ step. date.new.legs ≡ step.itinerary) }
    ensures day { date.new.day ≡ date.old.day }
{
    let reason = date.act(rows, &sub.action)?;
    Ok(DateStep {
        reference: *reference,
        sub: number,
        action: sub.action.identifier(),
        reason,
        itinerary: date.itinerary()?,
    })
}
