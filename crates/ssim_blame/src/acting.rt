//! Messages act on the itineraries of a flight and their makers.

ghost use Rattle.std.specs.Prelude.{◌≡◌, ◌+◌, ◌<◌, ◌^◌, ℕ, if◌then◌else◌, length, OnOk};
ghost use Rattle.ssim_periods.specs.Calendar.{holds};
ghost use Rattle.ssim_periods.specs.Days.{each_day};
ghost use Rattle.ssim_base.specs.Timetable.{same_flight};
ghost use Rattle.ssim_text.specs.Grammar.{identifier_of};
ghost use Rattle.ssim_desk.specs.DateSteps.{entry_steps, sub_steps};
ghost use Rattle.ssim_blame.specs.declared.made.MadeItinerary.{MadeItinerary};
ghost use Rattle.ssim_blame.specs.internal.Made.{acted, after_steps};

use crate::division::next_part;
use crate::made::{MadeItinerary, SubOnDay};
use crate::maker::SubName;
use ssim_base::{ResolvedSub, StationRow};
use ssim_held::Held;
use ssim_periods::Periods;
use ssim_text::{Action, Reference, Sub};
use ssim_values::{Flight, Memory, Period};

/// The flight on which messages act, and the station rows by which they do.
#[derive(Clone, Copy)]
pub(crate) struct Acting<'a> {
    pub rows: &'a [StationRow],
    pub flight: Flight,
}

/// Messages act on the days of the flight, in this order. Those that do not name it do nothing.
pub(crate) fn act_all(
    acting: &Acting<'_>,
    days: &mut Periods<MadeItinerary>,
    messages: &[Held],
) -> Result<(), Memory>
    ensures { OnOk result ((before : ℕ → MadeItinerary) → days.old.days ≡ each_day before
        → days.new.days ≡ each_day (λ n. after_steps (before n)
        (entry_steps acting.now.rows.now acting.now.flight n messages.now
        (before n).itinerary))) }
{
    for held in messages {
        act(acting, days, held)?;
    }
    Ok(())
}

// The sub-messages of a message act, one after another.
fn act(acting: &Acting<'_>, days: &mut Periods<MadeItinerary>, held: &Held) -> Result<(), Memory>
    ensures { OnOk result ((before : ℕ → MadeItinerary) → days.old.days ≡ each_day before
        → days.new.days ≡ each_day (λ n. after_steps (before n)
        (sub_steps acting.now.rows.now acting.now.flight n held.now.reference 1
        held.now.message.subs held.now.dates (before n).itinerary))) }
{
    let reference = held.reference();
    let subs = held.message().subs();
    act_subs(acting, days, &reference, 1, subs, held.dates())
}

// Sub-messages act, one after another. The first of them has this number.
fn act_subs(
    acting: &Acting<'_>,
    days: &mut Periods<MadeItinerary>,
    reference: &Reference,
    number: usize,
    subs: &[Sub],
    dates: &[ResolvedSub],
) -> Result<(), Memory>
    requires { number + length subs.now < 2 ^ 64 }
    ensures { OnOk result ((before : ℕ → MadeItinerary) → days.old.days ≡ each_day before
        → days.new.days ≡ each_day (λ n. after_steps (before n)
        (sub_steps acting.now.rows.now acting.now.flight n reference.now number subs.now
        dates.now (before n).itinerary))) }
{
    match (subs.split_first(), dates.split_first()) {
        (Some((sub, subs)), Some((dated, dates))) => {
            if names(dated, acting.flight) {
                let name = name_of(reference, number, sub);
                act_once(acting, days, &name, &sub.action, &dated.period)?;
            }
            act_subs(acting, days, reference, number + 1, subs, dates)
        }
        _ => Ok(()),
    }
}

// Whether the sub-message names the flight.
fn names(sub: &ResolvedSub, flight: Flight) -> bool
    ensures { result ≡ same_flight sub.now.flight flight }
{
    sub.flight == flight
}

// The name of a sub-message with this number.
fn name_of(reference: &Reference, number: usize, sub: &Sub) -> SubName
    ensures { result ≡ record {
      reference = reference.now;
      sub = number;
      action = identifier_of sub.now.action;
    } }
{
    SubName {
        reference: *reference,
        sub: number,
        action: sub.action.identifier(),
    }
}

// A sub-message acts on the days of its period, in parts on each of which it does the same.
fn act_once(
    acting: &Acting<'_>,
    days: &mut Periods<MadeItinerary>,
    name: &SubName,
    action: &Action,
    period: &Period,
) -> Result<(), Memory>
    ensures { OnOk result ((before : ℕ → MadeItinerary) → days.old.days ≡ each_day before
        → days.new.days ≡ each_day (λ n. if holds period.now n
        then acted acting.now.rows.now action.now n name.now (before n) else before n)) }
{
    let rows = acting.rows;
    let last = period.last().number() as u32;
    let mut from = period.first().number() as u32;
    while from <= last {
        let part = next_part(rows, action, period, from);
        let day = part.first();
        let change = SubOnDay {
            rows,
            action,
            day,
            name: *name,
        };
        days.replace(&part, &change)?;
        from = part.last().number() as u32 + 1;
    }
    Ok(())
}
