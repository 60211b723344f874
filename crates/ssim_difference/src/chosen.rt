//! The differences of a flight without those that are not chosen.

ghost use Rattle.std.specs.Prelude.{◌≡◌, ◌≤◌, OnOk, true};
ghost use Rattle.ssim_values.specs.Flight.{FlightNumber};
ghost use Rattle.ssim_parts.specs.Chosen.{chooses_flight};
ghost use Rattle.ssim_difference.specs.internal.Choosing.{Changes, chosen_difference};
ghost use Rattle.ssim_difference.specs.internal.Choosing.{with_chosen_legs, without};

use crate::difference::Difference;
use ssim_parts::{Choice, daily_period};
use ssim_periods::{Change, Periods, Value};
use ssim_values::Memory;
use std::alloc::Global;

/// The number after the last day of the calendar.
const DAYS: u16 = 36_525;

/// No difference in place of any.
struct NoDifference;

impl Change<Difference> for NoDifference {
    ghost use Rattle.ssim_difference.specs.Differences.{no_difference};

    ghost outcome = { λ _ d. no_difference };

    ghost class_of = { λ _ d. 0 };

    fn after(&self, _alloc: Global, _before: &Difference) -> Result<Difference, Memory> {
        Ok(Difference::empty())
    }

    fn class(&self, _before: &Difference) -> u8 {
        0
    }
}

/// Of a difference without a chosen itinerary nothing is left.
#[derive(Clone, Copy)]
struct ChosenLegs<'a> {
    choice: &'a Choice,
}

impl<'a> Change<Difference> for ChosenLegs<'a> {
    ghost use Rattle.ssim_difference.specs.internal.Choosing.{with_chosen_legs};

    ghost outcome = { λ c d. with_chosen_legs c.choice.now 0 d };

    ghost class_of = { λ _ d. 0 };

    fn after(&self, alloc: Global, before: &Difference) -> Result<Difference, Memory> {
        if self.choice.has_legs(before.old.legs()) || self.choice.has_legs(before.new.legs()) {
            before.copy(alloc)
        } else {
            Ok(Difference::empty())
        }
    }

    fn class(&self, _before: &Difference) -> u8 {
        0
    }
}

/// Leaves of the differences of a flight that is chosen those of chosen dates.
pub(crate) fn choose(choice: &Choice, days: &mut Periods<Difference>) -> Result<(), Memory>
    ensures { OnOk result ((flight : FlightNumber) → chooses_flight choice.now flight ≡ true
        → Changes (chosen_difference choice.now flight) days.old.days days.new.days) }
{
    leave_out(0, choice.first.number(), days)?;
    leave_out(choice.last.number() + 1, DAYS, days)?;
    choose_legs(choice, days)
}

// Leaves no difference on the dates from a first one to the one before an end.
fn leave_out(first: u16, end: u16, days: &mut Periods<Difference>) -> Result<(), Memory>
    requires { end ≤ 36525 }
    ensures { OnOk result (Changes (without first end) days.old.days days.new.days) }
{
    match daily_period(first, end) {
        None => Ok(()),
        Some(period) => days.replace(&period, &NoDifference),
    }
}

// Leaves the differences of which an itinerary is chosen.
fn choose_legs(choice: &Choice, days: &mut Periods<Difference>) -> Result<(), Memory>
    ensures { OnOk result (Changes (with_chosen_legs choice.now) days.old.days days.new.days) }
{
    if choice.has_all_legs() {
        return Ok(());
    }
    match daily_period(0, DAYS) {
        None => Ok(()),
        Some(calendar) => days.replace(&calendar, &ChosenLegs { choice }),
    }
}
