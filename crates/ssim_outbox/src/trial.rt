//! What actions make of an itinerary, one after another.

ghost use Rattle.std.specs.Prelude.{◌≡◌, false, true, IfOk, IfSome, IsSome, OnOk};
ghost use Rattle.std.specs.List.{AllByRecursion};
ghost use Rattle.ssim_schedule.specs.Acts.{after_on};
ghost use Rattle.ssim_outbox.specs.clauses.Acting.{ActEach};
ghost use Rattle.ssim_outbox.specs.Acting.{DoesAct};
ghost use Rattle.ssim_outbox.specs.Reach.{IsSaid, after_all};

use ssim_base::StationRow;
use ssim_periods::Value;
use ssim_schedule::{FlightDate, Itinerary, Reason, copy_legs};
use ssim_text::Action;
use ssim_values::{Day, Memory};
use std::alloc::Global;

/// Those of the actions that act, in order, if they make the new itinerary of the old one on a day.
pub(crate) fn leading(
    alloc: Global,
    rows: &[StationRow],
    day: Day,
    actions: Vec<Action>,
    old: &Itinerary,
    new: &Itinerary,
) -> Result<Option<Vec<Action>>, Memory>
    requires { AllByRecursion IsSaid actions.items }
    ensures said { IfOk result
        (λ led. IfSome led (λ acting. AllByRecursion IsSaid acting.items)) }
    ensures leads { IfOk result (λ led. IfSome led
        (λ acting. after_all rows.now day acting.items old.now ≡ new.now)) }
    ensures acts { IfOk result (λ led. IfSome led
        (λ acting. ActEach rows.now day acting.items old.now)) }
    ensures finds { after_all rows.now day actions.items old.now ≡ new.now
        → IfOk result (λ led. IsSome led) }
{
    let legs = copy_legs(alloc, old.legs())?;
    let mut date = FlightDate::of(alloc, day, legs)?;
    let acting = act(alloc, &mut date, rows, actions)?;
    if date.itinerary()?.same(new) {
        Ok(Some(acting))
    } else {
        Ok(None)
    }
}

// Actions act on the date, one after another. Returns those that do; the others change nothing.
fn act(
    alloc: Global,
    date: &mut FlightDate,
    rows: &[StationRow],
    actions: Vec<Action>,
) -> Result<Vec<Action>, Memory>
    requires { AllByRecursion IsSaid actions.items }
    ensures said { IfOk result (λ acting. AllByRecursion IsSaid acting.items) }
    ensures legs { OnOk result
        (date.new.legs ≡ after_all rows.now date.old.day actions.items date.old.legs) }
    ensures same { IfOk result
        (λ acting. date.new.legs ≡ after_all rows.now date.old.day acting.items date.old.legs) }
    ensures acts { IfOk result
        (λ acting. ActEach rows.now date.old.day acting.items date.old.legs) }
{
    let mut acting = Vec::new(alloc);
    for action in actions {
        if does_act(date, rows, &action)? {
            acting.push(action)?;
        }
    }
    Ok(acting)
}

// An action acts on the date. Returns whether it does; if not, nothing changes.
fn does_act(date: &mut FlightDate, rows: &[StationRow], action: &Action) -> Result<bool, Memory>
    ensures legs { OnOk result
        (date.new.legs ≡ after_on rows.now action.now date.old.day date.old.legs) }
    ensures day { date.new.day ≡ date.old.day }
    ensures acts { IfOk result
        (λ acts. acts ≡ true → DoesAct rows.now action.now date.old.day date.old.legs) }
    ensures idle { IfOk result (λ acts. acts ≡ false → date.new.legs ≡ date.old.legs) }
{
    match date.act(rows, action)? {
        Reason::Acted => Ok(true),
        Reason::Absent | Reason::Present | Reason::Leg | Reason::Station => Ok(false),
    }
}
