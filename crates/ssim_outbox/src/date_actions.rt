//! The actions that make the new itinerary of a date of the old one.

ghost use Rattle.std.specs.Prelude.{IfOk, IfSome, IsSome};
ghost use Rattle.ssim_outbox.specs.clauses.Acting.{ActEach};
ghost use Rattle.ssim_outbox.specs.Reach.{Leads, Reach};
ghost use Rattle.ssim_outbox.specs.Sayable.{HaveColumns};
ghost use Rattle.ssim_outbox.specs.internal.Candidates.{AnyMakes};

use crate::candidates::{Candidate, actions_of, cancellation};
use crate::retimed_legs::have_same_route;
use crate::trial::leading;
use ssim_base::StationRow;
use ssim_periods::Value;
use ssim_schedule::{Itinerary, PlacedLeg};
use ssim_text::Action;
use ssim_values::{Day, Memory};
use std::alloc::Global;

/// The actions of sub-messages, in order, that make the new itinerary of a flight on a day of the
/// old one, by these rows of a station table; none if no sub-messages make it.
///
/// Equal itineraries need no action. A flight that flies no more is cancelled (`CNL`), one that did
/// not fly is new (`NEW`), and one whose leg sequences or stations change is replaced (`RPL`).
/// Otherwise the flight gets other times (`TIM`) or other equipment (`EQT`) if one of them is
/// enough; otherwise it is replaced, or, if that would change more, gets both (`EQT`, `TIM`). Apart
/// from equal itineraries and `CNL`, the actions are tried on the old itinerary before they are
/// returned, and those that do not act are left out.
pub fn say(
    alloc: Global,
    rows: &[StationRow],
    day: Day,
    old: &Itinerary,
    new: &Itinerary,
) -> Result<Option<Vec<Action>>, Memory>
    ensures said { IfOk result
        (λ said. IfSome said (λ actions. Leads rows.now day actions.items old.now new.now)) }

    // Each action acts on the day.
    ensures acting { IfOk result
        (λ said. IfSome said (λ actions. ActEach rows.now day actions.items old.now)) }

    // Actions are found if some list of sub-messages makes the new itinerary.
    ensures finds { Reach rows.now day old.now new.now → IfOk result (λ said. IsSome said) }
{
    have_columns(old.legs());
    if old.same(new) {
        return Ok(Some(Vec::new(alloc)));
    }
    if new.is_empty() {
        return Ok(Some(cancellation(alloc)?));
    }
    if old.is_empty() {
        return first_that_leads(alloc, rows, day, &[Candidate::NewFlight], old, new);
    }
    if !have_same_route(old.legs(), new.legs()) {
        return first_that_leads(alloc, rows, day, &[Candidate::Replacement], old, new);
    }
    let candidates = [
        Candidate::Times,
        Candidate::Equipment,
        Candidate::Replacement,
        Candidate::EquipmentAndTimes,
    ];
    first_that_leads(alloc, rows, day, &candidates, old, new)
}

// No effect at run time. The proof reads from it that each leg has its 158 columns.
fn have_columns(legs: &[PlacedLeg])
    ensures { HaveColumns legs.now }
{
    if let Some((leg, later)) = legs.split_first() {
        let _ = leg.columns().bytes();
        have_columns(later);
    }
}

// The actions of the first candidate that makes the new itinerary of the old one: those that act.
fn first_that_leads(
    alloc: Global,
    rows: &[StationRow],
    day: Day,
    candidates: &[Candidate],
    old: &Itinerary,
    new: &Itinerary,
) -> Result<Option<Vec<Action>>, Memory>
    ensures said { IfOk result
        (λ said. IfSome said (λ actions. Leads rows.now day actions.items old.now new.now)) }
    ensures acting { IfOk result
        (λ said. IfSome said (λ actions. ActEach rows.now day actions.items old.now)) }
    ensures found { HaveColumns old.now → AnyMakes rows.now day candidates.now old.now new.now
        → IfOk result (λ said. IsSome said) }
{
    match candidates.split_first() {
        None => Ok(None),
        Some((candidate, later)) => {
            let actions = actions_of(alloc, *candidate, old.legs(), new.legs())?;
            match leading(alloc, rows, day, actions, old, new)? {
                Some(acting) => Ok(Some(acting)),
                None => first_that_leads(alloc, rows, day, later, old, new),
            }
        }
    }
}
