//! Actions that may make a new itinerary of an old one, by the lines that the columns of its legs
//! have. Whether they make the itinerary is not tested here.

ghost use Rattle.std.specs.Prelude.{◌≡◌, ◌≤◌, ◌++◌, ◌∷◌, ℕ, [], List, IfOk, OnOk, length, take, drop};
ghost use Rattle.std.specs.List.{AllByRecursion, AllZip};
ghost use Rattle.ssim_text.specs.Grammar.{IsEquipment, IsLegLine};
ghost use Rattle.ssim_text.specs.Values.{EquipmentValue};
ghost use Rattle.ssim_text.specs.declared.action.Action.TheVariants.{Cnl, Eqt, New, Rpl, Tim};
ghost use Rattle.ssim_text.specs.declared.action.NewLegs.{NewLegs};
ghost use Rattle.ssim_text.specs.declared.leg.LegLine.{LegLine};
ghost use Rattle.ssim_base.specs.Stations.{Row};
ghost use Rattle.ssim_outbox.specs.Reach.{IsSaid, after_all};
ghost use Rattle.ssim_outbox.specs.Sayable.{AreNewLegs, HaveColumns};
ghost use Rattle.ssim_outbox.specs.internal.Candidates.{AddsTimes, Makes};
ghost use Rattle.ssim_outbox.specs.internal.ColumnLines.{FirstHas, HasLine, HaveLines};
ghost use Rattle.ssim_outbox.specs.internal.ColumnLines.{retimed_columns};

use crate::column_lines::equipment_of;
use crate::new_lines::new_legs;
use crate::retimed_legs::retimed_lines;
use ssim_schedule::PlacedLeg;
use ssim_text::{Action, LegLine, Legs};
use ssim_values::Memory;
use std::alloc::Global;

/// The most leg lines of a sub-message.
const MOST_LEGS: usize = 20;

/// Actions that can make a new itinerary of an old one which has legs, or of none.
#[derive(Clone, Copy)]
pub(crate) enum Candidate {
    /// `NEW`.
    NewFlight,
    /// `TIM`, as many as the leg lines need.
    Times,
    /// `EQT`.
    Equipment,
    /// `RPL`.
    Replacement,
    /// `EQT`, and then `TIM`, as many as the leg lines need.
    EquipmentAndTimes,
}

/// The actions of a candidate, with what the columns of the new legs have.
pub(crate) fn actions_of(
    alloc: Global,
    candidate: Candidate,
    old: &[PlacedLeg],
    new: &[PlacedLeg],
) -> Result<Vec<Action>, Memory>
    ensures said { IfOk result (λ actions. AllByRecursion IsSaid actions.items) }
    ensures found { (rows : List Row) → (day : ℕ) → HaveColumns old.now
        → Makes rows day candidate old.now new.now
        → IfOk result (λ actions. after_all rows day actions.items old.now ≡ new.now) }
{
    match candidate {
        Candidate::NewFlight => new_flight(alloc, new),
        Candidate::Times => with_times(alloc, Vec::new(alloc), old, new),
        Candidate::Equipment => equipment(alloc, new),
        Candidate::Replacement => replacement(alloc, new),
        Candidate::EquipmentAndTimes => {
            let actions = equipment(alloc, new)?;
            with_times(alloc, actions, old, new)
        }
    }
}

/// `CNL`.
pub(crate) fn cancellation(alloc: Global) -> Result<Vec<Action>, Memory>
    ensures said { IfOk result (λ actions. AllByRecursion IsSaid actions.items) }
    ensures found { IfOk result (λ actions. actions.items ≡ Cnl ∷ []) }
{
    only(alloc, Action::Cnl)
}

// `NEW` with these legs; nothing if messages cannot have them.
fn new_flight(alloc: Global, legs: &[PlacedLeg]) -> Result<Vec<Action>, Memory>
    ensures said { IfOk result (λ actions. AllByRecursion IsSaid actions.items) }
    ensures found { (new : NewLegs) → AreNewLegs new → HaveLines new legs.now
        → IfOk result (λ actions. actions.items ≡ New new ∷ []) }
{
    match new_legs(alloc, legs)? {
        None => Ok(Vec::new(alloc)),
        Some(new) => only(alloc, Action::New(new)),
    }
}

// `RPL` with these legs; nothing if messages cannot have them.
fn replacement(alloc: Global, legs: &[PlacedLeg]) -> Result<Vec<Action>, Memory>
    ensures said { IfOk result (λ actions. AllByRecursion IsSaid actions.items) }
    ensures found { (new : NewLegs) → AreNewLegs new → HaveLines new legs.now
        → IfOk result (λ actions. actions.items ≡ Rpl new ∷ []) }
{
    match new_legs(alloc, legs)? {
        None => Ok(Vec::new(alloc)),
        Some(new) => only(alloc, Action::Rpl(new)),
    }
}

// `EQT` with the equipment of the first leg; nothing if messages cannot have it.
fn equipment(alloc: Global, legs: &[PlacedLeg]) -> Result<Vec<Action>, Memory>
    ensures said { IfOk result (λ actions. AllByRecursion IsSaid actions.items) }
    ensures found { (e : EquipmentValue) → IsEquipment e → FirstHas e legs.now
        → IfOk result (λ actions. actions.items ≡ Eqt e ∷ []) }
{
    let Some((first, _)) = legs.split_first() else {
        return Ok(Vec::new(alloc));
    };
    match equipment_of(&first.columns()) {
        None => Ok(Vec::new(alloc)),
        Some(equipment) => only(alloc, Action::Eqt(equipment)),
    }
}

// The actions, and then the `TIM` that give legs their new times.
fn with_times(
    alloc: Global,
    actions: Vec<Action>,
    old: &[PlacedLeg],
    new: &[PlacedLeg],
) -> Result<Vec<Action>, Memory>
    requires { AllByRecursion IsSaid actions.items }
    ensures said { IfOk result (λ actions. AllByRecursion IsSaid actions.items) }
    ensures found { (lines : List LegLine) → AllZip HasLine lines (retimed_columns old.now new.now)
        → IfOk result (λ more. AddsTimes lines actions.items more.items) }
{
    let mut actions = actions;
    let lines = retimed_lines(alloc, old, new)?;
    push_times(alloc, &mut actions, &lines)?;
    Ok(actions)
}

// Adds `TIM` with the leg lines, each with up to twenty.
fn push_times(alloc: Global, actions: &mut Vec<Action>, lines: &[LegLine]) -> Result<(), Memory>
    requires before { AllByRecursion IsSaid actions.old.items }
    requires lines { AllByRecursion IsLegLine lines.now }
    ensures said { OnOk result (AllByRecursion IsSaid actions.new.items) }
    ensures added { OnOk result (AddsTimes lines.now actions.old.items actions.new.items) }
{
    if lines.is_empty() {
        return Ok(());
    }
    let (first, later) = first_lines(lines);
    push_few_times(alloc, actions, first)?;
    push_times(alloc, actions, later)
}

// Up to twenty leg lines, and the others.
fn first_lines(lines: &[LegLine]) -> (&[LegLine], &[LegLine])
    requires some { 1 ≤ length lines.now }
    requires lines { AllByRecursion IsLegLine lines.now }
    ensures first { result.0.now ≡ take 20 lines.now }
    ensures later { result.1.now ≡ drop 20 lines.now }
    ensures few { (1 ≤ length result.0.now) × (length result.0.now ≤ 20) }
    ensures first_are { AllByRecursion IsLegLine result.0.now }
    ensures later_are { AllByRecursion IsLegLine result.1.now }
{
    if MOST_LEGS <= lines.len() {
        lines.split_at(MOST_LEGS)
    } else {
        lines.split_at(lines.len())
    }
}

// Adds `TIM` with one to twenty leg lines.
fn push_few_times(alloc: Global, actions: &mut Vec<Action>, lines: &[LegLine]) -> Result<(), Memory>
    requires before { AllByRecursion IsSaid actions.old.items }
    requires few { (1 ≤ length lines.now) × (length lines.now ≤ 20) }
    requires lines { AllByRecursion IsLegLine lines.now }
    ensures said { OnOk result (AllByRecursion IsSaid actions.new.items) }
    ensures added { OnOk result (actions.new.items ≡ actions.old.items ++ Tim lines.now ∷ []) }
{
    actions.push(Action::Tim(Legs::of(alloc, lines)?))?;
    Ok(())
}

// This action.
fn only(alloc: Global, action: Action) -> Result<Vec<Action>, Memory>
    requires { IsSaid action }
    ensures said { IfOk result (λ actions. AllByRecursion IsSaid actions.items) }
    ensures only { IfOk result (λ actions. actions.items ≡ action ∷ []) }
{
    let mut actions = Vec::new(alloc);
    actions.push(action)?;
    Ok(actions)
}
