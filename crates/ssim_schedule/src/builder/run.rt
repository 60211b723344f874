//! The runs of a flight: legs that are still to be put into its itineraries.

ghost use Rattle.std.specs.Prelude.{◌≡◌, ◌⊎◌, ℕ, ◌+◌, ◌%◌, true, false, Contains, IfOk, IfSome};
ghost use Rattle.std.specs.Prelude.{OnOk};
ghost use Rattle.ssim_periods.specs.Calendar.{holds};
ghost use Rattle.ssim_periods.specs.clauses.Days.{AddsOnly, changed_by_each, ends_of};
ghost use Rattle.ssim_periods.specs.Days.{changed_on};
ghost use Rattle.ssim_base.specs.Timetable.{Days};
ghost use Rattle.ssim_schedule.specs.clauses.PlacedLegs.{placed_each};
ghost use Rattle.ssim_schedule.specs.internal.SharedLegs.{hash_of};
ghost use Rattle.ssim_schedule.specs.internal.Runs.{IsWider, is_run_on, with_runs};

use crate::builder::leg_group::LegGroup;
use crate::itinerary::Itinerary;
use ssim_periods::{Periods, Value, are_apart, union};
use ssim_values::{Memory, Period};
use std::alloc::Global;

/// The most runs of a flight. One more puts the legs of all of them into its itineraries.
pub(crate) const MOST: usize = 16;

/// A period, and legs that are still to be put into its itineraries.
pub(crate) type Run = (Period, Itinerary);

/// Puts the legs of a group into the itinerary on each date of a period: the dates join those of a
/// run with these legs, or become one more run. The group may lose its legs.
pub(crate) fn add_to_runs(
    alloc: Global,
    runs: &mut Vec<Run>,
    periods: &mut Periods<Itinerary>,
    period: &Period,
    group: &mut LegGroup,
) -> Result<(), Memory>
    ensures days { OnOk result ((with_runs runs.new.items periods.new).days
        ≡ changed_on (holds period.now) (placed_each group.old.legs) 0
        (with_runs runs.old.items periods.old).days) }
    ensures cuts { OnOk result (AddsOnly (with_runs runs.old.items periods.old).cuts
        (with_runs runs.new.items periods.new).cuts period.now.first (period.now.last + 1)) }
{
    let hash = group.hash();
    if widen(runs, period, group, hash) {
        return Ok(());
    }
    let legs = take_legs(alloc, runs, group, hash)?;
    make_room(runs, periods)?;
    runs.push((*period, legs))?;
    Ok(())
}

// Puts the legs of all runs into the itineraries, so that no run is left, if no more are allowed.
fn make_room(runs: &mut Vec<Run>, periods: &mut Periods<Itinerary>) -> Result<(), Memory>
    ensures days { OnOk result ((with_runs runs.new.items periods.new).days
        ≡ (with_runs runs.old.items periods.old).days) }
    ensures cuts { OnOk result ((cut : ℕ)
        → Contains (with_runs runs.new.items periods.new).cuts cut
        → Contains (with_runs runs.old.items periods.old).cuts cut) }
{
    if runs.len() < MOST {
        return Ok(());
    }
    periods.replace_each(runs)?;
    runs.clear();
    Ok(())
}

// Adds the days of a period to a run with the legs of the group. The result says whether there is
// one; if not, nothing is changed. `hash` is the hash of the legs: a run with another one is not
// compared.
fn widen(runs: &mut Vec<Run>, period: &Period, group: &LegGroup, hash: u32) -> bool
    ensures days { result ≡ true → (days : Days)
        → changed_by_each placed_each runs.new.items days
        ≡ changed_on (holds period.now) (placed_each group.now.legs) 0
        (changed_by_each placed_each runs.old.items days) }
    ensures ends { result ≡ true → (cut : ℕ) → Contains (ends_of runs.new.items) cut
        → Contains (ends_of runs.old.items) cut ⊎ (cut ≡ period.now.first)
        ⊎ (cut ≡ period.now.last + 1) }
    ensures none { result ≡ false → runs.new ≡ runs.old }
{
    if let Some(found) = wider(runs, period, group, hash) {
        runs[found.0].0 = found.1;
        return true;
    }
    false
}

// The place of a run with the legs of the group, and the period with its days and those of another
// period. No run from this one on has a day of the period, so that the order of the changes is of
// no effect.
fn wider(runs: &[Run], period: &Period, group: &LegGroup, hash: u32) -> Option<(usize, Period)>
    ensures { IfSome result (λ found. IsWider runs.now period.now group.now.legs found.0 found.1) }
{
    let mut place = runs.len();
    while place > 0 {
        place -= 1;
        let run = &runs[place];
        if run.1.hash() == hash && group.is_of(run.1.legs()) {
            if let Some(both) = union(&run.0, period) {
                if are_apart_from(&runs[place..], period) {
                    return Some((place, both));
                }
            }
        }
    }
    None
}

// Whether no run has a day of a period.
fn are_apart_from(runs: &[Run], period: &Period) -> bool
    ensures { result ≡ true → (n : ℕ) → holds period.now n ≡ true → is_run_on runs.now n ≡ false }
{
    match runs.split_first() {
        None => true,
        Some((run, later)) => are_apart(period, &run.0) && are_apart_from(later, period),
    }
}

// The legs of a group, which may lose them. A run with the same legs shares them. `hash` is the
// hash of the legs.
fn take_legs(
    alloc: Global,
    runs: &[Run],
    group: &mut LegGroup,
    hash: u32,
) -> Result<Itinerary, Memory>
    requires { hash ≡ hash_of group.old.legs % 4294967296 }
    ensures { IfOk result (λ legs. legs ≡ group.old.legs) }
{
    for run in runs {
        if run.1.hash() == hash && group.is_of(run.1.legs()) {
            return run.1.copy(alloc);
        }
    }
    group.take_new(hash)
}
