//! Runs of dates of a flight with one fate.

ghost use Rattle.std.specs.Prelude.{◌≡◌, ◌||◌, ℕ, if◌then◌else◌, IfOk, IfSome, OnOk};
ghost use Rattle.ssim_periods.specs.Calendar.{holds};
ghost use Rattle.ssim_periods.specs.Pieces.{held_on};
ghost use Rattle.ssim_parts.specs.declared.fate.Fate.{Fate};
ghost use Rattle.ssim_parts.specs.declared.fate.Fate.TheVariants.{Absent};
ghost use Rattle.ssim_parts.specs.internal.Placed.{fate_by, last_fate};

use crate::fate::Fate;
use crate::moved_flight::MovedFlight;
use ssim_periods::{Value, union};
use ssim_values::{Memory, Period};
use std::alloc::Global;

/// The fates of the dates of parts, other dates left aside, in periods. Mostly all parts have one
/// fate, and few periods have the dates of all.
pub(crate) fn fate_runs(
    alloc: Global,
    parts: &[(Period, MovedFlight)],
) -> Result<Vec<(Period, Fate)>, Memory>
    ensures { IfOk result (λ runs. (n : ℕ) → fate_by Absent runs.items n
        ≡ last_fate Absent (held_on parts.now n)) }
{
    let mut runs = Vec::new(alloc);
    for part in parts {
        add_run(&mut runs, &part.0, part.1.fate)?;
    }
    Ok(runs)
}

// Adds a period with a fate: its dates join those of the last run, or become one more run.
fn add_run(runs: &mut Vec<(Period, Fate)>, period: &Period, fate: Fate) -> Result<(), Memory>
    ensures { OnOk result ((before : Fate) (n : ℕ) → fate_by before runs.new.items n
        ≡ (if holds period.now n then fate else fate_by before runs.old.items n)) }
{
    let Some(last) = runs.pop() else {
        runs.push((*period, fate))?;
        return Ok(());
    };
    match joined(&last, period, fate) {
        Some(both) => runs.push((both, fate))?,
        None => {
            runs.push(last)?;
            runs.push((*period, fate))?;
        }
    }
    Ok(())
}

// The period with exactly the dates of a run and of a period with a fate, if the run has this fate.
fn joined(run: &(Period, Fate), period: &Period, fate: Fate) -> Option<Period>
    ensures fate { IfSome result (λ _. run.now.1 ≡ fate) }
    ensures days { IfSome result (λ both. (n : ℕ)
        → holds both n ≡ (holds run.now.0 n || holds period.now n)) }
{
    if run.1.same(&fate) {
        union(&run.0, period)
    } else {
        None
    }
}
