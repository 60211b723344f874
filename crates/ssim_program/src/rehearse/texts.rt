//! The texts that a script names, and its steps with them.

ghost use Rattle.std.specs.Prelude.{◌≡◌, ◌<◌, ◌≤◌, All, IfErr, IfOk, map};
ghost use Rattle.ssim_desk.specs.Steps.{IsInRange};
ghost use Rattle.ssim_program.specs.rehearse.Rehearsal.{AreLoaded, HasSteps, IsLoaded, RefusesStep};
ghost use Rattle.ssim_program.specs.rehearse.Rehearsal.{RefusesSteps, RefusesStepTexts};
ghost use Rattle.ssim_program.specs.internal.Rehearse.{as_written, IsStepOf};

use crate::data_set::load_file;
use crate::refusal::Refusal;
use crate::rehearse::script::{Script, Written};
use crate::store::Store;
use ssim_desk::Step;
use std::alloc::Global;

/// A step with its text, which is loaded from the store.
fn load_step<S: Store>(alloc: Global, written: &Written<'_>, store: &mut S) -> Result<Step, Refusal>
    ensures ok { IfOk result (IsLoaded (S.files store.old) (as_written written.now)) }
    ensures err { IfErr result (RefusesStep (S.files store.old) (as_written written.now)) }
    ensures same { S.files store.new ≡ S.files store.old }
    ensures counted { S.failures store.new ≡ S.failures store.old }
{
    match written {
        Written::Take(desk, name) => match load_file(alloc, name, store) {
            Ok(text) => Ok(Step::Take(*desk, text)),
            Err(refusal) => Err(refusal),
        },
        Written::Merge(into, from) => Ok(Step::Merge(*into, *from)),
    }
}

/// Each step with its text. The texts are loaded in the order of the steps.
fn load_texts<S: Store>(
    alloc: Global,
    written: &[Written<'_>],
    store: &mut S,
) -> Result<Vec<Step>, Refusal>
    ensures ok { IfOk result
        (λ steps. AreLoaded (S.files store.old) (map as_written written.now) steps.items) }
    ensures err { IfErr result (RefusesStepTexts (S.files store.old) (map as_written written.now)) }
    ensures same { S.files store.new ≡ S.files store.old }
    ensures counted { S.failures store.new ≡ S.failures store.old }
{
    let mut steps = Vec::with_capacity(alloc, written.len())?;
    for next in written {
        match load_step(alloc, next, store) {
            Ok(step) => steps.push(step)?,
            Err(refusal) => return Err(refusal),
        }
    }
    Ok(steps)
}

/// Reads the script in the file of this name, and loads its texts: the number of desks, and the
/// steps.
pub(crate) fn load_steps<S: Store>(
    alloc: Global,
    script: &str,
    store: &mut S,
) -> Result<(usize, Vec<Step>), Refusal>
    ensures ok { IfOk result (λ run. HasSteps (S.files store.old) script.now run.0 run.1.items) }
    ensures least { IfOk result (λ run. 0 < run.0) }
    ensures most { IfOk result (λ run. run.0 ≤ 9) }
    ensures in_range { IfOk result (λ run. All (IsInRange run.0) run.1.items) }
    ensures err { IfErr result (RefusesSteps (S.files store.old) script.now) }
    ensures same { S.files store.new ≡ S.files store.old }
    ensures counted { S.failures store.new ≡ S.failures store.old }
{
    let bytes = load_file(alloc, script, store)?;
    let read = Script::read(alloc, &bytes)?;
    let steps = load_texts(alloc, &read.steps, store)?;
    Ok((read.count, steps))
}
