//! Runs the steps of a script, and makes the lines.
ghost use Rattle.std.specs.Prelude.{◌≡◌, ◌<◌, ◌≤◌, All, IfOk, length, map};
ghost use Rattle.ssim_held.specs.Entries.{state_of};
ghost use Rattle.ssim_desk.specs.Steps.{IsInRange};
ghost use Rattle.ssim_program.specs.rehearse.Rehearsal.{Rehearses, answer_line, desk_of, fresh};
ghost use Rattle.ssim_program.specs.rehearse.Rehearsal.{step_lines};

use crate::rehearse::line::RehearsalLine;
use crate::rehearse::outcome::ends_of;
use ssim_desk::{Answer, DeskFault, Holdings, Step, run_steps};
use ssim_schedule::ExportFault;
use ssim_values::Memory;
use std::alloc::Global;

/// The line of a step on the desk that is printed with this number.
fn answer_line(desk: usize, answer: &Answer) -> RehearsalLine
    ensures { result ≡ answer_line desk answer.now }
{
    match answer {
        Answer::Taken(reference) => RehearsalLine::Taken {
            desk,
            reference: *reference,
        },
        Answer::Repeated(reference) => RehearsalLine::Repeated {
            desk,
            reference: *reference,
        },
        Answer::Merged => RehearsalLine::Merged { desk },
        Answer::Refused(fault) => RehearsalLine::Refused {
            desk,
            fault: *fault,
        },
    }
}

/// The desk that a step changes.
fn desk_of(step: &Step) -> usize
    ensures { result ≡ desk_of step.now }
{
    match step {
        Step::Take(desk, _) => *desk,
        Step::Merge(into, _) => *into,
    }
}

/// The lines of steps, in their order.
fn step_lines(
    alloc: Global,
    steps: &[Step],
    answers: &[Answer],
) -> Result<Vec<RehearsalLine>, Memory>
    requires desks { All (λ step. desk_of step < 9) steps.now }
    requires count { length answers.now ≡ length steps.now }
    ensures { IfOk result (λ lines. lines.items ≡ step_lines steps.now answers.now) }
{
    // No effect at run time. The borrow checker learns from these uses which types a line contains.
    let _fault: Option<DeskFault> = None;
    let _export: Option<ExportFault> = None;
    let mut lines = Vec::with_capacity(alloc, steps.len())?;
    for (place, step) in steps.iter().enumerate() {
        lines.push(answer_line(desk_of(step) + 1, &answers[place]))?;
    }
    Ok(lines)
}

/// This number of desks, each equal to this one, which is the last of them.
fn equal_desks(alloc: Global, desk: Holdings, count: usize) -> Result<Vec<Holdings>, Memory>
    requires { 0 < count }
    ensures count { IfOk result (λ desks. length desks.items ≡ count) }
    ensures each { IfOk result (λ desks. All (λ one. one ≡ desk) desks.items) }
{
    let mut desks = Vec::with_capacity(alloc, count)?;
    for _ in 1..count {
        desks.push(desk.copy()?)?;
    }
    desks.push(desk)?;
    Ok(desks)
}

/// Runs steps on new desks, each equal to this one, which holds nothing. Returns the lines of the
/// results and of the desks, and the line that says whether all exports are equal.
pub(crate) fn rehearsal_of(
    alloc: Global,
    empty: Holdings,
    count: usize,
    steps: &[Step],
) -> Result<Vec<RehearsalLine>, Memory>
    requires fresh { empty ≡ fresh empty.base }
    requires least { 0 < count }
    requires most { count ≤ 9 }
    requires in_range { All (IsInRange count) steps.now }
    ensures { IfOk result (λ lines. Rehearses empty.base count steps.now lines.items) }
{
    let mut desks = equal_desks(alloc, empty, count)?;
    let answers = run_steps(alloc, &mut desks, steps)?;
    let mut lines = step_lines(alloc, steps, &answers)?;
    let ends = ends_of(alloc, desks)?;
    lines.extend_from_slice(&ends)?;
    Ok(lines)
}
