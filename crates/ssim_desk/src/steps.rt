//! Steps over several desks, which are numbered from 0.

ghost use Rattle.std.specs.Prelude.{◌≡◌, ◌≢◌, ◌<◌, ℕ, false, length, map, slice_get, All, IfOk};
ghost use Rattle.std.specs.Prelude.{OnErr};
ghost use Rattle.ssim_text.specs.declared.reference.Reference.{Reference};
ghost use Rattle.ssim_held.specs.Held.{IsDesk};
ghost use Rattle.ssim_held.specs.Entries.{map_of, state_of};
ghost use Rattle.ssim_desk.specs.clauses.Agreement.{DesksAgree};
ghost use Rattle.ssim_desk.specs.Steps.{Acts, IsInRange, Merges, MergesAt};
ghost use Rattle.ssim_desk.specs.clauses.Steps.{IsOwnMerge, LeavesIdle};
ghost use Rattle.ssim_desk.specs.Steps.{Runs, Takes};
ghost use Rattle.ssim_desk.specs.clauses.Steps.{is_change};

use crate::desk::Took;
use crate::holder::Holder;
use crate::laws::any_two_desks_agree;
use ssim_held::DeskFault;
use ssim_text::Reference;
use ssim_values::Memory;
use std::alloc::Global;

/// What is tried on desks.
#[derive(Drop)]
pub enum Step {
    /// The desk takes the text.
    Take(usize, Vec<u8>),
    /// The first desk takes over what the second holds.
    Merge(usize, usize),
}

/// The result of a step.
#[derive(Clone, Copy, Debug, PartialEq, Eq)]
pub enum Answer {
    /// The message of the text, which has this reference, was new, and is held.
    Taken(Reference),
    /// The message of the text, which has this reference, was held already.
    Repeated(Reference),
    /// What the other desk holds is held.
    Merged,
    /// Nothing has changed.
    Refused(DeskFault),
}

// The desk takes the text.
fn take_step<D: Holder>(desk: &mut D, text: &[u8]) -> Answer
    ensures takes { Takes (state_of (D.seen desk.old)) text.now result
        (map_of (D.seen desk.new).held) }
    ensures base { (D.seen desk.new).base ≡ (D.seen desk.old).base }
    ensures same { ((reference : Reference) → result ≢ Answer.Taken reference)
        → desk.new ≡ desk.old }
{
    match desk.take(text) {
        Ok((Took::Taken, reference)) => Answer::Taken(reference),
        Ok((Took::Repeated, reference)) => Answer::Repeated(reference),
        Err(fault) => Answer::Refused(fault),
    }
}

// The desk takes over what the other holds.
fn merge_step<D: Holder>(desk: &mut D, other: &D) -> Answer
    ensures merges { Merges (state_of (D.seen desk.old)) (state_of (D.seen other.now)) result
        (map_of (D.seen desk.new).held) }
    ensures base { (D.seen desk.new).base ≡ (D.seen desk.old).base }
    ensures same { result ≢ Answer.Merged → desk.new ≡ desk.old }
{
    match desk.merge(other) {
        Ok(()) => Answer::Merged,
        Err(fault) => Answer::Refused(fault),
    }
}

// One desk takes over what another holds.
fn merge_at<D: Holder>(desks: &mut [D], into: usize, from: usize) -> Answer
    requires into { into < length desks.old }
    requires from { from < length desks.old }
    requires two { into ≢ from }
    ensures others { (d : ℕ) → d ≢ into → slice_get desks.new d ≡ slice_get desks.old d }
    ensures same { result ≢ Answer.Merged → desks.new ≡ desks.old }
    ensures merges { MergesAt (map (λ d. state_of (D.seen d)) desks.old) into from result
        (map (λ d. state_of (D.seen d)) desks.new) }
{
    if into < from {
        let (front, back) = desks.split_at_mut(from);
        merge_step(&mut front[into], &back[0])
    } else {
        let (front, back) = desks.split_at_mut(into);
        merge_step(&mut back[0], &front[from])
    }
}

fn run_step<D: Holder>(desks: &mut [D], step: &Step) -> Answer
    requires { IsInRange (length desks.old) step.now }
    ensures acts { Acts (map (λ d. state_of (D.seen d)) desks.old) step.now result
        (map (λ d. state_of (D.seen d)) desks.new) }
    ensures own { IsOwnMerge step.now → desks.new ≡ desks.old }
    ensures idle { (d : ℕ) → is_change d step.now result ≡ false
        → slice_get desks.new d ≡ slice_get desks.old d }
{
    match step {
        Step::Take(desk, text) => take_step(&mut desks[*desk], text),
        Step::Merge(into, from) => {
            if into == from {
                Answer::Merged
            } else {
                merge_at(desks, *into, *from)
            }
        }
    }
}

// Each desk has a base that was read, and holds messages that resolve in it.
fn each_is_desk<D: Holder>(desks: &[D])
    ensures { All IsDesk (map (λ d. state_of (D.seen d)) desks.now) }
{
    for desk in desks {
        // No effect at run time. The proof cites what this call ensures.
        desk.is_desk();
    }
}

/// Tries each step in order, whatever the earlier ones returned. Returns one [`Answer`] a step.
///
/// Out of memory is an error only if the list of results itself cannot be allocated; then no step
/// is tried. A step that runs out of memory is refused with 90 and changes nothing.
pub fn run_steps<D: Holder>(
    alloc: Global,
    desks: &mut [D],
    steps: &[Step],
) -> Result<Vec<Answer>, Memory>
    requires { All (IsInRange (length desks.old)) steps.now }
    ensures count { IfOk result (λ answers. length answers.items ≡ length steps.now) }
    ensures runs { IfOk result (λ answers. Runs
        (map (λ d. state_of (D.seen d)) desks.old) steps.now answers.items
        (map (λ d. state_of (D.seen d)) desks.new)) }
    ensures own { All IsOwnMerge steps.now → desks.new ≡ desks.old }

    // A desk is unchanged, `applied` included, if none of its steps returned `Taken` or `Merged`.
    ensures idle { IfOk result (λ answers. LeavesIdle desks.old steps.now answers.items desks.new) }

    // Any two of these desks that began alike, and that the same messages reached, have afterwards
    // the same base, messages, itineraries and export.
    ensures agree { IfOk result (λ answers. DesksAgree
        (map (λ d. state_of (D.seen d)) desks.old) steps.now answers.items
        (map (λ d. state_of (D.seen d)) desks.new)) }

    // With `runs` this makes a run, so `any_two_desks_agree` speaks of the desks of two calls.
    ensures desks { All IsDesk (map (λ d. state_of (D.seen d)) desks.old) }
    ensures err { OnErr result (desks.new ≡ desks.old) }
{
    // No effect at run time. The proof cites what these calls ensure.
    each_is_desk(desks);
    any_two_desks_agree();
    let mut answers = Vec::with_capacity(alloc, steps.len())?;
    for next in steps {
        // No effect at run time. The borrow checker learns from this use which type the list
        // contains.
        let _fault: Option<DeskFault> = None;
        let answer = run_step(desks, next);
        answers.push(answer).unwrap();
    }
    Ok(answers)
}
