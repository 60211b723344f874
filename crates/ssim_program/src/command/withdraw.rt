//! The command `withdraw`: a desk without the messages of some references.

ghost use Rattle.std.specs.Prelude.{◌≡◌, ◌++◌, IfErr, IfOk, IsTrue, map};
ghost use Rattle.std.specs.FinMap.{contains_key, remove};
ghost use Rattle.ssim_held.specs.Entries.{map_of};
ghost use Rattle.ssim_program.specs.Withdrawing.{RefusesReferences, WithdrawsFrom, withdrawn_printed};
ghost use Rattle.ssim_program.specs.Answers.{withdraw};
ghost use Rattle.ssim_program.specs.internal.Program.{MakesOr};

use crate::content_kind::ContentKind;
use crate::effects::{open_before, push_effects};
use crate::hold::hold;
use crate::made::{Contents, Kept, Made};
use crate::print::printed_line::{PrintedLine, add_line};
use crate::refusal::Refusal;
use crate::store::Store;
use ssim_desk::Intake;
use ssim_text::Reference;
use std::alloc::Global;

/// A line for each of these references, the effects, if the words ask for them, and then the desk in a
/// file without their messages.
pub(crate) fn withdraw<'n, S: Store>(
    alloc: Global,
    effects: bool,
    file: &str,
    out: &str,
    words: &[&str],
    store: &mut S,
) -> Result<Made<'n, S::Hold>, Refusal>
    requires fresh { IsTrue (S.is_fresh store.now) }
    ensures answer { MakesOr S.Hold.file (S.files store.old)
        (withdraw (S.files store.old) effects file.now out.now (map (λ t. t.now) words.now))
        result }
    ensures same { S.files store.new ≡ S.files store.old }
    ensures counted { S.failures store.new ≡ S.failures store.old }
{
    let place = hold(alloc, out, ContentKind::DeskFile, store)?;
    let (mut desk, before) = open_before(alloc, effects, file, store)?;
    let mut lines = withdraw_each(alloc, &mut desk, words)?;
    let desk = desk.finish()?;
    // No effect at run time. The proof reads from this use that the messages are in order.
    let _ = desk.held();
    push_effects(alloc, &mut lines, &before, &desk)?;
    let contents = Contents::DeskFile(desk);
    let kept = Kept { place, contents };
    Ok(Made::Printed {
        found: false,
        lines,
        refused: None,
        kept,
    })
}

/// Withdraws the message of each reference that the words spell. Returns their lines.
fn withdraw_each(alloc: Global, desk: &mut Intake, words: &[&str]) -> Result<Vec<u8>, Refusal>
    ensures done { IfOk result
        (λ lines. WithdrawsFrom (map (λ t. t.now) words.now) desk.old desk.new lines.items) }
    ensures why { IfErr result (RefusesReferences (map (λ t. t.now) words.now)) }
{
    let mut lines = Vec::new(alloc);
    for word in words {
        let Ok(reference) = Reference::parse(word.as_bytes()) else {
            return Err(Refusal::Reference);
        };
        let was_held = desk.withdraw(&reference);
        add_line(&mut lines, &printed(was_held, reference))?;
    }
    Ok(lines)
}

/// What became of a reference, as it is printed.
fn printed(was_held: bool, reference: Reference) -> PrintedLine
    ensures { result ≡ withdrawn_printed was_held reference }
{
    if was_held {
        PrintedLine::Withdrawn { reference }
    } else {
        PrintedLine::NotHeld { reference }
    }
}
