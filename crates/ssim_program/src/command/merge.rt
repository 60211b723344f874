//! The command `merge`: a desk that holds what two desks hold.

ghost use Rattle.std.specs.Prelude.{◌≡◌, Err, IfErr, IsTrue, OnOk};
ghost use Rattle.ssim_program.specs.Answers.{merge};
ghost use Rattle.ssim_program.specs.Desks.{IsMergeOf, merged};
ghost use Rattle.ssim_program.specs.internal.Program.{MakesOr};

use crate::command::start::held_line;
use crate::content_kind::ContentKind;
use crate::desk_file::open_holdings;
use crate::effects::{before_if, push_effects};
use crate::hold::hold;
use crate::made::{Contents, Kept, Made};
use crate::refusal::Refusal;
use crate::store::Store;
use ssim_desk::Holdings;
use std::alloc::Global;

/// The two desks that are merged, and whether the effects on the first are printed.
#[derive(Clone, Copy)]
pub(crate) struct MergeWords<'a> {
    pub effects: bool,
    pub desk: &'a str,
    pub other: &'a str,
}

/// A desk that holds what two desks hold, the line with the number of its messages, and the effects,
/// if the words ask for them.
pub(crate) fn merge<'n, S: Store>(
    alloc: Global,
    words: &MergeWords<'_>,
    out: &str,
    store: &mut S,
) -> Result<Made<'n, S::Hold>, Refusal>
    requires fresh { IsTrue (S.is_fresh store.now) }
    ensures answer { MakesOr S.Hold.file (S.files store.old)
        (merge (S.files store.old) words.now.effects words.now.desk.now words.now.other.now out.now)
        result }
    ensures same { S.files store.new ≡ S.files store.old }
    ensures counted { S.failures store.new ≡ S.failures store.old }
{
    let place = hold(alloc, out, ContentKind::DeskFile, store)?;
    let mut desk = open_holdings(alloc, words.desk, store)?;
    let other = open_holdings(alloc, words.other, store)?;
    let before = before_if(alloc, words.effects, &desk)?;
    match merge_desks(&mut desk, &other) {
        Ok(()) => {}
        Err(refusal) => return Err(refusal),
    }
    let mut lines = held_line(alloc, desk.held().len())?;
    push_effects(alloc, &mut lines, &before, &desk)?;
    let contents = Contents::DeskFile(desk);
    let kept = Kept { place, contents };
    Ok(Made::Kept { kept, lines })
}

/// Holds what the other desk holds, too.
pub(crate) fn merge_desks(desk: &mut Holdings, other: &Holdings) -> Result<(), Refusal>
    ensures merged { OnOk result (IsMergeOf desk.old other.now desk.new) }
    ensures why { IfErr result (λ why. merged desk.old other.now (Err why)) }
{
    match desk.merge(other) {
        Ok(()) => Ok(()),
        Err(fault) => Err(Refusal::from(fault)),
    }
}
