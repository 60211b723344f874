//! The files that a command holds before it reads any, and keeps.

ghost use Rattle.std.specs.Prelude.{◌≡◌, Err, IfErr, IfOk, IsTrue, Ok};
ghost use Rattle.ssim_program.specs.Acts.{Keep};
ghost use Rattle.ssim_program.specs.Places.{place_in};
ghost use Rattle.ssim_program.specs.World.{Acted, world};
ghost use Rattle.ssim_program.specs.print.Paper.{Paper};

use crate::content::Content;
use crate::content_kind::ContentKind;
use crate::refusal::Refusal;
use crate::store::{Hold, HoldFault, KeepFault, Store};
use std::alloc::Global;

/// Holds the file of this name for a content of this kind. Returns 92 if another command holds it,
/// 93 if it is of another kind, and 91 if it cannot be read.
pub(crate) fn hold<S: Store>(
    alloc: Global,
    name: &str,
    kind: ContentKind,
    store: &mut S,
) -> Result<S::Hold, Refusal>
    requires fresh { IsTrue (S.is_fresh store.now) }
    ensures fresh { IsTrue (S.is_fresh store.new) }
    ensures name { IfOk result (λ hold. S.Hold.file hold ≡ name.now) }
    ensures held { IfOk result (λ _. place_in (S.files store.old) name.now kind (Ok tt)) }
    ensures refused { IfErr result (λ why. place_in (S.files store.old) name.now kind (Err why)) }
    ensures same { S.files store.new ≡ S.files store.old }
    ensures counted { S.failures store.new ≡ S.failures store.old }
{
    match store.hold(alloc, name, kind) {
        Ok(hold) => Ok(hold),
        Err(HoldFault::Memory) => Err(Refusal::Memory),
        Err(HoldFault::Fault) => Err(Refusal::of_file(alloc, name)),
        Err(HoldFault::Busy) => Err(Refusal::busy(alloc, name)),
        Err(HoldFault::Occupied) => Err(Refusal::occupied(alloc, name)),
    }
}

/// Keeps a content in the file that is held.
pub(crate) fn keep_content<S: Store, C: Content>(
    alloc: Global,
    content: &C,
    place: &S::Hold,
    store: &mut S,
) -> Result<(), Refusal>
    ensures { (out : Paper) → Acted (Keep (S.Hold.file place.now) (C.bytes content.now))
        (world (S.files store.old) (S.failures store.old) out)
        (world (S.files store.new) (S.failures store.new) out) result }
{
    match store.keep(place, content) {
        Ok(()) => Ok(()),
        Err(KeepFault::Memory) => Err(Refusal::Memory),
        Err(KeepFault::Fault) => Err(Refusal::of_file(alloc, place.name())),
        Err(KeepFault::Busy) => Err(Refusal::busy(alloc, place.name())),
    }
}
