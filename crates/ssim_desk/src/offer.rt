//! What a text is to the messages that are held.

ghost use Rattle.std.specs.Prelude.{◌≡◌, ℕ, List, length, IfErr, IfOk};
ghost use Rattle.ssim_records.specs.declared.record.Record.{Record};
ghost use Rattle.ssim_base.specs.BaseSeen.{BaseSeen};
ghost use Rattle.ssim_base.specs.ReadBack.{HasFrame};
ghost use Rattle.ssim_base.specs.Resolve.{ResolvesIn};
ghost use Rattle.ssim_text.specs.Spelling.{SpellsMessage};
ghost use Rattle.ssim_held.specs.Held.{DeskState};
ghost use Rattle.ssim_held.specs.Entries.{AreEntries, AreRising, map_of};
ghost use Rattle.ssim_desk.specs.internal.Changes.{IsOffer};
ghost use Rattle.ssim_desk.specs.Steps.{RefusesText};

use ssim_base::{BaseFrame, ResolvedText};
use ssim_held::{DeskFault, Held, LookUp, look};
use ssim_text::{Message, Reference, decode};
use std::alloc::Global;

/// What a text is to the messages that are held.
#[derive(Drop)]
pub(crate) enum Offer {
    /// Its message is held, under this reference.
    Known(Reference),
    /// Its message is new, and belongs at a position.
    New(usize, Held),
}

/// What a text is to the messages that are held over a base with this frame.
///
/// Returns the first of: 20 to 29 if the text is no message, 40 to 43 if the message does not
/// resolve, 60 if another message is held under its reference.
pub(crate) fn offer_over(
    alloc: Global,
    frame: &BaseFrame,
    held: &[Held],
    text: &[u8],
) -> Result<Offer, DeskFault>
    requires { (records : List Record) × HasFrame frame.now records × AreEntries records held.now }
    ensures ok { (base : BaseSeen) → HasFrame frame.now base.records
        → IfOk result (IsOffer (record { base = base; held = map_of held.now }) held.now text.now) }
    ensures err { (base : BaseSeen) → HasFrame frame.now base.records
        → IfErr result (RefusesText (record { base = base; held = map_of held.now }) text.now) }
{
    let (message, resolved) = resolve_text(alloc, frame, text)?;
    offer_resolved(alloc, held, message, resolved)
}

/// The message of a text, and its year and full dates in a base with this frame.
///
/// Returns the first of: 20 to 29 if the text is no message, 40 to 43 if the message does not
/// resolve.
pub(crate) fn resolve_text(
    alloc: Global,
    frame: &BaseFrame,
    text: &[u8],
) -> Result<(Message, ResolvedText), DeskFault>
    requires { (records : List Record) × HasFrame frame.now records }
    ensures ok { (records : List Record) → HasFrame frame.now records → IfOk result
        (λ read. SpellsMessage read.0 text.now × ResolvesIn records read.0 read.1) }
    ensures err { (desk : DeskState) → HasFrame frame.now desk.base.records
        → IfErr result (RefusesText desk text.now) }
{
    let message = decode(alloc, text)?;
    let resolved = frame.resolve(&message)?;
    Ok((message, resolved))
}

// What a message that resolves is to the messages that are held.
fn offer_resolved(
    alloc: Global,
    held: &[Held],
    message: Message,
    resolved: ResolvedText,
) -> Result<Offer, DeskFault>
    requires rising { AreRising held.now }
    requires dated { length resolved.subs.items ≡ length message.subs }
    ensures ok { (base : BaseSeen) (text : List ℕ) → SpellsMessage message text
        → ResolvesIn base.records message resolved
        → IfOk result (IsOffer (record { base = base; held = map_of held.now }) held.now text) }
    ensures err { (base : BaseSeen) (text : List ℕ) → SpellsMessage message text
        → ResolvesIn base.records message resolved
        → IfErr result (RefusesText (record { base = base; held = map_of held.now }) text) }
{
    match look(held, &resolved.reference, &message) {
        LookUp::Same => Ok(Offer::Known(resolved.reference)),
        LookUp::Other => Err(DeskFault::Conflict(resolved.reference)),
        LookUp::Absent(at) => {
            let new = Held::of(alloc, resolved.reference, message, resolved.subs)?;
            Ok(Offer::New(at, new))
        }
    }
}
