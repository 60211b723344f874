//! Messages delivered to a desk.

ghost use Rattle.std.specs.Prelude.{◌≡◌, ◌++◌, ◌∷◌, [], ℕ, List, IfErr, OnOk};
ghost use Rattle.ssim_base.specs.Resolve.{ResolvesIn};
ghost use Rattle.ssim_base.specs.declared.resolution.ResolvedText.{ResolvedText};
ghost use Rattle.ssim_base.specs.declared.sub_message.ResolvedSub.{ResolvedSub};
ghost use Rattle.ssim_text.specs.Message.{MessageValue};
ghost use Rattle.ssim_text.specs.declared.action.Sub.{Sub};
ghost use Rattle.ssim_text.specs.declared.reference.Reference.{Reference};
ghost use Rattle.ssim_held.specs.Entries.{Entry};
ghost use Rattle.ssim_held.specs.declared.fault.DeskFault.TheVariants.{Memory};
ghost use Rattle.ssim_outbox.specs.Delivery.{AreDelivered, CanDeliver};
ghost use Rattle.ssim_outbox.specs.Order.{Follows};

use ssim_desk::{DeskFault, Holdings};
use ssim_text::Message;

/// Takes the texts of messages, one after another.
///
/// If the messages can be delivered, each of them is new to the desk, and afterwards it holds what
/// it held before and then the messages. Each flight then has on each date what the sub-messages
/// make, one after another, of what it had. The only error is then 90.
pub fn deliver(desk: &mut Holdings, messages: &[Message]) -> Result<(), DeskFault>
    ensures ok { (heading : MessageValue) (group : ℕ) (subs : List Sub) (reference : Reference)
        (dates : List ResolvedSub)
        → CanDeliver desk.old heading group subs reference dates messages.now
        → OnOk result (AreDelivered desk.old subs reference dates messages.now desk.new) }
    ensures err { (heading : MessageValue) (group : ℕ) (subs : List Sub) (reference : Reference)
        (dates : List ResolvedSub)
        → CanDeliver desk.old heading group subs reference dates messages.now
        → IfErr result (λ fault. fault ≡ Memory) }
    ensures base { desk.new.base ≡ desk.old.base }
{
    let mut left = messages;
    while let Some((message, later)) = left.split_first() {
        deliver_one(desk, message)?;
        left = later;
    }
    Ok(())
}

// Takes the text of a message.
fn deliver_one(desk: &mut Holdings, message: &Message) -> Result<(), DeskFault>
    ensures ok { (resolved : ResolvedText)
        → ResolvesIn desk.old.base.records message.now resolved
        → Follows resolved.reference desk.old.held
        → OnOk result (desk.new.held ≡ desk.old.held ++ (record {
          reference = resolved.reference;
          message = message.now;
          dates = resolved.subs.items;
        } ∷ [])) }
    ensures err { (resolved : ResolvedText)
        → ResolvesIn desk.old.base.records message.now resolved
        → Follows resolved.reference desk.old.held
        → IfErr result (λ fault. fault ≡ Memory) }
    ensures base { desk.new.base ≡ desk.old.base }
{
    // No effect at run time. The proof reads from these what desks hold.
    let _ = desk.held();
    let _taken = desk.take(message.text())?;
    let _ = desk.held();
    Ok(())
}
