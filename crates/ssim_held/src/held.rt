//! Messages that a desk holds.

ghost use Rattle.std.specs.Prelude.{◌≡◌, length, IfOk};
ghost use Rattle.ssim_text.specs.Canonical.{canonical};

use ssim_base::ResolvedSub;
use ssim_text::{Message, Reference};
use ssim_values::Memory;
use std::alloc::Global;
use std::marker::Model;
use std::rc::Rc;

/// A message that a desk holds: its reference with its year, and its canonical text. Desks that
/// hold the same message may share it.
#[derive(Drop)]
pub struct Held {
    /// The reference of the contents, so that a search in a list reads the list alone.
    reference: Reference,
    contents: Rc<HeldParts>,
}

impl Model for Held {
    ghost use Rattle.std.specs.Prelude.{◌≡◌};
    ghost use Rattle.ssim_held.specs.Entries.{Entry};

    ghost Value = { Entry };

    ghost view = { λ h. h.contents.value };

    ghost invariant = { λ h. h.reference ≡ h.contents.value.reference };
}

#[derive(Drop)]
struct HeldParts {
    reference: Reference,
    message: Message,
    /// Flight and full dates of each sub-message.
    dates: Vec<ResolvedSub>,
}

impl Model for HeldParts {
    ghost use Rattle.std.specs.Prelude.{◌≡◌, length};
    ghost use Rattle.ssim_held.specs.Entries.{Entry};

    ghost Value = { Entry };

    ghost view = { λ h. record {
      reference = h.reference;
      message = h.message;
      dates = h.dates.items;
    } };

    ghost invariant = { λ h. length h.dates.items ≡ length h.message.subs };
}

impl HeldParts {
    fn message(&self) -> &Message
        ensures { result.now ≡ self.now.message }
    {
        &self.message
    }

    fn text(&self) -> &[u8]
        ensures { result.now ≡ canonical self.now.message }
    {
        self.message.text()
    }

    fn dates(&self) -> &[ResolvedSub]
        ensures value { result.now ≡ self.now.dates }
        ensures each { length result.now ≡ length self.now.message.subs }
    {
        &self.dates
    }
}

impl Held {
    /// A message with its reference and the full dates of its sub-messages.
    pub fn of(
        alloc: Global,
        reference: Reference,
        message: Message,
        dates: Vec<ResolvedSub>,
    ) -> Result<Held, Memory>
        requires { length dates.items ≡ length message.subs }
        ensures { IfOk result (λ held. held
            ≡ record { reference = reference; message = message; dates = dates.items }) }
    {
        let contents = HeldParts {
            reference,
            message,
            dates,
        };
        Ok(Held {
            reference,
            contents: Rc::new(alloc, contents)?,
        })
    }

    /// An equal one, which shares its contents.
    pub fn copy(&self) -> Result<Held, Memory>
        ensures { IfOk result (λ copy. copy ≡ self.now) }
    {
        Ok(Held {
            reference: self.reference,
            contents: self.contents.clone()?,
        })
    }

    /// The reference under which the message is held.
    pub fn reference(&self) -> Reference
        ensures { result ≡ self.now.reference }
    {
        self.reference
    }

    /// The message.
    pub fn message(&self) -> &Message
        ensures { result.now ≡ self.now.message }
    {
        self.contents.message()
    }

    /// The canonical text of the message.
    pub fn text(&self) -> &[u8]
        ensures { result.now ≡ canonical self.now.message }
    {
        self.contents.text()
    }

    /// Flight and full dates of each of its sub-messages, in their order.
    pub fn dates(&self) -> &[ResolvedSub]
        ensures value { result.now ≡ self.now.dates }
        ensures each { length result.now ≡ length self.now.message.subs }
    {
        self.contents.dates()
    }
}
