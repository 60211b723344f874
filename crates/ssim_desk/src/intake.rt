//! What a desk holds while messages come and go.

ghost use Rattle.std.specs.Prelude.{◌≡◌, ℕ, List, length, Ok, IfOk, OnErr};
ghost use Rattle.std.specs.Bool.{OnFalse};
ghost use Rattle.std.specs.FinMap.{contains_key, remove};
ghost use Rattle.ssim_records.specs.declared.record.Record.{Record};
ghost use Rattle.ssim_base.specs.BaseSeen.{BaseSeen};
ghost use Rattle.ssim_base.specs.Resolve.{ResolvesIn};
ghost use Rattle.ssim_text.specs.Message.{MessageValue};
ghost use Rattle.ssim_text.specs.Spelling.{SpellsMessage};
ghost use Rattle.ssim_held.specs.Entries.{AreEntries, AreRising, map_of, state_of};
ghost use Rattle.ssim_held.specs.clauses.Pages.{all_of};
ghost use Rattle.ssim_desk.specs.Desk.{take_answer};
ghost use Rattle.ssim_desk.specs.Steps.{Takes};

use crate::desk::Took;
use crate::holdings::Holdings;
use crate::offer::resolve_text;
use ssim_base::{Base, ResolvedText};
use ssim_held::{DeskFault, Held, Pages};
use ssim_text::{Message, Reference};
use ssim_values::Memory;
use std::alloc::Global;
use std::marker::Model;

/// What a desk holds while many messages come and go, in whatever order of reference. A message
/// takes about as long if it belongs before others as if it belongs after all.
///
/// Contracts see it as they see [`Holdings`].
#[derive(Drop)]
pub struct Intake {
    base: Base,
    pages: Pages,
    alloc: Global,
}

impl Model for Intake {
    ghost use Rattle.ssim_held.specs.Entries.{AreEntries, DeskSeen};
    ghost use Rattle.ssim_held.specs.clauses.Pages.{all_of};

    ghost Value = { DeskSeen };

    ghost view = { λ i. record { base = i.base; held = all_of i.pages; applied = 0 } };

    ghost invariant = { λ i. AreEntries i.base.records (all_of i.pages) };
}

impl Intake {
    /// What is held, before messages come and go.
    pub fn of(holdings: Holdings) -> Result<Intake, Memory>
        ensures { IfOk result (λ intake. intake ≡ holdings) }
    {
        let (base, held, alloc) = holdings.into_parts();
        Ok(Intake {
            base,
            pages: Pages::of(alloc, held)?,
            alloc,
        })
    }

    /// Takes a text: holds its message if it is new. Returns the message's reference, too. The
    /// errors are those of `Desk::take`.
    pub fn take(&mut self, text: &[u8]) -> Result<(Took, Reference), DeskFault>
        ensures takes { Takes (state_of self.old) text.now (take_answer result)
            (map_of self.new.held) }
        ensures base { self.new.base ≡ self.old.base }
        ensures repeated { (reference : Reference) → result ≡ Ok (Took.Repeated, reference)
            → self.new ≡ self.old }
        ensures err { OnErr result (self.new ≡ self.old) }
    {
        let (message, resolved) = resolve_text(self.alloc, self.base.frame(), text)?;
        hold(self.alloc, &mut self.pages, message, resolved)
    }

    /// Holds the message of a reference no longer. Returns whether it was held. Allocates nothing.
    pub fn withdraw(&mut self, reference: &Reference) -> bool
        ensures held { map_of self.new.held ≡ remove (map_of self.old.held) reference.now }
        ensures was_held { result ≡ contains_key (map_of self.old.held) reference.now }
        ensures base { self.new.base ≡ self.old.base }
        ensures absent { OnFalse result (self.new ≡ self.old) }
    {
        match self.pages.search(reference) {
            Ok(place) => {
                self.pages.remove(place);
                true
            }
            Err(_) => false,
        }
    }

    /// What is held in the end.
    pub fn finish(self) -> Result<Holdings, Memory>
        ensures { IfOk result (λ holdings. holdings ≡ self) }
    {
        let Intake { base, pages, alloc } = self;
        Ok(Holdings::with(alloc, base, pages.into_held()?))
    }
}

// Holds a message that resolves, if it is new. Returns its reference, too.
fn hold(
    alloc: Global,
    pages: &mut Pages,
    message: Message,
    resolved: ResolvedText,
) -> Result<(Took, Reference), DeskFault>
    requires rising { AreRising (all_of pages.old) }
    requires dated { length resolved.subs.items ≡ length message.subs }
    ensures takes { (base : BaseSeen) (text : List ℕ) → SpellsMessage message text
        → ResolvesIn base.records message resolved
        → Takes (record { base = base; held = map_of (all_of pages.old) }) text
        (take_answer result) (map_of (all_of pages.new)) }
    ensures entries { (records : List Record) → ResolvesIn records message resolved
        → AreEntries records (all_of pages.old) → AreEntries records (all_of pages.new) }
    ensures repeated { (reference : Reference) → result ≡ Ok (Took.Repeated, reference)
        → all_of pages.new ≡ all_of pages.old }
    ensures err { OnErr result (all_of pages.new ≡ all_of pages.old) }
{
    let reference = resolved.reference;
    match pages.search(&reference) {
        Ok(place) => {
            if pages.at(place).message().same(&message) {
                Ok((Took::Repeated, reference))
            } else {
                Err(DeskFault::Conflict(reference))
            }
        }
        Err(place) => {
            let new = Held::of(alloc, reference, message, resolved.subs)?;
            pages.insert(place, new)?;
            Ok((Took::Taken, reference))
        }
    }
}
