//! What takes texts and merges.

ghost use Rattle.std.specs.Prelude.{◌≡◌, Ok, OnErr};
ghost use Rattle.ssim_text.specs.declared.reference.Reference.{Reference};
ghost use Rattle.ssim_held.specs.Held.{IsDesk};
ghost use Rattle.ssim_held.specs.Entries.{DeskSeen, map_of, state_of};
ghost use Rattle.ssim_desk.specs.clauses.Desk.{merge_answer};
ghost use Rattle.ssim_desk.specs.Desk.{take_answer};
ghost use Rattle.ssim_desk.specs.Steps.{Merges, Takes};

use crate::desk::{Desk, Took};
use crate::holdings::Holdings;
use ssim_held::DeskFault;
use ssim_text::Reference;

/// What holds messages over a base: a desk, or what a desk holds without its timetable.
pub trait Holder {
    /// What contracts see of it.
    ghost seen: { Self → DeskSeen };

    /// Takes a text, as `Desk::take` does.
    fn take(&mut self, text: &[u8]) -> Result<(Took, Reference), DeskFault>
        ensures takes { Takes (state_of (seen self.old)) text.now (take_answer result)
            (map_of (seen self.new).held) }
        ensures base { (seen self.new).base ≡ (seen self.old).base }
        ensures repeated { (reference : Reference) → result ≡ Ok (Took.Repeated, reference)
            → self.new ≡ self.old }
        ensures err { OnErr result (self.new ≡ self.old) };

    /// Holds what the other holds, too, as `Desk::merge` does.
    fn merge(&mut self, other: &Self) -> Result<(), DeskFault>
        ensures merges { Merges (state_of (seen self.old)) (state_of (seen other.now))
            (merge_answer result) (map_of (seen self.new).held) }
        ensures base { (seen self.new).base ≡ (seen self.old).base }
        ensures err { OnErr result (self.new ≡ self.old) };

    /// No effect at run time. Its base was read, and the base gives each message that is held its
    /// reference.
    fn is_desk(&self)
        ensures { IsDesk (state_of (seen self.now)) };
}

impl Holder for Desk {
    ghost seen = { λ desk. desk.seen };

    fn take(&mut self, text: &[u8]) -> Result<(Took, Reference), DeskFault> {
        Desk::take(self, text)
    }

    fn merge(&mut self, other: &Desk) -> Result<(), DeskFault> {
        Desk::merge(self, other)
    }

    fn is_desk(&self) {
        // No effect at run time. The proof reads from these uses what is always true of a base
        // and of the messages of a desk.
        let _ = self.base().records();
        let _ = self.held();
    }
}

impl Holder for Holdings {
    ghost seen = { λ holdings. holdings };

    fn take(&mut self, text: &[u8]) -> Result<(Took, Reference), DeskFault> {
        Holdings::take(self, text)
    }

    fn merge(&mut self, other: &Holdings) -> Result<(), DeskFault> {
        Holdings::merge(self, other)
    }

    fn is_desk(&self) {
        // No effect at run time. The proof reads from these uses what is always true of a base
        // and of the messages that are held.
        let _ = self.base().records();
        let _ = self.held();
    }
}
