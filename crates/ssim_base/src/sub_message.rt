//! Sub-messages with their full dates.

ghost use Rattle.std.specs.Prelude.{◌≡◌};

use ssim_text::Action;
use ssim_values::{Flight, Period};

/// The flight of a sub-message and its full dates of origin. An ASM has the one date, with all
/// weekdays.
#[derive(Clone, Copy, Debug, PartialEq, Eq)]
pub struct ResolvedSub {
    pub flight: Flight,
    pub period: Period,
}

/// A sub-message with its full dates: what it does, to which flight, and on which dates of origin.
/// It lends the action of its message.
#[derive(Clone, Copy)]
pub struct Resolved<'a> {
    pub action: &'a Action,
    pub flight: Flight,
    pub period: Period,
}

impl ResolvedSub {
    /// With the action of its sub-message.
    pub fn with<'a>(&self, action: &'a Action) -> Resolved<'a>
        ensures action { result.action.now ≡ action.now }
        ensures flight { result.flight ≡ self.now.flight }
        ensures period { result.period ≡ self.now.period }
    {
        Resolved {
            action,
            flight: self.flight,
            period: self.period,
        }
    }
}
