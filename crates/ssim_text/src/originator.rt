//! Originators of texts.
ghost use Rattle.std.specs.Prelude.{◌≡◌, IfSome, IfNone, Some};
ghost use Rattle.std.specs.Str.{bytes_eq};
ghost use Rattle.ssim_text.specs.Lines.{originator_of, address_of, is_blank_or_none};
ghost use Rattle.ssim_text.specs.internal.PrintedReference.{originator_in};

use crate::bytes::{all_alphanumeric, as_text, first_bytes};
use std::fmt;
use std::marker::Model;

/// The address of the sender of a text: seven letters or digits, or seven blanks if the text has
/// none. It is displayed as these seven characters.
#[derive(Clone, Copy, Debug, PartialEq, Eq, PartialOrd, Ord)]
pub struct Originator {
    bytes: [u8; 7],
}

impl Model for Originator {
    ghost use Rattle.std.specs.Prelude.{List, ℕ};

    ghost Value = { List ℕ };

    ghost view = { λ o. o.bytes };

    ghost inverse = { λ t. record { bytes = t } };
}

impl Originator {
    ghost use Rattle.ssim_text.specs.Values.{no_originator};

    /// The seven letters or digits, or seven blanks.
    pub fn bytes(self) -> [u8; 7]
        ensures { result ≡ self }
    {
        self.bytes
    }

    /// Seven blanks.
    pub fn none() -> Originator
        ensures { result ≡ no_originator }
    {
        Originator { bytes: *b"       " }
    }

    /// Whether these are seven blanks.
    pub fn is_none(self) -> bool
        ensures { result ≡ bytes_eq self no_originator }
    {
        self.bytes.as_slice() == b"       ".as_slice()
    }
}

impl fmt::Display for Originator {
    ghost output = { λ originator. Some originator };

    fn fmt<W: fmt::Write>(&self, f: &mut fmt::Formatter<W>) -> fmt::Result {
        let text = as_text(&self.bytes)?;
        write!(f, "{text}")
    }
}

#[tactic(auto, unfolding(crate::specs::Lines::originator_of))]
impl Originator {
    /// Reads a dot and seven letters or digits; a blank and what follows it is dropped.
    pub(crate) fn parse(line: &[u8]) -> Option<Originator>
        ensures some { IfSome result (λ o. originator_of line.now ≡ Some o) }
        ensures none { IfNone result (originator_of line.now ≡ None) }
    {
        let (dot, rest) = first_bytes(line, 1);
        let (address, rest) = first_bytes(rest, 7);
        let (blank, _dropped) = first_bytes(rest, 1);
        if dot != b".".as_slice() {
            return None;
        }
        if is_blank_or_none(blank) {
            Originator::of(address)
        } else {
            None
        }
    }

    /// Reads what a printed reference has after its message serial: a blank and seven letters or
    /// digits, or nothing.
    pub(crate) fn printed(text: &[u8]) -> Option<Originator>
        ensures some { IfSome result (λ o. originator_in text.now ≡ Some o) }
        ensures none { IfNone result (originator_in text.now ≡ None) }
    {
        match text {
            [] => Some(Originator::none()),
            [b' ', address @ ..] => Originator::of(address),
            _ => None,
        }
    }

    fn of(address: &[u8]) -> Option<Originator>
        ensures some { IfSome result (λ o. address_of address.now ≡ Some o) }
        ensures none { IfNone result (address_of address.now ≡ None) }
    {
        match address.as_array() {
            Some(bytes) => {
                if all_alphanumeric(address) {
                    Some(Originator { bytes: *bytes })
                } else {
                    None
                }
            }
            None => None,
        }
    }
}

fn is_blank_or_none(text: &[u8]) -> bool
    ensures { result ≡ is_blank_or_none text.now }
{
    text == b"".as_slice() || text == b" ".as_slice()
}
