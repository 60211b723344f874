ghost use Rattle.std.specs.Prelude.{◌≡◌, ◌↔◌, [], ◌∷◌, ◌++◌, ◌<◌, ◌≤◌, ◌+◌, ℕ, List, length, slice_index, true, IsTrue, IsOk, IfOk, IfErr, IfSome, IfNone, Some};
ghost use Rattle.ssim_values.specs.Airline.{is_airline, airline_text};
ghost use Rattle.ssim_values.specs.Characters.{is_digit, is_letter};

use crate::digits::is_letter;
use crate::{Airline, Fault, Flight};
use arrayvec::ArrayVec;
use std::fmt;

/// A flight designator: an airline's flight, as `LX544`. It is displayed as [`Designator::write`]
/// writes it.
#[derive(Clone, Copy, Debug, PartialEq, Eq, PartialOrd, Ord, Hash)]
pub struct Designator {
    pub airline: Airline,
    pub flight: Flight,
}

impl Designator {
    ghost use Rattle.ssim_values.specs.Designator.{SpellsDesignator, designator_text};
    ghost use Rattle.ssim_values.specs.declared.designator.Designator.{Designator};

    /// Reads an airline, without the blank of its third column, and a flight. Any other text is 6
    /// `BadDesignator`. The airline has three letters if the third byte is a letter, else two
    /// characters.
    pub fn parse(text: &[u8]) -> Result<Designator, Fault>
        ensures accepts { IsOk result ↔ ((d : Designator) × SpellsDesignator d text.now) }
        ensures value { IfOk result (λ d. SpellsDesignator d text.now) }
        ensures err { IfErr result (λ e. e ≡ Fault.BadDesignator) }
    {
        let Some((a, b, c, rest)) = split_airline(text) else {
            return Err(Fault::BadDesignator);
        };
        let Ok(airline) = Airline::parse(&[a, b, c]) else {
            return Err(Fault::BadDesignator);
        };
        match Flight::parse(rest) {
            Ok(flight) => Ok(Designator { airline, flight }),
            Err(_) => Err(Fault::BadDesignator),
        }
    }

    /// Writes the airline's two or three characters, at least three digits, and the suffix if there
    /// is one.
    pub fn write(self) -> ArrayVec<u8, 8>
        ensures value { result.items ≡ designator_text self }
        ensures spells { SpellsDesignator self result.items }
        ensures reads_back { (d : Designator) → SpellsDesignator d result.items → d ≡ self }
    {
        let mut text = characters(self.airline);
        push_all(&mut text, self.flight.write().as_slice());
        text
    }
}

impl fmt::Display for Designator {
    ghost use Rattle.ssim_values.specs.Designator.{designator_text};

    ghost output = { λ d. Some (designator_text d) };

    fn fmt<W: fmt::Write>(&self, f: &mut fmt::Formatter<W>) -> fmt::Result {
        let text = self.write();
        let text = str::from_utf8(text.as_slice()).map_err(|_| fmt::Error)?;
        write!(f, "{text}")
    }
}

// The airline's two or three characters.
fn characters(airline: Airline) -> ArrayVec<u8, 8>
    ensures value { result.items ≡ airline_text airline }
    ensures short { length result.items ≤ 3 }
    ensures code { IsTrue (is_airline airline) }
{
    let mut text = ArrayVec::new();
    let [a, b, c] = airline.write();
    text.push(a);
    text.push(b);
    if c != b' ' {
        text.push(c);
    }
    text
}

fn push_all(text: &mut ArrayVec<u8, 8>, bytes: &[u8])
    requires { length text.old.items + length bytes.now ≤ 8 }
    ensures { text.new.items ≡ text.old.items ++ bytes.now }
{
    for byte in bytes {
        text.push(*byte);
    }
}

fn split_airline(text: &[u8]) -> Option<(u8, u8, u8, &[u8])>
    ensures whole { IfSome result (λ r. text.now ≡ airline_text (r.0 ∷ r.1 ∷ r.2 ∷ []) ++ r.3.now) }
    ensures only { IfSome result (λ r. (columns : List ℕ) → (rest : List ℕ)
        → length columns ≡ 3 → IsTrue (is_airline columns) → is_digit (slice_index rest 0) ≡ true
        → text.now ≡ airline_text columns ++ rest → (columns ≡ r.0 ∷ r.1 ∷ r.2 ∷ [])
        × (rest ≡ r.3.now)) }
    ensures none { IfNone result (length text.now < 2) }
{
    if third_is_letter(text) {
        match text {
            [a, b, c, rest @ ..] => Some((*a, *b, *c, rest)),
            _ => None,
        }
    } else {
        match text {
            [a, b, rest @ ..] => Some((*a, *b, b' ', rest)),
            _ => None,
        }
    }
}

fn third_is_letter(text: &[u8]) -> bool
    ensures letter { result ≡ is_letter (slice_index text.now 2) }
    ensures long { result ≡ true → 3 ≤ length text.now }
{
    text.len() > 2 && is_letter(text[2])
}
