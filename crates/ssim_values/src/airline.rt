ghost use Rattle.std.specs.Prelude.{◌≡◌, ◌↔◌, ◌||◌, List, ℕ, IsTrue, IsOk, IfOk, IfErr, Some};
ghost use Rattle.ssim_values.specs.Airline.{airline_text, is_airline, is_pair};

use crate::Fault;
use crate::digits::{is_digit, is_letter};
use std::fmt;
use std::marker::Model;

/// An airline designator in the three columns of a record: two letters or digits, not both digits,
/// and a blank, or three letters. It is displayed without the blank, as messages have it.
#[derive(Clone, Copy, Debug, PartialEq, Eq, PartialOrd, Ord, Hash)]
pub struct Airline {
    columns: [u8; 3],
}

impl Model for Airline {
    ghost use Rattle.std.specs.Prelude.{List, ℕ, IsTrue};
    ghost use Rattle.ssim_values.specs.Airline.{is_airline};

    ghost Value = { List ℕ };

    ghost view = { λ a. a.columns };

    ghost invariant = { λ a. IsTrue (is_airline a.columns) };

    ghost inverse = { λ t. record { columns = t } };
}

impl Airline {
    /// Reads the three columns. Any other text is 6 `BadDesignator`.
    pub fn parse(text: &[u8; 3]) -> Result<Airline, Fault>
        ensures accepts { IsOk result ↔ IsTrue (is_airline text.now) }
        ensures value { IfOk result (λ a. a ≡ text.now) }
        ensures err { IfErr result (λ e. e ≡ Fault.BadDesignator) }
    {
        let accepted = match *text {
            [a, b, b' '] => is_pair(a, b),
            [a, b, c] => is_letter(a) && is_letter(b) && is_letter(c),
        };
        if accepted {
            Ok(Airline { columns: *text })
        } else {
            Err(Fault::BadDesignator)
        }
    }

    /// Writes the three columns.
    pub fn write(self) -> [u8; 3]
        ensures value { result ≡ self }
        ensures columns { IsTrue (is_airline result) }
    {
        self.columns
    }
}

impl fmt::Display for Airline {
    ghost output = { λ a. Some (airline_text a) };

    fn fmt<W: fmt::Write>(&self, f: &mut fmt::Formatter<W>) -> fmt::Result {
        let text = match self.columns.as_slice() {
            [pair @ .., b' '] => pair,
            letters => letters,
        };
        let text = str::from_utf8(text).map_err(|_| fmt::Error)?;
        write!(f, "{text}")
    }
}

// Two letters or digits, not both digits.
fn is_pair(a: u8, b: u8) -> bool
    ensures { result ≡ is_pair a b }
{
    (is_letter(a) && (is_letter(b) || is_digit(b))) || (is_digit(a) && is_letter(b))
}
