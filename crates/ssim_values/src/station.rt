ghost use Rattle.std.specs.Prelude.{◌≡◌, ◌↔◌, List, ℕ, length, IsTrue, IsOk, IfOk, IfErr, Some};
ghost use Rattle.ssim_values.specs.Station.{is_station};

use crate::Fault;
use crate::digits::is_letter;
use std::fmt;
use std::marker::Model;

/// A station: the three letters of an airport or a city, as `ZRH`. It is displayed as these
/// letters.
#[derive(Clone, Copy, Debug, PartialEq, Eq, PartialOrd, Ord, Hash)]
pub struct Station {
    letters: [u8; 3],
}

impl Model for Station {
    ghost use Rattle.std.specs.Prelude.{List, ℕ, IsTrue};
    ghost use Rattle.ssim_values.specs.Station.{is_station};

    ghost Value = { List ℕ };

    ghost view = { λ s. s.letters };

    ghost invariant = { λ s. IsTrue (is_station s.letters) };

    ghost inverse = { λ t. record { letters = t } };
}

impl Station {
    /// Reads three letters. Any other text is 3 `BadStation`.
    pub fn parse(text: &[u8; 3]) -> Result<Station, Fault>
        ensures accepts { IsOk result ↔ IsTrue (is_station text.now) }
        ensures value { IfOk result (λ s. s ≡ text.now) }
        ensures err { IfErr result (λ e. e ≡ Fault.BadStation) }
    {
        let [a, b, c] = *text;
        if is_letter(a) && is_letter(b) && is_letter(c) {
            Ok(Station { letters: *text })
        } else {
            Err(Fault::BadStation)
        }
    }

    /// Writes the three letters.
    pub fn write(self) -> [u8; 3]
        ensures value { result ≡ self }
        ensures letters { IsTrue (is_station result) }
    {
        self.letters
    }
}

impl fmt::Display for Station {
    ghost output = { λ s. Some s };

    fn fmt<W: fmt::Write>(&self, f: &mut fmt::Formatter<W>) -> fmt::Result {
        let text = str::from_utf8(&self.letters).map_err(|_| fmt::Error)?;
        write!(f, "{text}")
    }
}
