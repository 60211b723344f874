ghost use Rattle.std.specs.Prelude.{◌≡◌, ◌↔◌, ◌≤◌, ℕ, Some, None, IsOk, IfOk, IfErr, IfSome, IfNone};
ghost use Rattle.ssim_values.specs.Variation.{Offset, SpellsVariation, variation_of, variation_text};

use crate::Fault;
use crate::clock::{read_clock, write_clock};
use std::marker::Model;

/// A UTC variation: how far the local time of a station is ahead of UTC, in minutes. The sign is
/// kept as written, so `-0000` and `+0000` differ.
#[derive(Clone, Copy, Debug, PartialEq, Eq, Hash)]
pub struct Variation {
    negative: bool,
    minutes: u16,
}

impl Model for Variation {
    ghost use Rattle.std.specs.Prelude.{◌≤◌};
    ghost use Rattle.ssim_values.specs.Variation.{Offset};

    ghost Value = { Offset };

    ghost view = { λ v. record { negative = v.negative; minutes = v.minutes } };

    ghost invariant = { λ v. v.minutes ≤ 900 };

    ghost inverse = { λ v. record { negative = v.negative; minutes = v.minutes } };
}

impl Variation {
    /// Reads a sign and `HHMM` up to 1500. Any other text is 5 `BadVariation`.
    pub fn parse(text: &[u8; 5]) -> Result<Variation, Fault>
        ensures accepts { IsOk result ↔ ((v : Offset) × SpellsVariation v text.now) }
        ensures value { IfOk result (λ v. SpellsVariation v text.now) }
        ensures err { IfErr result (λ e. e ≡ Fault.BadVariation) }
        ensures some { IfOk result (λ v. variation_of text.now ≡ Some v) }
        ensures none { IfErr result (λ _. variation_of text.now ≡ None) }
    {
        match read_variation(*text) {
            Some(variation) => Ok(variation),
            None => Err(Fault::BadVariation),
        }
    }

    /// Writes a sign and `HHMM`.
    pub fn write(self) -> [u8; 5]
        ensures value { result ≡ variation_text self }
        ensures spells { SpellsVariation self result }
        ensures reads_back { (v : Offset) → SpellsVariation v result → v ≡ self }
    {
        let [h1, h2, m1, m2] = write_clock(self.minutes);
        [if self.negative { b'-' } else { b'+' }, h1, h2, m1, m2]
    }

    /// Whether the sign is `-`.
    pub fn is_negative(self) -> bool
        ensures { result ≡ self.negative }
    {
        self.negative
    }

    /// The minutes without their sign, 0 to 900.
    pub fn minutes(self) -> u16
        ensures value { result ≡ self.minutes }
        ensures bound { result ≤ 900 }
    {
        self.minutes
    }
}

fn read_variation(text: [u8; 5]) -> Option<Variation>
    ensures some { IfSome result (λ v. SpellsVariation v text) }
    ensures none { IfNone result ((v : Offset) → ¬ (SpellsVariation v text)) }
{
    let [sign, h1, h2, m1, m2] = text;
    if sign != b'+' && sign != b'-' {
        return None;
    }
    let minutes = read_clock([h1, h2, m1, m2], 900)?;
    Some(Variation {
        negative: sign == b'-',
        minutes,
    })
}
