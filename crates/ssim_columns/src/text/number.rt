//! Numbers in the columns of a record.

ghost use Rattle.std.specs.Prelude.{◌≡◌, ◌≤◌, ◌<◌, ◌+◌, ◌%◌, ◌^◌, length, IfSome};
ghost use Rattle.ssim_columns.specs.Numbers.{digits_of, drop_blanks, drop_blanks_at_end, number_of, sequence_of, digits};

use ssim_values::{is_digit, last_digit, write_two_digits};

/// The number that digits alone spell.
#[tactic(auto, unfolding(crate::specs::Numbers::digits_of))]
pub(crate) fn digits_of(text: &[u8]) -> Option<u32>
    requires { length text.now ≤ 6 }
    ensures below { IfSome result (λ number. number < 10 ^ length text.now) }
    ensures value { result ≡ digits_of text.now }
{
    if text.is_empty() {
        return None;
    }
    let mut number: u32 = 0;
    for byte in text {
        if !is_digit(*byte) {
            return None;
        }
        number = number * 10 + (*byte - b'0') as u32;
    }
    Some(number)
}

fn drop_blanks(text: &[u8]) -> &[u8]
    ensures len { length result.now ≤ length text.now }
    ensures value { result.now ≡ drop_blanks text.now }
{
    let mut text = text;
    while let [b' ', rest @ ..] = text {
        text = rest;
    }
    text
}

#[tactic(auto, unfolding(crate::specs::Numbers::drop_blanks_at_end))]
fn drop_blanks_at_end(text: &[u8]) -> &[u8]
    ensures len { length result.now ≤ length text.now }
    ensures value { result.now ≡ drop_blanks_at_end text.now }
{
    let mut text = text;
    while let [rest @ .., b' '] = text {
        text = rest;
    }
    text
}

// Does what `number_of` does if there are other bytes than digits. It is not inlined, since there
// are mostly only digits.
#[inline(never)]
#[tactic(auto, unfolding(crate::specs::Numbers::number_of))]
fn number_beside_blanks(text: &[u8]) -> Option<u32>
    requires { length text.now ≤ 6 }
    ensures below { IfSome result (λ number. number < 10 ^ length text.now) }
    ensures value { result ≡ number_of text.now }
{
    digits_of(drop_blanks_at_end(drop_blanks(text)))
}

/// The number that digits spell, with blanks before or after.
// Mostly there are only digits.
#[tactic(auto, unfolding(crate::specs::Numbers::number_of), using(crate::proofs::lemmas::Numbers::digits_alone))]
pub(crate) fn number_of(text: &[u8]) -> Option<u32>
    requires { length text.now ≤ 6 }
    ensures below { IfSome result (λ number. number < 10 ^ length text.now) }
    ensures value { result ≡ number_of text.now }
{
    if let Some(number) = digits_of(text) {
        return Some(number);
    }
    number_beside_blanks(text)
}

/// The number that digits spell, with blanks before or after, if it is not 0.
#[tactic(auto, unfolding(crate::specs::Numbers::sequence_of))]
pub(crate) fn sequence_of(text: &[u8]) -> Option<u32>
    requires { length text.now ≤ 6 }
    ensures below { IfSome result (λ number. (0 < number) × (number < 10 ^ length text.now)) }
    ensures value { result ≡ sequence_of text.now }
{
    match number_of(text) {
        Some(0) | None => None,
        Some(number) => Some(number),
    }
}

#[tactic(auto, using(crate::proofs::lemmas::Numbers::last_two))]
pub(crate) fn two_digits(number: u32) -> [u8; 2]
    ensures { result ≡ digits 2 number }
{
    write_two_digits((number % 100) as u8)
}

pub(crate) fn three_digits(number: u32) -> [u8; 3]
    ensures { result ≡ digits 3 number }
{
    [
        last_digit(number / 10 / 10),
        last_digit(number / 10),
        last_digit(number),
    ]
}

/// The two digits of a number below 100.
#[tactic(auto, using(crate::proofs::lemmas::Numbers::two_alone))]
pub(crate) fn both_digits(number: u8) -> [u8; 2]
    requires { number < 100 }
    ensures { result ≡ digits 2 number }
{
    write_two_digits(number)
}

/// The four digits of a number below 10,000.
pub(crate) fn four_digits(number: u32) -> [u8; 4]
    requires { number < 10000 }
    ensures { result ≡ digits 4 number }
{
    let [d1, d2] = both_digits((number / 10 / 10) as u8);
    let [d3, d4] = two_digits(number);
    [d1, d2, d3, d4]
}

pub fn six_digits(number: u32) -> [u8; 6]
    ensures { result ≡ digits 6 number }
{
    // A desk keeps its records with the serial zero.
    if number == 0 {
        return *b"000000";
    }
    let hundreds = number / 10 / 10;
    let [d1, d2] = two_digits(hundreds / 10 / 10);
    let [d3, d4] = two_digits(hundreds);
    let [d5, d6] = two_digits(number);
    [d1, d2, d3, d4, d5, d6]
}
