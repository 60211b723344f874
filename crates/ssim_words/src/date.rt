//! Dates.

ghost use Rattle.std.specs.Prelude.{◌≡◌, IfOk};
ghost use Rattle.ssim_values.specs.Day.{day_of};
ghost use Rattle.ssim_words.specs.Date.{day_spelled, in_century, month_of, of_month, typed_day};

use crate::letters::typed;
use ssim_values::{Day, Memory};
use std::alloc::Global;

/// The date that a word spells: `5JUN27`, `05JUN27`, `5JUN2027`, `05JUN2027` or `2027-06-05`.
pub fn typed_day(alloc: Global, word: &[u8]) -> Result<Option<Day>, Memory>
    ensures { IfOk result (λ day. day ≡ typed_day word.now) }
{
    let letters = typed(alloc, word)?;
    Ok(day_spelled(&letters))
}

// The date that these letters and digits spell.
fn day_spelled(letters: &[u8]) -> Option<Day>
    ensures { result ≡ day_spelled letters.now }
{
    match *letters {
        [d, a, b, c, y, z] => day_of([b'0', d, a, b, c, y, z]),
        [d, e, a, b, c, y, z] => day_of([d, e, a, b, c, y, z]),
        [d, a, b, c, h, k, y, z] => in_century(h, k, [b'0', d, a, b, c, y, z]),
        [d, e, a, b, c, h, k, y, z] => in_century(h, k, [d, e, a, b, c, y, z]),
        [h, k, y, z, s, m, n, t, d, e] => {
            if s == b'-' && t == b'-' {
                of_month(h, k, [y, z], [m, n], [d, e])
            } else {
                None
            }
        }
        _ => None,
    }
}

// The date of a year 20YY, with a month of two digits.
fn of_month(h: u8, k: u8, year: [u8; 2], month: [u8; 2], day: [u8; 2]) -> Option<Day>
    ensures { result ≡ of_month h k year month day }
{
    let [a, b, c] = month_of(month)?;
    let [y, z] = year;
    let [d, e] = day;
    in_century(h, k, [d, e, a, b, c, y, z])
}

// The date with two digits of the year, if the two before them are 20.
fn in_century(h: u8, k: u8, text: [u8; 7]) -> Option<Day>
    ensures { result ≡ in_century h k text }
{
    if h == b'2' && k == b'0' {
        day_of(text)
    } else {
        None
    }
}

fn day_of(text: [u8; 7]) -> Option<Day>
    ensures { result ≡ day_of text }
{
    Day::parse(&text).ok()
}

// The name of the month that two digits number.
fn month_of(digits: [u8; 2]) -> Option<[u8; 3]>
    ensures { result ≡ month_of digits }
{
    match &digits {
        b"01" => Some(*b"JAN"),
        b"02" => Some(*b"FEB"),
        b"03" => Some(*b"MAR"),
        b"04" => Some(*b"APR"),
        b"05" => Some(*b"MAY"),
        b"06" => Some(*b"JUN"),
        b"07" => Some(*b"JUL"),
        b"08" => Some(*b"AUG"),
        b"09" => Some(*b"SEP"),
        b"10" => Some(*b"OCT"),
        b"11" => Some(*b"NOV"),
        b"12" => Some(*b"DEC"),
        _ => None,
    }
}
