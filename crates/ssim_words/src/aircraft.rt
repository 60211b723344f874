//! Aircraft types.

ghost use Rattle.std.specs.Prelude.{◌≡◌, IfOk, map, option_map};
ghost use Rattle.std.specs.List.{list_all};
ghost use Rattle.ssim_words.specs.Aircraft.{aircraft_spelled, if_plain, is_letter_or_digit};
ghost use Rattle.ssim_words.specs.Aircraft.{typed_aircraft};
ghost use Rattle.ssim_words.specs.Several.{each_read};

use crate::letters::typed;
use ssim_values::Memory;
use std::alloc::Global;

/// The aircraft type that a word spells, one to three letters or digits, in three columns with
/// blanks after it.
pub fn typed_aircraft(alloc: Global, word: &[u8]) -> Result<Option<[u8; 3]>, Memory>
    ensures { IfOk result (λ aircraft. aircraft ≡ typed_aircraft word.now) }
{
    let letters = typed(alloc, word)?;
    Ok(aircraft_spelled(&letters))
}

/// The aircraft types that the words spell, in their order; nothing if one of them spells none.
pub fn typed_aircraft_types(alloc: Global, words: &[&str]) -> Result<Option<Vec<[u8; 3]>>, Memory>
    ensures { IfOk result (λ found. option_map (λ types. types.items) found
        ≡ each_read typed_aircraft (map (λ word. word.now) words.now)) }
{
    let mut types = Vec::with_capacity(alloc, words.len())?;
    for word in words {
        let Some(aircraft) = typed_aircraft(alloc, word.as_bytes())? else {
            return Ok(None);
        };
        types.push(aircraft)?;
    }
    Ok(Some(types))
}

// The aircraft type that these letters and digits spell.
fn aircraft_spelled(letters: &[u8]) -> Option<[u8; 3]>
    ensures { result ≡ aircraft_spelled letters.now }
{
    match *letters {
        [a] => if_plain(&[a], [a, b' ', b' ']),
        [a, b] => if_plain(&[a, b], [a, b, b' ']),
        [a, b, d] => if_plain(&[a, b, d], [a, b, d]),
        _ => None,
    }
}

// The text, if it has letters and digits alone.
fn if_plain(letters: &[u8], text: [u8; 3]) -> Option<[u8; 3]>
    ensures { result ≡ if_plain letters.now text }
{
    if are_plain(letters) { Some(text) } else { None }
}

fn are_plain(letters: &[u8]) -> bool
    ensures { result ≡ list_all is_letter_or_digit letters.now }
{
    letters.iter().all(|byte| is_letter_or_digit(*byte))
}

fn is_letter_or_digit(byte: u8) -> bool
    ensures { result ≡ is_letter_or_digit byte }
{
    byte.is_ascii_uppercase() || byte.is_ascii_digit()
}
