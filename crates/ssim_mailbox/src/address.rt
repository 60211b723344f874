//! Lines of addresses.
ghost use Rattle.std.specs.Prelude.{◌≡◌};
ghost use Rattle.std.specs.List.{list_all};
ghost use Rattle.ssim_values.specs.Characters.{is_letter};
ghost use Rattle.ssim_mailbox.specs.Addresses.{after_priority, is_address, is_address_line};
ghost use Rattle.ssim_mailbox.specs.Addresses.{is_alphanumeric};

use crate::line::split_once;

fn all_letters(text: &[u8]) -> bool
    ensures { result ≡ list_all is_letter text.now }
{
    text.iter().all(|byte| b'A' <= *byte && *byte <= b'Z')
}

fn all_alphanumeric(text: &[u8]) -> bool
    ensures { result ≡ list_all is_alphanumeric text.now }
{
    text.iter().all(|byte| (b'A' <= *byte && *byte <= b'Z') || (b'0' <= *byte && *byte <= b'9'))
}

/// Whether a word is an address: four letters and three letters or digits.
fn is_address(word: &[u8]) -> bool
    ensures { result ≡ is_address word.now }
{
    if word.len() != 7 {
        return false;
    }
    let (place, office) = word.split_at(4);
    all_letters(place) && all_alphanumeric(office)
}

/// A line without a priority at its beginning: the letter Q, a letter and a blank.
fn after_priority(line: &[u8]) -> &[u8]
    ensures { result.now ≡ after_priority line.now }
{
    match line {
        [b'Q', letter, b' ', rest @ ..] if letter.is_ascii_uppercase() => rest,
        _ => line,
    }
}

/// Whether a line has one or more addresses, with a priority before them or without, and no other
/// word.
pub(crate) fn is_address_line(line: &[u8]) -> bool
    ensures { result ≡ is_address_line line.now }
{
    let mut rest = after_priority(line);
    let mut found = false;
    loop {
        let (word, tail) = split_once(rest, b' ');
        if !word.is_empty() {
            if !is_address(word) {
                return false;
            }
            found = true;
        }
        match tail {
            Some(next) => rest = next,
            None => return found,
        }
    }
}
