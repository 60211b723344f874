//! Lines that say how many elements follow.

ghost use Rattle.std.specs.Prelude.{◌≡◌, ◌↔◌, ◌++◌, ◌∷◌, [], ◌<◌, ◌*◌, ◌^◌, ℕ, List, length};
ghost use Rattle.std.specs.Prelude.{IfNone, IfSome, IsSomeAnd, IsTrue, Some};
ghost use Rattle.std.specs.Fmt.{decimal};
ghost use Rattle.ssim_text.specs.Bytes.{before, from};
ghost use Rattle.ssim_held.specs.File.{counted};
ghost use Rattle.ssim_held.specs.internal.DeskFileReader.{is_number};

use ssim_values::are_digits;
use std::str;

/// How many elements follow. None means a number that no memory can hold.
pub(crate) type Count = Option<usize>;

/// The bytes after a prefix.
pub(crate) fn after_prefix<'a>(prefix: &[u8], bytes: &'a [u8]) -> Option<&'a [u8]>
    ensures some { IfSome result (λ rest. bytes.now ≡ prefix.now ++ rest.now) }
    ensures only { (rest : List ℕ) → bytes.now ≡ prefix.now ++ rest
        → IsSomeAnd result (λ found. found.now ≡ rest) }
{
    let (start, rest) = bytes.split_at_checked(prefix.len())?;
    if start == prefix { Some(rest) } else { None }
}

/// The bytes of the first line without its LF, and those after it.
fn first_line(bytes: &[u8]) -> Option<(&[u8], &[u8])>
    ensures some { IfSome result
        (λ line. (line.0.now ≡ before 10 bytes.now) × (from 10 bytes.now ≡ 10 ∷ line.1.now)) }
    ensures none { IfNone result (from 10 bytes.now ≡ []) }
{
    for (at, byte) in bytes.iter().enumerate() {
        if *byte == b'\n' {
            return Some((&bytes[..at], &bytes[at + 1..]));
        }
    }
    None
}

/// Whether the bytes are a decimal number without leading zeros, however long.
fn is_number(text: &[u8]) -> bool
    ensures { result ≡ is_number text.now }
{
    match text {
        [] => false,
        [b'0', rest @ ..] => rest.is_empty(),
        _ => are_digits(text),
    }
}

/// The number that bytes are in decimal.
fn number(text: &[u8]) -> Option<Count>
    ensures some { IfSome result (λ count. IfSome count (λ n. text.now ≡ decimal n)) }
    ensures only { (n : ℕ) → n < 2 ^ 64 → text.now ≡ decimal n → result ≡ Some (Some n) }
{
    if !is_number(text) {
        return None;
    }
    let Ok(digits) = str::from_utf8(text) else {
        return None;
    };
    Some(digits.parse::<usize>().ok())
}

/// The number of a line of this word and a number, and the bytes after the line.
pub(crate) fn count_line<'a>(word: &[u8], bytes: &'a [u8]) -> Option<(Count, &'a [u8])>
    ensures some { IfSome result
        (λ line. IfSome line.0 (λ n. bytes.now ≡ counted word.now n ++ line.1.now)) }
    ensures shorter { IfSome result (λ line. length line.1.now < length bytes.now) }
    ensures only { (n : ℕ) (later : List ℕ) → n < 2 ^ 64 → bytes.now ≡ counted word.now n ++ later
        → IsSomeAnd result (λ line. (line.0 ≡ Some n) × (line.1.now ≡ later)) }
{
    let rest = after_prefix(b" ", after_prefix(word, bytes)?)?;
    let (digits, rest) = first_line(rest)?;
    Some((number(digits)?, rest))
}

/// The first `count` elements of `size` bytes each, and the bytes after them, if they are all
/// there.
pub(crate) fn elements(count: Count, size: usize, bytes: &[u8]) -> Option<(&[u8], &[u8])>
    requires { 0 < size }
    ensures some { IfSome result (λ parts. (bytes.now ≡ parts.0.now ++ parts.1.now)
        × IsSomeAnd count (λ n. length parts.0.now ≡ n * size)) }
    ensures only { (n : ℕ) (part later : List ℕ) → count ≡ Some n → length part ≡ n * size
        → bytes.now ≡ part ++ later
        → IsSomeAnd result (λ parts. (parts.0.now ≡ part) × (parts.1.now ≡ later)) }
{
    let count = count?;
    if count > bytes.len() / size {
        return None;
    }
    Some(bytes.split_at(count * size))
}
