//! How bytes are cut into lines, and a line into its parts; bytes as text.
ghost use Rattle.std.specs.Prelude.{◌≡◌, ◌∷◌, IfOk, take, drop};
ghost use Rattle.std.specs.List.{list_all};
ghost use Rattle.ssim_text.specs.Bytes.{before, from, drop_blanks, word, after_word, is_alphanumeric};
ghost use Rattle.ssim_values.specs.Characters.{is_letter};

use std::fmt;

/// The bytes before the first `mark`, and those from it on.
pub fn cut(text: &[u8], mark: u8) -> (&[u8], &[u8])
    ensures before { result.0.now ≡ before mark text.now }
    ensures from { result.1.now ≡ from mark text.now }
{
    for (at, byte) in text.iter().enumerate() {
        if *byte == mark {
            return text.split_at(at);
        }
    }
    text.split_at(text.len())
}

/// The bytes after the blanks at the beginning.
pub(crate) fn skip_blanks(text: &[u8]) -> &[u8]
    ensures { result.now ≡ drop_blanks text.now }
{
    let mut text = text;
    while let [b' ', rest @ ..] = text {
        text = rest;
    }
    text
}

/// The first word, and the bytes after the blanks that follow it. The word is empty if the line
/// begins with a blank.
pub fn first_word(line: &[u8]) -> (&[u8], &[u8])
    ensures word { result.0.now ≡ word line.now }
    ensures after_word { result.1.now ≡ after_word line.now }
{
    let (word, rest) = cut(line, b' ');
    (word, skip_blanks(rest))
}

/// The first bytes, up to `count` of them, and the others.
pub(crate) fn first_bytes(text: &[u8], count: usize) -> (&[u8], &[u8])
    ensures first { result.0.now ≡ take count text.now }
    ensures rest { result.1.now ≡ drop count text.now }
{
    if count <= text.len() {
        text.split_at(count)
    } else {
        text.split_at(text.len())
    }
}

pub(crate) fn all_letters(text: &[u8]) -> bool
    ensures { result ≡ list_all is_letter text.now }
{
    text.iter().all(|byte| b'A' <= *byte && *byte <= b'Z')
}

pub(crate) fn all_alphanumeric(text: &[u8]) -> bool
    ensures { result ≡ list_all is_alphanumeric text.now }
{
    text.iter().all(|byte| (b'A' <= *byte && *byte <= b'Z') || (b'0' <= *byte && *byte <= b'9'))
}

/// Bytes as the text that they spell.
pub(crate) fn as_text(bytes: &[u8]) -> Result<&str, fmt::Error>
    ensures { IfOk result (λ text. text.now ≡ bytes.now) }
{
    match str::from_utf8(bytes) {
        Ok(text) => Ok(text),
        Err(_) => Err(fmt::Error),
    }
}
