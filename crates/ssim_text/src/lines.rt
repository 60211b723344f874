//! The lines of a text without empty lines, and without blanks and CR bytes at their ends.
ghost use Rattle.std.specs.Prelude.{◌≡◌, ℕ, ◌+◌, ◌≤◌, ◌++◌, [], length, map, true, IfOk, OnOk};
ghost use Rattle.ssim_text.specs.Left.{IsTextLine, is_dropped, without_end, numbered, lines_left};
ghost use Rattle.ssim_text.specs.Left.{place_number};
ghost use Rattle.ssim_text.specs.Left.{numbers, first_unprintable};
ghost use Rattle.ssim_text.specs.Bytes.{is_printable};
ghost use Rattle.std.specs.List.{All, list_all};

use crate::bytes::cut;
use std::alloc::{AllocError, Global};

/// A line of a text that is not empty.
#[derive(Clone, Copy)]
pub struct Line<'a> {
    /// Its number among all lines of the text, from 1.
    pub number: usize,
    /// Its bytes, without the CR bytes and blanks at its end.
    pub bytes: &'a [u8],
}

fn is_dropped(byte: u8) -> bool
    ensures { result ≡ is_dropped byte }
{
    byte == b'\r' || byte == b' '
}

/// A line without the CR bytes and blanks at its end.
pub fn without_end(line: &[u8]) -> &[u8]
    ensures { result.now ≡ without_end line.now }
{
    let mut line = line;
    while let [rest @ .., last] = line {
        if !is_dropped(*last) {
            return line;
        }
        line = rest;
    }
    line
}

/// Whether bytes are a line that a text can have: one printable byte or more, and no blank at the
/// end.
pub fn is_text_line(line: &[u8]) -> bool
    ensures yes { result ≡ true → IsTextLine line.now }
    ensures only { IsTextLine line.now → result ≡ true }
{
    !line.is_empty() && is_printable(line) && without_end(line) == line
}

/// A further line, if it is not empty.
fn push_line<'a>(
    lines: &mut Vec<Line<'a>>,
    number: usize,
    bytes: &'a [u8],
) -> Result<(), AllocError>
    ensures lines { OnOk result (map (λ l. (l.number, l.bytes.now)) lines.new.items
        ≡ map (λ l. (l.number, l.bytes.now)) lines.old.items ++ numbered number bytes.now []) }
    ensures bound { OnOk result ((most : ℕ) → number ≤ most
        → All (λ l. l.number ≤ most) lines.old.items → All (λ l. l.number ≤ most) lines.new.items) }
{
    if bytes.is_empty() {
        return Ok(());
    }
    lines.push(Line { number, bytes })?;
    Ok(())
}

/// The lines of a text that are not empty, with their numbers.
pub fn lines_left<'a>(alloc: Global, text: &'a [u8]) -> Result<Vec<Line<'a>>, AllocError>
    ensures lines { IfOk result
        (λ v. map (λ l. (l.number, l.bytes.now)) v.items ≡ lines_left text.now) }
    ensures bound { IfOk result (λ v. All (λ l. l.number ≤ 1 + length text.now) v.items) }
{
    // Most lines have eight bytes or more.
    let mut lines = Vec::with_capacity(alloc, text.len() / 8)?;
    let mut rest = text;
    let mut number: usize = 1;
    loop {
        let (piece, tail) = cut(rest, b'\n');
        push_line(&mut lines, number, without_end(piece))?;
        match tail {
            [_, next @ ..] => {
                rest = next;
                number += 1;
            }
            [] => return Ok(lines),
        }
    }
}

fn is_printable(line: &[u8]) -> bool
    ensures { result ≡ list_all is_printable line.now }
{
    line.iter().all(|byte| 32 <= *byte && *byte <= 126)
}

/// The number of the first line with a byte outside 32 to 126.
pub(crate) fn first_unprintable(lines: &[Line]) -> Option<usize>
    ensures { result ≡ first_unprintable (map (λ l. (l.number, l.bytes.now)) lines.now) }
{
    for line in lines {
        if !is_printable(line.bytes) {
            return Some(line.number);
        }
    }
    None
}

/// The number of the line at an index; past the last line, its number plus one; 1 without lines.
pub(crate) fn number_at(lines: &[Line], index: usize) -> usize
    requires { All (λ l. l.number ≤ 65537) lines.now }
    ensures { result ≡ place_number (numbers (map (λ l. (l.number, l.bytes.now)) lines.now)) index }
{
    if index < lines.len() {
        return lines[index].number;
    }
    match lines {
        [] => 1,
        [.., last] => last.number + 1,
    }
}
