//! The words on a line of a text, a station table or a script, and on an element of a desk file.

use crate::known::known_at;
use crate::lines::{push_line, push_shown};
use ssim_text::{cut, without_end};
use std::alloc::{AllocError, Global};

/// The lines on the line with this number, from 1, at which a refusal has the number `refusal`: its
/// bytes, or that the file ends before it; an example of what is allowed there; and what is known of
/// it, if it is of a text of SSIM that no command takes.
pub fn words_on_line(
    alloc: Global,
    bytes: &[u8],
    number: u64,
    refusal: u8,
) -> Result<Vec<u8>, AllocError> {
    let mut lines = Vec::new(alloc);
    let found = line_at(bytes, number);
    match found {
        Some(found) => push_shown(&mut lines, "line", found)?,
        None => push_line(&mut lines, "line", "the file ends before it")?,
    }
    if let Some(allowed) = allowed_at(refusal) {
        push_line(&mut lines, "allowed", allowed)?;
    }
    if let Some(known) = found.and_then(|line| known_at(line, refusal)) {
        push_line(&mut lines, "known", known)?;
    }
    Ok(lines)
}

/// The line on a word of a command line.
pub fn words_on_word(alloc: Global, word: &str) -> Result<Vec<u8>, AllocError> {
    let mut lines = Vec::new(alloc);
    push_shown(&mut lines, "word", word.as_bytes())?;
    Ok(lines)
}

/// The lines on the element of a desk file that begins at this offset: its first line, or that the
/// file ends there.
pub fn words_on_offset(alloc: Global, bytes: &[u8], offset: u64) -> Result<Vec<u8>, AllocError> {
    let mut lines = Vec::new(alloc);
    match rest_at(bytes, offset) {
        Some(rest) => push_shown(&mut lines, "element", cut(rest, b'\n').0)?,
        None => push_line(&mut lines, "element", "the file ends before it")?,
    }
    Ok(lines)
}

/// An example of a line that is allowed where a refusal has this number.
fn allowed_at(refusal: u8) -> Option<&'static str> {
    match refusal {
        20 => Some("SSM or ASM, or an originator such as .HAMOPZ7"),
        21 => Some("a reference such as 15MAR00001E001"),
        22 => Some("NEW, CNL, RPL, EQT or TIM"),
        23 => Some("a flight such as Z7103, in an ASM such as Z7401/15JUN"),
        24 => Some("a period such as 17MAY27 31MAY27 1"),
        25 => Some("an equipment such as J 32N CYBMHQ.C16Y148"),
        26 => Some("a leg such as FDH0820 BER1000, or a segment such as FDHOSL 10/SK 7601"),
        27 => Some("//, or the end of the text"),
        39 => Some("a row such as ZRH 28MAR27 30OCT27 +0200"),
        63 => Some("first DESKS 2, then TAKE 1 NAME or MERGE 1 2"),
        _ => None,
    }
}

/// The bytes of the line with this number, without its LF and the CR bytes and blanks before it.
fn line_at(bytes: &[u8], number: u64) -> Option<&[u8]> {
    let mut rest = bytes;
    for _ in 1..number {
        let (_, after) = cut(rest, b'\n');
        rest = after.split_first()?.1;
    }
    if rest.is_empty() {
        return None;
    }
    Some(without_end(cut(rest, b'\n').0))
}

/// The bytes from this offset on, if there are any.
fn rest_at(bytes: &[u8], offset: u64) -> Option<&[u8]> {
    if offset >= bytes.len() as u64 {
        return None;
    }
    bytes.get(offset as usize..)
}
