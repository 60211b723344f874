//! Bytes in readable form.

use crate::fault::Fault;
use ssim_program::{Refusal, RefusalLine};
use std::fmt::Display;
use std::io::Write;

pub fn number(text: &str) -> Result<usize, Fault> {
    match text.parse() {
        Ok(number) => Ok(number),
        Err(_) => Err(Fault::Line),
    }
}

/// The first word, and what follows the blank after it.
pub fn parts(text: &str) -> Result<(&str, &str), Fault> {
    text.split_once(' ').ok_or(Fault::Line)
}

pub fn push(out: &mut Vec<u8>, text: &str) -> Result<(), Fault> {
    Ok(out.extend_from_slice(text.as_bytes())?)
}

pub fn push_line(out: &mut Vec<u8>, text: &str) -> Result<(), Fault> {
    push(out, text)?;
    Ok(out.push(b'\n')?)
}

pub fn push_value<T: Display>(out: &mut Vec<u8>, value: &T) -> Result<(), Fault> {
    match write!(out, "{value}") {
        Ok(()) => Ok(()),
        Err(_) => Err(Fault::Memory),
    }
}

/// Adds a word and a value.
pub fn push_named<T: Display>(out: &mut Vec<u8>, word: &str, value: &T) -> Result<(), Fault> {
    push(out, word)?;
    push_value(out, value)
}

/// Adds the line of a refusal.
pub fn push_refused(out: &mut Vec<u8>, refusal: &Refusal) -> Result<(), Fault> {
    push_value(out, &RefusalLine { refusal })?;
    Ok(out.push(b'\n')?)
}

/// Adds the bytes that a text shows.
pub fn add_shown(bytes: &mut Vec<u8>, text: &str) -> Result<(), Fault> {
    let mut parts = text.split('<');
    if let Some(plain) = parts.next() {
        push(bytes, plain)?;
    }
    for part in parts {
        let (sign, plain) = part.split_once('>').ok_or(Fault::Line)?;
        add_sign(bytes, sign)?;
        push(bytes, plain)?;
    }
    Ok(())
}

/// Adds the bytes of the sign between `<` and `>`: one by its hexadecimal digits, or a run of one
/// byte, a blank if none is named.
fn add_sign(bytes: &mut Vec<u8>, sign: &str) -> Result<(), Fault> {
    if let Some(digits) = sign.strip_prefix('x') {
        let Ok(byte) = u8::from_str_radix(digits, 16) else {
            return Err(Fault::Line);
        };
        return Ok(bytes.push(byte)?);
    }
    let (count, text) = sign.split_once('*').unwrap_or((sign, " "));
    let byte = text.as_bytes().first().copied().unwrap_or(b' ');
    for _ in 0..number(count)? {
        bytes.push(byte)?;
    }
    Ok(())
}

/// Shows bytes line by line under a heading, and nothing if there are none. `<>` ends a last line
/// without LF.
pub fn show(out: &mut Vec<u8>, heading: &str, bytes: &[u8]) -> Result<(), Fault> {
    if bytes.is_empty() {
        return Ok(());
    }
    push_line(out, heading)?;
    for line in bytes.split_inclusive(|byte| *byte == b'\n') {
        match line.strip_suffix(b"\n") {
            Some(whole) => show_line(out, whole, "")?,
            None => show_line(out, line, "<>")?,
        }
    }
    Ok(())
}

fn show_line(out: &mut Vec<u8>, line: &[u8], end: &str) -> Result<(), Fault> {
    push(out, "| ")?;
    for run in line.chunk_by(|a, b| a == b) {
        show_run(out, run)?;
    }
    push_line(out, end)
}

/// Shows a run of one byte: from four blanks on, and from eight other bytes on, by their count.
fn show_run(out: &mut Vec<u8>, run: &[u8]) -> Result<(), Fault> {
    let byte = run.first().copied().unwrap_or(b' ');
    if byte < b' ' || byte > b'~' || byte == b'<' {
        return show_digits(out, byte, run.len());
    }
    let least = if byte == b' ' { 4 } else { 8 };
    if run.len() < least {
        return Ok(out.extend_from_slice(run)?);
    }
    push_named(out, "<", &run.len())?;
    if byte != b' ' {
        out.push(b'*')?;
        out.push(byte)?;
    }
    Ok(out.push(b'>')?)
}

/// Shows a byte `count` times by its hexadecimal digits.
fn show_digits(out: &mut Vec<u8>, byte: u8, count: usize) -> Result<(), Fault> {
    for _ in 0..count {
        if write!(out, "<x{byte:02X}>").is_err() {
            return Err(Fault::Memory);
        }
    }
    Ok(())
}
