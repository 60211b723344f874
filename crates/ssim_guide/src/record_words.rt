//! The words on a record of a data set.

use crate::fields::field_at;
use crate::lines::{push_line, push_number, push_shown};
use std::alloc::{AllocError, Global};

const SEVERAL_CARRIERS: &str = "a file of several carriers: split divides it";

/// The lines on the record with this number, from 1: its bytes, and of the field that is refused at
/// the column its name, its columns, what is there, and what is allowed there. There are none if the
/// data set ends before the record.
pub fn words_on_record(
    alloc: Global,
    bytes: &[u8],
    number: u64,
    column: Option<usize>,
) -> Result<Vec<u8>, AllocError> {
    let mut lines = Vec::new(alloc);
    if let Some(found) = record_at(bytes, number) {
        push_shown(&mut lines, "record", found)?;
        if let Some(column) = column {
            push_field(&mut lines, found, column)?;
        }
    }
    Ok(lines)
}

/// The lines on the record with this number, and on the overflow of its itinerary variation: column
/// 28 of a segment record, 128 of a leg record.
pub fn words_on_overflow(alloc: Global, bytes: &[u8], number: u64) -> Result<Vec<u8>, AllocError> {
    let column = match record_at(bytes, number) {
        Some([b'4', ..]) => 28,
        _ => 128,
    };
    words_on_record(alloc, bytes, number, Some(column))
}

/// The lines on the record with this number, whose type is invalid in its place: its bytes, and if it is
/// a carrier record, what is known of the file.
pub fn words_on_type(alloc: Global, bytes: &[u8], number: u64) -> Result<Vec<u8>, AllocError> {
    let mut lines = words_on_record(alloc, bytes, number, None)?;
    if let Some([b'2', ..]) = record_at(bytes, number) {
        push_line(&mut lines, "known", SEVERAL_CARRIERS)?;
    }
    Ok(lines)
}

/// The lines on the trailer with this number, after which another carrier is to follow: its bytes, the
/// field that says so, and what is known of the file.
pub fn words_on_continuation(
    alloc: Global,
    bytes: &[u8],
    number: u64,
) -> Result<Vec<u8>, AllocError> {
    let mut lines = words_on_record(alloc, bytes, number, Some(194))?;
    push_line(&mut lines, "known", SEVERAL_CARRIERS)?;
    Ok(lines)
}

/// Adds the lines on the field of a record that is refused at the column.
fn push_field(lines: &mut Vec<u8>, record: &[u8], column: usize) -> Result<(), AllocError> {
    let Some(kind) = record.first() else {
        return Ok(());
    };
    let Some(field) = field_at(*kind, column) else {
        return Ok(());
    };
    let last = field.last_at(column);
    push_columns(lines, field.name, column, last)?;
    if let Some(found) = columns_of(record, column, last) {
        push_shown(lines, "found", found)?;
    }
    push_line(lines, "allowed", field.allowed)
}

/// Adds the line on the name of a field and its columns.
fn push_columns(
    lines: &mut Vec<u8>,
    name: &str,
    first: usize,
    last: usize,
) -> Result<(), AllocError> {
    lines.extend_from_slice(b"field: ")?;
    lines.extend_from_slice(name.as_bytes())?;
    lines.extend_from_slice(b", columns ")?;
    push_number(lines, first)?;
    lines.extend_from_slice(b" to ")?;
    push_number(lines, last)?;
    lines.push(b'\n')?;
    Ok(())
}

/// The columns of a record, counted from 1.
pub(crate) fn columns_of(record: &[u8], first: usize, last: usize) -> Option<&[u8]> {
    if first == 0 {
        return None;
    }
    record.get(first - 1..last)
}

/// The bytes of the record with this number: 200, or those that are left.
pub(crate) fn record_at(bytes: &[u8], number: u64) -> Option<&[u8]> {
    let mut rest = bytes;
    for _ in 1..number {
        rest = after_record(rest)?;
    }
    if rest.is_empty() {
        return None;
    }
    Some(first_record(rest))
}

/// The first 200 bytes, or fewer if there are no more.
pub(crate) fn first_record(bytes: &[u8]) -> &[u8] {
    bytes.get(..200).unwrap_or(bytes)
}

/// What follows a record and the line ends after it.
pub(crate) fn after_record(bytes: &[u8]) -> Option<&[u8]> {
    let rest = bytes.get(200..)?;
    Some(without_line_ends(rest))
}

/// The bytes from the first that is no line end on: a line end is LF, or CR and LF.
fn without_line_ends(bytes: &[u8]) -> &[u8] {
    let mut rest = bytes;
    loop {
        match rest {
            [b'\n', next @ ..] => rest = next,
            [b'\r', b'\n', next @ ..] => rest = next,
            _ => return rest,
        }
    }
}
