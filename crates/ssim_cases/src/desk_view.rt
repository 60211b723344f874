//! What a desk shows.

use crate::desks::{base_of, push_findings, push_memory};
use crate::fault::Fault;
use crate::transcript::{number, parts, push, push_line, push_named, push_refused, push_value};
use ssim_desk::Desk;
use ssim_program::Refusal;
use ssim_records::Bytes;
use ssim_values::{Day, Designator};
use std::alloc::Global;

/// The columns of a leg record that are printed: the period, the times, the UTC variations and the
/// aircraft type.
const OF_LEGS: [(usize, usize); 8] = [
    (14, 21),
    (21, 28),
    (28, 35),
    (39, 43),
    (47, 52),
    (57, 61),
    (65, 70),
    (72, 75),
];

/// The columns of a segment record that are printed: the leg sequence and the first ones from 29
/// on.
const OF_SEGMENTS: [(usize, usize); 3] = [(11, 13), (28, 39), (39, 53)];

/// Prints what a desk shows for a word.
pub fn print(
    alloc: Global,
    desk: &Desk,
    word: &str,
    rest: &str,
    out: &mut Vec<u8>,
) -> Result<(), Fault> {
    match word {
        "held" => print_held(desk, out),
        "findings" => print_findings(desk, out),
        "cuts" => print_cuts(desk, rest, out),
        "applied" => print_applied(desk, rest, out),
        _ => print_exported(alloc, desk, word, rest, out),
    }
}

/// Prints what the export of a desk shows for a word.
fn print_exported(
    alloc: Global,
    desk: &Desk,
    word: &str,
    rest: &str,
    out: &mut Vec<u8>,
) -> Result<(), Fault> {
    let mut export = Bytes::new(alloc);
    if let Err(fault) = desk.export(&mut export) {
        let airline = desk.base().airline();
        return push_refused(out, &Refusal::Export { airline, fault });
    }
    let bytes = export.bytes();
    match word {
        "export" => {
            push_named(out, "bytes ", &bytes.len())?;
            Ok(out.push(b'\n')?)
        }
        "again" => print_again(alloc, bytes, out),
        "pieces" => print_columns(bytes, b'3', rest, &OF_LEGS, out),
        "tails" => print_columns(bytes, b'4', rest, &OF_SEGMENTS, out),
        _ => Err(Fault::Line),
    }
}

/// Prints whether the export, read as a data set, is exported as the same bytes.
fn print_again(alloc: Global, export: &[u8], out: &mut Vec<u8>) -> Result<(), Fault> {
    let desk = Desk::start(alloc, base_of(alloc, export, b"")?)?;
    let mut again = Bytes::new(alloc);
    let same = desk.export(&mut again).is_ok() && again.bytes() == export;
    push_line(out, if same { "same" } else { "different" })
}

/// Prints columns of each record of a type and a flight, which is given as columns 3-9 have it.
fn print_columns(
    export: &[u8],
    record_type: u8,
    flight: &str,
    columns: &[(usize, usize)],
    out: &mut Vec<u8>,
) -> Result<(), Fault> {
    for record in export.split(|byte| *byte == b'\n') {
        if record.first() == Some(&record_type) && record.get(2..9) == Some(flight.as_bytes()) {
            print_record(record, columns, out)?;
        }
    }
    Ok(())
}

fn print_record(record: &[u8], columns: &[(usize, usize)], out: &mut Vec<u8>) -> Result<(), Fault> {
    for (start, end) in columns {
        out.push(b' ')?;
        out.extend_from_slice(record.get(*start..*end).unwrap_or(b""))?;
    }
    Ok(out.push(b'\n')?)
}

fn print_held(desk: &Desk, out: &mut Vec<u8>) -> Result<(), Fault> {
    for held in desk.held() {
        push_value(out, &held.reference())?;
        out.push(b'\n')?;
    }
    Ok(())
}

fn print_findings(desk: &Desk, out: &mut Vec<u8>) -> Result<(), Fault> {
    match desk.findings() {
        Ok(lines) => push_findings(out, &lines),
        Err(_) => push_memory(out),
    }
}

/// Prints the cuts of a flight that are not among days that are listed by number.
fn print_cuts(desk: &Desk, rest: &str, out: &mut Vec<u8>) -> Result<(), Fault> {
    let (flight, days) = parts(rest)?;
    let Ok(designator) = Designator::parse(flight.as_bytes()) else {
        return Err(Fault::Line);
    };
    for cut in desk.cuts(&designator.flight) {
        if !is_listed(days, *cut)? {
            push_named(out, "cut ", cut)?;
            out.push(b'\n')?;
        }
    }
    push_line(out, "no other cuts")
}

fn is_listed(days: &str, cut: u32) -> Result<bool, Fault> {
    for day in days.split_whitespace() {
        if number(day)? == cut as usize {
            return Ok(true);
        }
    }
    Ok(false)
}

/// Prints whether the count of messages that were applied is between two numbers.
fn print_applied(desk: &Desk, rest: &str, out: &mut Vec<u8>) -> Result<(), Fault> {
    let (least, most) = parts(rest)?;
    let applied = desk.applied();
    if number(least)? as u64 <= applied && applied <= number(most)? as u64 {
        return push_line(out, "within");
    }
    push_named(out, "applied ", &applied)?;
    Ok(out.push(b'\n')?)
}

/// Adds sub-messages that each cancel a flight on one date, from the first date on at equal
/// distances.
pub fn add_cancels(bytes: &mut Vec<u8>, rest: &str) -> Result<(), Fault> {
    let (flight, rest) = parts(rest)?;
    let (first, rest) = parts(rest)?;
    let (step, count) = parts(rest)?;
    let (step, count, mut day) = (number(step)?, number(count)?, number(first)?);
    for place in 0..count {
        if place > 0 {
            push(bytes, "//\n")?;
        }
        add_cancel(bytes, flight, day)?;
        day = day.saturating_add(step);
    }
    Ok(())
}

fn add_cancel(bytes: &mut Vec<u8>, flight: &str, day: usize) -> Result<(), Fault> {
    let Ok(short) = u16::try_from(day) else {
        return Err(Fault::Line);
    };
    let date = Day::from_number(short).ok_or(Fault::Line)?;
    push(bytes, "CNL\n")?;
    push_line(bytes, flight)?;
    push_value(bytes, &date)?;
    push_named(bytes, " ", &date)?;
    push_line(bytes, " 1234567")
}
