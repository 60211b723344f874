//! The words on an overlap: the other record, and a date that both have.

use crate::lines::{push_number, push_shown};
use crate::record_words::{after_record, first_record, record_at};
use ssim_base::validity_end;
use ssim_records::{LegRecord, Record, read_record};
use ssim_values::{Day, Period};
use std::alloc::{AllocError, Global};

/// Two records with one flight and leg sequence on a common date.
#[derive(Clone, Copy, Debug)]
struct Overlap<'b> {
    /// The number and the bytes of the earlier record.
    other: u64,
    found: &'b [u8],
    /// The first date that both have.
    day: Day,
}

/// The lines on the record with this number, and on the first one before it that has its flight and
/// leg sequence on a common date.
pub fn words_on_overlap(alloc: Global, bytes: &[u8], number: u64) -> Result<Vec<u8>, AllocError> {
    let mut lines = Vec::new(alloc);
    if let Some(record) = record_at(bytes, number) {
        push_shown(&mut lines, "record", record)?;
        if let Some(overlap) = overlap_of(bytes, record, number) {
            push_overlap(&mut lines, &overlap)?;
        }
    }
    Ok(lines)
}

/// Adds the lines on the earlier record.
fn push_overlap(lines: &mut Vec<u8>, overlap: &Overlap<'_>) -> Result<(), AllocError> {
    push_shown(lines, "other record", overlap.found)?;
    lines.extend_from_slice(b"its number: ")?;
    push_number(lines, overlap.other as usize)?;
    lines.extend_from_slice(b"\ncommon date: ")?;
    lines.extend_from_slice(&overlap.day.write())?;
    lines.push(b'\n')?;
    Ok(())
}

/// The first record before the one with this number that has its flight and leg sequence on a date
/// of it.
fn overlap_of<'b>(bytes: &'b [u8], record: &[u8], number: u64) -> Option<Overlap<'b>> {
    let record = record_in(record)?;
    let mut rest = bytes;
    // The last day of the calendar, up to the carrier record.
    let mut end = Day::parse(b"31DEC99").ok()?;
    for other in 1..number {
        let found = first_record(rest);
        let earlier = record_in(found);
        end = end_after(earlier.as_ref(), end);
        if let Some(day) = overlap_day(earlier.as_ref(), &record, end) {
            return Some(Overlap { other, found, day });
        }
        rest = after_record(rest)?;
    }
    None
}

/// What 200 bytes say, if they are a valid record.
fn record_in(bytes: &[u8]) -> Option<Record> {
    read_record(bytes.as_array()?).ok()
}

/// The last day of the validity after one more record.
fn end_after(record: Option<&Record>, end: Day) -> Day {
    match record {
        Some(Record::Carrier(carrier)) => validity_end(carrier),
        _ => end,
    }
}

/// The first date that two leg records with one flight and leg sequence have in common. An open end
/// is this day.
fn overlap_day(one: Option<&Record>, other: &Record, end: Day) -> Option<Day> {
    match (one, other) {
        (Some(Record::Leg(one)), Record::Leg(other)) if is_same_leg(one, other) => {
            common_day(one, other, end)
        }
        _ => None,
    }
}

/// Whether two leg records have one flight and leg sequence.
fn is_same_leg(one: &LegRecord, other: &LegRecord) -> bool {
    one.flight() == other.flight() && one.name().sequence() == other.name().sequence()
}

/// The first day that the periods of two leg records have in common. An open end is this day.
fn common_day(one: &LegRecord, other: &LegRecord, end: Day) -> Option<Day> {
    let one = period_of(one, end)?;
    let other = period_of(other, end)?;
    for number in one.first().number()..=one.last().number() {
        let day = Day::from_number(number)?;
        if one.holds(day) && other.holds(day) {
            return Some(day);
        }
    }
    None
}

/// The period of a leg record.
fn period_of(leg: &LegRecord, end: Day) -> Option<Period> {
    Period::new(leg.first(), leg.last().unwrap_or(end), leg.days()).ok()
}
