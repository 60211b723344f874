//! The line of a message that a desk refuses.

use crate::refusal::Refusal;
use ssim_base::ResolveFault;
use ssim_desk::DeskFault;
use ssim_guide::words_on_line;
use ssim_text::{Line, lines_left};
use ssim_values::Memory;
use std::alloc::Global;

/// The line on the line of a message that a refusal of a desk names: the flight of a sub-message, its
/// period, the time mode or the reference. Nothing for other refusals.
pub(super) fn words_on_message(
    alloc: Global,
    bytes: &[u8],
    refusal: &Refusal,
) -> Result<Vec<u8>, Memory> {
    let Refusal::Desk(DeskFault::Resolve(fault)) = refusal else {
        return Ok(Vec::new(alloc));
    };
    let lines = lines_left(alloc, bytes)?;
    match line_of(&lines, *fault) {
        Some(line) => {
            let number = line.number as u64;
            let words = words_on_line(alloc, bytes, number, refusal.number())?;
            Ok(words)
        }
        None => Ok(Vec::new(alloc)),
    }
}

/// The line that a refusal of a desk names.
fn line_of<'t>(lines: &[Line<'t>], fault: ResolveFault) -> Option<Line<'t>> {
    let [kind, body @ ..] = without_originator(lines) else {
        return None;
    };
    let (mode, left) = match body {
        [mode, left @ ..] if is_mode(mode.bytes) => (Some(*mode), left),
        _ => (None, body),
    };
    let [reference, subs @ ..] = left else {
        return None;
    };
    match fault {
        ResolveFault::TimeMode => Some(mode.unwrap_or(*kind)),
        ResolveFault::NoSuchDate(0) => Some(*reference),
        ResolveFault::Airline(sub) => flight_of(sub_message(subs, sub)),
        ResolveFault::NoSuchDate(sub) | ResolveFault::Period(sub) => {
            dates_of(kind.bytes, sub_message(subs, sub))
        }
        ResolveFault::Memory => None,
    }
}

/// The lines after that of the originator, if there is one.
fn without_originator<'l, 't>(lines: &'l [Line<'t>]) -> &'l [Line<'t>] {
    match lines {
        [first, rest @ ..] if first.bytes.starts_with(b".") => rest,
        _ => lines,
    }
}

/// Whether a line is a time mode.
fn is_mode(line: &[u8]) -> bool {
    line == b"UTC".as_slice() || line == b"LT".as_slice()
}

/// The lines of the sub-message of this number, from 1, and those after it.
fn sub_message<'l, 't>(lines: &'l [Line<'t>], number: usize) -> &'l [Line<'t>] {
    let mut left = lines;
    for _ in 1..number {
        left = after_divider(left);
    }
    left
}

/// The lines after the first divider.
fn after_divider<'l, 't>(lines: &'l [Line<'t>]) -> &'l [Line<'t>] {
    let mut left = lines;
    while let [first, rest @ ..] = left {
        if first.bytes == b"//".as_slice() {
            return rest;
        }
        left = rest;
    }
    left
}

/// The line of the flight of a sub-message, after the action.
fn flight_of<'t>(sub: &[Line<'t>]) -> Option<Line<'t>> {
    match sub {
        [_, flight, ..] => Some(*flight),
        _ => None,
    }
}

/// The line of the dates of a sub-message: in an ASM they are in that of the flight.
fn dates_of<'t>(kind: &[u8], sub: &[Line<'t>]) -> Option<Line<'t>> {
    match sub {
        [_, flight, ..] if kind == b"ASM".as_slice() => Some(*flight),
        [_, _, period, ..] => Some(*period),
        _ => None,
    }
}
