//! Which segment data `NEW` and `RPL` give to a leg.

ghost use Rattle.std.specs.Prelude.{◌≡◌, ◌≤◌, ◌-◌, IfOk, codes, length, map};
ghost use Rattle.std.specs.List.{list_all};
ghost use Rattle.std.specs.Str.{bytes_eq};
ghost use Rattle.ssim_text.specs.Lines.{station_in};
ghost use Rattle.ssim_outbox.specs.Reason.{are_data, both, gives_tail, is_low, leg_line, number_of};
ghost use Rattle.ssim_outbox.specs.Reason.{points, points_in, tail_made};

use ssim_records::SegmentTail;
use ssim_schedule::PlacedLeg;
use ssim_text::{LegEnd, LegLine, leg_pair, read_station, without_end};
use ssim_values::{Clock, Memory, Station};
use std::alloc::Global;

/// The most leg lines of a sub-message.
const MOST_LEGS: usize = 20;

/// The leg lines of legs, without their date variations and passenger times.
pub(crate) fn leg_lines(alloc: Global, legs: &[PlacedLeg]) -> Result<Vec<LegLine>, Memory>
    ensures { IfOk result (λ lines. lines.items ≡ map leg_line legs.now) }
{
    let mut lines = Vec::new(alloc);
    for leg in legs {
        lines.push(leg_line(leg))?;
    }
    Ok(lines)
}

// The leg line of a leg.
fn leg_line(leg: &PlacedLeg) -> LegLine
    ensures { result ≡ leg_line leg.now }
{
    let columns = leg.columns();
    let departure = columns.aircraft_departure_time();
    let arrival = columns.aircraft_arrival_time();
    LegLine {
        departure: end_of(columns.departure_station(), departure),
        arrival: end_of(columns.arrival_station(), arrival),
    }
}

fn end_of(station: Station, time: Clock) -> LegEnd
    ensures { result
        ≡ record { station = station; time = time; variation = 0; passenger = time } }
{
    LegEnd {
        station,
        time,
        variation: 0,
        passenger: time,
    }
}

/// Whether segment lines give each of the tails to the leg line with this place, counted from 0.
pub(crate) fn are_given(lines: &[LegLine], place: usize, tails: &[SegmentTail]) -> bool
    ensures { result ≡ list_all (gives_tail lines.now place) tails.now }
{
    match tails.split_first() {
        None => true,
        Some((tail, later)) => is_given(lines, place, tail) && are_given(lines, place, later),
    }
}

// Whether a segment line gives the tail to the leg line with this place, of up to twenty.
fn is_given(lines: &[LegLine], place: usize, tail: &SegmentTail) -> bool
    ensures { result ≡ gives_tail lines.now place tail.now }
{
    if lines.len() > MOST_LEGS {
        return false;
    }
    match tail_made(lines, place, tail) {
        None => false,
        Some(made) => made.same(tail),
    }
}

// The tail that a segment line with the points, the identifier and the data of a tail gives to the
// leg line with this place, if it gives one.
fn tail_made(lines: &[LegLine], place: usize, tail: &SegmentTail) -> Option<SegmentTail>
    requires { length lines.now ≤ 20 }
    ensures { result ≡ tail_made lines.now place tail.now (points tail.now) }
{
    let (board, off) = points(tail)?;
    let bytes = tail.bytes();
    let text = without_end(&bytes[24..179]);
    if !are_data(text) {
        return None;
    }
    let (from, to) = leg_pair(lines, board, off)?;
    if from != place {
        return None;
    }
    let letters = [b'A' + from as u8, b'B' + to as u8];
    let identifier = number_of(&bytes[15..18]);
    Some(SegmentTail::new(letters, identifier, board, off, text))
}

// The points of a tail.
fn points(tail: &SegmentTail) -> Option<(Station, Station)>
    ensures { result ≡ points tail.now }
{
    let bytes = tail.bytes();
    points_in(&bytes[18..21], &bytes[21..24])
}

// The points of a segment line: two stations, and not `QQQ` twice.
fn points_in(board: &[u8], off: &[u8]) -> Option<(Station, Station)>
    ensures { result ≡ points_in board.now off.now }
{
    if is_any(board) & is_any(off) {
        return None;
    }
    both(station_in(board), station_in(off))
}

// Whether a text stands for any point.
fn is_any(text: &[u8]) -> bool
    ensures { result ≡ bytes_eq text.now (codes "QQQ") }
{
    text == b"QQQ".as_slice()
}

// Two stations, if there are two.
fn both(board: Option<Station>, off: Option<Station>) -> Option<(Station, Station)>
    ensures { result ≡ both board off }
{
    match board {
        None => None,
        Some(board) => match off {
            None => None,
            Some(off) => Some((board, off)),
        },
    }
}

// The station of a text.
fn station_in(text: &[u8]) -> Option<Station>
    ensures { result ≡ station_in text.now }
{
    read_station(text)
}

// Whether a segment line can have the data.
fn are_data(text: &[u8]) -> bool
    ensures { result ≡ are_data text.now }
{
    (1 <= text.len()) & are_low(text)
}

// Whether no byte is over 126.
fn are_low(text: &[u8]) -> bool
    ensures { result ≡ list_all is_low text.now }
{
    text.iter().all(|byte| *byte <= 126)
}

// The number that three digits spell; of other bytes a number that has other digits.
fn number_of(digits: &[u8]) -> u16
    requires { length digits.now ≡ 3 }
    ensures { result ≡ number_of digits.now }
{
    100 * value_of(digits[0]) + 10 * value_of(digits[1]) + value_of(digits[2])
}

fn value_of(digit: u8) -> u16
    ensures value { result ≡ digit - 48 }
    ensures bound { result ≤ 255 }
{
    digit.saturating_sub(b'0') as u16
}
