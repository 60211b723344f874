//! The new legs of a sub-message on a date.

ghost use Rattle.std.specs.Prelude.{◌≡◌, ◌<◌, ◌≤◌, length, IfOk, IfSome};
ghost use Rattle.ssim_text.specs.Grammar.{leg_pair};
ghost use Rattle.ssim_schedule.specs.Effect.{leg_at, legs_from, new_legs, tail_for, tails_for, variation_on};

use crate::effect::message_columns::{new_columns, segment_tail};
use crate::itinerary::Itinerary;
use crate::leg::PlacedLeg;
use ssim_base::{StationRow, variation_at};
use ssim_records::SegmentTail;
use ssim_text::{LegLine, NewLegs, SegmentLine, leg_pair};
use ssim_values::{Day, Memory};
use std::alloc::Global;

// The tail of a segment line for a leg line, if the pair of points begins with that leg line.
fn tail_for(place: usize, lines: &[LegLine], segment: &SegmentLine) -> Option<SegmentTail>
    requires { length lines.now ≤ 20 }
    ensures { result ≡ tail_for place lines.now segment.now }
{
    match leg_pair(lines, segment.board, segment.off) {
        None => None,
        Some((from, to)) => {
            if from == place {
                Some(segment_tail(from, to, segment))
            } else {
                None
            }
        }
    }
}

fn tails_of(
    alloc: Global,
    place: usize,
    lines: &[LegLine],
    segments: &[SegmentLine],
) -> Result<Vec<SegmentTail>, Memory>
    requires { length lines.now ≤ 20 }
    ensures { IfOk result (λ tails. tails.items ≡ tails_for place lines.now segments.now) }
{
    let mut tails = Vec::new(alloc);
    for segment in segments {
        if let Some(tail) = tail_for(place, lines, segment) {
            tails.push(tail)?;
        }
    }
    Ok(tails)
}

// The leg of a leg line, if its stations have variations.
fn leg_on(
    alloc: Global,
    rows: &[StationRow],
    day: Day,
    place: usize,
    line: &LegLine,
    new: &NewLegs,
) -> Result<Option<PlacedLeg>, Memory>
    requires { place < 20 }
    ensures { IfOk result (λ made. made
        ≡ leg_at (variation_on rows.now day line.now.departure.station)
        (variation_on rows.now day line.now.arrival.station) place line.now new.now) }
{
    match variation_at(rows, line.departure.station, day) {
        None => Ok(None),
        Some(here) => match variation_at(rows, line.arrival.station, day) {
            None => Ok(None),
            Some(there) => {
                let columns = new_columns(here, there, line, &new.equipment);
                let tails = tails_of(alloc, place, new.legs.lines(), new.segments.lines())?;
                Ok(Some(PlacedLeg::new(place as u8 + 1, columns, tails)))
            }
        },
    }
}

/// The new legs on a day, if each station of theirs has a variation.
pub(crate) fn legs_on(
    alloc: Global,
    rows: &[StationRow],
    day: Day,
    new: &NewLegs,
) -> Result<Option<Itinerary>, Memory>
    ensures { IfOk result (λ made. made ≡ new_legs (variation_on rows.now day) new.now) }
{
    legs_of_lines(alloc, rows, day, new, new.legs.lines())
}

fn legs_of_lines(
    alloc: Global,
    rows: &[StationRow],
    day: Day,
    new: &NewLegs,
    lines: &[LegLine],
) -> Result<Option<Itinerary>, Memory>
    requires { length lines.now ≤ 20 }
    ensures { IfOk result (λ made. made
        ≡ legs_from (variation_on rows.now day) new.now 0 lines.now) }
{
    let mut legs = Vec::with_capacity(alloc, lines.len())?;
    let mut place: usize = 0;
    for line in lines {
        match leg_on(alloc, rows, day, place, line, new)? {
            None => return Ok(None),
            Some(leg) => legs.push(leg)?,
        }
        place += 1;
    }
    Ok(Some(Itinerary::of(alloc, legs)?))
}
