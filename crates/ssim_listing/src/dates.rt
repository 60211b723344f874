//! The dates of a flight, and their lines.

ghost use Rattle.std.specs.Prelude.{◌≡◌, ◌++◌, ◌<◌, ◌∷◌, [], IfOk, OnOk, map};
ghost use Rattle.std.specs.List.{flat_map};
ghost use Rattle.ssim_periods.specs.Calendar.{holds};
ghost use Rattle.ssim_listing.specs.Dates.{date_lines, dates_of, dates_on};
ghost use Rattle.ssim_listing.specs.LegText.{leg_text};
ghost use Rattle.ssim_listing.specs.internal.FlightDates.{seen_dates, seen_pieces, seen_texts};
ghost use Rattle.ssim_listing.specs.internal.FlightDates.{dated_text, with_texts};

use crate::leg_text::text_of;
use crate::lines::push_day;
use ssim_lines::{Printed, push_each};
use ssim_schedule::{Itinerary, PlacedLeg};
use ssim_values::{Day, Memory, Period, weekday_of};
use std::alloc::Global;

/// The name of a flight.
#[derive(Clone, Copy)]
struct FlightName<'a> {
    bytes: &'a [u8],
}

/// The name of a flight and one of its dates, with which the line of each leg begins.
#[derive(Clone, Copy)]
struct DatedName<'a> {
    name: &'a [u8],
    day: Day,
}

/// The line of each leg of an itinerary.
type LegTexts = Vec<Vec<u8>>;

/// Adds the lines of the dates of a flight. The line of a leg is made once for all dates of its
/// piece.
pub(crate) fn push_dates(
    alloc: Global,
    lines: &mut Vec<u8>,
    name: &[u8],
    pieces: &[(Period, Itinerary)],
) -> Result<(), Memory>
    ensures { OnOk result (lines.new.items
        ≡ lines.old.items ++ flat_map (date_lines name.now) (dates_of pieces.now)) }
{
    let pieces = with_texts(alloc, pieces)?;
    let dates = dates_of(alloc, &pieces)?;
    push_each(lines, &FlightName { bytes: name }, &dates)
}

// The periods of pieces with the line of each leg.
fn with_texts(
    alloc: Global,
    pieces: &[(Period, Itinerary)],
) -> Result<Vec<(Period, LegTexts)>, Memory>
    ensures { IfOk result (λ made. seen_pieces made.items ≡ with_texts pieces.now) }
{
    let mut made = Vec::new(alloc);
    for piece in pieces {
        let texts = texts_of(alloc, piece.1.legs())?;
        made.push((piece.0, texts))?;
    }
    Ok(made)
}

// The line of each leg.
fn texts_of(alloc: Global, legs: &[PlacedLeg]) -> Result<LegTexts, Memory>
    ensures { IfOk result (λ texts. seen_texts texts.items ≡ map leg_text legs.now) }
{
    let mut texts = Vec::with_capacity(alloc, legs.len())?;
    for leg in legs {
        let text = text_of(alloc, leg)?;
        texts.push(text)?;
    }
    Ok(texts)
}

impl Printed<FlightName<'_>> for (Day, &LegTexts) {
    ghost text = { λ name date.
        flat_map (dated_text name.bytes.now date.0) (seen_texts date.1.now.items) };

    // Adds a line for each leg.
    fn print(&self, name: &FlightName<'_>, lines: &mut Vec<u8>) -> Result<(), Memory> {
        let start = DatedName {
            name: name.bytes,
            day: self.0,
        };
        push_each(lines, &start, self.1)
    }
}

impl Printed<DatedName<'_>> for Vec<u8> {
    ghost text = { λ start text. dated_text start.name.now start.day text.items };

    // Adds the flight, the date and the line of a leg.
    fn print(&self, start: &DatedName<'_>, lines: &mut Vec<u8>) -> Result<(), Memory> {
        lines.extend_from_slice(start.name)?;
        push_day(lines, start.day)?;
        lines.push(b' ')?;
        lines.extend_from_slice(self)?;
        lines.push(b'\n')?;
        Ok(())
    }
}

/// The dates of pieces in order, each with the value of the piece that holds it.
pub(crate) fn dates_of<'a, V>(
    alloc: Global,
    pieces: &'a [(Period, V)],
) -> Result<Vec<(Day, &'a V)>, Memory>
    ensures { IfOk result (λ dates. seen_dates dates.items ≡ dates_of pieces.now) }
{
    let mut dates = Vec::new(alloc);
    for piece in pieces {
        add_dates(&mut dates, piece)?;
    }
    dates.sort_by_key(|date| date.0.number())?;
    Ok(dates)
}

// Adds the dates of a piece.
fn add_dates<'a, V>(dates: &mut Vec<(Day, &'a V)>, piece: &'a (Period, V)) -> Result<(), Memory>
    ensures { OnOk result (seen_dates dates.new.items
        ≡ seen_dates dates.old.items ++ dates_of (piece.now ∷ [])) }
{
    let first = piece.0.first().number();
    let last = piece.0.last().number();
    for number in first..last + 1 {
        add_date(dates, piece, number)?;
    }
    Ok(())
}

// Adds a date, if the piece holds it.
fn add_date<'a, V>(
    dates: &mut Vec<(Day, &'a V)>,
    piece: &'a (Period, V),
    number: u16,
) -> Result<(), Memory>
    requires { number < 36525 }
    ensures { OnOk result (seen_dates dates.new.items
        ≡ seen_dates dates.old.items ++ dates_on (piece.now ∷ []) number) }
{
    let Some(day) = Day::from_number(number) else {
        unreachable!();
    };
    if holds(piece.0, number) {
        match dates.push((day, &piece.1)) {
            Ok(()) => {}
            Err(_) => return Err(Memory),
        }
    }
    Ok(())
}

// Whether a period holds a day.
fn holds(period: Period, number: u16) -> bool
    ensures { result ≡ holds period number }
{
    let days = period.mask().days();
    period.first().number() <= number
        && number <= period.last().number()
        && days[weekday_of(number as u32)]
}
