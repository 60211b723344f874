//! The command `calendar`: the dates of flights as pictures of weeks, and their itineraries.

ghost use Rattle.std.specs.Prelude.{◌≡◌, [], ◌∷◌, ◌++◌, ◌≤◌, codes, length, map, IfOk};
ghost use Rattle.ssim_values.specs.Designator.{designator_text};
ghost use Rattle.ssim_schedule.specs.clauses.Schedule.{days_in};
ghost use Rattle.ssim_command_line.specs.Line.{choice_line};
ghost use Rattle.ssim_base.specs.Export.{line};
ghost use Rattle.ssim_calendar.specs.clauses.Legend.{texts_of};
ghost use Rattle.ssim_program.specs.Answers.{calendar};
ghost use Rattle.ssim_program.specs.internal.Program.{Answers};
ghost use Rattle.ssim_program.specs.print.Calendar.{calendar_lines, drawn, drawn_or_none};
ghost use Rattle.ssim_program.specs.print.Calendar.{flight_calendar, is_like_any, legend_text};
ghost use Rattle.ssim_program.specs.print.Calendar.{lettered};

use crate::command::choice::choice_in;
use crate::command::chosen::chosen_schedule;
use crate::command::flight_order::in_order;
use crate::print::blocks::joined;
use crate::refusal::Refusal;
use crate::store::Store;
use crate::timetable_file::open_timetable;
use ssim_calendar::{push_legend, push_picture};
use ssim_command_line::ChoiceWords;
use ssim_listing::{is_like_one, mark_of, push_leg_text};
use ssim_periods::Periods;
use ssim_schedule::{Itinerary, PlacedLeg, Schedule};
use ssim_values::{Airline, Designator, Flight, Memory};
use std::alloc::Global;

/// The most itineraries of a flight that have a letter of their own.
const LETTERS: usize = 52;

/// The calendars of flights of the desk, or of the data set, in a file, of their chosen dates.
pub(crate) fn calendar<S: Store>(
    alloc: Global,
    words: &ChoiceWords<'_>,
    file: &str,
    flights: &[&str],
    store: &mut S,
) -> Result<Vec<u8>, Refusal>
    ensures answer { Answers (calendar (S.files store.old) (choice_line words.now) file.now
        (map (λ t. t.now) flights.now)) result }
    ensures same { S.files store.new ≡ S.files store.old }
    ensures counted { S.failures store.new ≡ S.failures store.old }
{
    let desk = open_timetable(alloc, file, store)?;
    let airline = desk.data_set().airline();
    let choice = choice_in(alloc, airline, words, flights)?;
    let flights = in_order(alloc, &choice.flights)?;
    let schedule = chosen_schedule(&desk, &choice)?;
    let calendars = calendars_of(alloc, airline, &schedule, &flights)?;
    let lines = joined(alloc, &calendars)?;
    Ok(lines)
}

/// The calendar of each of the flights.
fn calendars_of(
    alloc: Global,
    airline: Airline,
    schedule: &Schedule,
    flights: &[Flight],
) -> Result<Vec<Vec<u8>>, Memory>
    ensures { IfOk result (λ calendars. map (λ lines. lines.items) calendars.items
        ≡ map (flight_calendar airline (days_in schedule.now)) flights.now) }
{
    let mut calendars = Vec::with_capacity(alloc, flights.len())?;
    for flight in flights {
        let calendar = calendar_of(alloc, airline, schedule, *flight)?;
        calendars.push(calendar)?;
    }
    Ok(calendars)
}

/// The calendar of a flight of the airline.
fn calendar_of(
    alloc: Global,
    airline: Airline,
    schedule: &Schedule,
    flight: Flight,
) -> Result<Vec<u8>, Memory>
    ensures { IfOk result (λ lines. lines.items
        ≡ flight_calendar airline (days_in schedule.now) flight) }
{
    let days = schedule.days(&flight)?;
    lines_of(alloc, Designator { airline, flight }, &days)
}

/// The calendar of a flight by its itinerary on each day.
fn lines_of(
    alloc: Global,
    designator: Designator,
    days: &Periods<Itinerary>,
) -> Result<Vec<u8>, Memory>
    ensures { IfOk result (λ lines. lines.items ≡ calendar_lines designator days.now.days) }
{
    let calendar = ssim_calendar::Calendar::of(alloc, days)?;
    drawn_or_none(alloc, designator, &calendar.values, &calendar.cells)
}

/// The picture and the legend of a flight, or the line that it has no itinerary.
fn drawn_or_none(
    alloc: Global,
    designator: Designator,
    itineraries: &[Itinerary],
    letters: &[u8],
) -> Result<Vec<u8>, Memory>
    requires { length letters.now ≤ 36525 }
    ensures { IfOk result
        (λ lines. lines.items ≡ drawn_or_none designator itineraries.now letters.now) }
{
    match itineraries.split_first() {
        None => no_flight(alloc, designator),
        Some(_) => drawn(alloc, designator, itineraries, letters),
    }
}

/// The line of a flight that operates on no date.
fn no_flight(alloc: Global, designator: Designator) -> Result<Vec<u8>, Memory>
    ensures { IfOk result
        (λ lines. lines.items ≡ line (designator_text designator ++ codes " no flight")) }
{
    let mut lines = Vec::new(alloc);
    lines.extend_from_slice(designator.write().as_slice())?;
    lines.extend_from_slice(b" no flight\n")?;
    Ok(lines)
}

/// The picture of a flight, and the legend of its itineraries.
fn drawn(
    alloc: Global,
    designator: Designator,
    itineraries: &[Itinerary],
    letters: &[u8],
) -> Result<Vec<u8>, Memory>
    requires { length letters.now ≤ 36525 }
    ensures { IfOk result
        (λ lines. lines.items ≡ drawn designator itineraries.now letters.now) }
{
    let mut lines = Vec::new(alloc);
    push_picture(alloc, &mut lines, designator.write().as_slice(), letters)?;
    let entries = entries_of(alloc, itineraries, lettered(itineraries))?;
    push_legend(alloc, &mut lines, &entries, letters)?;
    Ok(lines)
}

/// The lines of each of these itineraries among all those of the flight.
fn entries_of(
    alloc: Global,
    itineraries: &[Itinerary],
    shown: &[Itinerary],
) -> Result<Vec<Vec<Vec<u8>>>, Memory>
    ensures { IfOk result (λ entries. map (λ texts. texts_of texts.items) entries.items
        ≡ map (map (legend_text itineraries.now)) shown.now) }
{
    let mut entries = Vec::new(alloc);
    for itinerary in shown {
        let texts = texts_of(alloc, itineraries, itinerary.legs())?;
        entries.push(texts)?;
    }
    Ok(entries)
}

/// The itineraries that have a letter of their own.
fn lettered(itineraries: &[Itinerary]) -> &[Itinerary]
    ensures { result.now ≡ lettered itineraries.now }
{
    if itineraries.len() <= LETTERS {
        itineraries
    } else {
        &itineraries[..LETTERS]
    }
}

/// The lines of the legs of an itinerary.
fn texts_of(
    alloc: Global,
    itineraries: &[Itinerary],
    legs: &[PlacedLeg],
) -> Result<Vec<Vec<u8>>, Memory>
    ensures { IfOk result
        (λ texts. texts_of texts.items ≡ map (legend_text itineraries.now) legs.now) }
{
    let mut texts = Vec::new(alloc);
    for leg in legs {
        let text = legend_text(alloc, itineraries, leg)?;
        texts.push(text)?;
    }
    Ok(texts)
}

/// The line of a leg, and its mark.
fn legend_text(alloc: Global, itineraries: &[Itinerary], leg: &PlacedLeg) -> Result<Vec<u8>, Memory>
    ensures { IfOk result (λ text. text.items ≡ legend_text itineraries.now leg.now) }
{
    let marked = is_like_any(alloc, itineraries, leg)?;
    let mut text = Vec::new(alloc);
    push_leg_text(&mut text, leg)?;
    text.extend_from_slice(mark_of(marked))?;
    Ok(text)
}

/// Whether a leg of one of the itineraries differs from this leg, but has the same line.
fn is_like_any(alloc: Global, itineraries: &[Itinerary], leg: &PlacedLeg) -> Result<bool, Memory>
    ensures { IfOk result (λ like. like ≡ is_like_any itineraries.now leg.now) }
{
    for itinerary in itineraries {
        if is_like_one(alloc, itinerary.legs(), leg)? {
            return Ok(true);
        }
    }
    Ok(false)
}
