//! The command `show`: flights of a desk or a data set on a date.

ghost use Rattle.std.specs.Prelude.{◌≡◌, ◌⊎◌, Err, None, Ok, Some, IfErr, IfOk, map};
ghost use Rattle.ssim_values.specs.declared.fault.Fault.TheVariants as value_fault;
ghost use Rattle.ssim_base.specs.Timetable.{on_day};
ghost use Rattle.ssim_schedule.specs.clauses.Schedule.{days_in};
ghost use Rattle.ssim_program.specs.Answers.{show};
ghost use Rattle.ssim_program.specs.Messages.{but_last, flights_on, last_of};
ghost use Rattle.ssim_program.specs.internal.Program.{Answers};
ghost use Rattle.ssim_program.specs.print.Refusal.{IsMemory};
ghost use Rattle.ssim_program.specs.print.Shown.{shown_on};
ghost use Rattle.ssim_program.specs.declared.refusal.Refusal.TheVariants as refused;
ghost use Rattle.ssim_words.specs.Date.{typed_day};

use crate::command::choice::numbers_of;
use crate::command::flight_order::in_order;
use crate::command::named_flights::{flights_of, has_other};
use crate::print::blocks::joined;
use crate::print::legs::lines_of;
use crate::refusal::Refusal;
use crate::some_flights::schedule_of;
use crate::store::Store;
use crate::timetable_file::open_shown;
use ssim_base::ResolveFault;
use ssim_desk::DeskFault;
use ssim_schedule::Schedule;
use ssim_values::{Airline, Day, Designator, Fault, Flight, Memory};
use ssim_words::typed_day;
use std::alloc::Global;

/// Flights of the desk, or of the data set, in a file on a date: `flight` and the words after it, the
/// last of which is the date.
pub(crate) fn show<S: Store>(
    alloc: Global,
    file: &str,
    flight: &str,
    words: &[&str],
    store: &mut S,
) -> Result<Vec<u8>, Refusal>
    ensures answer { Answers (show (S.files store.old) file.now flight.now
        (map (λ t. t.now) words.now)) result }
    ensures same { S.files store.new ≡ S.files store.old }
    ensures counted { S.failures store.new ≡ S.failures store.old }
{
    let desk = open_shown(alloc, file, store)?;
    let airline = desk.data_set().airline();
    let (named, day) = flights_on(alloc, airline, flight, words)?;
    // No effect at run time. The proof reads from this use that the day exists.
    let _ = day.number();
    let flights = in_order(alloc, &named)?;
    let schedule = schedule_of(&desk, &named)?;
    let shown = shown_each(alloc, airline, &schedule, &flights, day)?;
    let lines = joined(alloc, &shown)?;
    Ok(lines)
}

/// Each of the flights on a date.
fn shown_each(
    alloc: Global,
    airline: Airline,
    schedule: &Schedule,
    flights: &[Flight],
    day: Day,
) -> Result<Vec<Vec<u8>>, Memory>
    ensures { IfOk result (λ shown. map (λ lines. lines.items) shown.items
        ≡ map (shown_on airline (λ g n. on_day (days_in schedule.now g) n) day) flights.now) }
{
    let mut shown = Vec::with_capacity(alloc, flights.len())?;
    for flight in flights {
        let designator = Designator {
            airline,
            flight: *flight,
        };
        let lines = lines_of(alloc, designator, day, schedule.itinerary(flight, day))?;
        shown.push(lines)?;
    }
    Ok(shown)
}

/// The flights of the airline that all words but the last name, and the date that the last spells.
pub(crate) fn flights_on(
    alloc: Global,
    airline: Airline,
    first: &str,
    words: &[&str],
) -> Result<(Vec<Flight>, Day), Refusal>
    ensures ok { IfOk result (λ named. flights_on airline first.now (map (λ t. t.now) words.now)
        (Ok (named.0.items, named.1))) }
    ensures err { IfErr result
        (λ why. flights_on airline first.now (map (λ t. t.now) words.now) (Err why)) }
{
    let (flights, date) = divided(alloc, first, words)?;
    let named = flights_of(alloc, airline, &flights)?;
    let day = day_in(alloc, date)?;
    if has_other(airline, &named) {
        return Err(Refusal::from(DeskFault::Resolve(ResolveFault::Airline(0))));
    }
    let numbers = numbers_of(alloc, &named)?;
    Ok((numbers, day))
}

/// All words but the last, and the last.
fn divided<'a>(
    alloc: Global,
    first: &'a str,
    words: &[&'a str],
) -> Result<(Vec<&'a str>, &'a str), Memory>
    ensures before { IfOk result (λ parts. map (λ t. t.now) parts.0.items
        ≡ but_last first.entry.now (map (λ t. t.now) words.entry.now)) }
    ensures last { IfOk result (λ parts. parts.1.now
        ≡ last_of first.entry.now (map (λ t. t.now) words.entry.now)) }
{
    let mut before = Vec::with_capacity(alloc, words.len())?;
    match words.split_last() {
        None => Ok((before, first)),
        Some((last, others)) => {
            before.push(first)?;
            before.extend_from_slice(others)?;
            Ok((before, *last))
        }
    }
}

/// The day that the word spells.
pub(crate) fn day_in(alloc: Global, date: &str) -> Result<Day, Refusal>
    ensures ok { IfOk result (λ day. typed_day date.now ≡ Some day) }
    ensures err { IfErr result (λ refusal. IsMemory refusal
        ⊎ ((refusal ≡ refused.Value value_fault.BadDate) × (typed_day date.now ≡ None))) }
{
    match typed_day(alloc, date.as_bytes())? {
        Some(day) => Ok(day),
        None => Err(Refusal::from(Fault::BadDate)),
    }
}
