//! The command `history`: what each sub-message of a desk did with flights on a date; and what a data
//! set has on it. As lines or as CSV.

ghost use Rattle.std.specs.Prelude.{◌≡◌, IfOk, map};
ghost use Rattle.ssim_base.specs.Timetable.{itinerary};
ghost use Rattle.ssim_desk.specs.DateSteps.{steps_on};
ghost use Rattle.ssim_program.specs.Answers.{history};
ghost use Rattle.ssim_program.specs.internal.Program.{Answers};
ghost use Rattle.ssim_program.specs.print.HistoryRows.{history_csv, printed_history};
ghost use Rattle.ssim_program.specs.print.Shown.{history_on};

use crate::command::flight_order::in_order;
use crate::command::show::flights_on;
use crate::print::blocks::joined;
use crate::print::history_rows::{push_history, push_names};
use crate::print::step::lines_of;
use crate::refusal::Refusal;
use crate::store::Store;
use crate::timetable_file::open_shown;
use ssim_desk::Holdings;
use ssim_listing::CsvRows;
use ssim_values::{Airline, Day, Designator, Flight, Memory};
use std::alloc::Global;

/// What each sub-message of the desk in a file did with flights on a date: `flight` and the words
/// after it, the last of which is the date. A data set holds none.
pub(crate) fn history<S: Store>(
    alloc: Global,
    csv: bool,
    file: &str,
    flight: &str,
    words: &[&str],
    store: &mut S,
) -> Result<Vec<u8>, Refusal>
    ensures answer { Answers (history (S.files store.old) csv file.now flight.now
        (map (λ t. t.now) words.now)) result }
    ensures same { S.files store.new ≡ S.files store.old }
    ensures counted { S.failures store.new ≡ S.failures store.old }
{
    let desk = open_shown(alloc, file, store)?;
    let airline = desk.data_set().airline();
    let (named, day) = flights_on(alloc, airline, flight, words)?;
    let flights = in_order(alloc, &named)?;
    let lines = printed(alloc, csv, airline, &desk, &flights, day)?;
    Ok(lines)
}

/// What each sub-message did with each of the flights on a date, as rows or as lines.
fn printed(
    alloc: Global,
    csv: bool,
    airline: Airline,
    desk: &Holdings,
    flights: &[Flight],
    day: Day,
) -> Result<Vec<u8>, Memory>
    ensures { IfOk result (λ lines. lines.items
        ≡ printed_history csv airline (itinerary desk.now.base.records) (steps_on desk.now) day
        flights.now) }
{
    if csv {
        rows_of(alloc, airline, desk, flights, day)
    } else {
        let histories = histories_of(alloc, airline, desk, flights, day)?;
        joined(alloc, &histories)
    }
}

/// A row of names, and the rows of each of the flights on a date.
fn rows_of(
    alloc: Global,
    airline: Airline,
    desk: &Holdings,
    flights: &[Flight],
    day: Day,
) -> Result<Vec<u8>, Memory>
    ensures { IfOk result (λ rows. rows.items ≡ history_csv airline
        (itinerary desk.now.base.records) (steps_on desk.now) day flights.now) }
{
    let mut rows = CsvRows::new(alloc);
    push_names(&mut rows)?;
    for flight in flights {
        let designator = Designator {
            airline,
            flight: *flight,
        };
        let history = desk.history(flight, day)?;
        push_history(alloc, &mut rows, designator, day, &history)?;
    }
    rows.into_bytes()
}

/// What each sub-message did with each of the flights on a date.
fn histories_of(
    alloc: Global,
    airline: Airline,
    desk: &Holdings,
    flights: &[Flight],
    day: Day,
) -> Result<Vec<Vec<u8>>, Memory>
    ensures { IfOk result (λ histories. map (λ lines. lines.items) histories.items
        ≡ map (history_on airline (itinerary desk.now.base.records) (steps_on desk.now) day)
        flights.now) }
{
    let mut histories = Vec::with_capacity(alloc, flights.len())?;
    for flight in flights {
        let designator = Designator {
            airline,
            flight: *flight,
        };
        let history = desk.history(flight, day)?;
        let lines = lines_of(alloc, designator, day, &history)?;
        histories.push(lines)?;
    }
    Ok(histories)
}
