//! The command `board`: the departures and arrivals at a station on a local date, or on several.

ghost use Rattle.std.specs.Prelude.{◌≡◌, ◌⊎◌, ◌+◌, ◌-◌, ◌≤◌, ◌++◌, ◌∷◌, false, true, map, min};
ghost use Rattle.std.specs.Prelude.{IfErr, IfOk, OnOk, option_map};
ghost use Rattle.std.specs.List.{flat_map, range_with_len};
ghost use Rattle.ssim_values.specs.Calendar.{day_limit};
ghost use Rattle.ssim_values.specs.Day.{day_text};
ghost use Rattle.ssim_values.specs.Flight.{FlightNumber};
ghost use Rattle.ssim_values.specs.Station.{is_station};
ghost use Rattle.ssim_values.specs.declared.fault.Fault.TheVariants as value_fault;
ghost use Rattle.ssim_base.specs.Export.{line};
ghost use Rattle.ssim_base.specs.Timetable.{Days};
ghost use Rattle.ssim_listing.specs.Rows.{row};
ghost use Rattle.ssim_schedule.specs.FlightPieces.{divided_flights};
ghost use Rattle.ssim_schedule.specs.clauses.Dates.{AgreeBetween};
ghost use Rattle.ssim_desk.specs.Desk.{days_of_desk};
ghost use Rattle.ssim_board.specs.Rows.{movement_names};
ghost use Rattle.ssim_board.specs.clauses.Movements.{first_date, last_date};
ghost use Rattle.ssim_program.specs.Answers.{board};
ghost use Rattle.ssim_program.specs.internal.Program.{Answers};
ghost use Rattle.ssim_program.specs.print.Board.{board_on, date_lines, dates_from, headed_lines};
ghost use Rattle.ssim_program.specs.print.Board.{date_rows, kind_of, lines_of_days, printed_board};
ghost use Rattle.ssim_program.specs.print.Board.{rows_of_days};
ghost use Rattle.ssim_program.specs.print.Refusal.{IsMemory};
ghost use Rattle.ssim_program.specs.declared.refusal.Refusal.TheVariants as refused;
ghost use Rattle.ssim_words.specs.Typed.{typed};

use crate::command::show::day_in;
use crate::print::blocks::joined;
use crate::refusal::Refusal;
use crate::store::Store;
use crate::timetable_file::{carrier_of, open_timetable};
use ssim_board::{Board, MovementKind, board_lines, movement_names, of_kind, push_movements};
use ssim_command_line::{BoardForm, Direction};
use ssim_desk::Holdings;
use ssim_listing::CsvRows;
use ssim_schedule::FlightPieces;
use ssim_values::{Airline, Day, Fault, Memory, Station};
use ssim_words::typed_station;
use std::alloc::Global;

/// The number of dates of the calendar.
const DATES: u16 = 36_525;

/// The board of a station on a date, or from one on, of the desk, or of the data set, in a file.
pub(crate) fn board<S: Store>(
    alloc: Global,
    form: BoardForm,
    file: &str,
    station: &str,
    date: &str,
    store: &mut S,
) -> Result<Vec<u8>, Refusal>
    ensures answer { Answers (board (S.files store.old) form file.now station.now date.now) result }
    ensures same { S.files store.new ≡ S.files store.old }
    ensures counted { S.failures store.new ≡ S.failures store.old }
{
    let desk = open_timetable(alloc, file, store)?;
    let station = station_in(alloc, station)?;
    let day = day_in(alloc, date)?;
    let carrier = carrier_of(&desk);
    let board = Board {
        station,
        day,
        mode: carrier.time_mode(),
    };
    let lines = printed_board(alloc, form, carrier.airline(), &board, desk)?;
    Ok(lines)
}

/// The board of a desk as the options say.
fn printed_board(
    alloc: Global,
    form: BoardForm,
    airline: Airline,
    board: &Board,
    desk: Holdings,
) -> Result<Vec<u8>, Memory>
    ensures { IfOk result (λ lines. lines.items
        ≡ printed_board form airline (days_of_desk desk) board.now) }
{
    if form.csv {
        let count = form.days.unwrap_or(1);
        rows_of_days(alloc, count, form.only, airline, board, desk)
    } else {
        lines_of_days(alloc, form, airline, board, desk)
    }
}

/// The lines of one date without a heading, or of several.
fn lines_of_days(
    alloc: Global,
    form: BoardForm,
    airline: Airline,
    board: &Board,
    desk: Holdings,
) -> Result<Vec<u8>, Memory>
    ensures { IfOk result (λ lines. lines.items
        ≡ lines_of_days form.days form.only airline (days_of_desk desk) board.now) }
{
    match form.days {
        None => {
            let flights = desk.into_flights_between(board.first_date(), board.last_date())?;
            date_lines(alloc, form.only, airline, board, &flights)
        }
        Some(count) => {
            let end = end_of(board.day, count);
            let last = board_on(board, day_before(end));
            let flights = desk.into_flights_between(board.first_date(), last.last_date())?;
            let shown = headed_dates(alloc, form.only, airline, board, end, &flights)?;
            joined(alloc, &shown)
        }
    }
}

/// The row of names, and the rows of as many dates.
fn rows_of_days(
    alloc: Global,
    count: u16,
    only: Option<Direction>,
    airline: Airline,
    board: &Board,
    desk: Holdings,
) -> Result<Vec<u8>, Memory>
    ensures { IfOk result (λ rows. rows.items
        ≡ rows_of_days count only airline (days_of_desk desk) board.now) }
{
    let end = end_of(board.day, count);
    let last = board_on(board, day_before(end));
    let flights = desk.into_flights_between(board.first_date(), last.last_date())?;
    rows_of_dates(alloc, only, airline, board, end, &flights)
}

/// The row of names, and the rows of each date from the board's to that before `end`.
fn rows_of_dates(
    alloc: Global,
    only: Option<Direction>,
    airline: Airline,
    board: &Board,
    end: u16,
    flights: &[FlightPieces],
) -> Result<Vec<u8>, Memory>
    requires { end ≤ 36525 }
    ensures { IfOk result (λ rows. (days near : FlightNumber → Days)
        → flights.now ≡ divided_flights near
        → AgreeBetween (first_date board.now) (last_date (board_on board.now (end - 1))) near days
        → rows.items ≡ row movement_names
        ++ flat_map (λ day. date_rows only airline days (board_on board.now day))
        (range_with_len board.now.day (end - board.now.day))) }
{
    let mut rows = movement_names(alloc)?;
    for number in board.day.number()..end {
        let Some(day) = Day::from_number(number) else {
            unreachable!();
        };
        push_date(
            alloc,
            &mut rows,
            only,
            airline,
            &board_on(board, day),
            flights,
        )?;
    }
    rows.into_bytes()
}

/// Adds the rows of one date.
fn push_date(
    alloc: Global,
    rows: &mut CsvRows,
    only: Option<Direction>,
    airline: Airline,
    board: &Board,
    flights: &[FlightPieces],
) -> Result<(), Memory>
    ensures { OnOk result ((days near : FlightNumber → Days)
        → flights.now ≡ divided_flights near
        → AgreeBetween (first_date board.now) (last_date board.now) near days
        → rows.new ≡ rows.old ++ date_rows only airline days board.now) }
{
    let movements = board.movements(alloc, flights)?;
    let shown = of_kind(movements, kind_of(only));
    push_movements(alloc, rows, airline, board, &shown)
}

/// The number after the last of so many dates from one on, none of them after the calendar.
fn end_of(day: Day, count: u16) -> u16
    ensures value { result ≡ day + min count (day_limit - day) }
    ensures bound { result ≤ 36525 }
{
    let left = DATES - day.number();
    if count < left {
        day.number() + count
    } else {
        DATES
    }
}

/// The day before a number of a day.
fn day_before(number: u16) -> Day
    requires { number ≤ 36525 }
    ensures { result ≡ number - 1 }
{
    let Some(day) = Day::from_number(number.saturating_sub(1)) else {
        unreachable!();
    };
    day
}

/// The board of the same station on another date.
fn board_on(board: &Board, day: Day) -> Board
    ensures { result ≡ board_on board.now day }
{
    Board {
        station: board.station,
        day,
        mode: board.mode,
    }
}

/// The lines of each date from the board's to that before `end`, under a heading.
fn headed_dates(
    alloc: Global,
    only: Option<Direction>,
    airline: Airline,
    board: &Board,
    end: u16,
    flights: &[FlightPieces],
) -> Result<Vec<Vec<u8>>, Memory>
    requires { end ≤ 36525 }
    ensures { IfOk result (λ shown. (days near : FlightNumber → Days)
        → flights.now ≡ divided_flights near
        → AgreeBetween (first_date board.now) (last_date (board_on board.now (end - 1))) near days
        → map (λ lines. lines.items) shown.items
        ≡ map (λ day. headed_lines only airline days (board_on board.now day))
        (range_with_len board.now.day (end - board.now.day))) }
{
    let mut shown = Vec::new(alloc);
    for number in board.day.number()..end {
        let Some(day) = Day::from_number(number) else {
            unreachable!();
        };
        let lines = headed_lines(alloc, only, airline, &board_on(board, day), flights)?;
        shown.push(lines)?;
    }
    Ok(shown)
}

/// The lines of one date under a heading.
fn headed_lines(
    alloc: Global,
    only: Option<Direction>,
    airline: Airline,
    board: &Board,
    flights: &[FlightPieces],
) -> Result<Vec<u8>, Memory>
    ensures { IfOk result (λ lines. (days near : FlightNumber → Days)
        → flights.now ≡ divided_flights near
        → AgreeBetween (first_date board.now) (last_date board.now) near days
        → lines.items ≡ headed_lines only airline days board.now) }
{
    let shown = date_lines(alloc, only, airline, board, flights)?;
    let mut lines = Vec::new(alloc);
    push_heading(&mut lines, board)?;
    lines.extend_from_slice(&shown)?;
    Ok(lines)
}

/// Adds the heading of a date: the station and the date.
fn push_heading(lines: &mut Vec<u8>, board: &Board) -> Result<(), Memory>
    ensures { OnOk result (lines.new.items
        ≡ lines.old.items ++ line (board.now.station ++ 32 ∷ day_text board.now.day)) }
{
    lines.extend_from_slice(&board.station.write())?;
    lines.push(b' ')?;
    lines.extend_from_slice(&board.day.write())?;
    lines.push(b'\n')?;
    Ok(())
}

/// The lines of one date.
fn date_lines(
    alloc: Global,
    only: Option<Direction>,
    airline: Airline,
    board: &Board,
    flights: &[FlightPieces],
) -> Result<Vec<u8>, Memory>
    ensures { IfOk result (λ lines. (days near : FlightNumber → Days)
        → flights.now ≡ divided_flights near
        → AgreeBetween (first_date board.now) (last_date board.now) near days
        → lines.items ≡ date_lines only airline days board.now) }
{
    let movements = board.movements(alloc, flights)?;
    let shown = of_kind(movements, kind_of(only));
    board_lines(alloc, airline, board.day, &shown)
}

/// The movements of a direction, if one is named.
fn kind_of(only: Option<Direction>) -> Option<MovementKind>
    ensures { result ≡ option_map kind_of only }
{
    match only {
        None => None,
        Some(Direction::Departures) => Some(MovementKind::Departure),
        Some(Direction::Arrivals) => Some(MovementKind::Arrival),
    }
}

/// The station that the word is.
fn station_in(alloc: Global, word: &str) -> Result<Station, Refusal>
    ensures ok { IfOk result
        (λ station. (station ≡ typed word.now) × (is_station (typed word.now) ≡ true)) }
    ensures err { IfErr result (λ refusal. IsMemory refusal
        ⊎ ((refusal ≡ refused.Value value_fault.BadStation)
        × (is_station (typed word.now) ≡ false))) }
{
    match typed_station(alloc, word.as_bytes())? {
        Some(station) => Ok(station),
        None => Err(Refusal::from(Fault::BadStation)),
    }
}
