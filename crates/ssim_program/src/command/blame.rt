//! The command `blame`: which message of a desk acted last on each date of flights, by periods. As
//! lines or as CSV.

ghost use Rattle.std.specs.Prelude.{◌≡◌, if◌then◌else◌, Err, IfErr, IfOk, Ok, map};
ghost use Rattle.ssim_blame.specs.Lines.{blame_lines};
ghost use Rattle.ssim_blame.specs.Makers.{blamed};
ghost use Rattle.ssim_blame.specs.Rows.{blame_rows};
ghost use Rattle.ssim_program.specs.Answers.{blame};
ghost use Rattle.ssim_program.specs.Messages.{flights_named};
ghost use Rattle.ssim_program.specs.internal.Program.{Answers};

use crate::command::choice::numbers_of;
use crate::command::flight_order::in_order;
use crate::command::named_flights::{flights_of, has_other};
use crate::refusal::Refusal;
use crate::store::Store;
use crate::timetable_file::open_shown;
use ssim_base::ResolveFault;
use ssim_blame::{blame_lines, blame_rows, flights_blamed};
use ssim_desk::{DeskFault, Holdings};
use ssim_values::{Airline, Flight, Memory};
use std::alloc::Global;

/// Which sub-message of the desk in a file acted last on each date of these flights, or that the data
/// set has the date. A data set holds no message.
pub(crate) fn blame<S: Store>(
    alloc: Global,
    csv: bool,
    file: &str,
    words: &[&str],
    store: &mut S,
) -> Result<Vec<u8>, Refusal>
    ensures answer { Answers (blame (S.files store.old) csv file.now
        (map (λ t. t.now) words.now)) result }
    ensures same { S.files store.new ≡ S.files store.old }
    ensures counted { S.failures store.new ≡ S.failures store.old }
{
    let desk = open_shown(alloc, file, store)?;
    let airline = desk.data_set().airline();
    let named = flights_named(alloc, airline, words)?;
    let flights = in_order(alloc, &named)?;
    let lines = printed(alloc, csv, airline, &desk, &flights)?;
    Ok(lines)
}

/// The flights with their makers, as rows or as lines.
fn printed(
    alloc: Global,
    csv: bool,
    airline: Airline,
    desk: &Holdings,
    flights: &[Flight],
) -> Result<Vec<u8>, Memory>
    ensures { IfOk result (λ lines. lines.items
        ≡ (if csv then blame_rows airline (map (blamed desk.now) flights.now)
        else blame_lines airline (map (blamed desk.now) flights.now))) }
{
    let found = flights_blamed(alloc, desk, flights)?;
    if csv {
        blame_rows(alloc, airline, &found)
    } else {
        blame_lines(alloc, airline, &found)
    }
}

/// The flights of the airline that the words name.
fn flights_named(alloc: Global, airline: Airline, words: &[&str]) -> Result<Vec<Flight>, Refusal>
    ensures ok { IfOk result
        (λ named. flights_named airline (map (λ t. t.now) words.now) (Ok named.items)) }
    ensures err { IfErr result
        (λ why. flights_named airline (map (λ t. t.now) words.now) (Err why)) }
{
    let named = flights_of(alloc, airline, words)?;
    if has_other(airline, &named) {
        return Err(Refusal::from(DeskFault::Resolve(ResolveFault::Airline(0))));
    }
    let numbers = numbers_of(alloc, &named)?;
    Ok(numbers)
}
