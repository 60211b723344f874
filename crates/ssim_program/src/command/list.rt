//! The command `list`: the chosen part of a desk or a data set, with periods or date by date.

ghost use Rattle.std.specs.Prelude.{◌≡◌, IfOk, map};
ghost use Rattle.ssim_command_line.specs.Line.{choice_line};
ghost use Rattle.ssim_program.specs.Answers.{list};
ghost use Rattle.ssim_program.specs.internal.Program.{Answers};
ghost use Rattle.ssim_program.specs.print.Listing.{printed_list};

use crate::command::choice::choice_in;
use crate::command::chosen::chosen_flights;
use crate::refusal::Refusal;
use crate::store::Store;
use crate::timetable_file::open_timetable;
use ssim_command_line::{ChoiceWords, ListForm};
use ssim_listing::{csv_listing, dated_csv_listing, dated_listing, listing};
use ssim_schedule::FlightPieces;
use ssim_values::{Airline, Memory};
use std::alloc::Global;

/// The chosen flight dates of the desk, or of the data set, in a file; with flights, of these alone.
pub(crate) fn list<S: Store>(
    alloc: Global,
    form: ListForm,
    words: &ChoiceWords<'_>,
    file: &str,
    flights: &[&str],
    store: &mut S,
) -> Result<Vec<u8>, Refusal>
    ensures answer { Answers (list (S.files store.old) form (choice_line words.now) file.now
        (map (λ t. t.now) flights.now)) result }
    ensures same { S.files store.new ≡ S.files store.old }
    ensures counted { S.failures store.new ≡ S.failures store.old }
{
    let desk = open_timetable(alloc, file, store)?;
    let airline = desk.data_set().airline();
    let choice = choice_in(alloc, airline, words, flights)?;
    let divided = chosen_flights(alloc, desk, &choice)?;
    let lines = printed(alloc, form, airline, &divided)?;
    Ok(lines)
}

/// The flights as the options say.
fn printed(
    alloc: Global,
    form: ListForm,
    airline: Airline,
    flights: &[FlightPieces],
) -> Result<Vec<u8>, Memory>
    ensures { IfOk result (λ lines. lines.items ≡ printed_list form airline flights.now) }
{
    match (form.csv, form.dates) {
        (false, false) => listing(alloc, airline, flights),
        (false, true) => dated_listing(alloc, airline, flights),
        (true, false) => csv_listing(alloc, airline, flights),
        (true, true) => dated_csv_listing(alloc, airline, flights),
    }
}
