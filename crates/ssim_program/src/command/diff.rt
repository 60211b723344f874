//! The command `diff`: on which of the chosen dates the timetables of two files differ, as lines or as
//! CSV, or how many changes of each kind there are.

ghost use Rattle.std.specs.Prelude.{◌≡◌, IfErr, IfOk, length, map, nat_lt};
ghost use Rattle.ssim_values.specs.Flight.{FlightNumber};
ghost use Rattle.ssim_base.specs.Timetable.{Days};
ghost use Rattle.ssim_schedule.specs.FlightPieces.{divided_flights};
ghost use Rattle.ssim_difference.specs.ChosenDates.{chosen_side};
ghost use Rattle.ssim_difference.specs.Differences as defined;
ghost use Rattle.ssim_held.specs.Entries.{DeskSeen};
ghost use Rattle.ssim_command_line.specs.Line.{choice_line};
ghost use Rattle.ssim_program.specs.Timetables.{ReadsTimetable, RefusesTimetable};
ghost use Rattle.ssim_program.specs.internal.Diff.{HasFlights};
ghost use Rattle.ssim_program.specs.Answers.{diff, differences};
ghost use Rattle.ssim_program.specs.internal.Program.{Reports};
ghost use Rattle.ssim_program.specs.print.Difference.{are_different, printed_difference};

use crate::command::choice::choice_in;
use crate::made::Report;
use crate::refusal::Refusal;
use crate::store::Store;
use crate::timetable_file::{carrier_of, open_timetable};
use ssim_command_line::{ChoiceWords, DiffForm};
use ssim_desk::Holdings;
use ssim_difference::{
    FlightDifference, chosen_differences, difference_lines, difference_rows, summary_lines,
};
use ssim_outbox::compare;
use ssim_parts::Choice;
use ssim_records::Carrier;
use ssim_schedule::FlightPieces;
use ssim_values::{Airline, Memory};
use std::alloc::Global;

/// The carrier record of a data set, and the flights of a timetable over it.
#[derive(Drop)]
pub(crate) struct Timetable {
    pub carrier: Carrier,
    pub flights: Vec<FlightPieces>,
}

/// The options of the command, and the flights that it names.
#[derive(Clone, Copy)]
pub(crate) struct DiffWords<'a> {
    pub form: DiffForm,
    pub choice: &'a ChoiceWords<'a>,
    pub flights: &'a [&'a str],
}

/// The chosen dates on which the timetables of two files differ, and whether there are any. The
/// records of the first are freed before the second is read.
pub(crate) fn diff<S: Store>(
    alloc: Global,
    words: &DiffWords<'_>,
    from: &str,
    to: &str,
    store: &mut S,
) -> Result<Report, Refusal>
    ensures answer { Reports (diff (S.files store.old) words.now.form
        (choice_line words.now.choice.now) from.now to.now
        (map (λ t. t.now) words.now.flights.now)) result }
    ensures same { S.files store.new ≡ S.files store.old }
    ensures counted { S.failures store.new ≡ S.failures store.old }
{
    let old = open_flights(alloc, from, store)?;
    let desk = open_timetable(alloc, to, store)?;
    compared(alloc, words, &old, desk)
}

/// The flights of the timetable that the file of this name has.
pub(crate) fn open_flights<S: Store>(
    alloc: Global,
    name: &str,
    store: &mut S,
) -> Result<Timetable, Refusal>
    ensures read { IfOk result (λ timetable. (desk : DeskSeen)
        × ReadsTimetable (S.files store.old) name.now desk
        × HasFlights desk timetable.carrier timetable.flights.items) }
    ensures refused { IfErr result (RefusesTimetable (S.files store.old) name.now) }
    ensures same { S.files store.new ≡ S.files store.old }
    ensures counted { S.failures store.new ≡ S.failures store.old }
{
    let desk = open_timetable(alloc, name, store)?;
    let timetable = flights_of(desk)?;
    Ok(timetable)
}

/// The flights of a desk.
fn flights_of(desk: Holdings) -> Result<Timetable, Memory>
    ensures { IfOk result
        (λ timetable. HasFlights desk timetable.carrier timetable.flights.items) }
{
    let carrier = carrier_of(&desk);
    let flights = desk.into_flights()?;
    Ok(Timetable { carrier, flights })
}

/// The chosen dates on which the timetable of a desk differs from an old one.
fn compared(
    alloc: Global,
    words: &DiffWords<'_>,
    old: &Timetable,
    desk: Holdings,
) -> Result<Report, Refusal>
    ensures { (before : DeskSeen) → HasFlights before old.now.carrier old.now.flights.items
        → Reports (differences words.now.form (choice_line words.now.choice.now)
        (map (λ t. t.now) words.now.flights.now) before desk) result }
{
    let new = flights_of(desk)?;
    compare(&old.carrier, &new.carrier)?;
    let airline = old.carrier.airline();
    let choice = choice_in(alloc, airline, words.choice, words.flights)?;
    let report = reported(
        alloc,
        words.form,
        airline,
        &choice,
        &old.flights,
        &new.flights,
    )?;
    Ok(report)
}

/// The chosen differences of two timetables as the options say, and whether there are any.
fn reported(
    alloc: Global,
    form: DiffForm,
    airline: Airline,
    choice: &Choice,
    old: &[FlightPieces],
    new: &[FlightPieces],
) -> Result<Report, Memory>
    ensures lines { (before after : FlightNumber → Days)
        → old.now ≡ divided_flights before → new.now ≡ divided_flights after
        → IfOk result (λ report. report.lines.items ≡ printed_difference form airline
        (chosen_side choice.now before after before) (chosen_side choice.now before after after)) }
    ensures found { (before after : FlightNumber → Days)
        → old.now ≡ divided_flights before → new.now ≡ divided_flights after
        → IfOk result (λ report. report.found ≡ are_different
        (chosen_side choice.now before after before) (chosen_side choice.now before after after)) }
{
    let flights = chosen_differences(alloc, choice, old, new)?;
    let found = differ(&flights);
    let lines = printed(alloc, form, airline, &flights)?;
    Ok(Report { lines, found })
}

/// Whether there are flights that differ.
fn differ(flights: &[FlightDifference]) -> bool
    ensures { result ≡ nat_lt 0 (length flights.now) }
{
    flights.len() > 0
}

/// The flights that differ, as the options say.
fn printed(
    alloc: Global,
    form: DiffForm,
    airline: Airline,
    flights: &[FlightDifference],
) -> Result<Vec<u8>, Memory>
    ensures { (old new : FlightNumber → Days) → flights.now ≡ defined.differences old new
        → IfOk result (λ lines. lines.items ≡ printed_difference form airline old new) }
{
    if form.csv {
        difference_rows(alloc, airline, flights)
    } else if form.summary {
        summary_lines(alloc, flights)
    } else {
        difference_lines(alloc, airline, flights)
    }
}
