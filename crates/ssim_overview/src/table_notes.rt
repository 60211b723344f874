//! What the legs of a data set say that its station table does not have.

ghost use Rattle.std.specs.Prelude.{◌≡◌, ℕ, ◌<◌, ◌++◌, IfOk, OnOk, false, length, slice_index_or};
ghost use Rattle.std.specs.List.{list_any};
ghost use Rattle.ssim_overview.specs.StationNotes.{gives_note, note_on, notes_on, station_notes};
ghost use Rattle.ssim_overview.specs.Totals.{calendar, ends_of, station_at};
ghost use Rattle.ssim_overview.specs.internal.StationNotes.{AddsDates, extended, is_marked};
ghost use Rattle.ssim_overview.specs.internal.StationNotes.{is_marked_by};

use crate::leg_ends::{LegEnd, ends_by_station, rows_by_station, says_other};
use crate::spelled_row::SpelledRow;
use crate::station_marks::{count_marks, station_at};
use crate::station_rows::holds;
use ssim_base::{StationRow, variation_at};
use ssim_records::Record;
use ssim_values::{Day, Memory, Period, Station, Variation};
use std::alloc::Global;

/// The number of stations: three letters each.
const STATIONS: usize = 17_576;

/// The number of days of the calendar.
const DAYS: u32 = 36_525;

/// What a note says of its dates.
#[derive(Clone, Copy, Debug, PartialEq, Eq)]
pub enum NoteKind {
    /// A leg has an end at the station, and the table has no row.
    Missing,
    /// The table has a row, and an end on its date of origin says another UTC variation.
    Other,
}

/// A note: dates of origin for which the legs say of a station what its table does not have.
#[derive(Clone, Copy, Debug, PartialEq, Eq)]
pub struct StationNote {
    /// The station.
    pub station: Station,
    /// What it says of the dates.
    pub kind: NoteKind,
    /// The number of the dates.
    pub dates: usize,
    /// The first of them.
    pub first: Day,
    /// The last of them.
    pub last: Day,
}

/// What the leg records say that a station table does not have: at most one note of each kind on a
/// station, in order of the stations' letters. No timetable is made. The cost is one look at each
/// leg record, and one at each of the dates of those that may give a note.
pub fn station_notes(
    alloc: Global,
    records: &[Record],
    rows: &[StationRow],
) -> Result<Vec<StationNote>, Memory>
    ensures { IfOk result (λ notes. notes.items ≡ station_notes records.now rows.now) }
{
    let table = rows_by_station(alloc, rows)?;
    let ends = ends_by_station(alloc, &table, records)?;
    let mut notes = Vec::new(alloc);
    for rank in 0..STATIONS {
        push_station(alloc, &mut notes, rank, &table[rank], &ends[rank])?;
    }
    Ok(notes)
}

// Adds the notes on the station of a rank, by its rows and the ends that may give a note.
fn push_station(
    alloc: Global,
    notes: &mut Vec<StationNote>,
    rank: usize,
    rows: &[SpelledRow],
    ends: &[(Period, LegEnd)],
) -> Result<(), Memory>
    requires { rank < 17576 }
    ensures { OnOk result (notes.new.items ≡ notes.old.items ++ notes_on (station_at rank)
        (λ kind. is_marked (station_at rank) kind rows.now ends.now)) }
{
    if ends.is_empty() {
        return Ok(());
    }
    let station = station_at(rank);
    let rows = plain_rows(alloc, rows)?;
    let missing = marks(alloc, station, NoteKind::Missing, &rows, ends)?;
    push_note(notes, station, NoteKind::Missing, &missing)?;
    let other = marks(alloc, station, NoteKind::Other, &rows, ends)?;
    push_note(notes, station, NoteKind::Other, &other)
}

// The rows without their texts.
fn plain_rows(alloc: Global, rows: &[SpelledRow]) -> Result<Vec<StationRow>, Memory>
    ensures { IfOk result (λ plain. plain.items ≡ rows.now) }
{
    let mut plain = Vec::with_capacity(alloc, rows.len())?;
    for row in rows {
        plain.push(row.row())?;
    }
    Ok(plain)
}

// A mark for each date of the calendar: whether one of the ends gives a note of a kind on it.
fn marks(
    alloc: Global,
    station: Station,
    kind: NoteKind,
    rows: &[StationRow],
    ends: &[(Period, LegEnd)],
) -> Result<Vec<bool>, Memory>
    ensures len { IfOk result (λ marks. length marks.items ≡ 36525) }
    ensures each { IfOk result (λ marks. (n : ℕ) → n < 36525
        → slice_index_or marks.items n false ≡ is_marked station kind rows.now ends.now n) }
{
    let mut marks = no_marks(alloc)?;
    for end in ends {
        mark_end(&mut marks, station, kind, rows, end);
    }
    Ok(marks)
}

// A mark for each date of the calendar, none of which is set.
fn no_marks(alloc: Global) -> Result<Vec<bool>, Memory>
    ensures len { IfOk result (λ marks. length marks.items ≡ 36525) }
    ensures none { IfOk result (λ marks. (n : ℕ) → slice_index_or marks.items n false ≡ false) }
{
    let marks = vec![in alloc; false; DAYS as usize]?;
    Ok(marks)
}

// Marks the dates on which an end gives a note of a kind.
fn mark_end(
    marks: &mut Vec<bool>,
    station: Station,
    kind: NoteKind,
    rows: &[StationRow],
    end: &(Period, LegEnd),
)
    requires { length marks.old.items ≡ 36525 }
    ensures { AddsDates (λ n. is_marked_by station kind rows.now n end.now) marks.old.items
        marks.new.items }
{
    let first = end.0.first().number() as u32;
    let last = end.0.last().number() as u32;
    for day in first..last + 1 {
        let is_marked = is_marked_by(station, kind, rows, day, end);
        marks[day as usize] |= is_marked;
    }
}

// Whether an end gives a note of a kind on a date.
fn is_marked_by(
    station: Station,
    kind: NoteKind,
    rows: &[StationRow],
    day: u32,
    end: &(Period, LegEnd),
) -> bool
    requires { day < 36525 }
    ensures { result ≡ is_marked_by station kind rows.now day end.now }
{
    if !holds(&end.0, day) {
        return false;
    }
    match Day::from_number(day as u16) {
        Some(date) => gives_note(kind, variation_at(rows, station, date), &end.1),
        None => unreachable!(),
    }
}

// Whether an end gives a note of a kind, by the variation that the table has.
fn gives_note(kind: NoteKind, variation: Option<Variation>, end: &LegEnd) -> bool
    ensures { result ≡ gives_note kind variation end.now }
{
    match (kind, variation) {
        (NoteKind::Missing, None) => true,
        (NoteKind::Missing, Some(_)) => false,
        (NoteKind::Other, None) => false,
        (NoteKind::Other, Some(variation)) => says_other(variation, end),
    }
}

// Adds the note on the dates that are marked, if there are any.
fn push_note(
    notes: &mut Vec<StationNote>,
    station: Station,
    kind: NoteKind,
    marks: &[bool],
) -> Result<(), Memory>
    requires { length marks.now ≡ 36525 }
    ensures { OnOk result (notes.new.items
        ≡ notes.old.items ++ note_on station kind (λ n. slice_index_or marks.now n false)) }
{
    let Some(days) = first_and_last(marks) else {
        return Ok(());
    };
    notes.push(StationNote {
        station,
        kind,
        dates: count_marks(marks),
        first: days.0,
        last: days.1,
    })?;
    Ok(())
}

// The first and the last date that are marked, if there are any.
fn first_and_last(marks: &[bool]) -> Option<(Day, Day)>
    requires { length marks.now ≡ 36525 }
    ensures { result ≡ ends_of (λ n. slice_index_or marks.now n false)
        (list_any (λ n. slice_index_or marks.now n false) calendar) }
{
    let mut days = None;
    for day in 0..DAYS {
        days = extended(days, marks[day as usize], day);
    }
    days
}

// A first and a last date after one more date, if it is marked.
fn extended(days: Option<(Day, Day)>, mark: bool, day: u32) -> Option<(Day, Day)>
    requires { day < 36525 }
    ensures { result ≡ extended days mark day }
{
    if !mark {
        return days;
    }
    let Some(date) = Day::from_number(day as u16) else {
        unreachable!()
    };
    match days {
        None => Some((date, date)),
        Some((first, _)) => Some((first, date)),
    }
}
