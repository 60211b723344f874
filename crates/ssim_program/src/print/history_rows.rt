//! What each sub-message of a desk did with a flight on a date, as rows of CSV.

ghost use Rattle.std.specs.Prelude.{◌≡◌, ◌++◌, ◌∷◌, [], OnOk, map};
ghost use Rattle.ssim_listing.specs.Rows.{leg_row, row};
ghost use Rattle.ssim_program.specs.print.HistoryRows.{first_rows, history_names, history_rows};
ghost use Rattle.ssim_program.specs.print.HistoryRows.{legs_rows, step_rows};

use crate::print::printed_line::text_of;
use crate::print::step::word_of;
use ssim_desk::{DateHistory, DateStep};
use ssim_listing::{CsvRows, Rowed, iso_date, push_leg_names, push_leg_row, push_no_leg, put_each};
use ssim_schedule::{PlacedLeg, Reason};
use ssim_values::{Day, Designator, Memory};
use std::alloc::Global;

/// The names of the fields before those of a leg.
const NAMES: [&[u8]; 6] = [
    b"flight",
    b"date",
    b"reference",
    b"sub",
    b"action",
    b"result",
];

/// The flight and the date, with which each row begins.
#[derive(Clone, Copy)]
struct FlightDate<'a> {
    alloc: Global,
    name: &'a [u8],
    date: &'a [u8],
}

/// The fields before those of a leg.
#[derive(Clone, Copy)]
struct Head<'a> {
    fields: &'a [&'a [u8]],
}

/// Adds the row of names.
pub(crate) fn push_names(rows: &mut CsvRows) -> Result<(), Memory>
    ensures { OnOk result (rows.new ≡ rows.old ++ row history_names) }
{
    push_leg_names(rows, &NAMES)
}

/// Adds the rows of a flight on a date: of the legs in the data set, and of each sub-message.
pub(crate) fn push_history(
    alloc: Global,
    rows: &mut CsvRows,
    designator: Designator,
    day: Day,
    history: &DateHistory,
) -> Result<(), Memory>
    ensures { OnOk result (rows.new ≡ rows.old
        ++ history_rows designator day history.now.first history.now.steps.items) }
{
    let name = designator.write();
    let date = iso_date(day);
    let shown = FlightDate {
        alloc,
        name: name.as_slice(),
        date: &date,
    };
    push_first(rows, &shown, history.first.legs())?;
    put_each(rows, &shown, &history.steps)
}

/// Adds the rows of the legs in the data set.
fn push_first(rows: &mut CsvRows, shown: &FlightDate<'_>, legs: &[PlacedLeg]) -> Result<(), Memory>
    ensures { OnOk result (rows.new ≡ rows.old
        ++ first_rows (shown.now.name.now ∷ shown.now.date.now ∷ []) legs.now) }
{
    let data_set = *b"data set";
    let none = *b"";
    let fields: [&[u8]; 6] = [shown.name, shown.date, &data_set, &none, &none, &none];
    push_legs(rows, &fields, legs)
}

impl Rowed<FlightDate<'_>> for DateStep {
    ghost text = { λ shown step. step_rows (shown.name.now ∷ shown.date.now ∷ []) step };

    /// Adds the rows of the legs after a sub-message that acted, or the row of one that did not.
    fn put(&self, shown: &FlightDate<'_>, rows: &mut CsvRows) -> Result<(), Memory> {
        let alloc = shown.alloc;
        let reference = text_of(alloc, &self.reference)?;
        let sub = text_of(alloc, &self.sub)?;
        let action = text_of(alloc, &self.action)?;
        let found = Vec::from_slice(alloc, word_of(self.reason).as_bytes())?;
        let fields: [&[u8]; 6] = [shown.name, shown.date, &reference, &sub, &action, &found];
        if self.reason == Reason::Acted {
            push_legs(rows, &fields, self.itinerary.legs())
        } else {
            push_no_leg(rows, &fields)
        }
    }
}

/// Adds a row for each leg, after these fields, or one without a leg.
fn push_legs(rows: &mut CsvRows, fields: &[&[u8]], legs: &[PlacedLeg]) -> Result<(), Memory>
    ensures { OnOk result (rows.new
        ≡ rows.old ++ legs_rows (map (λ f. f.now) fields.now) legs.now) }
{
    match legs.split_first() {
        None => push_no_leg(rows, fields),
        Some(_) => put_each(rows, &Head { fields }, legs),
    }
}

impl Rowed<Head<'_>> for PlacedLeg {
    ghost text = { λ head leg. leg_row (map (λ f. f.now) head.fields.now) leg };

    fn put(&self, head: &Head<'_>, rows: &mut CsvRows) -> Result<(), Memory> {
        push_leg_row(rows, head.fields, self)
    }
}
