//! The differences of two timetables as rows of CSV.

ghost use Rattle.std.specs.Prelude.{◌≡◌, ◌<◌, ◌++◌, ◌∷◌, [], IfOk, OnOk, map};
ghost use Rattle.std.specs.Option.{option_map};
ghost use Rattle.ssim_values.specs.Flight.{FlightNumber};
ghost use Rattle.ssim_base.specs.Timetable.{Days};
ghost use Rattle.ssim_difference.specs.Differences.{differences};
ghost use Rattle.ssim_difference.specs.Kinds.{kind_name, kind_of};
ghost use Rattle.ssim_difference.specs.Rows.{both_rows, changed_rows, difference_rows, flight_rows};
ghost use Rattle.ssim_difference.specs.Rows.{listed_rows, pair_rows, piece_rows, sequence_rows};
ghost use Rattle.ssim_difference.specs.Rows.{side_row};
ghost use Rattle.ssim_difference.specs.internal.RowHeads.{fields_of};

use crate::change_kind::ChangeKind;
use crate::difference::Difference;
use crate::flight_difference::FlightDifference;
use crate::lines::leg_at;
use ssim_listing::{
    CsvRows, Rowed, RowedAt, iso_date, name_of, push_leg_names, push_leg_row, put_each, put_range,
};
use ssim_schedule::PlacedLeg;
use ssim_values::{Airline, Memory, Period};
use std::alloc::Global;

/// The names of the fields before those of a leg.
const NAMES: [&[u8]; 6] = [b"flight", b"first", b"last", b"days", b"change", b"side"];

/// The flights of an airline whose rows are added.
#[derive(Clone, Copy)]
struct RowFlights {
    airline: Airline,
}

/// The name of a flight that differs.
#[derive(Clone, Copy)]
struct ChangedRows<'a> {
    name: &'a [u8],
}

/// The first fields of the rows of a period on which a flight differs.
#[derive(Clone, Copy)]
struct Head<'a> {
    name: &'a [u8],
    first: &'a [u8],
    last: &'a [u8],
    days: &'a [u8],
    change: &'a [u8],
}

/// Old and new legs, whose rows are by sequence.
#[derive(Clone, Copy)]
struct RowPairs<'a> {
    head: Head<'a>,
    old: &'a [PlacedLeg],
    new: &'a [PlacedLeg],
}

/// The rows of the flights of an airline that differ: a row of names, and for each period on which a
/// flight differs a row for each old and each new leg, or one for both if they are equal. The flights
/// are those of [`differences`] or of [`chosen_differences`].
///
/// [`differences`]: crate::differences
/// [`chosen_differences`]: crate::chosen_differences
pub fn difference_rows(
    alloc: Global,
    airline: Airline,
    flights: &[FlightDifference],
) -> Result<Vec<u8>, Memory>
    ensures { (old new : FlightNumber → Days) → flights.now ≡ differences old new
        → IfOk result (λ rows. rows.items ≡ difference_rows airline old new) }
{
    let rows = listed(alloc, airline, flights)?;
    Ok(rows)
}

// The row of names, and the rows of some flights.
fn listed(alloc: Global, airline: Airline, flights: &[FlightDifference]) -> Result<Vec<u8>, Memory>
    ensures { IfOk result (λ rows. rows.items ≡ listed_rows airline flights.now) }
{
    let mut rows = CsvRows::new(alloc);
    push_leg_names(&mut rows, &NAMES)?;
    put_each(&mut rows, &RowFlights { airline }, flights)?;
    rows.into_bytes()
}

impl Rowed<RowFlights> for FlightDifference {
    ghost text = { λ flights flight. flight_rows flights.airline flight };

    fn put(&self, flights: &RowFlights, rows: &mut CsvRows) -> Result<(), Memory> {
        let name = name_of(flights.airline, self.flight());
        let named = ChangedRows {
            name: name.as_slice(),
        };
        put_each(rows, &named, self.pieces())
    }
}

impl Rowed<ChangedRows<'_>> for (Period, Difference) {
    ghost text = { λ named piece. piece_rows named.name.now piece };

    fn put(&self, named: &ChangedRows<'_>, rows: &mut CsvRows) -> Result<(), Memory> {
        let first = iso_date(self.0.first());
        let last = iso_date(self.0.last());
        let days = self.0.mask().digits();
        let change = ChangeKind::of(&self.1).name().as_bytes();
        let head = Head {
            name: named.name,
            first: &first,
            last: &last,
            days: days.as_slice(),
            change,
        };
        push_changed_rows(rows, head, self.1.old.legs(), self.1.new.legs())
    }
}

// Adds the rows of old and new legs, by sequence.
fn push_changed_rows(
    rows: &mut CsvRows,
    head: Head<'_>,
    old: &[PlacedLeg],
    new: &[PlacedLeg],
) -> Result<(), Memory>
    requires { head.change.now ≡ kind_name (kind_of old.now new.now) }
    ensures { OnOk result (rows.new ≡ rows.old
        ++ changed_rows (head.entry.name.now ∷ head.entry.first.now ∷ head.entry.last.now
        ∷ head.entry.days.now ∷ []) old.now new.now) }
{
    put_range(rows, &RowPairs { head, old, new }, 1, 100)
}

impl RowedAt for RowPairs<'_> {
    ghost has = { λ legs sequence. sequence < 100 };

    ghost text = { λ legs sequence.
        sequence_rows (fields_of legs.head) legs.old.now legs.new.now sequence };

    fn put_at(&self, sequence: usize, rows: &mut CsvRows) -> Result<(), Memory> {
        let old = leg_at(self.old, sequence as u8);
        let new = leg_at(self.new, sequence as u8);
        push_pair(rows, &self.head, old, new)
    }
}

// Adds the rows of the old and the new leg of one sequence.
fn push_pair(
    rows: &mut CsvRows,
    head: &Head<'_>,
    old: Option<&PlacedLeg>,
    new: Option<&PlacedLeg>,
) -> Result<(), Memory>
    ensures { OnOk result (rows.new ≡ rows.old ++ pair_rows
        (fields_of head.now)
        (option_map (λ leg. leg.now) old.entry) (option_map (λ leg. leg.now) new.entry)) }
{
    match (old, new) {
        (None, None) => Ok(()),
        (Some(old), None) => push_side(rows, head, b"old", old),
        (None, Some(new)) => push_side(rows, head, b"new", new),
        (Some(old), Some(new)) => push_both(rows, head, old, new),
    }
}

// Adds the row of an old and a new leg that are equal, or the rows of both.
fn push_both(
    rows: &mut CsvRows,
    head: &Head<'_>,
    old: &PlacedLeg,
    new: &PlacedLeg,
) -> Result<(), Memory>
    ensures { OnOk result (rows.new ≡ rows.old ++ both_rows
        (fields_of head.now) old.now new.now) }
{
    if old.same(new) {
        return push_side(rows, head, b"both", old);
    }
    push_side(rows, head, b"old", old)?;
    push_side(rows, head, b"new", new)
}

// Adds the row of a leg of a side.
fn push_side(
    rows: &mut CsvRows,
    head: &Head<'_>,
    side: &[u8],
    leg: &PlacedLeg,
) -> Result<(), Memory>
    ensures { OnOk result (rows.new ≡ rows.old ++ side_row
        (fields_of head.now) side.now leg.now) }
{
    let fields = [
        head.name,
        head.first,
        head.last,
        head.days,
        head.change,
        side,
    ];
    push_leg_row(rows, &fields, leg)
}
