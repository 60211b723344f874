//! The flights of a timetable as CSV.

ghost use Rattle.std.specs.Prelude.{◌≡◌, ◌++◌, ◌∷◌, [], IfOk, OnOk};
ghost use Rattle.ssim_listing.specs.Lines.{flight_name};
ghost use Rattle.ssim_listing.specs.Rows.{csv_listing, date_rows, dated_csv_listing, header};
ghost use Rattle.ssim_listing.specs.Rows.{leg_row, piece_rows, row};
ghost use Rattle.ssim_listing.specs.internal.Divisions.{divided_csv_listing, divided_rows};

use crate::csv_rows::CsvRows;
use crate::dates::dates_of;
use crate::division::Division;
use crate::iso::iso_date;
use crate::leg_row::{push_leg_names, push_leg_row};
use crate::lines::{Layout, name_of};
use crate::rowed::{Rowed, put_each};
use ssim_schedule::{FlightPieces, Itinerary, PlacedLeg};
use ssim_values::{Airline, Day, Memory, Period};
use std::alloc::Global;

/// The names of the fields of a flight and its dates.
const FLIGHT_NAMES: [&[u8]; 4] = [b"flight", b"first", b"last", b"days"];

/// A flight with this name.
#[derive(Clone, Copy)]
struct FlightRows<'a> {
    bytes: &'a [u8],
}

/// The first fields of each leg, which are those of its flight and its dates.
#[derive(Clone, Copy)]
struct Head<'a> {
    name: &'a [u8],
    first: &'a [u8],
    last: &'a [u8],
    days: &'a [u8],
}

/// The flights of an airline as CSV: the names of the columns, and a row for each piece and leg.
pub fn csv_listing(
    alloc: Global,
    airline: Airline,
    flights: &[FlightPieces],
) -> Result<Vec<u8>, Memory>
    ensures { IfOk result (λ rows. rows.items ≡ csv_listing airline flights.now) }
{
    rows_of(alloc, airline, flights, Division::Periods)
}

/// The flights of an airline as CSV: the names of the columns, and a row for each date and leg.
pub fn dated_csv_listing(
    alloc: Global,
    airline: Airline,
    flights: &[FlightPieces],
) -> Result<Vec<u8>, Memory>
    ensures { IfOk result (λ rows. rows.items ≡ dated_csv_listing airline flights.now) }
{
    rows_of(alloc, airline, flights, Division::Dates)
}

// The names of the columns, and the rows of the flights of an airline.
fn rows_of(
    alloc: Global,
    airline: Airline,
    flights: &[FlightPieces],
    division: Division,
) -> Result<Vec<u8>, Memory>
    ensures { IfOk result
        (λ rows. rows.items ≡ divided_csv_listing division airline flights.now) }
{
    let mut rows = CsvRows::new(alloc);
    push_leg_names(&mut rows, &FLIGHT_NAMES)?;
    let layout = Layout {
        alloc,
        airline,
        division,
    };
    put_each(&mut rows, &layout, flights)?;
    rows.into_bytes()
}

impl Rowed<Layout> for FlightPieces {
    ghost text = { λ layout flight.
        divided_rows layout.division (flight_name layout.airline flight.0) flight.1 };

    fn put(&self, layout: &Layout, rows: &mut CsvRows) -> Result<(), Memory> {
        let alloc = layout.alloc;
        let name = name_of(layout.airline, self.flight());
        put_flight(alloc, rows, name.as_slice(), self.pieces(), layout.division)
    }
}

// Writes the rows of a flight with this name.
fn put_flight(
    alloc: Global,
    rows: &mut CsvRows,
    name: &[u8],
    pieces: &[(Period, Itinerary)],
    division: Division,
) -> Result<(), Memory>
    ensures { OnOk result
        (rows.new ≡ rows.old ++ divided_rows division name.now pieces.now) }
{
    match division {
        Division::Periods => put_each(rows, &FlightRows { bytes: name }, pieces),
        Division::Dates => {
            let dates = dates_of(alloc, pieces)?;
            put_each(rows, &FlightRows { bytes: name }, &dates)
        }
    }
}

impl Rowed<FlightRows<'_>> for (Period, Itinerary) {
    ghost text = { λ name piece. piece_rows name.bytes.now piece };

    fn put(&self, name: &FlightRows<'_>, rows: &mut CsvRows) -> Result<(), Memory> {
        let first = iso_date(self.0.first());
        let last = iso_date(self.0.last());
        let days = self.0.mask().digits();
        let head = Head {
            name: name.bytes,
            first: &first,
            last: &last,
            days: days.as_slice(),
        };
        put_each(rows, &head, self.1.legs())
    }
}

impl Rowed<FlightRows<'_>> for (Day, &Itinerary) {
    ghost text = { λ name date. date_rows name.bytes.now (date.0, date.1.now) };

    fn put(&self, name: &FlightRows<'_>, rows: &mut CsvRows) -> Result<(), Memory> {
        let date = iso_date(self.0);
        let weekday = [b'0' + self.0.weekday()];
        let head = Head {
            name: name.bytes,
            first: &date,
            last: &date,
            days: &weekday,
        };
        put_each(rows, &head, self.1.legs())
    }
}

impl Rowed<Head<'_>> for PlacedLeg {
    ghost text = { λ head leg.
        leg_row (head.name.now ∷ head.first.now ∷ head.last.now ∷ head.days.now ∷ []) leg };

    fn put(&self, head: &Head<'_>, rows: &mut CsvRows) -> Result<(), Memory> {
        let fields = [head.name, head.first, head.last, head.days];
        push_leg_row(rows, &fields, self)
    }
}
