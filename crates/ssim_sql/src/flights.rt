//! The rows of flights: of each leg on each period.

ghost use Rattle.std.specs.Prelude.{◌≡◌, ◌++◌, ℕ, List, OnOk};
ghost use Rattle.ssim_sql.specs.internal.Rows.{piece_rows, pieces_rows, rows_in};
ghost use Rattle.ssim_sql.specs.internal.Tables.{script_with};

use crate::leg_rows::{put_leg, put_side};
use crate::segment_rows::put_segments;
use crate::table::{Rowed, Table, put_each};
use ssim_listing::name_of;
use ssim_schedule::{FlightPieces, Itinerary, PlacedLeg};
use ssim_values::{Airline, Memory, Period, TimeMode};

/// A table with rows of legs.
#[derive(Clone, Copy)]
pub(crate) enum LegTable {
    /// A row for each leg.
    Legs,
    /// A row for each segment record.
    Segments,
    /// A row for each leg that the data set has where a flight differs from it.
    Old,
    /// A row for each leg that a flight has where it differs from the data set.
    New,
}

/// A timetable whose flights have rows in a table.
#[derive(Clone, Copy)]
pub(crate) struct Flights<'a> {
    pub(crate) table: LegTable,
    /// The name of the timetable.
    pub(crate) name: &'a [u8],
    pub(crate) mode: TimeMode,
    pub(crate) airline: Airline,
}

/// A flight of a timetable.
#[derive(Clone, Copy)]
pub(crate) struct FlightOf<'a> {
    table: LegTable,
    name: &'a [u8],
    mode: TimeMode,
    flight: &'a [u8],
}

/// A flight of a timetable on a period.
#[derive(Clone, Copy)]
pub(crate) struct PeriodOf<'a> {
    pub(crate) table: LegTable,
    /// The name of the timetable.
    pub(crate) name: &'a [u8],
    pub(crate) mode: TimeMode,
    /// The name of the flight.
    pub(crate) flight: &'a [u8],
    pub(crate) period: Period,
}

impl Rowed<Flights<'_>> for FlightPieces {
    ghost rows = { λ of flight.
        pieces_rows (rows_in of.table) of.name.now of.mode of.airline flight };

    // Adds the rows of each period.
    fn put(&self, of: &Flights<'_>, table: &mut Table) -> Result<(), Memory> {
        let flight = name_of(of.airline, self.flight());
        let here = FlightOf {
            table: of.table,
            name: of.name,
            mode: of.mode,
            flight: flight.as_slice(),
        };
        put_each(table, &here, self.pieces())
    }
}

impl Rowed<FlightOf<'_>> for (Period, Itinerary) {
    ghost rows = { λ of piece.
        piece_rows (rows_in of.table) of.name.now of.mode of.flight.now piece };

    // Adds the rows of each leg.
    fn put(&self, of: &FlightOf<'_>, table: &mut Table) -> Result<(), Memory> {
        let here = PeriodOf {
            table: of.table,
            name: of.name,
            mode: of.mode,
            flight: of.flight,
            period: self.0,
        };
        put_each(table, &here, self.1.legs())
    }
}

impl Rowed<PeriodOf<'_>> for PlacedLeg {
    ghost rows = { λ of leg. rows_in of.table of.name.now of.mode of.flight.now of.period leg };

    // Adds the rows of the leg.
    fn put(&self, of: &PeriodOf<'_>, table: &mut Table) -> Result<(), Memory> {
        match of.table {
            LegTable::Legs => put_leg(table, of, self),
            LegTable::Segments => put_segments(table, of, self),
            LegTable::Old => put_side(table, of, b"old", self),
            LegTable::New => put_side(table, of, b"new", self),
        }
    }
}
