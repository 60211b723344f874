//! The departures and arrivals of a board as rows of CSV.

ghost use Rattle.std.specs.Prelude.{◌≡◌, ◌++◌, IfOk, OnOk};
ghost use Rattle.ssim_listing.specs.Rows.{row};
ghost use Rattle.ssim_board.specs.Rows.{days_field, movement_names, movement_row, movement_rows};
ghost use Rattle.ssim_board.specs.Rows.{warning_field};

use crate::board::Board;
use crate::lines::{kind_text, push_number};
use crate::local_time::LocalTime;
use crate::movement::Movement;
use ssim_listing::{CsvRows, Rowed, iso_date, iso_time, name_of, push_sequence, put_each};
use ssim_values::{Airline, Day, Memory};
use std::alloc::Global;

/// The names of the fields.
const NAMES: [&[u8]; 12] = [
    b"station",
    b"date",
    b"time",
    b"movement",
    b"flight",
    b"origin_date",
    b"leg",
    b"aircraft",
    b"other_station",
    b"other_time",
    b"other_days",
    b"warning",
];

/// The board of an airline whose rows are added.
#[derive(Clone, Copy)]
struct Shown<'a> {
    alloc: Global,
    airline: Airline,
    board: &'a Board,
}

/// The row of names.
pub fn movement_names(alloc: Global) -> Result<CsvRows, Memory>
    ensures { IfOk result (λ rows. rows ≡ row movement_names) }
{
    let mut rows = CsvRows::new(alloc);
    rows.push(&NAMES, &[])?;
    Ok(rows)
}

/// Adds a row for each of these departures and arrivals on a board of an airline.
pub fn push_movements(
    alloc: Global,
    rows: &mut CsvRows,
    airline: Airline,
    board: &Board,
    movements: &[Movement],
) -> Result<(), Memory>
    ensures { OnOk result (rows.new ≡ rows.old
        ++ movement_rows airline board.now.station board.now.day movements.now) }
{
    let shown = Shown {
        alloc,
        airline,
        board,
    };
    put_each(rows, &shown, movements)
}

impl Rowed<Shown<'_>> for Movement {
    ghost text = { λ shown movement.
        movement_row shown.airline shown.board.now.station shown.board.now.day movement };

    // Adds the row of a departure or an arrival.
    fn put(&self, shown: &Shown<'_>, rows: &mut CsvRows) -> Result<(), Memory> {
        let alloc = shown.alloc;
        let board = shown.board;
        let station = board.station.write();
        let date = iso_date(board.day);
        let time = iso_time(&self.time.write());
        let kind = kind_text(self.kind);
        let name = name_of(shown.airline, self.flight);
        let origin = iso_date(self.date);
        let mut sequence = Vec::new(alloc);
        push_sequence(&mut sequence, self.sequence)?;
        let aircraft_type = self.aircraft_type;
        let other_station = self.other_station.write();
        let other_time = iso_time(&self.other_time.write());
        let other_days = days_field(alloc, board.day, self.other_time)?;
        let warning = warning_field(self.is_uncertain);
        rows.push(
            &[],
            &[
                &station,
                &date,
                &time,
                kind,
                name.as_slice(),
                &origin,
                &sequence,
                &aircraft_type,
                &other_station,
                &other_time,
                &other_days,
                warning,
            ],
        )
    }
}

// How many days a local time is from a date.
fn days_field(alloc: Global, date: Day, time: LocalTime) -> Result<Vec<u8>, Memory>
    ensures { IfOk result (λ field. field.items ≡ days_field date time.days) }
{
    let own = date.number() + 1;
    let days = time.days();
    let mut field = Vec::new(alloc);
    if days < own {
        push_number(&mut field, b"-", own - days)?;
    } else {
        push_number(&mut field, b"", days - own)?;
    }
    Ok(field)
}

// The warning that the times are uncertain, or nothing.
fn warning_field(is_uncertain: bool) -> &'static [u8]
    ensures { result.now ≡ warning_field is_uncertain }
{
    if is_uncertain { b"?" } else { b"" }
}
