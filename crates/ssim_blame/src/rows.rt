//! Flights with their makers as rows of CSV.

ghost use Rattle.std.specs.Prelude.{◌≡◌, ◌++◌, ◌∷◌, [], IfOk, IfSome, OnOk, map};
ghost use Rattle.ssim_listing.specs.Rows.{period_head, row};
ghost use Rattle.ssim_blame.specs.Rows.{blame_rows, blamed_rows, maker_fields, piece_row};

use crate::flight_blame::FlightBlame;
use crate::maker::{Maker, SubName};
use ssim_lines::written;
use ssim_listing::{CsvRows, Rowed, iso_date, name_of, put_each};
use ssim_values::{Airline, Memory, Period};
use std::alloc::Global;
use std::fmt;
use std::io::Write;

/// The names of the fields.
const NAMES: [&[u8]; 7] = [
    b"flight",
    b"first",
    b"last",
    b"days",
    b"reference",
    b"sub",
    b"action",
];

/// The flights of an airline whose rows are added.
#[derive(Clone, Copy)]
struct Flights {
    alloc: Global,
    airline: Airline,
}

/// The name of a flight whose rows are added.
#[derive(Clone, Copy)]
struct Named<'a> {
    alloc: Global,
    name: &'a [u8],
}

/// The rows of flights of an airline: the names of the fields, and a row for each period with its
/// maker.
pub fn blame_rows(
    alloc: Global,
    airline: Airline,
    flights: &[FlightBlame],
) -> Result<Vec<u8>, Memory>
    ensures { IfOk result (λ rows. rows.items ≡ blame_rows airline flights.now) }
{
    let mut rows = CsvRows::new(alloc);
    rows.push(&NAMES, &[])?;
    put_each(&mut rows, &Flights { alloc, airline }, flights)?;
    rows.into_bytes()
}

impl Rowed<Flights> for FlightBlame {
    ghost text = { λ flights flight. blamed_rows flights.airline flight };

    fn put(&self, flights: &Flights, rows: &mut CsvRows) -> Result<(), Memory> {
        let name = name_of(flights.airline, self.flight());
        let named = Named {
            alloc: flights.alloc,
            name: name.as_slice(),
        };
        put_each(rows, &named, self.pieces())
    }
}

impl Rowed<Named<'_>> for (Period, Maker) {
    ghost text = { λ named piece. piece_row named.name.now piece };

    fn put(&self, named: &Named<'_>, rows: &mut CsvRows) -> Result<(), Memory> {
        let alloc = named.alloc;
        let none = *b"";
        match &self.1 {
            Maker::Nobody => push_piece(rows, named, &self.0, &[&none, &none, &none]),
            Maker::DataSet => push_piece(rows, named, &self.0, &[b"data set", &none, &none]),
            Maker::Sub(name) => {
                let reference = text_of(alloc, &name.reference)?;
                let sub = text_of(alloc, &name.sub)?;
                let action = text_of(alloc, &name.action)?;
                push_piece(rows, named, &self.0, &[&reference, &sub, &action])
            }
        }
    }
}

// Adds the row of a period, with these fields of its maker.
fn push_piece(
    rows: &mut CsvRows,
    named: &Named<'_>,
    period: &Period,
    maker: &[&[u8]; 3],
) -> Result<(), Memory>
    ensures { OnOk result (rows.new ≡ rows.old
        ++ row (period_head named.now.name.now period.now ++ map (λ f. f.now) maker.now)) }
{
    let first = iso_date(period.first());
    let last = iso_date(period.last());
    let days = period.mask().digits();
    rows.push(&[named.name, &first, &last, days.as_slice()], maker)
}

// The text of what is displayed.
fn text_of<D: fmt::Display>(alloc: Global, shown: &D) -> Result<Vec<u8>, Memory>
    ensures { IfOk result (λ bytes. IfSome (D.output shown.now) (λ text. bytes.items ≡ text)) }
{
    let mut bytes = Vec::new(alloc);
    written(write!(bytes, "{shown}"))?;
    Ok(bytes)
}
