//! The rows of flight legs after other fields.

ghost use Rattle.std.specs.Prelude.{◌≡◌, ◌+◌, ◌++◌, IsTrue, OnOk, map};
ghost use Rattle.ssim_records.specs.clauses.Leg.{is_own};
ghost use Rattle.ssim_listing.specs.Rows.{leg_names, leg_row, no_leg_row, row, time_field};

use crate::csv_rows::CsvRows;
use crate::iso::iso_time;
use ssim_records::leg_fields::{
    AIRCRAFT_ARRIVAL, AIRCRAFT_DEPARTURE, AIRCRAFT_TYPE, ARRIVAL_STATION, ARRIVAL_TERMINAL,
    ARRIVAL_VARIATION, BOOKING_DESIGNATORS, CONFIGURATION, DATE_VARIATIONS, DEPARTURE_STATION,
    DEPARTURE_TERMINAL, DEPARTURE_VARIATION, PASSENGER_ARRIVAL, PASSENGER_DEPARTURE, SERVICE_TYPE,
};
use ssim_records::{Field, LegColumns};
use ssim_schedule::PlacedLeg;
use ssim_values::{Memory, write_two_digits};

/// The names of the fields of a leg.
const LEG_NAMES: [&[u8]; 17] = [
    b"leg",
    b"from",
    b"passenger_departure",
    b"departure",
    b"departure_utc_variation",
    b"to",
    b"arrival",
    b"passenger_arrival",
    b"arrival_utc_variation",
    b"departure_date_variation",
    b"arrival_date_variation",
    b"service",
    b"aircraft",
    b"bookings",
    b"configuration",
    b"departure_terminal",
    b"arrival_terminal",
];

/// The fields of a leg that is not there.
const NO_LEG: [&[u8]; 17] = [b""; 17];

/// Adds a row of names: these, and those of the fields of a leg.
pub fn push_leg_names(rows: &mut CsvRows, head: &[&[u8]]) -> Result<(), Memory>
    ensures { OnOk result
        (rows.new ≡ rows.old ++ row (map (λ f. f.now) head.now ++ leg_names)) }
{
    rows.push(head, &LEG_NAMES)
}

/// Adds a row of these fields, and empty fields in place of those of a leg.
pub fn push_no_leg(rows: &mut CsvRows, head: &[&[u8]]) -> Result<(), Memory>
    ensures { OnOk result
        (rows.new ≡ rows.old ++ no_leg_row (map (λ f. f.now) head.now)) }
{
    rows.push(head, &NO_LEG)
}

/// Adds the row of a leg, after these fields.
pub fn push_leg_row(rows: &mut CsvRows, head: &[&[u8]], leg: &PlacedLeg) -> Result<(), Memory>
    ensures { OnOk result
        (rows.new ≡ rows.old ++ leg_row (map (λ f. f.now) head.now) leg.now) }
{
    let sequence = write_two_digits(leg.sequence());
    let columns = leg.columns();
    let passenger_departure = time_of(&columns, PASSENGER_DEPARTURE);
    let departure = time_of(&columns, AIRCRAFT_DEPARTURE);
    let arrival = time_of(&columns, AIRCRAFT_ARRIVAL);
    let passenger_arrival = time_of(&columns, PASSENGER_ARRIVAL);
    let (departs, arrives) = columns.text(DATE_VARIATIONS).split_at(1);
    rows.push(
        head,
        &[
            &sequence,
            columns.text(DEPARTURE_STATION),
            &passenger_departure,
            &departure,
            columns.text(DEPARTURE_VARIATION),
            columns.text(ARRIVAL_STATION),
            &arrival,
            &passenger_arrival,
            columns.text(ARRIVAL_VARIATION),
            departs,
            arrives,
            columns.text(SERVICE_TYPE),
            columns.text(AIRCRAFT_TYPE),
            columns.text(BOOKING_DESIGNATORS),
            columns.text(CONFIGURATION),
            columns.text(DEPARTURE_TERMINAL),
            columns.text(ARRIVAL_TERMINAL),
        ],
    )
}

// A time of a leg, as in 17:30.
fn time_of(columns: &LegColumns, field: Field) -> [u8; 5]
    requires own { IsTrue (is_own field) }
    requires four { field.first + 3 ≡ field.last }
    ensures { result ≡ time_field field.first field.last columns.now }
{
    iso_time(columns.text(field))
}
