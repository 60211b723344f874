//! Carrier records, type 2.

ghost use Rattle.std.specs.Prelude.{◌≡◌, ◌<◌, ◌∷◌, [], None, Ok, IfOk, IfErr, Some, IsTrue, slice_range};
ghost use Rattle.std.specs.List.{list_all};
ghost use Rattle.ssim_values.specs.Calendar.{day_limit};
ghost use Rattle.ssim_columns.specs.declared.field.FieldKind.TheVariants.{Carried, Mode};
ghost use Rattle.ssim_columns.specs.Columns.{columns, fault_in, first_fault, is_carried, time_mode_of, EachIsValid};
ghost use Rattle.ssim_columns.specs.Leg.{IsEnd};
ghost use Rattle.ssim_records.specs.Carrier.{CarrierFields, IsCarrier, SpellsCarrier, carrier_table, written_carrier};

use ssim_columns::leg_fields::SERIAL;
use ssim_columns::{
    Field, FieldKind, airline_at, bytes_of, created_at, details_at, end_text, field, first_day_at,
    first_fault, join, last_day_at, serial_at, six_digits, time_mode_of, time_mode_text,
};
use ssim_values::{Airline, Day, TimeMode};
use std::marker::Model;

const TABLE: [Field; 7] = [
    field!(2 2 Mode),
    field!(3 5 AirlineCode),
    field!(6 14 Carried),
    field!(15 28 Dates),
    field!(29 35 Date),
    field!(36 194 Carried),
    SERIAL,
];

fn carrier_fault(bytes: &[u8; 200]) -> Option<usize>
    ensures { result ≡ first_fault bytes.now carrier_table }
{
    first_fault(&TABLE, bytes)
}

fn time_mode_at(bytes: &[u8; 200]) -> TimeMode
    requires { fault_in Mode (columns 2 2 bytes.now) ≡ None }
    ensures { time_mode_of (columns 2 2 bytes.now) ≡ Some result }
{
    time_mode_of(&bytes[1..2]).unwrap()
}

#[tactic(auto, using(ssim_columns::proofs::lemmas::Rows::all_carried))]
fn season_at(bytes: &[u8; 200]) -> [u8; 9]
    requires { fault_in Carried (columns 6 14 bytes.now) ≡ None }
    ensures ok { IsTrue (list_all is_carried result) }
    ensures value { columns 6 14 bytes.now ≡ result }
{
    bytes_of::<9>(&bytes[5..14])
}

/// The carrier of a data set: its airline, and when the schedule is valid.
#[derive(Clone, Copy, Debug, PartialEq, Eq)]
pub struct Carrier {
    /// Column 2.
    time_mode: TimeMode,
    /// Columns 3 to 5.
    airline: Airline,
    /// Columns 6 to 14, carried: the season in 11 to 13.
    season: [u8; 9],
    /// Columns 15 to 21: the first day of the validity.
    first: Day,
    /// Columns 22 to 28: its last day, or none if it is open.
    last: Option<Day>,
    /// Columns 29 to 35: the day on which the data set was made.
    created: Day,
    /// Columns 36 to 194, carried.
    details: [u8; 159],
    /// The serial that the record had, below 1,000,000.
    serial: u32,
}

impl Model for Carrier {
    ghost use Rattle.ssim_records.specs.Carrier.{CarrierFields, IsCarrier};

    ghost Value = { CarrierFields };

    ghost view = { λ r. record {
      time_mode = r.time_mode;
      airline = r.airline;
      season = r.season;
      first = r.first;
      last = r.last;
      created = r.created;
      details = r.details;
      serial = r.serial;
    } };

    ghost invariant = { λ r. IsCarrier (view r) };

    ghost inverse = { λ v. record {
      time_mode = v.time_mode;
      airline = v.airline;
      season = v.season;
      first = v.first;
      last = v.last;
      created = v.created;
      details = v.details;
      serial = v.serial;
    } };
}

fn carrier_of(bytes: &[u8; 200]) -> Carrier
    requires kind { columns 1 1 bytes.now ≡ 50 ∷ [] }
    requires valid { EachIsValid bytes.now carrier_table }
    ensures { SpellsCarrier result bytes.now }
{
    let first = first_day_at(bytes);
    Carrier {
        time_mode: time_mode_at(bytes),
        airline: airline_at(bytes),
        season: season_at(bytes),
        first,
        last: last_day_at(bytes, first),
        created: created_at(bytes),
        details: details_at(bytes),
        serial: serial_at(bytes),
    }
}

/// The carrier that a record spells, or the first column of the first invalid field.
pub(crate) fn read_carrier(bytes: &[u8; 200]) -> Result<Carrier, usize>
    requires { columns 1 1 bytes.now ≡ 50 ∷ [] }
    ensures ok { IfOk result (λ r. SpellsCarrier r bytes.now) }
    ensures only { (r : CarrierFields) → SpellsCarrier r bytes.now → result ≡ Ok r }
    ensures err { IfErr result (λ column. first_fault bytes.now carrier_table ≡ Some column) }
{
    match carrier_fault(bytes) {
        Some(column) => Err(column),
        None => Ok(carrier_of(bytes)),
    }
}

impl Carrier {
    /// Whether times are UTC or local.
    pub fn time_mode(&self) -> TimeMode
        ensures { result ≡ self.now.time_mode }
    {
        self.time_mode
    }

    /// The same record with another time mode.
    pub fn with_time_mode(self, time_mode: TimeMode) -> Carrier
        ensures { result ≡ record self { time_mode = time_mode } }
    {
        Carrier { time_mode, ..self }
    }

    /// The airline whose schedule it is.
    pub fn airline(&self) -> Airline
        ensures { result ≡ self.now.airline }
    {
        self.airline
    }

    /// Columns 11 to 13: the season, carried.
    pub fn season(&self) -> [u8; 3]
        ensures { result ≡ slice_range self.now.season 5 8 }
    {
        bytes_of::<3>(&self.season[5..8])
    }

    /// Columns 6 to 14, carried: the season and the columns beside it.
    pub fn columns_6_to_14(&self) -> [u8; 9]
        ensures { result ≡ self.now.season }
    {
        self.season
    }

    /// The first day of the validity.
    pub fn first(&self) -> Day
        ensures { result ≡ self.now.first }
    {
        self.first
    }

    /// The last day of the validity, or none if it is open.
    pub fn last(&self) -> Option<Day>
        ensures value { result ≡ self.now.last }
        ensures is_end { IsEnd self.now.first result }
    {
        self.last
    }

    /// The day on which the data set was made.
    pub fn created(&self) -> Day
        ensures { result ≡ self.now.created }
    {
        self.created
    }

    /// Columns 36 to 194, carried.
    pub fn details(&self) -> [u8; 159]
        ensures { result ≡ self.now.details }
    {
        self.details
    }

    /// The serial that the record had.
    pub fn serial(&self) -> u32
        ensures value { result ≡ self.now.serial }
        ensures is_carrier { IsCarrier self.now }
    {
        self.serial
    }

    /// The same carrier with this serial.
    pub fn with_serial(self, serial: u32) -> Carrier
        requires { serial < 1000000 }
        ensures { result ≡ record self { serial = serial } }
    {
        let mut carrier = self;
        carrier.serial = serial;
        carrier
    }

    /// The one written spelling.
    pub(crate) fn written(&self) -> [u8; 200]
        ensures value { result ≡ written_carrier self.now }
        ensures is_carrier { IsCarrier self.now }
        ensures spells { SpellsCarrier self.now result }
    {
        let mut bytes = [b' '; 200];
        join(
            &mut bytes,
            &[
                b"2",
                &time_mode_text(self.time_mode),
                &self.airline.write(),
                &self.season,
                &self.first.write(),
                &end_text(self.last),
                &self.created.write(),
                &self.details,
                &six_digits(self.serial),
            ],
        );
        bytes
    }
}
