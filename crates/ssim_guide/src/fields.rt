//! The fields of records by name, and what is allowed in each, in the order of their columns.

use ssim_records::leg_fields::{
    AFTER_ARRIVAL, AFTER_OVERFLOW, AIRCRAFT_ARRIVAL, AIRCRAFT_DEPARTURE, AIRLINE, ARRIVAL_STATION,
    ARRIVAL_VARIATION, DAYS, DEPARTURE_STATION, DEPARTURE_TERMINAL, DEPARTURE_VARIATION, FIRST_DAY,
    FLIGHT_NUMBER, ITINERARY_VARIATION, LAST_DAY, LEG_SEQUENCE, OVERFLOW, PASSENGER_ARRIVAL,
    PASSENGER_DEPARTURE, RATE, SERIAL, SERVICE_TYPE, SUFFIX,
};

/// A field of a record.
#[derive(Clone, Copy, Debug)]
pub(crate) struct NamedField {
    /// What column 1 is of the records that have it.
    kinds: &'static [u8],
    first: usize,
    last: usize,
    pub(crate) name: &'static str,
    pub(crate) allowed: &'static str,
}

const TITLE: &str = "AIRLINE STANDARD SCHEDULE DATA SET";

const CARRIED: &str = "any bytes but 0 to 31 and 127";

const SIX_DIGITS: &str = "six digits";

const AIRLINE_CODE: &str = "two letters or digits (not two digits) and a blank, or three letters";

const DATE: &str = "DDMMMYY, a day of the calendar";

const END: &str = "a date that is not before the first day, or 00XXX00";

const STATION: &str = "three letters";

const TIME: &str = "0000 to 2359, or 2400";

const PASSENGER: &str = "0000 to 2359, 2400, or four blanks";

const VARIATION: &str = "+ or - and HHMM up to 1500, or five blanks";

const OVERFLOW_BYTE: &str = "a blank or 0";

macro_rules! field {
    ($kinds:literal $first:literal $last:literal $name:literal $allowed:expr) => {
        NamedField {
            kinds: $kinds,
            first: $first,
            last: $last,
            name: $name,
            allowed: $allowed,
        }
    };
}

// A row whose columns are a leg's.
macro_rules! leg_field {
    ($kinds:literal $field:ident $name:literal $allowed:expr) => {
        NamedField {
            kinds: $kinds,
            first: $field.first,
            last: $field.last,
            name: $name,
            allowed: $allowed,
        }
    };
}

impl NamedField {
    /// Whether a record has the field, or a part of it, at a column. A carried field is refused at the
    /// column of the byte, another one at its first column.
    fn is_at(&self, kind: u8, column: usize) -> bool {
        let is_inside = self.first < column && column <= self.last;
        self.kinds.contains(&kind) && (column == self.first || self.is_carried() && is_inside)
    }

    /// The last column of what is refused at a column.
    pub(crate) fn last_at(&self, column: usize) -> usize {
        if self.is_carried() { column } else { self.last }
    }

    /// Whether each column is a field of its own, in which any text is carried.
    fn is_carried(&self) -> bool {
        self.allowed == CARRIED
    }
}

const FIELDS: [NamedField; 39] = [
    field!(b"1" 2 35 "title" TITLE),
    field!(b"2" 2 2 "time mode" "U for UTC, L for local time"),
    field!(b"2" 3 5 "airline" AIRLINE_CODE),
    field!(b"2" 6 14 "carried text, with the season" CARRIED),
    field!(b"2" 15 21 "first day of the validity" DATE),
    field!(b"2" 22 28 "end of the validity" END),
    field!(b"2" 29 35 "creation date" DATE),
    field!(b"12" 36 194 "carried text" CARRIED),
    leg_field!(b"34" SUFFIX "suffix" "a blank or a letter"),
    leg_field!(b"34" AIRLINE "airline" AIRLINE_CODE),
    leg_field!(b"34" FLIGHT_NUMBER "flight number" "1 to 4 digits, blanks before and after them"),
    leg_field!(b"34" ITINERARY_VARIATION "itinerary variation" "1 or 2 digits, blanks before and after them"),
    leg_field!(b"34" LEG_SEQUENCE "leg sequence" "1 or 2 digits, not 0, blanks before and after them"),
    leg_field!(b"34" SERVICE_TYPE "service type" CARRIED),
    leg_field!(b"3" FIRST_DAY "first day of the period" DATE),
    leg_field!(b"3" LAST_DAY "end of the period" END),
    leg_field!(b"3" DAYS "days of operation" "rising digits 1 (Monday) to 7 (Sunday), blanks anywhere"),
    leg_field!(b"3" RATE "frequency rate" "a blank or 1"),
    leg_field!(b"3" DEPARTURE_STATION "station of departure" STATION),
    leg_field!(b"3" PASSENGER_DEPARTURE "passenger time of departure" PASSENGER),
    leg_field!(b"3" AIRCRAFT_DEPARTURE "aircraft time of departure" TIME),
    leg_field!(b"3" DEPARTURE_VARIATION "UTC variation of departure" VARIATION),
    leg_field!(b"3" DEPARTURE_TERMINAL "terminal of departure" CARRIED),
    leg_field!(b"3" ARRIVAL_STATION "station of arrival" STATION),
    leg_field!(b"3" AIRCRAFT_ARRIVAL "aircraft time of arrival" TIME),
    leg_field!(b"3" PASSENGER_ARRIVAL "passenger time of arrival" PASSENGER),
    leg_field!(b"3" ARRIVAL_VARIATION "UTC variation of arrival" VARIATION),
    leg_field!(b"3" AFTER_ARRIVAL "carried text, with the aircraft type" CARRIED),
    leg_field!(b"3" OVERFLOW "overflow of the itinerary variation" OVERFLOW_BYTE),
    leg_field!(b"3" AFTER_OVERFLOW "carried text, with the date variations" CARRIED),
    field!(b"4" 15 27 "carried text" CARRIED),
    field!(b"4" 28 28 "overflow of the itinerary variation" OVERFLOW_BYTE),
    field!(b"4" 29 194 "carried text, with the points and the data" CARRIED),
    field!(b"5" 2 2 "carried text" CARRIED),
    field!(b"5" 3 5 "airline" AIRLINE_CODE),
    field!(b"5" 6 187 "carried text, with the release date" CARRIED),
    field!(b"5" 188 193 "check reference" SIX_DIGITS),
    field!(b"5" 194 194 "continuation" "E for the end"),
    leg_field!(b"12345" SERIAL "serial" SIX_DIGITS),
];

/// The field of a record that is refused at this column.
pub(crate) fn field_at(kind: u8, column: usize) -> Option<NamedField> {
    for field in fields() {
        if field.is_at(kind, column) {
            return Some(*field);
        }
    }
    None
}

/// The rows of the table.
fn fields() -> &'static [NamedField] {
    &FIELDS
}
