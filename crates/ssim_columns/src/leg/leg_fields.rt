//! The fields of a flight leg record, type 3: the one table of its columns. Each constant is a
//! field with its columns, counted from 1.

use crate::field::{Field, FieldKind};

/// Column 2: the suffix of the flight.
pub const SUFFIX: Field = field!(2 2 Suffix);
/// Columns 3 to 5: the airline.
pub const AIRLINE: Field = field!(3 5 AirlineCode);
/// Columns 6 to 9: the flight number.
pub const FLIGHT_NUMBER: Field = field!(6 9 Number);
/// Columns 10 and 11: the itinerary variation.
pub const ITINERARY_VARIATION: Field = field!(10 11 Number);
/// Columns 12 and 13: the leg sequence.
pub const LEG_SEQUENCE: Field = field!(12 13 Sequence);
/// Column 14: the service type.
pub const SERVICE_TYPE: Field = field!(14 14 Carried);
/// Columns 15 to 28: the first day and the end of the period.
pub const DATES: Field = field!(15 28 Dates);
/// Columns 15 to 21: the first day of the period.
pub const FIRST_DAY: Field = field!(15 21 Date);
/// Columns 22 to 28: the end of the period, a day or open.
pub const LAST_DAY: Field = field!(22 28 Date);
/// Columns 29 to 35: the days of operation.
pub const DAYS: Field = field!(29 35 Days);
/// Column 36: the frequency rate.
pub const RATE: Field = field!(36 36 Carried);
/// Columns 37 to 39: the departure station.
pub const DEPARTURE_STATION: Field = field!(37 39 StationCode);
/// Columns 40 to 43: the passenger departure time.
pub const PASSENGER_DEPARTURE: Field = field!(40 43 PassengerTime);
/// Columns 44 to 47: the aircraft departure time.
pub const AIRCRAFT_DEPARTURE: Field = field!(44 47 Time);
/// Columns 48 to 52: the UTC variation of the departure station.
pub const DEPARTURE_VARIATION: Field = field!(48 52 UtcVariation);
/// Columns 53 and 54: the departure terminal.
pub const DEPARTURE_TERMINAL: Field = field!(53 54 Carried);
/// Columns 55 to 57: the arrival station.
pub const ARRIVAL_STATION: Field = field!(55 57 StationCode);
/// Columns 58 to 61: the aircraft arrival time.
pub const AIRCRAFT_ARRIVAL: Field = field!(58 61 Time);
/// Columns 62 to 65: the passenger arrival time.
pub const PASSENGER_ARRIVAL: Field = field!(62 65 PassengerTime);
/// Columns 66 to 70: the UTC variation of the arrival station.
pub const ARRIVAL_VARIATION: Field = field!(66 70 UtcVariation);
/// Columns 71 to 127: all columns from the arrival terminal to the overflow, carried.
pub const AFTER_ARRIVAL: Field = field!(71 127 Carried);
/// Columns 71 and 72: the arrival terminal.
pub const ARRIVAL_TERMINAL: Field = field!(71 72 Carried);
/// Columns 73 to 75: the aircraft type.
pub const AIRCRAFT_TYPE: Field = field!(73 75 Carried);
/// Columns 76 to 95: the booking designators (PRBD).
pub const BOOKING_DESIGNATORS: Field = field!(76 95 Carried);
/// Columns 96 to 127, carried.
pub const COLUMNS_96_TO_127: Field = field!(96 127 Carried);
/// Column 128: the overflow of the itinerary variation.
pub const OVERFLOW: Field = field!(128 128 Carried);
/// Columns 129 to 194: all columns from the overflow to the serial, carried.
pub const AFTER_OVERFLOW: Field = field!(129 194 Carried);
/// Columns 129 to 172, carried.
pub const COLUMNS_129_TO_172: Field = field!(129 172 Carried);
/// Columns 173 to 192: the aircraft configuration.
pub const CONFIGURATION: Field = field!(173 192 Carried);
/// Columns 193 and 194: the date variations of departure and arrival.
pub const DATE_VARIATIONS: Field = field!(193 194 Carried);
/// Columns 195 to 200: the serial.
pub const SERIAL: Field = field!(195 200 Digits);

// ---- a leg's own columns apart from its record: column 14, then columns 37 to 127, then columns 129 to 194

/// Columns 37 to 127: from the departure station to the overflow.
pub(crate) const MIDDLE: Field = field!(37 127 Carried);
/// A column from 37 to 127 is this many bytes after its place in a leg's own columns.
pub(crate) const BEFORE_MIDDLE: usize = 36;
/// A column from 129 to 194 is this many bytes after its place in a leg's own columns.
pub(crate) const BEFORE_TAIL: usize = 37;

// ---- tables

/// The fields of a leg's name, in records of types 3 and 4.
pub(crate) const NAME_FIELDS: [Field; 5] = [
    SUFFIX,
    AIRLINE,
    FLIGHT_NUMBER,
    ITINERARY_VARIATION,
    LEG_SEQUENCE,
];

/// The fields of columns 37 to 127.
pub(crate) const MIDDLE_FIELDS: [Field; 10] = [
    DEPARTURE_STATION,
    PASSENGER_DEPARTURE,
    AIRCRAFT_DEPARTURE,
    DEPARTURE_VARIATION,
    DEPARTURE_TERMINAL,
    ARRIVAL_STATION,
    AIRCRAFT_ARRIVAL,
    PASSENGER_ARRIVAL,
    ARRIVAL_VARIATION,
    AFTER_ARRIVAL,
];
