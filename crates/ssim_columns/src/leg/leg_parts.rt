//! The parts of a leg's columns that are written together: its stations, its times and its
//! equipment.

ghost use Rattle.std.specs.Prelude.{◌≡◌, ◌≤◌, ◌+◌, ◌%◌, IsTrue};
ghost use Rattle.ssim_values.specs.Station.{is_station};
ghost use Rattle.ssim_columns.specs.clauses.LegParts.{AreTimes, ChangesEquipment, ChangesTimes};
ghost use Rattle.ssim_columns.specs.clauses.LegParts.{equipment_fields};
ghost use Rattle.ssim_columns.specs.LegParts.{station_columns, with_equipment, with_times};

use crate::leg::leg_fields::{
    AIRCRAFT_ARRIVAL, AIRCRAFT_DEPARTURE, AIRCRAFT_TYPE, BEFORE_MIDDLE, BEFORE_TAIL,
    BOOKING_DESIGNATORS, CONFIGURATION, DATE_VARIATIONS, PASSENGER_ARRIVAL, PASSENGER_DEPARTURE,
};
use crate::text::overlay::{join, put, put_filled};
use ssim_values::{Clock, Station, Variation, last_digit};

/// The stations of a leg and their UTC variations. Fields are named by the columns of a flight leg
/// record, type 3.
#[derive(Clone, Copy, Debug, PartialEq, Eq)]
pub struct LegStations {
    /// Columns 37 to 39: the departure station.
    pub departure: Station,
    /// Columns 48 to 52: the UTC variation of the departure station.
    pub departure_variation: Variation,
    /// Columns 55 to 57: the arrival station.
    pub arrival: Station,
    /// Columns 66 to 70: the UTC variation of the arrival station.
    pub arrival_variation: Variation,
}

/// The times of a leg, local or UTC as the carrier record has it, and its date variations.
#[derive(Clone, Copy, Debug, PartialEq, Eq)]
pub struct LegTimes {
    /// Columns 40 to 43: the passenger departure time.
    pub passenger_departure: Clock,
    /// Columns 44 to 47: the aircraft departure time.
    pub aircraft_departure: Clock,
    /// Columns 58 to 61: the aircraft arrival time.
    pub aircraft_arrival: Clock,
    /// Columns 62 to 65: the passenger arrival time.
    pub passenger_arrival: Clock,
    /// Column 193: the days from the date of origin to the departure. The column has its last
    /// digit.
    pub departure_date_variation: u8,
    /// Column 194: the days from the date of origin to the arrival. The column has its last digit.
    pub arrival_date_variation: u8,
}

/// The equipment of a leg. A byte that a record cannot carry (0 to 31 and 127) is written as a
/// blank.
#[derive(Clone, Copy, Debug)]
pub struct LegEquipment<'a> {
    /// Column 14: the service type.
    pub service_type: u8,
    /// Columns 73 to 75: the aircraft type.
    pub aircraft_type: [u8; 3],
    /// Columns 76 to 95: the booking designators (PRBD), with blanks after them. A longer text is
    /// cut.
    pub booking_designators: &'a [u8],
    /// Columns 173 to 192: the aircraft configuration, with blanks after it. A longer text is cut.
    pub configuration: &'a [u8],
}

impl LegStations {
    /// The columns of a leg that has these stations and UTC variations, and blanks in all other
    /// columns.
    pub(crate) fn columns(&self) -> [u8; 158]
        ensures value { result ≡ station_columns self.now }
        ensures departure { IsTrue (is_station self.now.departure) }
        ensures arrival { IsTrue (is_station self.now.arrival) }
        ensures departure_variation { self.now.departure_variation.minutes ≤ 900 }
        ensures arrival_variation { self.now.arrival_variation.minutes ≤ 900 }
    {
        let mut bytes = [0; 158];
        join(
            &mut bytes,
            &[
                &[b' '],
                &self.departure.write(),
                &[b' '; 8],
                &self.departure_variation.write(),
                &[b' '; 2],
                &self.arrival.write(),
                &[b' '; 8],
                &self.arrival_variation.write(),
                &[b' '; 123],
            ],
        );
        bytes
    }
}

impl LegTimes {
    /// Writes the times into their columns.
    pub(crate) fn put(&self, bytes: &mut [u8; 158])
        ensures value { bytes.new ≡ with_times self.now bytes.old }
        ensures changes { ChangesTimes self.now bytes.old bytes.new }
        ensures times { AreTimes self.now }
    {
        put(
            bytes,
            PASSENGER_DEPARTURE.first - BEFORE_MIDDLE,
            &self.passenger_departure.write(),
        );
        put(
            bytes,
            AIRCRAFT_DEPARTURE.first - BEFORE_MIDDLE,
            &self.aircraft_departure.write(),
        );
        put(
            bytes,
            AIRCRAFT_ARRIVAL.first - BEFORE_MIDDLE,
            &self.aircraft_arrival.write(),
        );
        put(
            bytes,
            PASSENGER_ARRIVAL.first - BEFORE_MIDDLE,
            &self.passenger_arrival.write(),
        );
        let dates = [
            last_digit(self.departure_date_variation as u32),
            last_digit(self.arrival_date_variation as u32),
        ];
        put(bytes, DATE_VARIATIONS.first - BEFORE_TAIL, &dates);
    }
}

impl LegEquipment<'_> {
    /// Writes the equipment into its columns.
    pub(crate) fn put(&self, bytes: &mut [u8; 158])
        ensures value { bytes.new ≡ with_equipment (equipment_fields self.now) bytes.old }
        ensures changes { ChangesEquipment (equipment_fields self.now) bytes.old bytes.new }
    {
        put_filled(bytes, 0, 1, &[self.service_type]);
        put_filled(
            bytes,
            AIRCRAFT_TYPE.first - BEFORE_MIDDLE,
            3,
            &self.aircraft_type,
        );
        put_filled(
            bytes,
            BOOKING_DESIGNATORS.first - BEFORE_MIDDLE,
            20,
            self.booking_designators,
        );
        put_filled(
            bytes,
            CONFIGURATION.first - BEFORE_TAIL,
            20,
            self.configuration,
        );
    }
}
