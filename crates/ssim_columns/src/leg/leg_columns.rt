//! The columns of a leg itself.

ghost use Rattle.std.specs.Prelude.{◌≡◌, ◌<◌, ◌+◌, ◌^◌, ◌∷◌, [], None, Some, IsTrue, length};
ghost use Rattle.std.specs.Str.{bytes_eq};
ghost use Rattle.ssim_values.specs.Clock.{clock_of};
ghost use Rattle.ssim_columns.specs.declared.field.FieldKind.TheVariants.{StationCode, Time};
ghost use Rattle.ssim_columns.specs.declared.field.FieldKind.TheVariants.{PassengerTime};
ghost use Rattle.ssim_columns.specs.declared.field.FieldKind.TheVariants.{UtcVariation};
ghost use Rattle.ssim_columns.specs.Columns.{fault_in, is_carried, passenger_time_of, utc_variation_of, EachIsValid};
ghost use Rattle.ssim_columns.specs.Leg.{AreLegColumns, leg_columns, leg_table};
ghost use Rattle.ssim_columns.specs.Leg.{own_columns};
ghost use Rattle.ssim_columns.specs.clauses.Leg.{four_bytes, is_own, quick_hash, three_bytes};
ghost use Rattle.ssim_columns.specs.internal.LegColumns.{IsAfter};
ghost use Rattle.ssim_columns.specs.clauses.LegParts.{ChangesEquipment, ChangesTimes};
ghost use Rattle.ssim_columns.specs.clauses.LegParts.{equipment_fields};
ghost use Rattle.ssim_columns.specs.LegParts.{new_leg, with_equipment, with_times};

use crate::field::{Field, clock_of, passenger_time_of, utc_variation_of};
use crate::leg::leg_fields::{
    AFTER_OVERFLOW, AIRCRAFT_ARRIVAL, AIRCRAFT_DEPARTURE, AIRCRAFT_TYPE, ARRIVAL_STATION,
    ARRIVAL_TERMINAL, ARRIVAL_VARIATION, BEFORE_MIDDLE, BEFORE_TAIL, BOOKING_DESIGNATORS,
    COLUMNS_96_TO_127, COLUMNS_129_TO_172, CONFIGURATION, DATE_VARIATIONS, DEPARTURE_STATION,
    DEPARTURE_TERMINAL, DEPARTURE_VARIATION, MIDDLE, PASSENGER_ARRIVAL, PASSENGER_DEPARTURE,
    SERVICE_TYPE,
};
use crate::leg::leg_parts::{LegEquipment, LegStations, LegTimes};
use crate::text::array::bytes_of;
use crate::text::equality::are_same_texts;
use crate::text::overlay::{append, join};
use ssim_values::{Clock, Station, Variation};
use std::marker::Model;

/// The columns of a leg itself: the bytes of columns 14, 37 to 127 and 129 to 194 of its record,
/// all of them valid. The readers are named by the columns of the record. Times are local or UTC as
/// the carrier record has it.
#[derive(Clone, Copy, Debug, PartialEq, Eq, Hash)]
pub struct LegColumns {
    bytes: [u8; 158],
}

impl Model for LegColumns {
    ghost use Rattle.std.specs.Prelude.{List, ℕ};
    ghost use Rattle.ssim_columns.specs.Leg.{AreLegColumns};

    ghost Value = { List ℕ };

    ghost view = { λ s. s.bytes };

    ghost invariant = { λ s. AreLegColumns s.bytes };

    ghost inverse = { λ v. record { bytes = v } };
}

// Writes the leg's own columns of a record, each part in whole words.
fn put_own(out: &mut [u8; 158], bytes: &[u8; 200])
    ensures { out.new ≡ own_columns bytes.now }
{
    let at = append(out, 0, SERVICE_TYPE.text(bytes));
    let at = append(out, at, &bytes_of::<91>(MIDDLE.text(bytes)));
    append(out, at, &bytes_of::<66>(AFTER_OVERFLOW.text(bytes)));
}

/// The leg's own columns of a record.
pub fn own_columns_at(bytes: &[u8; 200]) -> LegColumns
    requires { EachIsValid bytes.now leg_table }
    ensures value { own_columns bytes.now ≡ result }
    ensures valid { AreLegColumns result }
{
    let mut own = [0; 158];
    put_own(&mut own, bytes);
    LegColumns { bytes: own }
}

fn station_of(text: &[u8]) -> Station
    requires len { length text.now ≡ 3 }
    requires valid { fault_in StationCode text.now ≡ None }
    ensures { result ≡ text.now }
{
    match Station::parse(&bytes_of::<3>(text)) {
        Ok(station) => station,
        Err(_) => unreachable!(),
    }
}

fn time_of(text: &[u8]) -> Clock
    requires len { length text.now ≡ 4 }
    requires valid { fault_in Time text.now ≡ None }
    ensures { clock_of text.now ≡ Some result }
{
    clock_of(text).unwrap()
}

fn time_or_blank(text: &[u8]) -> Option<Clock>
    requires len { length text.now ≡ 4 }
    requires valid { fault_in PassengerTime text.now ≡ None }
    ensures { passenger_time_of text.now ≡ Some result }
{
    passenger_time_of(text).unwrap()
}

fn variation_or_blank(text: &[u8]) -> Option<Variation>
    requires len { length text.now ≡ 5 }
    requires valid { fault_in UtcVariation text.now ≡ None }
    ensures { utc_variation_of text.now ≡ Some result }
{
    utc_variation_of(text).unwrap()
}

// Each column of the field is this number of bytes after its place in a leg's bytes.
#[inline(always)]
fn bytes_before(field: Field) -> usize
    requires { IsTrue (is_own field) }
    ensures { IsAfter result field }
{
    if field.last == SERVICE_TYPE.last {
        SERVICE_TYPE.last
    } else if field.last <= MIDDLE.last {
        BEFORE_MIDDLE
    } else {
        BEFORE_TAIL
    }
}

// The number that three bytes spell, the first as its highest digit.
#[inline(always)]
fn three_bytes(text: &[u8]) -> u64
    requires { length text.now ≡ 3 }
    ensures value { result ≡ three_bytes text.now }
    ensures bound { result < 2 ^ 24 }
{
    text[0] as u64 * 65_536 + text[1] as u64 * 256 + text[2] as u64
}

// The number that four bytes spell, the first as its highest digit.
#[inline(always)]
fn four_bytes(text: &[u8]) -> u64
    requires { length text.now ≡ 4 }
    ensures value { result ≡ four_bytes text.now }
    ensures bound { result < 2 ^ 32 }
{
    let high = text[0] as u64 * 16_777_216 + text[1] as u64 * 65_536;
    high + text[2] as u64 * 256 + text[3] as u64
}

impl LegColumns {
    /// The columns of these bytes, each field of which is valid.
    pub fn of(bytes: [u8; 158]) -> LegColumns
        requires { AreLegColumns bytes }
        ensures { result ≡ bytes }
    {
        LegColumns { bytes }
    }

    /// The columns of a new leg with these stations, times and equipment, and blanks in all other
    /// columns.
    pub fn new(stations: &LegStations, times: &LegTimes, equipment: &LegEquipment) -> LegColumns
        ensures { result ≡ new_leg stations.now times.now (equipment_fields equipment.now) }
    {
        let mut bytes = stations.columns();
        times.put(&mut bytes);
        equipment.put(&mut bytes);
        LegColumns { bytes }
    }

    /// The same columns with these times in columns 40 to 47, 58 to 65, 193 and 194.
    pub fn with_times(self, times: &LegTimes) -> LegColumns
        ensures value { result ≡ with_times times.now self }
        ensures changes { ChangesTimes times.now self result }
    {
        let mut bytes = self.bytes;
        times.put(&mut bytes);
        LegColumns { bytes }
    }

    /// The same columns with this equipment in columns 14, 73 to 95 and 173 to 192.
    pub fn with_equipment(self, equipment: &LegEquipment) -> LegColumns
        ensures value { result ≡ with_equipment (equipment_fields equipment.now) self }
        ensures changes { ChangesEquipment (equipment_fields equipment.now) self result }
    {
        let mut bytes = self.bytes;
        equipment.put(&mut bytes);
        LegColumns { bytes }
    }

    /// The bytes of columns 14, 37 to 127 and 129 to 194.
    pub fn bytes(&self) -> [u8; 158]
        ensures value { result ≡ self.now }
        ensures valid { AreLegColumns result }
    {
        self.bytes
    }

    /// The same bytes, in their place.
    pub(crate) fn bytes_held(&self) -> &[u8; 158]
        ensures value { result.now ≡ self.now }
        ensures valid { AreLegColumns result.now }
    {
        &self.bytes
    }

    /// The leg's own columns of a record, over those before.
    pub fn put(&mut self, bytes: &[u8; 200])
        requires { EachIsValid bytes.now leg_table }
        ensures value { own_columns bytes.now ≡ self.new }
        ensures valid { AreLegColumns self.new }
    {
        put_own(&mut self.bytes, bytes);
    }

    /// Whether the two are equal.
    pub fn same(&self, other: &LegColumns) -> bool
        ensures { result ≡ bytes_eq self.now other.now }
    {
        are_same_texts(&self.bytes, &other.bytes)
    }

    /// The bytes of a field of the leg.
    #[inline(always)]
    pub fn text(&self, field: Field) -> &[u8]
        requires { IsTrue (is_own field) }
        ensures len { length result.now + field.first ≡ field.last + 1 }
        ensures value { result.now ≡ leg_columns field.first field.last self.now }
        ensures valid { AreLegColumns self.now }
    {
        let before = bytes_before(field);
        &self.bytes[field.first - before..field.last - before + 1]
    }

    /// A hash of the stations, the aircraft times and the aircraft type.
    pub fn quick_hash(&self) -> u64
        ensures value { result ≡ quick_hash self.now }
        ensures bound { result < 2 ^ 48 }
    {
        three_bytes(self.text(DEPARTURE_STATION))
            + 31 * four_bytes(self.text(AIRCRAFT_DEPARTURE))
            + 1_009 * three_bytes(self.text(ARRIVAL_STATION))
            + 32_749 * four_bytes(self.text(AIRCRAFT_ARRIVAL))
            + 1_000_003 * three_bytes(self.text(AIRCRAFT_TYPE))
    }

    /// Column 14: the service type.
    pub fn service_type(&self) -> u8
        ensures value { leg_columns 14 14 self.now ≡ result ∷ [] }
        ensures carried { IsTrue (is_carried result) }
    {
        self.bytes[0]
    }

    /// Columns 37 to 39: the departure station.
    pub fn departure_station(&self) -> Station
        ensures { result ≡ leg_columns 37 39 self.now }
    {
        station_of(self.text(DEPARTURE_STATION))
    }

    /// Columns 40 to 43: the passenger departure time, none if they are blank.
    pub fn passenger_departure_time(&self) -> Option<Clock>
        ensures { passenger_time_of (leg_columns 40 43 self.now) ≡ Some result }
    {
        time_or_blank(self.text(PASSENGER_DEPARTURE))
    }

    /// Columns 44 to 47: the aircraft departure time.
    pub fn aircraft_departure_time(&self) -> Clock
        ensures { clock_of (leg_columns 44 47 self.now) ≡ Some result }
    {
        time_of(self.text(AIRCRAFT_DEPARTURE))
    }

    /// Columns 48 to 52: the UTC variation of the departure station, none if they are blank.
    pub fn departure_variation(&self) -> Option<Variation>
        ensures { utc_variation_of (leg_columns 48 52 self.now) ≡ Some result }
    {
        variation_or_blank(self.text(DEPARTURE_VARIATION))
    }

    /// Columns 53 and 54: the departure terminal.
    pub fn departure_terminal(&self) -> [u8; 2]
        ensures { result ≡ leg_columns 53 54 self.now }
    {
        bytes_of::<2>(self.text(DEPARTURE_TERMINAL))
    }

    /// Columns 55 to 57: the arrival station.
    pub fn arrival_station(&self) -> Station
        ensures { result ≡ leg_columns 55 57 self.now }
    {
        station_of(self.text(ARRIVAL_STATION))
    }

    /// Columns 58 to 61: the aircraft arrival time.
    pub fn aircraft_arrival_time(&self) -> Clock
        ensures { clock_of (leg_columns 58 61 self.now) ≡ Some result }
    {
        time_of(self.text(AIRCRAFT_ARRIVAL))
    }

    /// Columns 62 to 65: the passenger arrival time, none if they are blank.
    pub fn passenger_arrival_time(&self) -> Option<Clock>
        ensures { passenger_time_of (leg_columns 62 65 self.now) ≡ Some result }
    {
        time_or_blank(self.text(PASSENGER_ARRIVAL))
    }

    /// Columns 66 to 70: the UTC variation of the arrival station, none if they are blank.
    pub fn arrival_variation(&self) -> Option<Variation>
        ensures { utc_variation_of (leg_columns 66 70 self.now) ≡ Some result }
    {
        variation_or_blank(self.text(ARRIVAL_VARIATION))
    }

    /// Columns 71 and 72: the arrival terminal.
    pub fn arrival_terminal(&self) -> [u8; 2]
        ensures { result ≡ leg_columns 71 72 self.now }
    {
        bytes_of::<2>(self.text(ARRIVAL_TERMINAL))
    }

    /// Columns 73 to 75: the aircraft type.
    pub fn aircraft_type(&self) -> [u8; 3]
        ensures { result ≡ leg_columns 73 75 self.now }
    {
        bytes_of::<3>(self.text(AIRCRAFT_TYPE))
    }

    /// Columns 76 to 95: the booking designators (PRBD).
    pub fn booking_designators(&self) -> [u8; 20]
        ensures { result ≡ leg_columns 76 95 self.now }
    {
        bytes_of::<20>(self.text(BOOKING_DESIGNATORS))
    }

    /// Columns 96 to 127, carried.
    pub fn columns_96_to_127(&self) -> [u8; 32]
        ensures { result ≡ leg_columns 96 127 self.now }
    {
        let mut bytes = [0; 32];
        bytes.copy_from_slice(self.text(COLUMNS_96_TO_127));
        bytes
    }

    /// Columns 129 to 172, carried.
    pub fn columns_129_to_172(&self) -> [u8; 44]
        ensures { result ≡ leg_columns 129 172 self.now }
    {
        let mut bytes = [0; 44];
        bytes.copy_from_slice(self.text(COLUMNS_129_TO_172));
        bytes
    }

    /// Columns 173 to 192: the aircraft configuration.
    pub fn configuration(&self) -> [u8; 20]
        ensures { result ≡ leg_columns 173 192 self.now }
    {
        bytes_of::<20>(self.text(CONFIGURATION))
    }

    /// Columns 193 and 194: the date variations of departure and arrival.
    pub fn date_variations(&self) -> [u8; 2]
        ensures { result ≡ leg_columns 193 194 self.now }
    {
        bytes_of::<2>(self.text(DATE_VARIATIONS))
    }
}
