//! Where and when a leg of a flight departs and arrives.

ghost use Rattle.std.specs.Prelude.{◌≡◌, ◌≤◌, ◌+◌};
ghost use Rattle.ssim_board.specs.LegTimes.{days_added, has_unknown, is_uncertain, is_unknown};
ghost use Rattle.ssim_board.specs.LegTimes.{lacks_variation};
ghost use Rattle.ssim_board.specs.LocalTime.{local_time, utc_time};
ghost use Rattle.ssim_board.specs.Movements.{station_of, time_of, utc_time_of};
ghost use Rattle.ssim_board.specs.internal.DaysThere.{days_after};

use crate::local_time::LocalTime;
use crate::movement::MovementKind;
use ssim_records::LegColumns;
use ssim_values::{Clock, Day, Station, TimeMode, Variation, is_digit};

/// The station of an end of a leg.
pub(crate) fn station_of(leg: &LegColumns, kind: MovementKind) -> Station
    ensures { result ≡ station_of leg.now kind }
{
    match kind {
        MovementKind::Departure => leg.departure_station(),
        MovementKind::Arrival => leg.arrival_station(),
    }
}

/// The local time of an end of a leg, if its flight has this date of origin.
pub fn time_of(mode: TimeMode, date: Day, leg: &LegColumns, kind: MovementKind) -> LocalTime
    ensures { result ≡ time_of mode date leg.now kind }
{
    let [departure, arrival] = leg.date_variations();
    match kind {
        MovementKind::Departure => time_at(
            mode,
            date,
            departure,
            leg.departure_variation(),
            leg.aircraft_departure_time(),
        ),
        MovementKind::Arrival => time_at(
            mode,
            date,
            arrival,
            leg.arrival_variation(),
            leg.aircraft_arrival_time(),
        ),
    }
}

/// The UTC time of an end of a leg, if its flight has this date of origin.
pub fn utc_time_of(mode: TimeMode, date: Day, leg: &LegColumns, kind: MovementKind) -> LocalTime
    ensures { result ≡ utc_time_of mode date leg.now kind }
{
    let [departure, arrival] = leg.date_variations();
    match kind {
        MovementKind::Departure => utc_time_at(
            mode,
            date,
            departure,
            leg.departure_variation(),
            leg.aircraft_departure_time(),
        ),
        MovementKind::Arrival => utc_time_at(
            mode,
            date,
            arrival,
            leg.arrival_variation(),
            leg.aircraft_arrival_time(),
        ),
    }
}

/// How many days after the date of origin an end of a leg is, by its date variation.
pub(crate) fn days_after(leg: &LegColumns, kind: MovementKind) -> u16
    ensures value { result ≡ days_after leg.now kind }
    ensures bound { result ≤ 9 }
{
    let [departure, arrival] = leg.date_variations();
    match kind {
        MovementKind::Departure => days_added(departure),
        MovementKind::Arrival => days_added(arrival),
    }
}

// The local time of a time of day, on a date plus what a date variation adds.
fn time_at(
    mode: TimeMode,
    date: Day,
    date_variation: u8,
    variation: Option<Variation>,
    time: Clock,
) -> LocalTime
    ensures { result ≡ local_time mode variation (date + days_added date_variation + 1) time }
{
    let days = date.number() + days_added(date_variation) + 1;
    LocalTime::of(mode, variation, days, time)
}

// The UTC time of a time of day, on a date plus what a date variation adds.
fn utc_time_at(
    mode: TimeMode,
    date: Day,
    date_variation: u8,
    variation: Option<Variation>,
    time: Clock,
) -> LocalTime
    ensures { result ≡ utc_time mode variation (date + days_added date_variation + 1) time }
{
    let days = date.number() + days_added(date_variation) + 1;
    LocalTime::utc_of(mode, variation, days, time)
}

/// Whether a date variation of the leg is neither digit nor blank, or in UTC mode a UTC variation
/// is blank.
pub fn is_uncertain(mode: TimeMode, leg: &LegColumns) -> bool
    ensures { result ≡ is_uncertain mode leg.now }
{
    has_unknown(leg) || lacks_variation(mode, leg)
}

// Whether a date variation of the leg is neither digit nor blank.
fn has_unknown(leg: &LegColumns) -> bool
    ensures { result ≡ has_unknown leg.now }
{
    let [departure, arrival] = leg.date_variations();
    is_unknown(departure) || is_unknown(arrival)
}

// How many days a date variation adds: a digit adds itself, any other byte nothing.
fn days_added(variation: u8) -> u16
    ensures value { result ≡ days_added variation }
    ensures bound { result ≤ 9 }
{
    if is_digit(variation) {
        (variation - b'0') as u16
    } else {
        0
    }
}

// Whether a date variation is neither digit nor blank.
fn is_unknown(variation: u8) -> bool
    ensures { result ≡ is_unknown variation }
{
    !(is_digit(variation) || variation == b' ')
}

// Whether a UTC variation that is needed is blank.
fn lacks_variation(mode: TimeMode, leg: &LegColumns) -> bool
    ensures { result ≡ lacks_variation mode leg.now }
{
    match mode {
        TimeMode::Local => false,
        TimeMode::Utc => {
            leg.departure_variation().is_none() || leg.arrival_variation().is_none()
        }
    }
}
