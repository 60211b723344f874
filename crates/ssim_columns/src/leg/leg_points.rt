//! Whether the departure and the arrival of a flight leg record are valid, each field looked at
//! once.

ghost use Rattle.std.specs.Prelude.{◌≡◌, length, IsTrue, is_some};
ghost use Rattle.ssim_values.specs.Clock.{clock_of};
ghost use Rattle.ssim_columns.specs.internal.LegPoints.{arrival_is_valid, departure_is_valid};
ghost use Rattle.ssim_columns.specs.Columns.{passenger_time_of, utc_variation_of};

use crate::field::{clock_of, is_station, passenger_time_of, utc_variation_of};
use crate::leg::leg_fields::{
    AIRCRAFT_ARRIVAL, AIRCRAFT_DEPARTURE, ARRIVAL_STATION, ARRIVAL_VARIATION, DEPARTURE_STATION,
    DEPARTURE_VARIATION, PASSENGER_ARRIVAL, PASSENGER_DEPARTURE,
};
use crate::text::clock_digits::is_clock_to;
use crate::text::equality::are_same_four;

// Whether a text is a time.
fn is_time(text: &[u8]) -> bool
    requires { length text.now ≡ 4 }
    ensures { result ≡ is_some (clock_of text.now) }
{
    is_clock_to(text, 24) || clock_of(text).is_some()
}

// Whether a text is a sign, and hours and minutes up to 1500.
fn is_signed_clock(text: &[u8]) -> bool
    requires { length text.now ≡ 5 }
    ensures { IsTrue result → IsTrue (is_some (utc_variation_of text.now)) }
{
    (text[0] == b'+' || text[0] == b'-') && is_clock_to(&text[1..5], 15)
}

// `is_variation` for the other texts. It is not put into its caller, which looks at most texts as
// numbers.
#[inline(never)]
fn is_other_variation(text: &[u8]) -> bool
    requires { length text.now ≡ 5 }
    ensures { result ≡ is_some (utc_variation_of text.now) }
{
    utc_variation_of(text).is_some()
}

// Whether a text is a UTC variation or blank.
#[inline(always)]
fn is_variation(text: &[u8]) -> bool
    requires { length text.now ≡ 5 }
    ensures { result ≡ is_some (utc_variation_of text.now) }
{
    is_signed_clock(text) || is_other_variation(text)
}

// Whether a text is a time or blank. Mostly it is the aircraft time, which is a time.
#[tactic(auto, using(crate::proofs::lemmas::Rows::passenger_time))]
fn is_passenger_time(text: &[u8], aircraft_time: &[u8]) -> bool
    requires text { length text.now ≡ 4 }
    requires aircraft_time { length aircraft_time.now ≡ 4 }
    requires is_time { IsTrue (is_some (clock_of aircraft_time.now)) }
    ensures { result ≡ is_some (passenger_time_of text.now) }
{
    are_same_four(text, aircraft_time) || passenger_time_of(text).is_some()
}

/// Whether columns 37 to 52 of a leg are valid: its departure.
#[tactic(auto, unfolding(crate::specs::internal::LegPoints::departure_is_valid))]
pub(crate) fn departure_is_valid(bytes: &[u8; 200]) -> bool
    ensures { result ≡ departure_is_valid bytes.now }
{
    if !is_station(DEPARTURE_STATION.text(bytes)) {
        return false;
    }
    if !is_time(AIRCRAFT_DEPARTURE.text(bytes)) {
        return false;
    }
    if !is_passenger_time(
        PASSENGER_DEPARTURE.text(bytes),
        AIRCRAFT_DEPARTURE.text(bytes),
    ) {
        return false;
    }
    is_variation(DEPARTURE_VARIATION.text(bytes))
}

/// Whether columns 55 to 70 of a leg are valid: its arrival.
#[tactic(auto, unfolding(crate::specs::internal::LegPoints::arrival_is_valid))]
pub(crate) fn arrival_is_valid(bytes: &[u8; 200]) -> bool
    ensures { result ≡ arrival_is_valid bytes.now }
{
    if !is_station(ARRIVAL_STATION.text(bytes)) {
        return false;
    }
    if !is_time(AIRCRAFT_ARRIVAL.text(bytes)) {
        return false;
    }
    if !is_passenger_time(PASSENGER_ARRIVAL.text(bytes), AIRCRAFT_ARRIVAL.text(bytes)) {
        return false;
    }
    is_variation(ARRIVAL_VARIATION.text(bytes))
}
