//! The columns of a leg in another time mode.

ghost use Rattle.std.specs.Prelude.{◌≡◌, ◌≤◌, ◌+◌, ◌-◌, ◌<◌, IfSome};
ghost use Rattle.ssim_values.specs.Clock.{clock_text};
ghost use Rattle.ssim_columns.specs.Leg.{AreLegColumns};
ghost use Rattle.ssim_parts.specs.MovedEnds.{passenger_text, with_ends};
ghost use Rattle.ssim_parts.specs.internal.Moved.{IsMoved};

use crate::moved_end::MovedEnd;
use ssim_columns::join;
use ssim_records::{LegColumns, leg_fields};
use ssim_values::write_two_digits;

impl MovedEnd {
    // Its date variation, for a date of origin that is this number of days after the day before the
    // old one. It is a digit if it is neither below 0 nor above 9.
    fn date_variation(&self, shift: u8) -> u8
        requires { self.now.day ≤ 11 }
        ensures value { result ≡ 48 + (self.now.day - shift) }
        ensures bound { result < 60 }
    {
        b'0' + self.day.saturating_sub(shift)
    }
}

/// A leg's columns with these ends, for a date of origin that is this number of days after the day
/// before the old one.
pub(crate) fn with_ends(
    columns: &LegColumns,
    departure: &MovedEnd,
    arrival: &MovedEnd,
    shift: u8,
) -> LegColumns
    requires departure { IsMoved departure.now }
    requires arrival { IsMoved arrival.now }
    ensures { result ≡ with_ends departure.now arrival.now shift columns.now }
{
    LegColumns::of(bytes_with(columns, departure, arrival, shift))
}

// The bytes of these columns.
fn bytes_with(
    columns: &LegColumns,
    departure: &MovedEnd,
    arrival: &MovedEnd,
    shift: u8,
) -> [u8; 158]
    requires departure { IsMoved departure.now }
    requires arrival { IsMoved arrival.now }
    ensures value { result ≡ with_ends departure.now arrival.now shift columns.now }
    ensures valid { AreLegColumns result }
{
    let mut bytes = [0; 158];
    let dates = [
        departure.date_variation(shift),
        arrival.date_variation(shift),
    ];
    join(
        &mut bytes,
        &[
            columns.text(leg_fields::SERVICE_TYPE),
            columns.text(leg_fields::DEPARTURE_STATION),
            &passenger_text(departure.passenger),
            &clock_text(departure.minutes),
            &departure.variation.write(),
            columns.text(leg_fields::DEPARTURE_TERMINAL),
            columns.text(leg_fields::ARRIVAL_STATION),
            &clock_text(arrival.minutes),
            &passenger_text(arrival.passenger),
            &arrival.variation.write(),
            columns.text(leg_fields::AFTER_ARRIVAL),
            columns.text(leg_fields::COLUMNS_129_TO_172),
            columns.text(leg_fields::CONFIGURATION),
            &dates,
        ],
    );
    bytes
}

// The text of a passenger time, four blanks for none.
fn passenger_text(passenger: Option<u16>) -> [u8; 4]
    requires { IfSome passenger (λ minutes. minutes ≤ 1440) }
    ensures { result ≡ passenger_text passenger }
{
    match passenger {
        None => *b"    ",
        Some(minutes) => clock_text(minutes),
    }
}

// Hours and minutes in four digits.
fn clock_text(minutes: u16) -> [u8; 4]
    requires { minutes ≤ 1440 }
    ensures { result ≡ clock_text minutes }
{
    let [h1, h2] = write_two_digits((minutes / 60) as u8);
    let [m1, m2] = write_two_digits((minutes % 60) as u8);
    [h1, h2, m1, m2]
}
