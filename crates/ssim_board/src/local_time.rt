//! Local times and UTC times of departures and arrivals.

ghost use Rattle.std.specs.Prelude.{◌≡◌, ◌<◌, ◌≤◌, ◌+◌, ◌*◌};
ghost use Rattle.ssim_values.specs.Clock.{clock_text};
ghost use Rattle.ssim_board.specs.LocalTime.{local_time, moment, moment_on, moved_by, utc_time};
ghost use Rattle.ssim_values.specs.Variation.{Offset};

use ssim_values::{Clock, TimeMode, Variation, write_two_digits};
use std::marker::Model;

/// The minutes of a day.
const DAY: u32 = 1_440;

/// A local time at a station: a day, and minutes from midnight. The day may be the one before the
/// calendar or one of the first after it.
#[derive(Clone, Copy, Debug, PartialEq, Eq)]
pub struct LocalTime {
    /// From 31 December 1999, which is 0.
    days: u16,
    /// From 0 to 1,439; 1,440 for 2400.
    minutes: u16,
}

impl Model for LocalTime {
    ghost use Rattle.std.specs.Prelude.{◌≤◌};
    ghost use Rattle.ssim_board.specs.LocalTime.{Moment};

    ghost Value = { Moment };

    ghost view = { λ t. record { days = t.days; minutes = t.minutes } };

    ghost invariant = { λ t. t.minutes ≤ 1440 };

    ghost inverse = { λ m. record { days = m.days; minutes = m.minutes } };
}

impl LocalTime {
    /// The local time of a time in a timetable of this mode, at a station with this UTC variation,
    /// some days after 31 December 1999.
    pub(crate) fn of(
        mode: TimeMode,
        variation: Option<Variation>,
        days: u16,
        time: Clock,
    ) -> LocalTime
        requires after { 0 < days }
        requires small { days < 40000 }
        ensures { result ≡ local_time mode variation days time }
    {
        match (mode, variation) {
            (TimeMode::Utc, Some(variation)) => {
                moved_by(variation.is_negative(), variation.minutes(), days, time)
            }
            _ => time_on(days, time),
        }
    }

    /// The UTC time of the same, as a day and minutes.
    pub(crate) fn utc_of(
        mode: TimeMode,
        variation: Option<Variation>,
        days: u16,
        time: Clock,
    ) -> LocalTime
        requires after { 0 < days }
        requires small { days < 40000 }
        ensures { result ≡ utc_time mode variation days time }
    {
        match (mode, variation) {
            (TimeMode::Local, Some(variation)) => {
                moved_by(!variation.is_negative(), variation.minutes(), days, time)
            }
            _ => time_on(days, time),
        }
    }

    /// The days from 31 December 1999, which is 0: one more than the number of a `Day`.
    pub fn days(self) -> u16
        ensures { result ≡ self.days }
    {
        self.days
    }

    /// The minutes from midnight, 0 to 1,439; 1,440 for 2400.
    pub fn minutes(self) -> u16
        ensures value { result ≡ self.minutes }
        ensures bound { result ≤ 1440 }
    {
        self.minutes
    }

    /// Writes the time of day as `HHMM`.
    pub fn write(self) -> [u8; 4]
        ensures { result ≡ clock_text self.minutes }
    {
        let [h1, h2] = write_two_digits((self.minutes / 60) as u8);
        let [m1, m2] = write_two_digits((self.minutes % 60) as u8);
        [h1, h2, m1, m2]
    }
}

// A time of day that is not moved.
fn time_on(days: u16, time: Clock) -> LocalTime
    ensures { result ≡ moment_on days time }
{
    LocalTime {
        days,
        minutes: time.minutes(),
    }
}

// A time moved by minutes, back if they are negative. 0 minutes move nothing, so that 2400 stays
// 2400.
fn moved_by(negative: bool, minutes: u16, days: u16, time: Clock) -> LocalTime
    requires after { 0 < days }
    requires small { days < 40000 }
    requires bound { minutes ≤ 900 }
    ensures { result ≡ moved_by (record { negative = negative; minutes = minutes }) days time }
{
    if minutes == 0 {
        return time_on(days, time);
    }
    let before = days as u32 * DAY + time.minutes() as u32;
    if negative {
        at_minute(before - minutes as u32)
    } else {
        at_minute(before + minutes as u32)
    }
}

// The local time that is a number of minutes after midnight of 31 December 1999.
fn at_minute(minute: u32) -> LocalTime
    requires { minute < 60000000 }
    ensures { result ≡ moment minute }
{
    LocalTime {
        days: (minute / DAY) as u16,
        minutes: (minute % DAY) as u16,
    }
}
