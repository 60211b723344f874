//! A time in another time mode.

ghost use Rattle.std.specs.Prelude.{◌≡◌, ◌<◌, ◌≤◌};
ghost use Rattle.ssim_parts.specs.MovedEnds.{becomes_later, moved_time, time_at};

use ssim_values::{Clock, TimeMode, Variation};

/// The minutes of a day.
const DAY: u16 = 1_440;

/// A time, and its day.
#[derive(Clone, Copy, Debug, PartialEq, Eq)]
pub(crate) struct MovedTime {
    /// 0 is the day before, 1 the same day, and 2 the day after.
    pub day: u8,
    /// From 0 to 1,439; 1,440 for 2400.
    pub minutes: u16,
}

impl MovedTime {
    /// A time of the other time mode in the wanted one, at a station with this UTC variation.
    pub(crate) fn of(wanted: TimeMode, variation: Variation, time: Clock) -> MovedTime
        ensures value { result ≡ moved_time wanted variation time }
        ensures day { result.day ≤ 2 }
        ensures minutes { result.minutes ≤ 1440 }
    {
        let minutes = time.minutes();
        if variation.minutes() == 0 {
            return MovedTime { day: 1, minutes };
        }
        if becomes_later(wanted, variation) {
            MovedTime::at(DAY + minutes + variation.minutes())
        } else {
            MovedTime::at(DAY + minutes - variation.minutes())
        }
    }

    // The time that is some minutes after 0000 of the day before.
    fn at(minutes: u16) -> MovedTime
        requires { minutes < 4320 }
        ensures value { result ≡ time_at minutes }
        ensures day { result.day ≤ 2 }
        ensures minutes { result.minutes ≤ 1440 }
    {
        MovedTime {
            day: (minutes / DAY) as u8,
            minutes: minutes % DAY,
        }
    }
}

// Whether a time becomes a later one.
fn becomes_later(wanted: TimeMode, variation: Variation) -> bool
    ensures { result ≡ becomes_later wanted variation }
{
    match wanted {
        TimeMode::Local => !variation.is_negative(),
        TimeMode::Utc => variation.is_negative(),
    }
}
