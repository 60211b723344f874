//! The departure and the arrival of a leg in another time mode.

ghost use Rattle.std.specs.Prelude.{◌≡◌, ◌≤◌, IfSome};
ghost use Rattle.ssim_parts.specs.MovedEnds.{days_after, end_moved_by, moved_passenger};
ghost use Rattle.ssim_parts.specs.internal.Moved.{IsMoved};

use crate::leg_end::LegEnd;
use crate::moved_time::MovedTime;
use ssim_values::{Clock, TimeMode, Variation, is_digit};

/// One end of a leg in the new time mode.
#[derive(Clone, Copy, Debug, PartialEq, Eq)]
pub(crate) struct MovedEnd {
    pub variation: Variation,
    /// The aircraft time.
    pub minutes: u16,
    /// The passenger time, none if it is blank.
    pub passenger: Option<u16>,
    /// How many days after the day before the old date of origin it is.
    pub day: u8,
}

impl LegEnd {
    /// The end in the new time mode, with this UTC variation.
    pub(crate) fn moved_by(&self, wanted: TimeMode, variation: Variation) -> MovedEnd
        ensures value { result ≡ end_moved_by wanted variation self.now }
        ensures bounds { IsMoved result }
    {
        let _ = variation.minutes();
        let time = MovedTime::of(wanted, variation, self.time);
        let days = match days_after(self.date_variation) {
            Some(days) => days,
            None => 0,
        };
        MovedEnd {
            variation,
            minutes: time.minutes,
            passenger: moved_passenger(wanted, variation, self.passenger),
            day: days + time.day,
        }
    }
}

/// How many days after the date of origin a date variation is, if it is a digit or a blank.
pub(crate) fn days_after(byte: u8) -> Option<u8>
    ensures value { result ≡ days_after byte }
    ensures bound { IfSome result (λ days. days ≤ 9) }
{
    if is_digit(byte) {
        Some(byte - b'0')
    } else if byte == b' ' {
        Some(0)
    } else {
        None
    }
}

// A passenger time on the clock of the new time mode; a blank one stays.
fn moved_passenger(wanted: TimeMode, variation: Variation, passenger: Option<Clock>) -> Option<u16>
    ensures value { result ≡ moved_passenger wanted variation passenger }
    ensures bound { IfSome result (λ minutes. minutes ≤ 1440) }
{
    match passenger {
        None => None,
        Some(time) => Some(MovedTime::of(wanted, variation, time).minutes),
    }
}
