//! The departure and the arrival of a leg on a date.

ghost use Rattle.std.specs.Prelude.{◌≡◌, ◌≤◌};
ghost use Rattle.ssim_parts.specs.MovedEnds.{moved_time, no_variation};
ghost use Rattle.ssim_parts.specs.MovedLegs.{known_variation, moved_end, variation_on};
ghost use Rattle.ssim_parts.specs.internal.Moved.{IsMoved};

use crate::leg_end::LegEnd;
use crate::moved_end::MovedEnd;
use crate::moved_time::MovedTime;
use ssim_base::{StationRow, variation_at};
use ssim_values::{Day, TimeMode, Variation};

impl LegEnd {
    /// The UTC variation on a date: its own or, if that is blank, the one of these rows.
    pub(crate) fn variation_on(&self, rows: &[StationRow], day: Day) -> Option<Variation>
        ensures { result ≡ variation_on rows.now day self.now }
    {
        match self.variation {
            Some(own) => Some(own),
            None => variation_at(rows, self.station, day),
        }
    }

    // The UTC variation on a date, or 0 if there is none.
    fn known_variation(&self, rows: &[StationRow], day: Day) -> Variation
        ensures { result ≡ known_variation rows.now day self.now }
    {
        match self.variation_on(rows, day) {
            Some(variation) => variation,
            None => no_variation(),
        }
    }

    /// The aircraft time on a date in the new time mode.
    pub(crate) fn moved_time(&self, rows: &[StationRow], wanted: TimeMode, day: Day) -> MovedTime
        ensures value { result
            ≡ moved_time wanted (known_variation rows.now day self.now) self.now.time }
        ensures day { result.day ≤ 2 }
    {
        MovedTime::of(wanted, self.known_variation(rows, day), self.time)
    }

    /// The end on a date in the new time mode.
    pub(crate) fn moved(&self, rows: &[StationRow], wanted: TimeMode, day: Day) -> MovedEnd
        ensures value { result ≡ moved_end rows.now wanted day self.now }
        ensures bounds { IsMoved result }
    {
        self.moved_by(wanted, self.known_variation(rows, day))
    }
}

// A UTC variation of 0.
fn no_variation() -> Variation
    ensures { result ≡ no_variation }
{
    Variation::parse(b"+0000").unwrap()
}
