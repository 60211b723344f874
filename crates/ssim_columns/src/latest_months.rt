//! The months of the latest dates. A date in one of them is read by an addition.

ghost use Rattle.std.specs.Prelude.{◌≡◌, ◌<◌, IfSome, Some, length};
ghost use Rattle.ssim_values.specs.Day.{day_of};
ghost use Rattle.ssim_columns.specs.internal.LatestMonths.{IsMonth};

use crate::field::day_of;
use crate::text::array::seven;
use crate::text::equality::are_same_four;
use ssim_values::{Day, read_two_digits};

/// The number of slots. The last two letters of a month's name, added up, give each month of a year
/// a slot of its own.
const SLOTS: usize = 32;

/// A month of a year.
#[derive(Clone, Copy)]
struct Month {
    /// Its name and the tens of the year, as `JAN2`.
    name: [u8; 4],
    /// The units of the year, as `6`.
    year: u8,
    /// The number of its first day.
    first: u16,
    ghost is_month: { IsMonth name year first },
}

impl Month {
    // January 2000.
    fn earliest() -> Month {
        Month {
            name: *b"JAN0",
            year: b'0',
            first: 0,
        }
    }

    // The month of a date, which this text spells.
    fn of(text: [u8; 7], day: Day) -> Option<Month>
        requires { day_of text ≡ Some day }
    {
        let [tens, units, m1, m2, m3, y1, y2] = text;
        let in_month = read_two_digits(tens, units)?;
        Some(Month {
            name: [m1, m2, m3, y1],
            year: y2,
            first: day.number() + 1 - in_month as u16,
        })
    }

    // The date that a text spells, if it is one of the first 28 days of this month. Each month has
    // these days.
    #[inline(always)]
    fn day_in(&self, text: &[u8]) -> Option<Day>
        requires { length text.now ≡ 7 }
        ensures { IfSome result (λ day. day_of text.now ≡ Some day) }
    {
        if !are_same_four(&text[2..6], &self.name) || text[6] != self.year {
            return None;
        }
        let in_month = read_two_digits(text[0], text[1])?;
        if in_month == 0 || in_month > 28 {
            return None;
        }
        Day::from_number(self.first + (in_month - 1) as u16)
    }
}

/// The months of the latest dates.
#[derive(Drop)]
pub(crate) struct LatestMonths {
    months: [Month; SLOTS],
}

impl LatestMonths {
    /// Before the first date.
    pub(crate) fn new() -> LatestMonths {
        LatestMonths {
            months: [Month::earliest(); SLOTS],
        }
    }

    // Does what `day_of` does if the date is in another month or after its 28th day.
    #[inline(never)]
    fn other_day_of(&mut self, text: &[u8]) -> Option<Day>
        requires { length text.now ≡ 7 }
        ensures { result ≡ day_of text.now }
    {
        let day = day_of(text)?;
        if let Some(month) = Month::of(seven(text), day) {
            self.months[slot_of(text)] = month;
        }
        Some(day)
    }

    /// The date that a text spells.
    #[inline(always)]
    pub(crate) fn day_of(&mut self, text: &[u8]) -> Option<Day>
        requires { length text.now ≡ 7 }
        ensures { result ≡ day_of text.now }
    {
        if let Some(day) = self.months[slot_of(text)].day_in(text) {
            return Some(day);
        }
        self.other_day_of(text)
    }
}

// The slot of a date's month.
fn slot_of(text: &[u8]) -> usize
    requires { length text.now ≡ 7 }
    ensures { result < 32 }
{
    (text[3] as usize + text[4] as usize) % SLOTS
}
