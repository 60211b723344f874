//! Days and weeks by number.

ghost use Rattle.std.specs.Prelude.{◌≡◌, ◌<◌};
ghost use Rattle.ssim_values.specs.Day.{day_text};
ghost use Rattle.ssim_calendar.specs.Picture.{monday};

use ssim_values::Day;

/// The day with this number.
pub(crate) fn day_at(number: u16) -> Day
    requires { number < 36525 }
    ensures { result ≡ number }
{
    let Some(day) = Day::from_number(number) else {
        unreachable!();
    };
    day
}

/// The day of this number as a text.
pub(crate) fn text_of(number: usize) -> [u8; 7]
    requires { number < 36525 }
    ensures { result ≡ day_text number }
{
    day_at(number as u16).write()
}

/// The day above a week, as a text: its Monday, or 01JAN00 in week 0.
pub(crate) fn text_above(week: usize) -> [u8; 7]
    requires { week < 5219 }
    ensures { result ≡ day_text (monday week) }
{
    text_of((7 * week).saturating_sub(5))
}
