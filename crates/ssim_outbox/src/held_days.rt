//! The days that a period holds, by number.

ghost use Rattle.std.specs.Prelude.{◌≡◌};
ghost use Rattle.ssim_periods.specs.Calendar.{holds};

use ssim_values::{Period, weekday_of};

/// Whether a period holds the day with a number.
pub(crate) fn holds_number(period: Period, number: u16) -> bool
    ensures { result ≡ holds period number }
{
    let days = period.mask().days();
    (period.first().number() <= number && number <= period.last().number())
        && days[weekday_of(number as u32)]
}
