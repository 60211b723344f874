//! The period of one date.

ghost use Rattle.std.specs.Prelude.{◌≡◌, ℕ, false, nat_eq, slice_index_or, true};
ghost use Rattle.ssim_periods.specs.Calendar.{holds};
ghost use Rattle.ssim_values.specs.Calendar.{slot};

use ssim_values::{Day, DayMask, Period};

/// The period of one date, whose days of operation are its weekday.
pub(crate) fn period_of(day: Day) -> Period
    ensures { (n : ℕ) → holds result n ≡ nat_eq day n }
{
    match Period::new(day, day, weekday_of(day)) {
        Ok(period) => period,
        Err(_) => unreachable!(),
    }
}

// The weekday of a day.
fn weekday_of(day: Day) -> DayMask
    ensures { slice_index_or result (slot day) false ≡ true }
{
    let mut days = [false; 7];
    days[day.weekday() as usize - 1] = true;
    match DayMask::of(days) {
        Some(mask) => mask,
        None => DayMask::daily(),
    }
}
