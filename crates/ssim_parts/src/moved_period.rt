//! Periods that move by days.

ghost use Rattle.std.specs.Prelude.{◌≡◌, ◌<◌, ◌≤◌, ◌+◌, ◌-◌, ℕ, Bool, false, IfNone, IfSome};
ghost use Rattle.std.specs.Prelude.{slice_index_or};
ghost use Rattle.ssim_values.specs.Calendar.{slot};
ghost use Rattle.ssim_periods.specs.Calendar.{holds};
ghost use Rattle.ssim_parts.specs.internal.KeptDates.{came_from};

use ssim_values::{Day, DayMask, Period};

/// The number after the last day of the calendar.
const DAYS: u16 = 36_525;

/// A period whose days have moved: with 0 to the day before, with 1 they stay, with 2 and 3 to the
/// first or second day after. None if no day is left in the calendar.
pub(crate) fn moved_period(period: &Period, shift: u8) -> Option<Period>
    requires { shift ≤ 3 }
    ensures some { IfSome result (λ moved. (m : ℕ) → m < 36525
        → holds moved m ≡ came_from (holds period.now) shift m) }
    ensures none { IfNone result ((m : ℕ) → m < 36525
        → came_from (holds period.now) shift m ≡ false) }
{
    if shift == 1 {
        return Some(*period);
    }
    let first = (period.first().number() + shift as u16).saturating_sub(1);
    let end = (period.last().number() + shift as u16).min(DAYS);
    if end <= first {
        return None;
    }
    let first = Day::from_number(first)?;
    let last = Day::from_number(end - 1)?;
    match Period::new(first, last, turned(period.mask(), shift)) {
        Ok(moved) => Some(moved),
        Err(_) => None,
    }
}

// The days of operation, moved.
fn turned(mask: DayMask, shift: u8) -> DayMask
    requires { shift ≤ 3 }
    ensures { (m : ℕ) → shift ≤ m + 1
        → slice_index_or result (slot m) false ≡ slice_index_or mask (slot (m + 1 - shift)) false }
{
    let d = mask.days();
    let days = match shift {
        0 => [d[1], d[2], d[3], d[4], d[5], d[6], d[0]],
        1 => d,
        2 => [d[6], d[0], d[1], d[2], d[3], d[4], d[5]],
        _ => [d[5], d[6], d[0], d[1], d[2], d[3], d[4]],
    };
    match DayMask::of(days) {
        Some(mask) => mask,
        None => unreachable!(),
    }
}
