//! On how many dates flights differ.

ghost use Rattle.std.specs.Prelude.{◌≡◌, ◌<◌, ◌^◌, IfOk};
ghost use Rattle.ssim_values.specs.Flight.{FlightNumber};
ghost use Rattle.ssim_base.specs.Timetable.{Days};
ghost use Rattle.ssim_difference.specs.Differences as defined;
ghost use Rattle.ssim_difference.specs.internal.Counted.{all_dates, dates_in, days_in};

use crate::difference::Difference;
use crate::flight_difference::FlightDifference;
use ssim_periods::{Change, Periods, Value};
use ssim_values::{Memory, Period};
use std::alloc::Global;

/// No change: `Periods::apply` counts the days of a period by it.
#[derive(Drop)]
struct NoChange;

impl Change<Difference> for NoChange {
    ghost outcome = { λ _ before. before };

    ghost class_of = { λ _ _. 0 };

    fn after(&self, alloc: Global, before: &Difference) -> Result<Difference, Memory> {
        before.copy(alloc)
    }

    fn class(&self, _before: &Difference) -> u8 {
        0
    }
}

/// On how many dates flights differ, all together. The flights are those of [`differences`].
///
/// [`differences`]: crate::differences
pub fn date_count(alloc: Global, listed: &[FlightDifference]) -> Result<u64, Memory>
    ensures { (old new : FlightNumber → Days) → listed.now ≡ defined.differences old new
        → IfOk result (λ count. count ≡ defined.date_count old new) }
{
    dates_of_flights(alloc, listed)
}

// The number of dates of the pieces of flights.
fn dates_of_flights(alloc: Global, flights: &[FlightDifference]) -> Result<u64, Memory>
    ensures { IfOk result
        (λ count. all_dates flights.now < 2 ^ 64 → count ≡ all_dates flights.now) }
{
    let mut count: u64 = 0;
    for flight in flights {
        let dates = dates_of_pieces(alloc, flight.pieces())?;
        count = count.saturating_add(dates);
    }
    Ok(count)
}

// The number of days of the periods of pieces.
fn dates_of_pieces(alloc: Global, pieces: &[(Period, Difference)]) -> Result<u64, Memory>
    ensures { IfOk result (λ count. dates_in pieces.now < 2 ^ 64 → count ≡ dates_in pieces.now) }
{
    let mut count: u64 = 0;
    for piece in pieces {
        let days = days_of(alloc, &piece.0)?;
        count = count.saturating_add(days as u64);
    }
    Ok(count)
}

// The number of days of a period.
fn days_of(alloc: Global, period: &Period) -> Result<u32, Memory>
    ensures { IfOk result (λ days. days ≡ days_in period.now) }
{
    let mut days: Periods<Difference> = Periods::new(alloc);
    let counts = days.apply(period, &NoChange)?;
    Ok(counts[0])
}
