//! The station table that the legs of a timetable say.

ghost use Rattle.std.specs.Prelude.{◌≡◌, ◌<◌, ◌++◌, [], IfOk, OnOk};
ghost use Rattle.ssim_periods.specs.Days.{each_day};
ghost use Rattle.ssim_schedule.specs.FlightPieces.{divided_flights};
ghost use Rattle.ssim_overview.specs.SaidRows.{said_rows};
ghost use Rattle.ssim_overview.specs.Totals.{LegsOn, station_at};
ghost use Rattle.ssim_overview.specs.internal.SaidRows.{dates_said, grown};

use crate::sayings::{Saying, sayings_by_station};
use crate::station_marks::station_at;
use crate::station_rows::{SaidRow, station_rows};
use ssim_schedule::FlightPieces;
use ssim_values::{Memory, Period};
use std::alloc::Global;

/// The number of stations: three letters each.
const STATIONS: usize = 17_576;

/// The station table that the legs of flights say: the rows of each station, in order of its letters
/// and by first date.
pub fn said_rows(alloc: Global, flights: &[FlightPieces]) -> Result<Vec<SaidRow>, Memory>
    ensures { (legs_on : LegsOn)
        → flights.now ≡ divided_flights (λ flight. each_day (legs_on flight))
        → IfOk result (λ rows. rows.items ≡ said_rows legs_on) }
{
    let sayings = sayings_by_station(alloc, flights)?;
    let mut rows = Vec::new(alloc);
    for rank in 0..STATIONS {
        push_station(alloc, &mut rows, rank, &sayings[rank])?;
    }
    Ok(rows)
}

// Adds the rows of the station with a rank, by what is said of it.
fn push_station(
    alloc: Global,
    rows: &mut Vec<SaidRow>,
    rank: usize,
    sayings: &[(Period, Saying)],
) -> Result<(), Memory>
    requires { rank < 17576 }
    ensures { OnOk result (rows.new.items
        ≡ rows.old.items ++ grown (station_at rank) [] (dates_said sayings.now 0 36525)) }
{
    if sayings.is_empty() {
        return Ok(());
    }
    let found = station_rows(alloc, station_at(rank), sayings)?;
    rows.extend_from_slice(&found)?;
    Ok(())
}
