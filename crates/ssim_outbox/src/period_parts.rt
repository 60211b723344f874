//! The parts of a period of one difference, on each of which one thing is said.

ghost use Rattle.std.specs.Prelude.{◌≡◌, ◌<◌, ◌≤◌};
ghost use Rattle.ssim_values.specs.Calendar.{day_limit};
ghost use Rattle.ssim_outbox.specs.internal.ReasonPieces.{HaveOneVariation, IsPart, IsSteady};
ghost use Rattle.ssim_outbox.specs.internal.ReasonPieces.{flies_at, has_station};

use ssim_base::StationRow;
use ssim_records::LegColumns;
use ssim_schedule::PlacedLeg;
use ssim_values::{Day, Period, Station};

/// The first day, from a day number on and up to an end, at which a row of a station of the legs
/// begins or a row before ended; the end if there is none. The UTC variations of new legs change
/// on such days alone.
pub(crate) fn next_cut(rows: &[StationRow], legs: &[PlacedLeg], first: u16, end: u16) -> u16
    requires { first < end }
    ensures from { first < result }
    ensures to { result ≤ end }
    ensures one { HaveOneVariation rows.now legs.now first result }
{
    let mut next = end;
    for row in rows {
        next = cut_of(row, legs, first, next);
    }
    next
}

// The first such day of one row.
fn cut_of(row: &StationRow, legs: &[PlacedLeg], first: u16, end: u16) -> u16
    requires { first < end }
    ensures from { first < result }
    ensures to { result ≤ end }
    ensures steady { IsSteady legs.now first result row.now }
{
    if !has_station(legs, row.station()) {
        return end;
    }
    let next = nearer(row.first().number(), first, end);
    nearer(row.last().number() + 1, first, next)
}

// The cut if it lies after the first day and before the end; else the end.
fn nearer(cut: u16, first: u16, end: u16) -> u16
    requires { first < end }
    ensures from { first < result }
    ensures to { result ≤ end }
    ensures cut { first < cut → result ≤ cut }
{
    if first < cut && cut < end { cut } else { end }
}

// Whether a leg departs from the station or arrives there.
fn has_station(legs: &[PlacedLeg], station: Station) -> bool
    ensures { result ≡ has_station legs.now station }
{
    match legs.split_first() {
        None => false,
        Some((leg, later)) => flies_at(&leg.columns(), station) || has_station(later, station),
    }
}

// Whether a leg with these columns departs from the station or arrives there.
fn flies_at(columns: &LegColumns, station: Station) -> bool
    ensures { result ≡ flies_at columns.now station }
{
    (columns.departure_station() == station) | (columns.arrival_station() == station)
}

/// The part of a period from a day number up to an end.
pub(crate) fn part_of(period: &Period, first: u16, end: u16) -> Period
    requires some { first < end }
    requires to { end ≤ day_limit }
    ensures { IsPart period.now first end result }
{
    let first = Day::from_number(first).unwrap();
    let last = Day::from_number(end - 1).unwrap();
    match Period::new(first, last, period.mask()) {
        Ok(part) => part,
        Err(_) => unreachable!(),
    }
}
