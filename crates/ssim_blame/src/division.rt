//! The parts of a period, on each of which a sub-message does the same.

ghost use Rattle.std.specs.Prelude.{◌≡◌, ◌⊎◌, ℕ, ◌<◌, ◌≤◌, ◌+◌, ◌-◌, IsTrue, length};
ghost use Rattle.std.specs.Prelude.{slice_index_or};
ghost use Rattle.std.specs.List.{list_any};
ghost use Rattle.ssim_base.specs.Stations.{Row};
ghost use Rattle.ssim_schedule.specs.clauses.Acts.{is_at, is_named, lines_of};
ghost use Rattle.ssim_schedule.specs.internal.ActionParts.{IsSteady, IsUniform};

use ssim_base::StationRow;
use ssim_text::{Action, LegLine};
use ssim_values::{Day, Period, Station};

/// The days of a period from a day number on, up to the day before a row of a station of the action's
/// new legs begins or has ended. The action has the same effect on all of them.
pub(crate) fn next_part(rows: &[StationRow], action: &Action, period: &Period, from: u32) -> Period
    requires from { period.now.first ≤ from }
    requires to { from ≤ period.now.last }
    ensures first { result.first ≡ from }
    ensures last { result.last ≤ period.now.last }
    ensures days { result.days ≡ period.now.days }
    ensures uniform { IsUniform rows.now action.now result }
{
    let end = period.last().number() as u32 + 1;
    let next = next_point(rows, action, from, end);
    part_of(period, from, next)
}

// The first day after `from` at which a row of a station of the action's new legs begins or has
// ended. It is `limit` if there is no such day before `limit`.
fn next_point(rows: &[StationRow], action: &Action, from: u32, limit: u32) -> u32
    requires { from < limit }
    ensures after { from < result }
    ensures before { result ≤ limit }
    ensures steady { (k : ℕ) (r : Row) → k < length rows.now
        → IsTrue (is_named action.now (slice_index_or rows.now k r).station)
        → IsSteady from (result - 1) (slice_index_or rows.now k r) }
{
    let mut next = limit;
    for row in rows {
        next = before_named(action, row, from, next);
    }
    next
}

// Does what `before_row` does if the action names the row's station; else returns `next`.
fn before_named(action: &Action, row: &StationRow, from: u32, next: u32) -> u32
    requires { from < next }
    ensures after { from < result }
    ensures before { result ≤ next }
    ensures steady { IsTrue (is_named action.now row.now.station)
        → IsSteady from (result - 1) row.now }
{
    if any_at(lines_of(action), row.station()) {
        before_row(row, from, next)
    } else {
        next
    }
}

// The earliest of `next` and of the days after `from` at which the row begins or has ended.
fn before_row(row: &StationRow, from: u32, next: u32) -> u32
    requires { from < next }
    ensures after { from < result }
    ensures before { result ≤ next }
    ensures steady { IsSteady from (result - 1) row.now }
{
    let begun = earlier(row.first().number() as u32, from, next);
    earlier(row.last().number() as u32 + 1, from, begun)
}

// The day if it is after `from` and before `next`, else `next`.
fn earlier(day: u32, from: u32, next: u32) -> u32
    requires { from < next }
    ensures after { from < result }
    ensures before { result ≤ next }
    ensures day { (day ≤ from) ⊎ (result ≤ day) }
{
    if from < day && day < next { day } else { next }
}

// The leg lines of the action from which new legs are made.
fn lines_of(action: &Action) -> &[LegLine]
    ensures { result.now ≡ lines_of action.now }
{
    match action {
        Action::New(new) | Action::Rpl(new) => new.legs.lines(),
        Action::Cnl | Action::Eqt(_) | Action::Tim(_) => &[],
    }
}

// Whether one of the leg lines names the station.
fn any_at(lines: &[LegLine], station: Station) -> bool
    ensures { result ≡ list_any (is_at station) lines.now }
{
    match lines.split_first() {
        None => false,
        Some((line, later)) => is_at(line, station) || any_at(later, station),
    }
}

// Whether a leg line departs from the station or arrives at it.
fn is_at(line: &LegLine, station: Station) -> bool
    ensures { result ≡ is_at station line.now }
{
    line.departure.station == station || line.arrival.station == station
}

// The days of a period from `from` to the day before `next`.
fn part_of(period: &Period, from: u32, next: u32) -> Period
    requires from { period.now.first ≤ from }
    requires some { from < next }
    requires to { next ≤ period.now.last + 1 }
    ensures first { result.first ≡ from }
    ensures last { result.last + 1 ≡ next }
    ensures days { result.days ≡ period.now.days }
{
    let _ = period.last().number();
    match Period::new(day_at(from), day_at(next - 1), period.mask()) {
        Ok(part) => part,
        Err(_) => unreachable!(),
    }
}

// The day of this number.
fn day_at(number: u32) -> Day
    requires { number < 36525 }
    ensures { result ≡ number }
{
    match Day::from_number(number as u16) {
        Some(day) => day,
        None => unreachable!(),
    }
}
