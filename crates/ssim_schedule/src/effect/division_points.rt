//! The days at which station rows begin and end.

ghost use Rattle.std.specs.Prelude.{◌≡◌, ◌⊎◌, ℕ, ◌<◌, ◌≤◌, ◌+◌, ◌-◌, IsTrue, ◌||◌, length, nat_eq, slice_index_or};
ghost use Rattle.std.specs.List.{list_any};
ghost use Rattle.ssim_schedule.specs.internal.ActionParts.{IsSteady};
ghost use Rattle.ssim_schedule.specs.clauses.Acts.{divides, is_at, is_named, lines_of};
ghost use Rattle.ssim_base.specs.Stations.{Row};

use ssim_base::StationRow;
use ssim_text::{Action, LegLine};
use ssim_values::Station;

// The day if it is after `from` and before `next`, else `next`.
fn earlier(day: u32, from: u32, next: u32) -> u32
    requires { from < next }
    ensures after { from < result }
    ensures before { result ≤ next }
    ensures day { (day ≤ from) ⊎ (result ≤ day) }
    ensures one { (result ≡ day) ⊎ (result ≡ next) }
{
    if from < day && day < next { day } else { next }
}

/// The leg lines of the action from which new legs are made.
pub(crate) fn lines_of(action: &Action) -> &[LegLine]
    ensures value { result.now ≡ lines_of action.now }
    ensures few { length (lines_of action.now) ≤ 20 }
{
    match action {
        Action::New(new) => new.legs.lines(),
        Action::Rpl(new) => new.legs.lines(),
        Action::Cnl => &[],
        Action::Eqt(_) => &[],
        Action::Tim(_) => &[],
    }
}

fn is_at(line: &LegLine, station: Station) -> bool
    ensures { result ≡ is_at station line.now }
{
    line.departure.station == station || line.arrival.station == station
}

fn any_at(lines: &[LegLine], station: Station) -> bool
    ensures { result ≡ list_any (is_at station) lines.now }
{
    match lines.split_first() {
        None => false,
        Some((line, rest)) => is_at(line, station) || any_at(rest, station),
    }
}

// Whether one of these leg lines names the station.
fn is_named(action: &Action, station: Station) -> bool
    ensures { result ≡ is_named action.now station }
{
    any_at(lines_of(action), station)
}

// The earliest of `next` and of the days after `from` at which the row begins or has ended.
fn before_row(row: &StationRow, from: u32, next: u32) -> u32
    requires { from < next }
    ensures after { from < result }
    ensures before { result ≤ next }
    ensures steady { IsSteady from (result - 1) row.now }
    ensures point { (result ≡ next)
        ⊎ IsTrue (nat_eq result row.now.first || nat_eq result (row.now.last + 1)) }
{
    let begun = earlier(row.first().number() as u32, from, next);
    earlier(row.last().number() as u32 + 1, from, begun)
}

// Does what `before_row` does if the action names the row's station; else returns `next`.
fn before_named(action: &Action, row: &StationRow, from: u32, next: u32) -> u32
    requires { from < next }
    ensures after { from < result }
    ensures before { result ≤ next }
    ensures steady { IsTrue (is_named action.now row.now.station)
        → IsSteady from (result - 1) row.now }
    ensures point { (result ≡ next) ⊎ IsTrue (divides action.now result row.now) }
{
    if is_named(action, row.station()) {
        before_row(row, from, next)
    } else {
        next
    }
}

/// The first day after `from` at which a row of a station of the action's new legs begins or has
/// ended. It is `limit` if there is no such day before `limit`.
pub(crate) fn next_point(rows: &[StationRow], action: &Action, from: u32, limit: u32) -> u32
    requires { from < limit }
    ensures after { from < result }
    ensures before { result ≤ limit }
    ensures steady { (k : ℕ) (r : Row) → k < length rows.now
        → IsTrue (is_named action.now (slice_index_or rows.now k r).station)
        → IsSteady from (result - 1) (slice_index_or rows.now k r) }
    ensures point { (result ≡ limit) ⊎ IsTrue (list_any (divides action.now result) rows.now) }
{
    let mut next = limit;
    for row in rows {
        next = before_named(action, row, from, next);
    }
    next
}
