//! The legs whose times are not those of the old legs, and whether other times can make the new
//! legs of the old ones.

ghost use Rattle.std.specs.Prelude.{◌≡◌, ◌++◌, List, IfOk, IsTrue, OnOk};
ghost use Rattle.std.specs.List.{AllByRecursion, AllZip};
ghost use Rattle.std.specs.Str.{bytes_eq};
ghost use Rattle.ssim_columns.specs.clauses.Leg.{is_own};
ghost use Rattle.ssim_columns.specs.Leg.{leg_columns};
ghost use Rattle.ssim_text.specs.Grammar.{IsLegLine};
ghost use Rattle.ssim_text.specs.declared.leg.LegLine.{LegLine};
ghost use Rattle.ssim_outbox.specs.Route.{same_route, same_stations, same_times};
ghost use Rattle.ssim_outbox.specs.internal.ColumnLines.{HasLine, retimed_columns};

use crate::new_lines::push_leg_line;
use ssim_columns::Field;
use ssim_records::LegColumns;
use ssim_records::leg_fields::{
    AIRCRAFT_ARRIVAL, AIRCRAFT_DEPARTURE, ARRIVAL_STATION, DATE_VARIATIONS, DEPARTURE_STATION,
    PASSENGER_ARRIVAL, PASSENGER_DEPARTURE,
};
use ssim_schedule::PlacedLeg;
use ssim_text::LegLine;
use ssim_values::Memory;
use std::alloc::Global;

/// The leg lines of the legs whose times are not those of the old legs. Legs that no line can spell
/// have none.
pub(crate) fn retimed_lines(
    alloc: Global,
    old: &[PlacedLeg],
    new: &[PlacedLeg],
) -> Result<Vec<LegLine>, Memory>
    ensures are { IfOk result (λ lines. AllByRecursion IsLegLine lines.items) }
    ensures found { (all : List LegLine) → AllZip HasLine all (retimed_columns old.now new.now)
        → IfOk result (λ lines. lines.items ≡ all) }
{
    let mut lines = Vec::new(alloc);
    push_retimed(&mut lines, old, new)?;
    Ok(lines)
}

// Adds the leg lines of the legs whose times are not those of the old legs.
fn push_retimed(
    lines: &mut Vec<LegLine>,
    old: &[PlacedLeg],
    new: &[PlacedLeg],
) -> Result<(), Memory>
    requires { AllByRecursion IsLegLine lines.old.items }
    ensures are { OnOk result (AllByRecursion IsLegLine lines.new.items) }
    ensures found { (all : List LegLine) → AllZip HasLine all (retimed_columns old.now new.now)
        → OnOk result (lines.new.items ≡ lines.old.items ++ all) }
{
    match old.split_first() {
        None => Ok(()),
        Some((old_leg, old)) => match new.split_first() {
            None => Ok(()),
            Some((new_leg, new)) => {
                if have_same_times(&old_leg.columns(), &new_leg.columns()) {
                    return push_retimed(lines, old, new);
                }
                push_leg_line(lines, &new_leg.columns())?;
                push_retimed(lines, old, new)
            }
        },
    }
}

/// Whether two itineraries have legs with the same leg sequences between the same stations.
pub(crate) fn have_same_route(old: &[PlacedLeg], new: &[PlacedLeg]) -> bool
    ensures { result ≡ same_route old.now new.now }
{
    match old.split_first() {
        None => new.is_empty(),
        Some((old_leg, old)) => match new.split_first() {
            None => false,
            Some((new_leg, new)) => have_same_stations(old_leg, new_leg)
                && have_same_route(old, new),
        },
    }
}

// Whether two legs have the same leg sequence and the same stations.
fn have_same_stations(old: &PlacedLeg, new: &PlacedLeg) -> bool
    ensures { result ≡ same_stations old.now new.now }
{
    (old.sequence() == new.sequence())
        & have_same(&old.columns(), &new.columns(), DEPARTURE_STATION)
        & have_same(&old.columns(), &new.columns(), ARRIVAL_STATION)
}

/// Whether the times and the date variations of two legs are the same.
#[tactic(auto, unfolding(crate::specs::Route::same_times))]
pub(crate) fn have_same_times(old: &LegColumns, new: &LegColumns) -> bool
    ensures { result ≡ same_times old.now new.now }
{
    have_same(old, new, PASSENGER_DEPARTURE)
        & have_same(old, new, AIRCRAFT_DEPARTURE)
        & have_same(old, new, AIRCRAFT_ARRIVAL)
        & have_same(old, new, PASSENGER_ARRIVAL)
        & have_same(old, new, DATE_VARIATIONS)
}

/// Whether two legs have the same text of a field.
pub(crate) fn have_same(old: &LegColumns, new: &LegColumns, field: Field) -> bool
    requires { IsTrue (is_own field) }
    ensures { result
        ≡ bytes_eq (leg_columns field.first field.last old.now)
        (leg_columns field.first field.last new.now) }
{
    old.text(field) == new.text(field)
}
