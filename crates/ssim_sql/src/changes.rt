//! The flights of a desk that differ from its data set, and their rows.

ghost use Rattle.std.specs.Prelude.{◌≡◌, ◌++◌, [], ℕ, List, IfOk, OnOk};
ghost use Rattle.ssim_values.specs.Flight.{FlightNumber};
ghost use Rattle.ssim_base.specs.Timetable.{Days};
ghost use Rattle.ssim_schedule.specs.FlightPieces.{divided_flights};
ghost use Rattle.ssim_desk.specs.Desk.{days_of_desk};
ghost use Rattle.ssim_difference.specs.Differences as defined;
ghost use Rattle.ssim_sql.specs.Script.{changes_of};
ghost use Rattle.ssim_sql.specs.internal.Rows.{both_rows, differing_rows};
ghost use Rattle.ssim_sql.specs.internal.Tables.{script_with};

use crate::flights::{LegTable, PeriodOf};
use crate::table::{Rowed, Table, put_each};
use ssim_desk::Holdings;
use ssim_difference::{Difference, FlightDifference, differences};
use ssim_listing::name_of;
use ssim_schedule::{FlightPieces, Schedule};
use ssim_values::{Airline, Memory, Period, TimeMode};
use std::alloc::Global;

/// The flights of a desk that fly, and those that differ from its data set.
#[derive(Drop)]
pub(crate) struct Flown {
    pub(crate) flights: Vec<FlightPieces>,
    pub(crate) changes: Vec<FlightDifference>,
}

/// A timetable whose changes have rows.
#[derive(Clone, Copy)]
pub(crate) struct Changes<'a> {
    /// The name of the timetable.
    pub(crate) name: &'a [u8],
    pub(crate) mode: TimeMode,
    pub(crate) airline: Airline,
}

/// A flight of a timetable, whose changes have rows.
#[derive(Clone, Copy)]
struct ChangesOf<'a> {
    name: &'a [u8],
    mode: TimeMode,
    flight: &'a [u8],
}

/// The flights of a desk. The records are freed while the timetable is made. A desk without messages
/// has no changes, and no timetable of its data set is made.
pub(crate) fn flown_by(alloc: Global, desk: Holdings) -> Result<Flown, Memory>
    ensures flights { IfOk result
        (λ flown. flown.flights.items ≡ divided_flights (days_of_desk desk)) }
    ensures changes { IfOk result (λ flown. flown.changes.items ≡ changes_of desk) }
{
    if desk.held().is_empty() {
        return unchanged(alloc, desk);
    }
    let before = Schedule::of(desk.base())?.into_flights()?;
    let flights = desk.into_flights()?;
    let changes = changes_between(alloc, before, &flights)?;
    Ok(Flown { flights, changes })
}

// The flights of a desk without messages.
fn unchanged(alloc: Global, desk: Holdings) -> Result<Flown, Memory>
    requires { desk.held ≡ [] }
    ensures flights { IfOk result
        (λ flown. flown.flights.items ≡ divided_flights (days_of_desk desk)) }
    ensures changes { IfOk result (λ flown. flown.changes.items ≡ changes_of desk) }
{
    Ok(Flown {
        flights: desk.into_flights()?,
        changes: Vec::new(alloc),
    })
}

// The flights that differ. The old ones are freed.
fn changes_between(
    alloc: Global,
    before: Vec<FlightPieces>,
    after: &[FlightPieces],
) -> Result<Vec<FlightDifference>, Memory>
    ensures { (old new : FlightNumber → Days)
        → before.items ≡ divided_flights old → after.now ≡ divided_flights new
        → IfOk result (λ changes. changes.items ≡ defined.differences old new) }
{
    differences(alloc, &before, after)
}

impl Rowed<Changes<'_>> for FlightDifference {
    ghost rows = { λ of flight. differing_rows of.name.now of.mode of.airline flight };

    // Adds the rows of each period.
    fn put(&self, of: &Changes<'_>, table: &mut Table) -> Result<(), Memory> {
        let flight = name_of(of.airline, self.flight());
        let here = ChangesOf {
            name: of.name,
            mode: of.mode,
            flight: flight.as_slice(),
        };
        put_each(table, &here, self.pieces())
    }
}

impl Rowed<ChangesOf<'_>> for (Period, Difference) {
    ghost rows = { λ of piece. both_rows of.name.now of.mode of.flight.now piece };

    // Adds the rows of the old legs, and then those of the new ones.
    fn put(&self, of: &ChangesOf<'_>, table: &mut Table) -> Result<(), Memory> {
        let mut here = PeriodOf {
            table: LegTable::Old,
            name: of.name,
            mode: of.mode,
            flight: of.flight,
            period: self.0,
        };
        put_each(table, &here, self.1.old.legs())?;
        here.table = LegTable::New;
        put_each(table, &here, self.1.new.legs())
    }
}
