//! The columns of a flight leg record that are parsed: its name, its dates and its serial.

ghost use Rattle.std.specs.Prelude.{◌≡◌, Some, IfOk, IfErr, IfSome};
ghost use Rattle.ssim_columns.specs.Columns.{first_fault, EachIsValid};
ghost use Rattle.ssim_columns.specs.Leg.{leg_table};
ghost use Rattle.ssim_columns.specs.clauses.Heads.{IsLegHead};

use crate::field::columns::{days_at, first_day_at, last_day_at, serial_at};
use crate::field::{first_fault_of, middle_is_carried};
use crate::latest_columns::LatestColumns;
use crate::leg::leg_fields::{
    AFTER_OVERFLOW, DATES, DAYS, MIDDLE_FIELDS, NAME_FIELDS, OVERFLOW, RATE, SERIAL, SERVICE_TYPE,
};
use crate::leg::leg_name::{LegName, name_at};
use crate::leg::leg_points::{arrival_is_valid, departure_is_valid};
use ssim_values::{Day, DayMask};

fn leg_fault(bytes: &[u8; 200]) -> Option<usize>
    ensures { result ≡ first_fault bytes.now leg_table }
{
    first_fault_of(
        &[
            &NAME_FIELDS,
            &[SERVICE_TYPE, DATES, DAYS, RATE],
            &MIDDLE_FIELDS,
            &[OVERFLOW, AFTER_OVERFLOW, SERIAL],
        ],
        bytes,
    )
}

/// The columns of a flight leg record that are parsed. The others are copied.
#[derive(Clone, Copy, Debug)]
pub struct LegHead {
    /// Columns 2 to 13.
    pub name: LegName,
    /// Columns 15 to 21.
    pub first: Day,
    /// Columns 22 to 28.
    pub last: Option<Day>,
    /// Columns 29 to 35.
    pub days: DayMask,
    /// Columns 195 to 200.
    pub serial: u32,
}

fn head_of(bytes: &[u8; 200]) -> LegHead
    requires { EachIsValid bytes.now leg_table }
    ensures { IsLegHead result bytes.now }
{
    let first = first_day_at(bytes);
    LegHead {
        name: name_at(bytes),
        first,
        last: last_day_at(bytes, first),
        days: days_at(bytes),
        serial: serial_at(bytes),
    }
}

// The head of a flight leg all of whose fields are valid, each field read once, or none; then the
// table names the invalid field.
fn head_in(bytes: &[u8; 200], latest: &mut LatestColumns) -> Option<LegHead>
    ensures { IfSome result (λ head. IsLegHead head bytes.now) }
{
    if !middle_is_carried(bytes) {
        return None;
    }
    if !departure_is_valid(bytes) {
        return None;
    }
    if !arrival_is_valid(bytes) {
        return None;
    }
    let name = latest.name_in(bytes)?;
    let dates = latest.dates_in(bytes)?;
    let serial = latest.serial_in(bytes)?;
    Some(LegHead {
        name,
        first: dates.first,
        last: dates.last,
        days: dates.days,
        serial,
    })
}

/// The head of a flight leg all of whose fields are valid, or the first column of the first invalid
/// field.
pub fn read_leg_head(bytes: &[u8; 200], latest: &mut LatestColumns) -> Result<LegHead, usize>
    ensures ok { IfOk result (λ head. IsLegHead head bytes.now) }
    ensures err { IfErr result (λ column. first_fault bytes.now leg_table ≡ Some column) }
{
    if let Some(head) = head_in(bytes, latest) {
        return Ok(head);
    }
    match leg_fault(bytes) {
        Some(column) => Err(column),
        None => Ok(head_of(bytes)),
    }
}
