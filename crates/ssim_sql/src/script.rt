//! The whole script.

ghost use Rattle.std.specs.Prelude.{◌≡◌, ◌++◌, IfOk, OnOk};
ghost use Rattle.ssim_sql.specs.Script.{beginning, change_statements, delete, deletes, ending};
ghost use Rattle.ssim_sql.specs.Script.{flight_statements};
ghost use Rattle.ssim_sql.specs.Script.{message_count, script_of};

use crate::changes::{Changes, Flown, flown_by};
use crate::constant::heads::{CHANGE_HEAD, LEG_HEAD, SEGMENT_HEAD};
use crate::constant::tables::TABLES;
use crate::constant::views::VIEWS;
use crate::days::{days_with, push_days, with_flights};
use crate::flights::{Flights, LegTable};
use crate::held::held_statements;
use crate::table::each_after;
use crate::timetable::{timetable_name, with_timetable};
use crate::value::push_text;
use ssim_desk::Holdings;
use ssim_difference::FlightDifference;
use ssim_records::Carrier;
use ssim_schedule::FlightPieces;
use ssim_values::Memory;
use std::alloc::Global;

/// The script of a desk, or of a data set, with this carrier record. The records are freed while
/// the timetable is made.
pub fn script_of(
    alloc: Global,
    carrier: &Carrier,
    is_desk: bool,
    desk: Holdings,
) -> Result<Vec<u8>, Memory>
    ensures { IfOk result (λ script. script.items ≡ script_of carrier.now is_desk desk) }
{
    let name = timetable_name(alloc, carrier)?;
    let held = held_statements(alloc, &name, &desk)?;
    let messages = message_count(is_desk, &desk);
    let days = days_with(carrier, desk.held());
    let Flown { flights, changes } = flown_by(alloc, desk)?;
    let mut script = beginning(alloc, &name)?;
    push_days(&mut script, with_flights(days, &flights))?;
    let script = with_timetable(alloc, script, &name, carrier, messages)?;
    let mut script = with_flight_rows(script, &name, carrier, &flights)?;
    script.extend_from_slice(&held)?;
    let mut script = with_changes(script, &name, carrier, &changes)?;
    push_ending(&mut script)?;
    Ok(script)
}

// How many messages a desk holds; none of a data set.
fn message_count(is_desk: bool, desk: &Holdings) -> Option<usize>
    ensures { result ≡ message_count is_desk desk.now }
{
    if is_desk {
        Some(desk.held().len())
    } else {
        None
    }
}

// The beginning of the script of the timetable with this name.
#[tactic(auto, unfolding(crate::specs::Script::beginning))]
fn beginning(alloc: Global, name: &[u8]) -> Result<Vec<u8>, Memory>
    ensures { IfOk result (λ script. script.items ≡ beginning name.now) }
{
    let mut script = Vec::new(alloc);
    script.extend_from_slice(b"BEGIN;\n")?;
    script.extend_from_slice(TABLES)?;
    push_deletes(&mut script, name)?;
    Ok(script)
}

// Adds what deletes the rows of a timetable from all tables that have some.
fn push_deletes(script: &mut Vec<u8>, name: &[u8]) -> Result<(), Memory>
    ensures { OnOk result (script.new.items ≡ script.old.items ++ deletes name.now) }
{
    push_delete(script, name, b"timetable")?;
    push_delete(script, name, b"leg")?;
    push_delete(script, name, b"segment")?;
    push_delete(script, name, b"station_row")?;
    push_delete(script, name, b"message")?;
    push_delete(script, name, b"sub_message")?;
    push_delete(script, name, b"change")
}

// Adds what deletes the rows of a timetable from a table.
fn push_delete(script: &mut Vec<u8>, name: &[u8], table: &[u8]) -> Result<(), Memory>
    ensures { OnOk result (script.new.items ≡ script.old.items ++ delete name.now table.now) }
{
    script.extend_from_slice(b"DELETE FROM ")?;
    script.extend_from_slice(table)?;
    script.extend_from_slice(b" WHERE timetable = ")?;
    push_text(script, name)?;
    script.extend_from_slice(b";\n")?;
    Ok(())
}

// A script with the rows of the legs of all flights, and of their segment records.
#[tactic(auto, unfolding(crate::specs::Script::flight_statements))]
fn with_flight_rows(
    script: Vec<u8>,
    name: &[u8],
    carrier: &Carrier,
    flights: &[FlightPieces],
) -> Result<Vec<u8>, Memory>
    ensures { IfOk result (λ made. made.items
        ≡ script.items ++ flight_statements name.now carrier.now flights.now) }
{
    let mut of = Flights {
        table: LegTable::Legs,
        name,
        mode: carrier.time_mode(),
        airline: carrier.airline(),
    };
    let script = each_after(script, LEG_HEAD, &of, flights)?;
    of.table = LegTable::Segments;
    each_after(script, SEGMENT_HEAD, &of, flights)
}

// A script with the rows of the changes of flights.
#[tactic(auto, unfolding(crate::specs::Script::change_statements))]
fn with_changes(
    script: Vec<u8>,
    name: &[u8],
    carrier: &Carrier,
    changes: &[FlightDifference],
) -> Result<Vec<u8>, Memory>
    ensures { IfOk result (λ made. made.items
        ≡ script.items ++ change_statements name.now carrier.now changes.now) }
{
    let of = Changes {
        name,
        mode: carrier.time_mode(),
        airline: carrier.airline(),
    };
    each_after(script, CHANGE_HEAD, &of, changes)
}

// Adds the end of a script.
#[tactic(auto, unfolding(crate::specs::Script::ending))]
fn push_ending(script: &mut Vec<u8>) -> Result<(), Memory>
    ensures { OnOk result (script.new.items ≡ script.old.items ++ ending) }
{
    script.extend_from_slice(VIEWS)?;
    script.extend_from_slice(b"COMMIT;\n")?;
    Ok(())
}
