//! The rows of what a desk holds: its station table, its messages and their sub-messages.

ghost use Rattle.std.specs.Prelude.{◌≡◌, ◌++◌, ◌∷◌, ℕ, List, IfOk, OnOk, drop, map, []};
ghost use Rattle.std.specs.Fmt.{decimal};
ghost use Rattle.ssim_values.specs.DayMask.{digits_of};
ghost use Rattle.ssim_listing.specs.Rows.{iso_date};
ghost use Rattle.ssim_sql.specs.Literal.{quote};
ghost use Rattle.ssim_text.specs.Reference.{printed_reference};
ghost use Rattle.ssim_desk.specs.Desk.{finding_lines};
ghost use Rattle.ssim_sql.specs.Messages.{held_statements, message_row, station_row};
ghost use Rattle.ssim_sql.specs.Messages.{sub_message_rows, sub_row};
ghost use Rattle.ssim_sql.specs.Statements.{numbered, statements};
ghost use Rattle.ssim_sql.specs.internal.SubRows.{rows_of_subs, sub_rows};
ghost use Rattle.ssim_sql.specs.internal.Tables.{script_with};
ghost use Rattle.ssim_sql.specs.internal.Values.{value_text};

use crate::blanks::trimmed;
use crate::constant::heads::{MESSAGE_HEAD, STATION_ROW_HEAD, SUB_MESSAGE_HEAD};
use crate::table::{Numbered, Table, complete, put_numbered, put_row, table_after};
use crate::value::Value;
use ssim_base::{ResolvedSub, StationRow};
use ssim_desk::{FindingLine, Held, Holdings};
use ssim_lines::written;
use ssim_text::Reference;
use ssim_values::{Day, Memory};
use std::alloc::Global;
use std::io::Write;

/// The timetable with a name.
#[derive(Clone, Copy)]
struct Named<'a> {
    alloc: Global,
    name: &'a [u8],
}

/// The statements of what a desk holds, whose timetable has this name.
#[tactic(auto, unfolding(crate::specs::Messages::held_statements))]
pub(crate) fn held_statements(
    alloc: Global,
    name: &[u8],
    desk: &Holdings,
) -> Result<Vec<u8>, Memory>
    ensures { IfOk result (λ made. made.items ≡ held_statements name.now desk.now) }
{
    let findings = desk.findings()?;
    let stations = with_stations(alloc, name, desk.base().rows())?;
    let messages = with_messages(alloc, stations, name, desk.held())?;
    with_subs(alloc, messages, name, desk.held(), &findings)
}

// The statements of the rows of a station table.
fn with_stations(alloc: Global, name: &[u8], rows: &[StationRow]) -> Result<Vec<u8>, Memory>
    ensures { IfOk result (λ made. made.items
        ≡ statements STATION_ROW_HEAD.now (numbered (station_row name.now) 1 rows.now)) }
{
    let mut table = table_after(Vec::new(alloc), STATION_ROW_HEAD);
    put_numbered(&mut table, &Named { alloc, name }, rows)?;
    complete(table)
}

impl Numbered<Named<'_>> for StationRow {
    ghost text_at = { λ of place row. station_row of.name.now place row };

    // Adds the row of a row of a station table.
    #[tactic(auto, unfolding(crate::specs::Messages::station_row))]
    fn put_at(&self, of: &Named<'_>, number: u64, table: &mut Table) -> Result<(), Memory> {
        let station = self.station().write();
        let variation = self.variation().write();
        let values = station_values(number, self, &station, &variation);
        put_row(table, of.name, &values)
    }
}

// The values of a row of a station table, in the order of the columns of the table.
fn station_values<'a>(
    number: u64,
    row: &StationRow,
    station: &'a [u8],
    variation: &'a [u8],
) -> [Value<'a>; 5]
    ensures { map value_text result ≡ decimal number ∷ quote station.now
        ∷ quote (iso_date row.now.first) ∷ quote (iso_date row.now.last)
        ∷ quote variation.now ∷ [] }
{
    [
        Value::Number(number),
        Value::Text(station),
        Value::Date(row.first()),
        Value::Date(row.last()),
        Value::Text(variation),
    ]
}

// The statements of messages after a script.
fn with_messages(
    alloc: Global,
    script: Vec<u8>,
    name: &[u8],
    held: &[Held],
) -> Result<Vec<u8>, Memory>
    ensures { IfOk result (λ made. made.items ≡ script.items
        ++ statements MESSAGE_HEAD.now (numbered (message_row name.now) 1 held.now)) }
{
    let mut table = table_after(script, MESSAGE_HEAD);
    put_numbered(&mut table, &Named { alloc, name }, held)?;
    complete(table)
}

impl Numbered<Named<'_>> for Held {
    ghost text_at = { λ of place e. message_row of.name.now place e };

    // Adds the row of a message.
    #[tactic(auto, unfolding(crate::specs::Messages::message_row))]
    fn put_at(&self, of: &Named<'_>, number: u64, table: &mut Table) -> Result<(), Memory> {
        let reference = self.reference();
        let printed = printed_reference(of.alloc, &reference)?;
        let originator = reference.originator.bytes();
        let kind = reference.kind.name().as_bytes();
        let origin = trimmed(&originator);
        let date = reference.date;
        let values = message_values(&printed, kind, origin, self.text(), number, date);
        put_row(table, of.name, &values)
    }
}

// The values of a message: its reference, kind, originator and text, its number and its date.
fn message_values<'a>(
    reference: &'a [u8],
    kind: &'a [u8],
    originator: &'a [u8],
    text: &'a [u8],
    number: u64,
    date: Day,
) -> [Value<'a>; 6]
    ensures { map value_text result ≡ quote reference.now ∷ decimal number ∷ quote kind.now
        ∷ quote (iso_date date) ∷ quote originator.now ∷ quote text.now ∷ [] }
{
    [
        Value::Text(reference),
        Value::Number(number),
        Value::Text(kind),
        Value::Date(date),
        Value::Text(originator),
        Value::Text(text),
    ]
}

// A reference as it is printed.
fn printed_reference(alloc: Global, reference: &Reference) -> Result<Vec<u8>, Memory>
    ensures { IfOk result (λ text. text.items ≡ printed_reference reference.now) }
{
    let mut text = Vec::new(alloc);
    written(write!(text, "{reference}"))?;
    Ok(text)
}

// The statements of sub-messages after a script, given the findings of all of them.
fn with_subs(
    alloc: Global,
    script: Vec<u8>,
    name: &[u8],
    held: &[Held],
    findings: &[FindingLine],
) -> Result<Vec<u8>, Memory>
    ensures { IfOk result (λ made. made.items ≡ script.items
        ++ statements SUB_MESSAGE_HEAD.now (sub_message_rows name.now held.now findings.now)) }
{
    let mut table = table_after(script, SUB_MESSAGE_HEAD);
    put_subs_of_all(&mut table, &Named { alloc, name }, held, findings)?;
    complete(table)
}

// Adds the rows of the sub-messages of messages, given the findings of all of them.
fn put_subs_of_all(
    table: &mut Table,
    of: &Named<'_>,
    held: &[Held],
    findings: &[FindingLine],
) -> Result<(), Memory>
    ensures { OnOk result ((later : List (List ℕ)) → script_with table.new later ≡ script_with
        table.old (rows_of_subs of.now.name.now held.now findings.now ++ later)) }
{
    let mut left = findings;
    for message in held {
        put_subs(table, of, message.dates(), left)?;
        left = after(left, message.dates().len());
    }
    Ok(())
}

// The findings after a number of them.
fn after(findings: &[FindingLine], count: usize) -> &[FindingLine]
    ensures { result.now ≡ drop count findings.now }
{
    &findings[count.min(findings.len())..]
}

// Adds the rows of the sub-messages with these full dates, of which these are the first findings.
fn put_subs(
    table: &mut Table,
    of: &Named<'_>,
    dates: &[ResolvedSub],
    findings: &[FindingLine],
) -> Result<(), Memory>
    ensures { OnOk result ((later : List (List ℕ)) → script_with table.new later
        ≡ script_with table.old (sub_rows of.now.name.now dates.now findings.now ++ later)) }
{
    match (dates.split_first(), findings.split_first()) {
        (Some((dated, dates)), Some((found, findings))) => {
            put_sub(table, of, dated, found)?;
            put_subs(table, of, dates, findings)
        }
        _ => Ok(()),
    }
}

// Adds the row of a sub-message.
#[tactic(auto, unfolding(crate::specs::Messages::sub_row))]
fn put_sub(
    table: &mut Table,
    of: &Named<'_>,
    dated: &ResolvedSub,
    found: &FindingLine,
) -> Result<(), Memory>
    ensures { OnOk result ((later : List (List ℕ)) → script_with table.new later
        ≡ script_with table.old (sub_row of.now.name.now dated.now found.now ∷ later)) }
{
    let reference = printed_reference(of.alloc, &found.reference)?;
    let flight = found.designator.write();
    let action = found.action.name().as_bytes();
    let values = sub_values(dated, found, &reference, action, flight.as_slice());
    put_row(table, of.name, &values)
}

// The values of a sub-message: its reference, action and flight, its dates and what it found.
fn sub_values<'a>(
    dated: &ResolvedSub,
    found: &FindingLine,
    reference: &'a [u8],
    action: &'a [u8],
    flight: &'a [u8],
) -> [Value<'a>; 12]
    ensures { map value_text result ≡ quote reference.now ∷ decimal found.now.sub
        ∷ quote action.now ∷ quote flight.now ∷ quote (iso_date dated.now.period.first)
        ∷ quote (iso_date dated.now.period.last) ∷ quote (digits_of dated.now.period.days)
        ∷ decimal found.now.finding.acted ∷ decimal found.now.finding.absent
        ∷ decimal found.now.finding.present ∷ decimal found.now.finding.leg
        ∷ decimal found.now.finding.station ∷ [] }
{
    [
        Value::Text(reference),
        Value::Number(found.sub as u64),
        Value::Text(action),
        Value::Text(flight),
        Value::Date(dated.period.first()),
        Value::Date(dated.period.last()),
        Value::Weekdays(dated.period.mask()),
        Value::Number(found.finding.acted as u64),
        Value::Number(found.finding.absent as u64),
        Value::Number(found.finding.present as u64),
        Value::Number(found.finding.leg as u64),
        Value::Number(found.finding.station as u64),
    ]
}
