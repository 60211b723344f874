//! The name of a timetable, and its row.

ghost use Rattle.std.specs.Prelude.{◌≡◌, ◌++◌, ◌∷◌, [], IfOk, OnOk, map, slice_range};
ghost use Rattle.ssim_base.specs.Base.{end_of};
ghost use Rattle.ssim_listing.specs.Rows.{iso_date};
ghost use Rattle.ssim_sql.specs.Literal.{quote};
ghost use Rattle.ssim_values.specs.Airline.{airline_text};
ghost use Rattle.ssim_sql.specs.Blanks.{trimmed};
ghost use Rattle.ssim_sql.specs.Statements.{statements};
ghost use Rattle.ssim_sql.specs.Timetable.{after_blank, mode_letter, number_or_null};
ghost use Rattle.ssim_sql.specs.Timetable.{timetable_name, timetable_row, timetable_statement};
ghost use Rattle.ssim_sql.specs.internal.Values.{value_text};

use crate::blanks::trimmed;
use crate::constant::heads::TIMETABLE_HEAD;
use crate::table::{complete, put_row, table_after};
use crate::value::Value;
use ssim_base::validity_end;
use ssim_lines::written;
use ssim_records::Carrier;
use ssim_values::{Airline, Memory, TimeMode};
use std::alloc::Global;
use std::io::Write;

/// The name of the timetable with a carrier record.
#[tactic(auto, unfolding(crate::specs::Timetable::timetable_name))]
pub(crate) fn timetable_name(alloc: Global, carrier: &Carrier) -> Result<Vec<u8>, Memory>
    ensures { IfOk result (λ name. name.items ≡ timetable_name carrier.now) }
{
    let mut name = airline_of(alloc, carrier.airline())?;
    push_after_blank(&mut name, trimmed(&carrier.season()))?;
    Ok(name)
}

// The two or three characters of an airline.
fn airline_of(alloc: Global, airline: Airline) -> Result<Vec<u8>, Memory>
    ensures { IfOk result (λ text. text.items ≡ airline_text airline) }
{
    let mut text = Vec::new(alloc);
    written(write!(text, "{airline}"))?;
    Ok(text)
}

// Adds a blank and a season, or nothing if it is empty.
fn push_after_blank(name: &mut Vec<u8>, season: &[u8]) -> Result<(), Memory>
    ensures { OnOk result (name.new.items ≡ name.old.items ++ after_blank season.now) }
{
    match season.split_first() {
        None => Ok(()),
        Some(_) => {
            name.push(b' ')?;
            name.extend_from_slice(season)?;
            Ok(())
        }
    }
}

/// A script with the row of a timetable, which has this number of messages if it is that of a desk.
#[tactic(auto, unfolding(crate::specs::Timetable::timetable_statement))]
pub(crate) fn with_timetable(
    alloc: Global,
    script: Vec<u8>,
    name: &[u8],
    carrier: &Carrier,
    messages: Option<usize>,
) -> Result<Vec<u8>, Memory>
    ensures { IfOk result (λ made. made.items
        ≡ script.items ++ timetable_statement name.now carrier.now messages) }
{
    let airline = airline_of(alloc, carrier.airline())?;
    let season = carrier.season();
    let mut table = table_after(script, TIMETABLE_HEAD);
    let mode = mode_letter(carrier.time_mode());
    let values = values_of(carrier, &airline, trimmed(&season), mode, messages);
    put_row(&mut table, name, &values)?;
    complete(table)
}

// The values of a timetable, in the order of the columns of the table.
fn values_of<'a>(
    carrier: &Carrier,
    airline: &'a [u8],
    season: &'a [u8],
    mode: &'a [u8],
    messages: Option<usize>,
) -> [Value<'a>; 7]
    ensures { map value_text result ≡ quote airline.now ∷ quote season.now ∷ quote mode.now
        ∷ quote (iso_date carrier.now.first) ∷ quote (iso_date (end_of carrier.now))
        ∷ quote (iso_date carrier.now.created) ∷ number_or_null messages ∷ [] }
{
    [
        Value::Text(airline),
        Value::Text(season),
        Value::Text(mode),
        Value::Date(carrier.first()),
        Value::Date(validity_end(carrier)),
        Value::Date(carrier.created()),
        number_or_null(messages),
    ]
}

// The letter of a time mode.
fn mode_letter(mode: TimeMode) -> &'static [u8]
    ensures { result.now ≡ mode_letter mode }
{
    match mode {
        TimeMode::Utc => b"U",
        TimeMode::Local => b"L",
    }
}

// A number, if there is one.
fn number_or_null<'a>(number: Option<usize>) -> Value<'a>
    ensures { value_text result ≡ number_or_null number }
{
    match number {
        None => Value::Null,
        Some(number) => Value::Number(number as u64),
    }
}
