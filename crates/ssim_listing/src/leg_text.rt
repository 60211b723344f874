//! A leg as one line.

ghost use Rattle.std.specs.Prelude.{◌≡◌, ◌++◌, ◌<◌, ◌∷◌, IfOk, IsTrue, OnOk};
ghost use Rattle.ssim_records.specs.clauses.Leg.{is_own};
ghost use Rattle.ssim_values.specs.Characters.{two_digits};
ghost use Rattle.ssim_listing.specs.LegText.{columns_text, dotted, leg_text, shown};

use ssim_records::leg_fields::{
    AIRCRAFT_ARRIVAL, AIRCRAFT_DEPARTURE, AIRCRAFT_TYPE, ARRIVAL_STATION, ARRIVAL_VARIATION,
    DATE_VARIATIONS, DEPARTURE_STATION, DEPARTURE_VARIATION, PASSENGER_ARRIVAL,
    PASSENGER_DEPARTURE, SERVICE_TYPE,
};
use ssim_records::{Field, LegColumns};
use ssim_schedule::PlacedLeg;
use ssim_values::Memory;
use std::alloc::Global;

/// How many bytes the line of a leg has.
const LINE: usize = 51;

/// The line of a leg, without its end.
pub(crate) fn text_of(alloc: Global, leg: &PlacedLeg) -> Result<Vec<u8>, Memory>
    ensures { IfOk result (λ text. text.items ≡ leg_text leg.now) }
{
    let mut text = Vec::with_capacity(alloc, LINE)?;
    push_leg_text(&mut text, leg)?;
    Ok(text)
}

/// Adds the leg sequence and the columns of a leg that are shown.
pub fn push_leg_text(lines: &mut Vec<u8>, leg: &PlacedLeg) -> Result<(), Memory>
    ensures { OnOk result (lines.new.items ≡ lines.old.items ++ leg_text leg.now) }
{
    push_sequence(lines, leg.sequence())?;
    push_columns(lines, &leg.columns())?;
    Ok(())
}

/// Adds a leg sequence in two digits.
pub fn push_sequence(lines: &mut Vec<u8>, sequence: u8) -> Result<(), Memory>
    ensures { OnOk result (lines.new.items ≡ lines.old.items ++ two_digits sequence) }
{
    lines.push(b'0' + sequence / 10)?;
    lines.push(b'0' + sequence % 10)?;
    Ok(())
}

// Adds the columns of a leg that are shown.
fn push_columns(lines: &mut Vec<u8>, leg: &LegColumns) -> Result<(), Memory>
    ensures { OnOk result (lines.new.items ≡ lines.old.items ++ columns_text leg.now) }
{
    push_field(lines, leg, DEPARTURE_STATION)?;
    push_field(lines, leg, PASSENGER_DEPARTURE)?;
    push_field(lines, leg, AIRCRAFT_DEPARTURE)?;
    push_field(lines, leg, DEPARTURE_VARIATION)?;
    push_field(lines, leg, ARRIVAL_STATION)?;
    push_field(lines, leg, AIRCRAFT_ARRIVAL)?;
    push_field(lines, leg, PASSENGER_ARRIVAL)?;
    push_field(lines, leg, ARRIVAL_VARIATION)?;
    push_field(lines, leg, DATE_VARIATIONS)?;
    push_field(lines, leg, SERVICE_TYPE)?;
    push_field(lines, leg, AIRCRAFT_TYPE)
}

// Adds a blank and a field of a leg, with a full stop for each blank.
fn push_field(lines: &mut Vec<u8>, leg: &LegColumns, field: Field) -> Result<(), Memory>
    requires { IsTrue (is_own field) }
    ensures { OnOk result
        (lines.new.items ≡ lines.old.items ++ shown field.first field.last leg.now) }
{
    push_shown(lines, leg.text(field))
}

/// Adds a blank and the columns, with a full stop for each blank.
pub fn push_shown(lines: &mut Vec<u8>, columns: &[u8]) -> Result<(), Memory>
    ensures { OnOk result (lines.new.items ≡ lines.old.items ++ 32 ∷ dotted columns.now) }
{
    lines.push(b' ')?;
    push_dotted(lines, columns)
}

// Adds the columns, with a full stop for each blank.
fn push_dotted(lines: &mut Vec<u8>, columns: &[u8]) -> Result<(), Memory>
    ensures { OnOk result (lines.new.items ≡ lines.old.items ++ dotted columns.now) }
{
    for byte in columns {
        lines.push(if *byte == b' ' { b'.' } else { *byte })?;
    }
    Ok(())
}
