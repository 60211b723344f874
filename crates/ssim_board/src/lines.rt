//! The departures and arrivals of a board as lines.

ghost use Rattle.std.specs.Prelude.{◌≡◌, ◌++◌, replicate, IfOk, OnOk};
ghost use Rattle.std.specs.Fmt.{decimal};
ghost use Rattle.ssim_board.specs.Lines.{board_lines, flight_text, kind_text, leg_text};
ghost use Rattle.ssim_board.specs.Lines.{movement_line, other_text, padded, shift_text};
ghost use Rattle.ssim_board.specs.Lines.{warning_text};

use crate::local_time::LocalTime;
use crate::movement::{Movement, MovementKind};
use ssim_lines::{Printed, push_blanks, push_each, written};
use ssim_listing::{name_of, push_sequence, push_shown};
use ssim_values::{Airline, Day, Memory};
use std::alloc::Global;
use std::io::Write;

/// A line for each departure and arrival on a board of this date, or `no flight`.
pub fn board_lines(
    alloc: Global,
    airline: Airline,
    date: Day,
    movements: &[Movement],
) -> Result<Vec<u8>, Memory>
    ensures { IfOk result (λ lines. lines.items ≡ board_lines airline date movements.now) }
{
    let mut lines = Vec::new(alloc);
    if movements.is_empty() {
        lines.extend_from_slice(b"no flight\n")?;
    }
    push_each(&mut lines, &(airline, date), movements)?;
    Ok(lines)
}

impl Printed<(Airline, Day)> for Movement {
    ghost text = { λ board movement. movement_line board.0 board.1 movement };

    // Adds the line of a departure or an arrival.
    fn print(&self, board: &(Airline, Day), lines: &mut Vec<u8>) -> Result<(), Memory> {
        push_flight(lines, board.0, self)?;
        push_leg(lines, self)?;
        push_other(lines, board.1, self)?;
        lines.push(b'\n')?;
        Ok(())
    }
}

// Adds the time, the kind, the designator and the date of origin.
fn push_flight(lines: &mut Vec<u8>, airline: Airline, movement: &Movement) -> Result<(), Memory>
    ensures { OnOk result (lines.new.items ≡ lines.old.items ++ flight_text airline movement.now) }
{
    let name = name_of(airline, movement.flight);
    lines.extend_from_slice(&movement.time.write())?;
    lines.push(b' ')?;
    lines.extend_from_slice(kind_text(movement.kind))?;
    lines.push(b' ')?;
    push_padded(lines, name.as_slice())?;
    lines.push(b' ')?;
    lines.extend_from_slice(&movement.date.write())?;
    Ok(())
}

// A departure or an arrival in three letters.
pub(crate) fn kind_text(kind: MovementKind) -> &'static [u8]
    ensures { result.now ≡ kind_text kind }
{
    match kind {
        MovementKind::Departure => b"dep",
        MovementKind::Arrival => b"arr",
    }
}

// Adds a text, and blanks up to eight columns.
fn push_padded(lines: &mut Vec<u8>, text: &[u8]) -> Result<(), Memory>
    ensures { OnOk result (lines.new.items ≡ lines.old.items ++ padded text.now) }
{
    lines.extend_from_slice(text)?;
    push_blanks(lines, 8_usize.saturating_sub(text.len()))
}

// Adds the leg sequence, the aircraft type and the other station.
fn push_leg(lines: &mut Vec<u8>, movement: &Movement) -> Result<(), Memory>
    ensures { OnOk result (lines.new.items ≡ lines.old.items ++ leg_text movement.now) }
{
    lines.push(b' ')?;
    push_sequence(lines, movement.sequence)?;
    push_shown(lines, &movement.aircraft_type)?;
    lines.push(b' ')?;
    lines.extend_from_slice(&movement.other_station.write())?;
    Ok(())
}

// Adds the local time at the other station, how many days its date is from the board's, and the
// warning that the times are uncertain.
fn push_other(lines: &mut Vec<u8>, date: Day, movement: &Movement) -> Result<(), Memory>
    ensures { OnOk result (lines.new.items ≡ lines.old.items ++ other_text date movement.now) }
{
    lines.push(b' ')?;
    lines.extend_from_slice(&movement.other_time.write())?;
    push_shift(lines, date, movement.other_time)?;
    lines.extend_from_slice(warning_text(movement.is_uncertain))?;
    Ok(())
}

// Adds how many days a local time is from a date, if any.
fn push_shift(lines: &mut Vec<u8>, date: Day, time: LocalTime) -> Result<(), Memory>
    ensures { OnOk result (lines.new.items ≡ lines.old.items ++ shift_text date time.days) }
{
    let own = date.number() + 1;
    let days = time.days();
    if own < days {
        push_number(lines, b" +", days - own)
    } else if days < own {
        push_number(lines, b" -", own - days)
    } else {
        Ok(())
    }
}

// Adds a sign and a number.
pub(crate) fn push_number(lines: &mut Vec<u8>, sign: &[u8], number: u16) -> Result<(), Memory>
    ensures { OnOk result (lines.new.items ≡ lines.old.items ++ (sign.now ++ decimal number)) }
{
    lines.extend_from_slice(sign)?;
    written(write!(lines, "{number}"))
}

// The warning that the times are uncertain, or nothing.
fn warning_text(is_uncertain: bool) -> &'static [u8]
    ensures { result.now ≡ warning_text is_uncertain }
{
    if is_uncertain { b" ?" } else { b"" }
}
