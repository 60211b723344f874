//! Flights with their makers as lines.

ghost use Rattle.std.specs.Prelude.{◌≡◌, ◌++◌, ◌∷◌, IfOk, OnOk};
ghost use Rattle.ssim_listing.specs.Lines.{no_flight, period_text};
ghost use Rattle.ssim_blame.specs.Lines.{blame_lines, blamed_lines, flight_lines, maker_text};
ghost use Rattle.ssim_blame.specs.Lines.{piece_line};

use crate::flight_blame::FlightBlame;
use crate::maker::{Maker, SubName};
use ssim_lines::{Printed, push_each, written};
use ssim_listing::{name_of, push_shown};
use ssim_values::{Airline, Memory, Period};
use std::alloc::Global;
use std::io::Write;

/// The flights of an airline whose lines are added.
#[derive(Clone, Copy)]
struct Flights {
    airline: Airline,
}

/// The name of a flight whose lines are added.
#[derive(Clone, Copy)]
struct Named<'a> {
    name: &'a [u8],
}

/// The lines of flights of an airline: a line for each period with its maker, or that a flight has
/// none.
pub fn blame_lines(
    alloc: Global,
    airline: Airline,
    flights: &[FlightBlame],
) -> Result<Vec<u8>, Memory>
    ensures { IfOk result (λ lines. lines.items ≡ blame_lines airline flights.now) }
{
    let mut lines = Vec::new(alloc);
    push_each(&mut lines, &Flights { airline }, flights)?;
    Ok(lines)
}

impl Printed<Flights> for FlightBlame {
    ghost text = { λ flights flight. blamed_lines flights.airline flight };

    fn print(&self, flights: &Flights, lines: &mut Vec<u8>) -> Result<(), Memory> {
        let name = name_of(flights.airline, self.flight());
        push_flight(lines, name.as_slice(), self.pieces())
    }
}

// Adds the lines of a flight with this name.
fn push_flight(lines: &mut Vec<u8>, name: &[u8], pieces: &[(Period, Maker)]) -> Result<(), Memory>
    ensures { OnOk result (lines.new.items ≡ lines.old.items ++ flight_lines name.now pieces.now) }
{
    match pieces.split_first() {
        None => push_no_flight(lines, name),
        Some(_) => push_each(lines, &Named { name }, pieces),
    }
}

// Adds the line of a flight of which nobody made anything.
fn push_no_flight(lines: &mut Vec<u8>, name: &[u8]) -> Result<(), Memory>
    ensures { OnOk result (lines.new.items ≡ lines.old.items ++ no_flight name.now) }
{
    lines.extend_from_slice(name)?;
    lines.extend_from_slice(b" no flight\n")?;
    Ok(())
}

impl Printed<Named<'_>> for (Period, Maker) {
    ghost text = { λ named piece. piece_line named.name.now piece };

    fn print(&self, named: &Named<'_>, lines: &mut Vec<u8>) -> Result<(), Memory> {
        lines.extend_from_slice(named.name)?;
        push_period(lines, &self.0)?;
        push_maker(lines, &self.1)?;
        lines.push(b'\n')?;
        Ok(())
    }
}

// Adds a blank and a period.
fn push_period(lines: &mut Vec<u8>, period: &Period) -> Result<(), Memory>
    ensures { OnOk result (lines.new.items ≡ lines.old.items ++ 32 ∷ period_text period.now) }
{
    lines.push(b' ')?;
    lines.extend_from_slice(&period.first().write())?;
    lines.push(b' ')?;
    lines.extend_from_slice(&period.last().write())?;
    push_shown(lines, &period.mask().write())
}

// Adds a blank and a maker.
fn push_maker(lines: &mut Vec<u8>, maker: &Maker) -> Result<(), Memory>
    ensures { OnOk result (lines.new.items ≡ lines.old.items ++ 32 ∷ maker_text maker.now) }
{
    match maker {
        Maker::Nobody => lines.push(b' ')?,
        Maker::DataSet => lines.extend_from_slice(b" data set")?,
        Maker::Sub(name) => push_name(lines, name)?,
    }
    Ok(())
}

// Adds a blank, and the reference, the number and the action of a sub-message.
fn push_name(lines: &mut Vec<u8>, name: &SubName) -> Result<(), Memory>
    ensures { OnOk result
        (lines.new.items ≡ lines.old.items ++ 32 ∷ maker_text (Maker.Sub name.now)) }
{
    let reference = name.reference;
    let sub = name.sub;
    let action = name.action;
    written(write!(lines, " {reference} {sub} {action}"))
}
