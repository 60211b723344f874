//! The lines of what no messages can say.

ghost use Rattle.std.specs.Prelude.{◌≡◌, ◌++◌, ◌∷◌, IfOk, OnOk};
ghost use Rattle.std.specs.List.{flat_map};
ghost use Rattle.ssim_values.specs.Flight.{FlightNumber};
ghost use Rattle.ssim_base.specs.Timetable.{Days};
ghost use Rattle.ssim_listing.specs.Lines.{period_text};
ghost use Rattle.ssim_difference.specs.Differences.{differences};
ghost use Rattle.ssim_outbox.specs.Unsaid.{unsaid_line, unsaid_lines};
ghost use Rattle.ssim_outbox.specs.internal.AddedLines.{divided_lines};

use crate::reason::UnsaidReason;
use crate::reason_pieces::reason_pieces;
use ssim_base::StationRow;
use ssim_difference::FlightDifference;
use ssim_lines::{Printed, push_each};
use ssim_listing::{name_of, push_period};
use ssim_values::{Airline, Memory, Period};
use std::alloc::Global;

/// The name of a flight that still differs.
#[derive(Clone, Copy)]
struct Named<'a> {
    name: &'a [u8],
}

/// The lines of what no messages can say: for each flight of an airline, in order, the periods of
/// the dates on which it still differs, each with the reason. These rows of a station table give
/// the UTC variations of new legs.
pub fn unsaid_lines(
    alloc: Global,
    airline: Airline,
    rows: &[StationRow],
    unsaid: &[FlightDifference],
) -> Result<Vec<u8>, Memory>
    ensures { (old new : FlightNumber → Days) → unsaid.now ≡ differences old new
        → IfOk result (λ lines. lines.items ≡ unsaid_lines airline rows.now old new) }
{
    let mut lines = Vec::new(alloc);
    push_flights(alloc, &mut lines, airline, rows, unsaid)?;
    Ok(lines)
}

// Adds the lines of the flights.
fn push_flights(
    alloc: Global,
    lines: &mut Vec<u8>,
    airline: Airline,
    rows: &[StationRow],
    unsaid: &[FlightDifference],
) -> Result<(), Memory>
    ensures { OnOk result (lines.new.items
        ≡ lines.old.items ++ flat_map (divided_lines airline rows.now) unsaid.now) }
{
    for flight in unsaid {
        push_flight(alloc, lines, airline, rows, flight)?;
    }
    Ok(())
}

// Adds the lines of a flight.
fn push_flight(
    alloc: Global,
    lines: &mut Vec<u8>,
    airline: Airline,
    rows: &[StationRow],
    flight: &FlightDifference,
) -> Result<(), Memory>
    ensures { OnOk result (lines.new.items
        ≡ lines.old.items ++ divided_lines airline rows.now flight.now) }
{
    let pieces = reason_pieces(alloc, rows, flight.pieces())?;
    let name = name_of(airline, flight.flight());
    let named = Named {
        name: name.as_slice(),
    };
    push_each(lines, &named, &pieces)
}

impl Printed<Named<'_>> for (Period, UnsaidReason) {
    ghost text = { λ named piece. unsaid_line named.name.now piece };

    fn print(&self, named: &Named<'_>, lines: &mut Vec<u8>) -> Result<(), Memory> {
        lines.extend_from_slice(b"unsaid ")?;
        push_name(lines, named.name, self.0)?;
        lines.extend_from_slice(self.1.words())?;
        lines.push(b'\n')?;
        Ok(())
    }
}

// Adds a name and a period.
fn push_name(lines: &mut Vec<u8>, name: &[u8], period: Period) -> Result<(), Memory>
    ensures { OnOk result
        (lines.new.items ≡ lines.old.items ++ (name.now ++ 32 ∷ period_text period)) }
{
    push_period(lines, name, period)?;
    let _ = lines.pop();
    Ok(())
}
