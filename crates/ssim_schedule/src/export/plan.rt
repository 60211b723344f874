//! The plan of an export, made and measured before the first byte is written.

ghost use Rattle.std.specs.Prelude.{◌≡◌, ◌≤◌, ◌<◌, ◌+◌, ◌++◌, List, length, None, IfOk, IfErr, IfSome, IfNone, OnOk};
ghost use Rattle.std.specs.List.{All};
ghost use Rattle.ssim_values.specs.Flight.{IsFlight};
ghost use Rattle.ssim_base.specs.Export.{pieces};
ghost use Rattle.ssim_schedule.specs.internal.Blocks.{all_entries};
ghost use Rattle.ssim_schedule.specs.internal.Plan.{IsRefusedAs, pieces_count, plan_of, plan_refusal};

use crate::export::ExportFault;
use crate::itinerary::{Itinerary, MOST_RECORDS};
use crate::timetable::copy_on_write::CopyOnWrite;
use crate::timetable::flight_table::{Block, FlightPeriods, place};
use ssim_periods::Periods;
use ssim_values::{Flight, Memory, Period};
use std::alloc::Global;
use std::marker::Model;

/// A flight and its pieces: the periods of the canonical division of its dates in order of first
/// day, each with the itinerary on these dates.
#[derive(Drop)]
pub struct FlightPieces {
    flight: Flight,
    pieces: Vec<(Period, Itinerary)>,
}

impl Model for FlightPieces {
    ghost use Rattle.ssim_schedule.specs.FlightPieces.{Divided};

    ghost Value = { Divided };

    ghost view = { λ p. (p.flight, p.pieces.items) };
}

impl FlightPieces {
    /// A flight with the pieces of its itineraries.
    pub(crate) fn of(flight: Flight, periods: &Periods<Itinerary>) -> Result<FlightPieces, Memory>
        ensures { IfOk result (λ divided. divided ≡ (flight, pieces periods.now.days)) }
    {
        Ok(FlightPieces {
            flight,
            pieces: periods.pieces()?,
        })
    }

    /// The flight.
    pub fn flight(&self) -> Flight
        ensures { result ≡ self.now.0 }
    {
        self.flight
    }

    /// Its pieces. There are none if it flies on no date.
    pub fn pieces(&self) -> &[(Period, Itinerary)]
        ensures { result.now ≡ self.now.1 }
    {
        &self.pieces
    }
}

/// The flights of all blocks with their pieces. The periods of each flight are freed as soon as it
/// is divided.
pub(crate) fn divide(
    alloc: Global,
    blocks: Vec<CopyOnWrite<Block>>,
) -> Result<Vec<FlightPieces>, Memory>
    ensures plan { IfOk result (λ plan. plan.items ≡ plan_of (all_entries blocks.items)) }
    ensures flights { OnOk result (All (λ f. IsFlight f.flight) (all_entries blocks.items)) }
{
    let mut plan = Vec::new(alloc);
    for block in blocks {
        divide_block(&mut plan, block.into_own()?.into_entries())?;
    }
    Ok(plan)
}

// Adds the flights of a block with their pieces.
fn divide_block(plan: &mut Vec<FlightPieces>, entries: Vec<FlightPeriods>) -> Result<(), Memory>
    ensures plan { OnOk result (plan.new.items ≡ plan.old.items ++ plan_of entries.items) }
    ensures flights { OnOk result (All (λ f. IsFlight f.flight) entries.items) }
{
    for entry in entries {
        let _ = place(entry.flight);
        plan.push(FlightPieces {
            flight: entry.flight,
            pieces: entry.periods.get().pieces()?,
        })?;
    }
    Ok(())
}

/// Refuses the first flight that has more than 99 pieces, or that makes the number of records more
/// than 999,999.
pub(crate) fn measure(plan: &[FlightPieces]) -> Result<(), ExportFault>
    ensures ok { OnOk result (plan_refusal 2 plan.now ≡ None) }
    ensures err { IfErr result (λ fault. IsRefusedAs (plan_refusal 2 plan.now) fault) }
{
    let mut count = 2;
    for planned in plan {
        if planned.pieces().len() > 99 {
            return Err(ExportFault::Variations(planned.flight()));
        }
        match count_pieces(count, planned.pieces()) {
            Some(after) => count = after,
            None => return Err(ExportFault::Records),
        }
    }
    Ok(())
}

// The number of records after these pieces, given the number before them. `None` if no trailer
// could follow.
fn count_pieces(before: u32, pieces: &[(Period, Itinerary)]) -> Option<u32>
    requires { before < 999999 }
    ensures some { IfSome result (λ count. (count ≡ before + pieces_count pieces.now)
        × (count < 999999)) }
    ensures none { IfNone result (999999 ≤ before + pieces_count pieces.now) }
{
    let mut count = before;
    for piece in pieces {
        let records = piece.1.records()?;
        if records >= MOST_RECORDS - count {
            return None;
        }
        count += records;
    }
    Some(count)
}
