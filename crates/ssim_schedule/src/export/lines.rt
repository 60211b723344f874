//! The lines of an export, written from a plan.

ghost use Rattle.std.specs.Prelude.{◌≡◌, ◌≤◌, ◌<◌, ◌+◌, ◌++◌, length, IfOk, OnOk};
ghost use Rattle.std.specs.List.{All};
ghost use Rattle.ssim_records.specs.Segment.{IsTail};
ghost use Rattle.ssim_base.specs.Export.{fill_count, numbered, section_bytes};
ghost use Rattle.ssim_base.specs.clauses.Export.{frame_from};
ghost use Rattle.ssim_schedule.specs.internal.Plan.{HasWritableLegs, HasWritablePieces};
ghost use Rattle.ssim_schedule.specs.internal.Plan.{alone_bytes, leg_lines, piece_lines};
ghost use Rattle.ssim_schedule.specs.internal.Plan.{pieces_count, plan_bytes, plan_count};
ghost use Rattle.ssim_schedule.specs.internal.Plan.{plan_lines, plan_records, tail_lines};
ghost use Rattle.ssim_schedule.specs.internal.SharedLegs.{legs_count};
ghost use Rattle.ssim_base.specs.ReadBack.{IsWritable};
ghost use Rattle.ssim_base.specs.clauses.Sinks.{Puts, PutsUpTo};

use crate::export::plan::FlightPieces;
use crate::itinerary::Itinerary;
use crate::leg::PlacedLeg;
use ssim_base::{OutputBuffer, WriteFault, flush, put_fill, put_leg, put_record, put_segment};
use ssim_records::{
    Carrier, Header, LegColumns, LegName, NameText, PeriodText, Record, SegmentTail, Sink, Trailer,
};
use ssim_values::{Airline, Flight, Period};

/// Puts the whole export of a plan. Each flight is freed as soon as its records are put.
pub(crate) fn put_export<W: Sink>(
    out: &mut W,
    header: &Header,
    carrier: &Carrier,
    trailer: &Trailer,
    plan: Vec<FlightPieces>,
) -> Result<(), WriteFault>
    requires few { All (λ p. length p.1 ≤ 99) plan.items }
    requires room { 3 + plan_count plan.items < 1000000 }
    ensures puts { Puts (plan_bytes (frame_from header.now carrier.now trailer.now) plan.items)
        (W.state out.old) (W.state out.new) result }
    ensures writable { OnOk result (All HasWritablePieces plan.items) }
{
    let mut block = OutputBuffer::new();
    put_alone(out, &mut block, &Record::Header(header.with_serial(1)))?;
    put_alone(out, &mut block, &Record::Carrier(carrier.with_serial(2)))?;
    let next = put_body(out, &mut block, carrier.airline(), plan)?;
    put_alone(
        out,
        &mut block,
        &Record::Trailer(trailer.with_serials(next - 1, next)),
    )?;
    flush(out, &mut block)
}

// Puts one record, and fill up to five records.
fn put_alone<W: Sink>(out: &mut W, block: &mut OutputBuffer, one: &Record) -> Result<(), WriteFault>
    ensures { PutsUpTo (block.old ++ alone_bytes one.now) block.new
        (W.state out.old) (W.state out.new) result }
{
    put_record(out, block, one)?;
    put_fill(out, block, 4)
}

// Puts the flights, and fill up to a multiple of five records. Returns the next serial.
fn put_body<W: Sink>(
    out: &mut W,
    block: &mut OutputBuffer,
    airline: Airline,
    plan: Vec<FlightPieces>,
) -> Result<u32, WriteFault>
    requires few { All (λ p. length p.1 ≤ 99) plan.items }
    requires room { 3 + plan_count plan.items ≤ 1000000 }
    ensures next { IfOk result (λ next. next ≡ 3 + plan_count plan.items) }
    ensures puts { PutsUpTo
        (block.old ++ section_bytes (numbered 3 (plan_records airline plan.items))) block.new
        (W.state out.old) (W.state out.new) result }
    ensures writable { OnOk result (All HasWritablePieces plan.items) }
{
    let next = put_flights(out, block, airline, plan, 3)?;
    put_fill(out, block, fill_count(next as usize - 3))?;
    Ok(next)
}

fn fill_count(count: usize) -> usize
    ensures { result ≡ fill_count count }
{
    (5 - count % 5) % 5
}

// Puts the flights with serials from `serial` on. Returns the next serial.
fn put_flights<W: Sink>(
    out: &mut W,
    block: &mut OutputBuffer,
    airline: Airline,
    plan: Vec<FlightPieces>,
    serial: u32,
) -> Result<u32, WriteFault>
    requires few { All (λ p. length p.1 ≤ 99) plan.items }
    requires room { serial + plan_count plan.items ≤ 1000000 }
    ensures next { IfOk result (λ next. next ≡ serial + plan_count plan.items) }
    ensures puts { PutsUpTo (block.old ++ plan_lines airline serial plan.items) block.new
        (W.state out.old) (W.state out.new) result }
    ensures writable { OnOk result (All HasWritablePieces plan.items) }
{
    let mut next = serial;
    for planned in plan {
        next = put_pieces(
            out,
            block,
            airline,
            planned.flight(),
            planned.pieces(),
            next,
        )?;
    }
    Ok(next)
}

// Puts the pieces of a flight as itinerary variations 1, 2, .. Returns the next serial.
fn put_pieces<W: Sink>(
    out: &mut W,
    block: &mut OutputBuffer,
    airline: Airline,
    flight: Flight,
    pieces: &[(Period, Itinerary)],
    serial: u32,
) -> Result<u32, WriteFault>
    requires few { length pieces.now ≤ 99 }
    requires room { serial + pieces_count pieces.now ≤ 1000000 }
    ensures next { IfOk result (λ next. next ≡ serial + pieces_count pieces.now) }
    ensures puts { PutsUpTo (block.old ++ piece_lines airline flight 1 serial pieces.now) block.new
        (W.state out.old) (W.state out.new) result }
    ensures writable { OnOk result (All HasWritableLegs pieces.now) }
{
    let mut next = serial;
    let mut variation = 1;
    for piece in pieces {
        let (period, itinerary) = piece;
        next = put_legs(
            out,
            block,
            airline,
            flight,
            variation,
            *period,
            itinerary.legs(),
            next,
        )?;
        variation += 1;
    }
    Ok(next)
}

// Puts the legs of a piece, each followed by its tails. Returns the next serial.
fn put_legs<W: Sink>(
    out: &mut W,
    block: &mut OutputBuffer,
    airline: Airline,
    flight: Flight,
    variation: u8,
    period: Period,
    legs: &[PlacedLeg],
    serial: u32,
) -> Result<u32, WriteFault>
    requires variation { variation < 100 }
    requires room { serial + legs_count legs.now ≤ 1000000 }
    ensures next { IfOk result (λ next. next ≡ serial + legs_count legs.now) }
    ensures puts { PutsUpTo
        (block.old ++ leg_lines airline flight variation period serial legs.now) block.new
        (W.state out.old) (W.state out.new) result }
    ensures writable { OnOk result (All IsWritable legs.now) }
{
    let dates = PeriodText::new(period);
    let mut next = serial;
    for leg in legs {
        let name = NameText::new(LegName::new(airline, flight, variation, leg.sequence()));
        let columns = leg.columns_held();
        put_leg(out, block, &name, &dates, columns, next)?;
        next = put_tails(out, block, &name, columns, leg.tails(), next + 1)?;
    }
    Ok(next)
}

// Puts the tails of a leg with this name and these columns. Returns the next serial.
fn put_tails<W: Sink>(
    out: &mut W,
    block: &mut OutputBuffer,
    name: &NameText,
    columns: &LegColumns,
    tails: &[SegmentTail],
    serial: u32,
) -> Result<u32, WriteFault>
    requires { serial + length tails.now ≤ 1000000 }
    ensures next { IfOk result (λ next. next ≡ serial + length tails.now) }
    ensures puts { PutsUpTo
        (block.old ++ tail_lines name.now columns.now serial tails.now) block.new
        (W.state out.old) (W.state out.new) result }
    ensures writable { OnOk result (All IsTail tails.now) }
{
    let mut next = serial;
    for tail in tails {
        put_segment(out, block, name, columns, tail, next)?;
        next += 1;
    }
    Ok(next)
}
