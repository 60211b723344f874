//! The lines of messages that the columns of legs and tails have.

ghost use Rattle.std.specs.Prelude.{◌≡◌, ◌+◌, ◌%◌, ◌≤◌, ℕ, Some, IfOk, IfSome};
ghost use Rattle.ssim_columns.specs.Numbers.{digits};
ghost use Rattle.ssim_text.specs.Grammar.{IsEquipment, IsLegLine, IsSegmentLine};
ghost use Rattle.ssim_text.specs.Values.{EquipmentValue};
ghost use Rattle.ssim_text.specs.declared.leg.LegEnd.{LegEnd};
ghost use Rattle.ssim_text.specs.declared.leg.LegLine.{LegLine};
ghost use Rattle.ssim_text.specs.declared.segment.SegmentLine.{SegmentLine};
ghost use Rattle.ssim_outbox.specs.internal.ColumnLines.{HasEquipment, HasLine, HasSegment};

use ssim_records::{LegColumns, SegmentTail};
use ssim_text::{Equipment, LegEnd, LegLine, SegmentLine, read_station, without_end};
use ssim_values::{Clock, Memory, Station};
use std::alloc::Global;

/// The equipment of a leg with these columns, if a line of a text can spell it.
pub(crate) fn equipment_of(columns: &LegColumns) -> Option<Equipment>
    ensures line { IfSome result IsEquipment }
    ensures found { (equipment : EquipmentValue) → IsEquipment equipment
        → HasEquipment equipment columns.now → result ≡ Some equipment }
{
    let designators = columns.booking_designators();
    let configuration = columns.configuration();
    Equipment::new(
        columns.service_type(),
        columns.aircraft_type(),
        without_end(&designators),
        without_end(&configuration),
    )
}

/// The leg line of a leg with these columns, if a line of a text can spell it.
pub(crate) fn leg_line_of(columns: &LegColumns) -> Option<LegLine>
    ensures line { IfSome result IsLegLine }
    ensures found { (line : LegLine) → HasLine line columns.now → result ≡ Some line }
{
    LegLine::new(departure_of(columns)?, arrival_of(columns)?)
}

fn departure_of(columns: &LegColumns) -> Option<LegEnd>
    ensures { (line : LegLine) → HasLine line columns.now → result ≡ Some line.departure }
{
    end_of(
        columns.departure_station(),
        columns.aircraft_departure_time(),
        columns.date_variations()[0],
        columns.passenger_departure_time(),
    )
}

fn arrival_of(columns: &LegColumns) -> Option<LegEnd>
    ensures { (line : LegLine) → HasLine line columns.now → result ≡ Some line.arrival }
{
    end_of(
        columns.arrival_station(),
        columns.aircraft_arrival_time(),
        columns.date_variations()[1],
        columns.passenger_arrival_time(),
    )
}

// One end of a leg line, with the digit of its date variation.
fn end_of(station: Station, time: Clock, digit: u8, passenger: Option<Clock>) -> Option<LegEnd>
    ensures { (e : LegEnd) → e.variation ≤ 7 → station ≡ e.station → time ≡ e.time
        → digit ≡ 48 + e.variation % 10 → passenger ≡ Some e.passenger → result ≡ Some e }
{
    let passenger = passenger?;
    if digit < b'0' {
        return None;
    }
    Some(LegEnd {
        station,
        time,
        variation: digit - b'0',
        passenger,
    })
}

/// The segment line that gives a tail, if a line of a text can spell it. No segment line has the
/// pair of points `QQQQQQ`.
pub(crate) fn segment_line_of(
    alloc: Global,
    tail: &SegmentTail,
) -> Result<Option<SegmentLine>, Memory>
    ensures line { IfOk result (λ made. IfSome made IsSegmentLine) }
    ensures found { (segment : SegmentLine) → HasSegment segment tail.now
        → IfOk result (λ made. made ≡ Some segment) }
{
    let Some(board) = read_station(&tail.board_point()) else {
        return Ok(None);
    };
    let Some(off) = read_station(&tail.off_point()) else {
        return Ok(None);
    };
    let identifier = number_of(tail.data_element_identifier());
    let data = tail.data();
    Ok(SegmentLine::new(alloc, board, off, identifier, without_end(&data))?)
}

/// The number that three digits spell; of other bytes any number, which has other digits.
pub(crate) fn number_of(text: [u8; 3]) -> u16
    ensures { (n : ℕ) → n ≤ 999 → text ≡ digits 3 n → result ≡ n }
{
    100 * value_of(text[0]) + 10 * value_of(text[1]) + value_of(text[2])
}

fn value_of(digit: u8) -> u16
    ensures value { (n : ℕ) → digit ≡ 48 + n → result ≡ n }
    ensures bound { result ≤ 255 }
{
    digit.saturating_sub(b'0') as u16
}
