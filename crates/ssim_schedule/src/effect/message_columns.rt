//! The columns that the lines of a message write in a leg and in the tail of a segment.

ghost use Rattle.std.specs.Prelude.{◌≡◌, ◌<◌};
ghost use Rattle.ssim_records.specs.clauses.LegParts.{equipment_fields};
ghost use Rattle.ssim_schedule.specs.MessageColumns.{equipment_of, new_columns, segment_tail, stations_of, times_of, with_equipment, with_times};

use ssim_records::{LegColumns, LegEquipment, LegStations, LegTimes, SegmentTail};
use ssim_text::{Equipment, LegLine, SegmentLine};
use ssim_values::Variation;

/// The columns of a leg with the equipment of an equipment line.
pub(crate) fn with_equipment(columns: LegColumns, equipment: &Equipment) -> LegColumns
    ensures { result ≡ with_equipment equipment.now columns }
{
    columns.with_equipment(&equipment_of(equipment))
}

/// The columns of a leg with the times and date variations of a leg line.
pub(crate) fn with_times(columns: LegColumns, line: &LegLine) -> LegColumns
    ensures { result ≡ with_times line.now columns }
{
    columns.with_times(&times_of(line))
}

/// The columns of a new leg whose stations have these UTC variations.
pub(crate) fn new_columns(
    here: Variation,
    there: Variation,
    line: &LegLine,
    equipment: &Equipment,
) -> LegColumns
    ensures { result ≡ new_columns here there line.now equipment.now }
{
    LegColumns::new(
        &stations_of(here, there, line),
        &times_of(line),
        &equipment_of(equipment),
    )
}

/// The tail of a segment line whose pair of points is the leg lines from one place to another,
/// counted from 0.
pub(crate) fn segment_tail(from: usize, to: usize, segment: &SegmentLine) -> SegmentTail
    requires from { from < 20 }
    requires to { to < 20 }
    ensures { result ≡ segment_tail from to segment.now }
{
    SegmentTail::new(
        [b'A' + from as u8, b'B' + to as u8],
        segment.identifier,
        segment.board,
        segment.off,
        segment.text.bytes(),
    )
}

fn stations_of(here: Variation, there: Variation, line: &LegLine) -> LegStations
    ensures { result ≡ stations_of here there line.now }
{
    LegStations {
        departure: line.departure.station,
        departure_variation: here,
        arrival: line.arrival.station,
        arrival_variation: there,
    }
}

fn times_of(line: &LegLine) -> LegTimes
    ensures { result ≡ times_of line.now }
{
    LegTimes {
        passenger_departure: line.departure.passenger,
        aircraft_departure: line.departure.time,
        aircraft_arrival: line.arrival.time,
        passenger_arrival: line.arrival.passenger,
        departure_date_variation: line.departure.variation,
        arrival_date_variation: line.arrival.variation,
    }
}

fn equipment_of(equipment: &Equipment) -> LegEquipment<'_>
    ensures { equipment_fields result ≡ equipment_of equipment.now }
{
    LegEquipment {
        service_type: equipment.service(),
        aircraft_type: equipment.aircraft(),
        booking_designators: equipment.designators(),
        configuration: equipment.configuration(),
    }
}
