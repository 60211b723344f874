//! The rows of segment records.

ghost use Rattle.std.specs.Prelude.{◌≡◌, ◌++◌, ℕ, List, OnOk, map};
ghost use Rattle.ssim_sql.specs.SegmentRows.{segment_row, segment_rows, segment_values};
ghost use Rattle.ssim_sql.specs.internal.Tables.{script_with};
ghost use Rattle.ssim_sql.specs.internal.Values.{value_text};

use crate::blanks::trimmed;
use crate::flights::PeriodOf;
use crate::table::{Numbered, Table, put_numbered, put_row};
use crate::value::Value;
use ssim_records::SegmentTail;
use ssim_schedule::PlacedLeg;
use ssim_text::without_end;
use ssim_values::{Day, Memory};

/// A leg of a flight of a timetable, on a period that begins on a day.
#[derive(Clone, Copy)]
struct LegOf<'a> {
    /// The name of the timetable.
    name: &'a [u8],
    flight: &'a [u8],
    first: Day,
    sequence: u8,
}

/// Adds the rows of the segment records of a leg.
pub(crate) fn put_segments(
    table: &mut Table,
    of: &PeriodOf<'_>,
    leg: &PlacedLeg,
) -> Result<(), Memory>
    ensures { OnOk result ((later : List (List ℕ)) → script_with table.new later
        ≡ script_with table.old (segment_rows of.now.name.now of.now.mode of.now.flight.now
        of.now.period leg.now ++ later)) }
{
    let here = LegOf {
        name: of.name,
        flight: of.flight,
        first: of.period.first(),
        sequence: leg.sequence(),
    };
    put_numbered(table, &here, leg.tails())
}

impl Numbered<LegOf<'_>> for SegmentTail {
    ghost text_at = { λ of place tail.
        segment_row of.name.now of.flight.now of.first of.sequence place tail };

    // Adds the row of a segment record.
    #[tactic(auto, unfolding(crate::specs::SegmentRows::segment_row))]
    fn put_at(&self, of: &LegOf<'_>, number: u64, table: &mut Table) -> Result<(), Memory> {
        let bytes = self.bytes();
        let values = segment_values(of.flight, of.first, of.sequence, number, &bytes);
        put_row(table, of.name, &values)
    }
}

// The values of a segment record with this tail, in the order of the columns of the table.
fn segment_values<'a>(
    flight: &'a [u8],
    first: Day,
    sequence: u8,
    number: u64,
    tail: &'a [u8; 179],
) -> [Value<'a>; 8]
    ensures { map value_text result
        ≡ segment_values flight.now first sequence number tail.now }
{
    [
        Value::Text(flight),
        Value::Date(first),
        Value::Number(sequence as u64),
        Value::Number(number),
        Value::Text(trimmed(&tail[13..15])),
        Value::Text(trimmed(&tail[15..18])),
        Value::Text(trimmed(&tail[18..24])),
        Value::Text(without_end(&tail[24..179])),
    ]
}
