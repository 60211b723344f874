//! Leg and segment records of the texts of their names and dates. Each kind of record has one
//! writer.

ghost use Rattle.std.specs.Prelude.{◌≡◌, ◌<◌, length};
ghost use Rattle.ssim_columns.specs.Leg.{AreLegColumns};
ghost use Rattle.ssim_columns.specs.clauses.Leg.{leg_of_texts};
ghost use Rattle.ssim_columns.specs.Segment.{IsTail};
ghost use Rattle.ssim_columns.specs.clauses.Segment.{segment_of_texts};

use crate::leg::leg_columns::LegColumns;
use crate::leg::leg_fields::{AFTER_OVERFLOW, MIDDLE, SERVICE_TYPE};
use crate::segment::segment_tail::SegmentTail;
use crate::text::array::bytes_of;
use crate::text::number::six_digits;
use crate::text::overlay::append;

/// The two columns of a leg record that a base leaves blank.
#[derive(Clone, Copy)]
pub struct LegMarks {
    /// Column 36: the frequency rate.
    pub rate: u8,
    /// Column 128: the overflow of the itinerary variation.
    pub overflow: u8,
}

/// Writes a leg record over 200 bytes: of the texts of its name and dates, its frequency rate and
/// overflow, its columns and serial.
pub fn write_leg(
    out: &mut [u8],
    name: &[u8; 12],
    dates: &[u8; 21],
    marks: LegMarks,
    columns: &LegColumns,
    serial: u32,
)
    requires serial { serial < 1000000 }
    requires room { length out.old ≡ 200 }
    ensures value { out.new
        ≡ leg_of_texts name.now dates.now marks.rate columns.now marks.overflow serial }
    ensures columns { AreLegColumns columns.now }
{
    let at = append(out, 0, b"3");
    let at = append(out, at, name);
    let at = append(out, at, columns.text(SERVICE_TYPE));
    let at = append(out, at, dates);
    let at = append(out, at, &[marks.rate]);
    let at = append(out, at, &bytes_of::<91>(columns.text(MIDDLE)));
    let at = append(out, at, &[marks.overflow]);
    let at = append(out, at, &bytes_of::<66>(columns.text(AFTER_OVERFLOW)));
    append(out, at, &six_digits(serial));
}

/// Writes a segment record over 200 bytes: of the text of its name, its service type, tail,
/// overflow and serial.
pub fn write_segment(
    out: &mut [u8],
    name: &[u8; 12],
    service: u8,
    tail: &SegmentTail,
    overflow: u8,
    serial: u32,
)
    requires serial { serial < 1000000 }
    requires room { length out.old ≡ 200 }
    ensures value { out.new ≡ segment_of_texts name.now service tail.now overflow serial }
    ensures tail { IsTail tail.now }
{
    let own = tail.bytes_held();
    let at = append(out, 0, b"4");
    let at = append(out, at, name);
    let at = append(out, at, &[service]);
    let at = append(out, at, &bytes_of::<13>(&own[0..13]));
    let at = append(out, at, &[overflow]);
    let at = append(out, at, &bytes_of::<83>(&own[13..96]));
    let at = append(out, at, &bytes_of::<83>(&own[96..179]));
    append(out, at, &six_digits(serial));
}
