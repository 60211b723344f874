//! The names of legs with their texts, as records of types 3 and 4 have them in columns 2 to 13.

ghost use Rattle.std.specs.Prelude.{◌≡◌, ◌<◌, ◌↔◌, IsTrue, length, slice_index};
ghost use Rattle.std.specs.List.{concat};
ghost use Rattle.ssim_columns.specs.clauses.Heads.{HasDigits};
ghost use Rattle.ssim_columns.specs.Leg.{AreLegColumns, exported_leg, name_texts, written_leg};
ghost use Rattle.ssim_columns.specs.Segment.{IsTail, exported_segment, written_segment};

use crate::leg::leg_columns::LegColumns;
use crate::leg::leg_name::LegName;
use crate::leg::period_text::PeriodText;
use crate::record_writers::{LegMarks, write_leg, write_segment};
use crate::segment::segment_tail::SegmentTail;
use crate::text::number::{both_digits, four_digits};
use crate::text::overlay::join;
use ssim_values::are_digits;
use std::marker::Model;

/// Columns 2 to 13 as they are written.
pub fn name_text(name: LegName) -> [u8; 12]
    ensures { result ≡ concat (name_texts name) }
{
    let mut text = [b' '; 12];
    join(
        &mut text,
        &[
            &[name.flight().suffix()],
            &name.airline().write(),
            &four_digits(name.flight().number() as u32),
            &both_digits(name.variation()),
            &both_digits(name.sequence()),
        ],
    );
    text
}

/// Whether the numbers in columns 6 to 13 have no blanks. If these columns spell a name, they then
/// are as it is written.
pub fn has_digits(bytes: &[u8; 200]) -> bool
    ensures { IsTrue result ↔ HasDigits bytes.now }
{
    are_digits(&bytes[5..13])
}

/// The name of a leg with its text: columns 2 to 13 of its leg record and of its segment records.
#[derive(Drop)]
pub struct NameText {
    name: LegName,
    text: [u8; 12],
}

impl Model for NameText {
    ghost use Rattle.std.specs.Prelude.{◌≡◌};
    ghost use Rattle.std.specs.List.{concat};
    ghost use Rattle.ssim_columns.specs.Leg.{Name, name_texts};

    ghost Value = { Name };

    ghost view = { λ n. n.name };

    ghost invariant = { λ n. n.text ≡ concat (name_texts n.name) };
}

impl NameText {
    /// The name with its text.
    pub fn new(name: LegName) -> NameText
        ensures { result ≡ name }
    {
        NameText {
            name,
            text: name_text(name),
        }
    }

    /// Writes the record of this leg in a period, with these columns and this serial, and with
    /// blanks for frequency rate and overflow.
    pub fn write_leg(&self, period: &PeriodText, columns: &LegColumns, serial: u32, out: &mut [u8])
        requires serial { serial < 1000000 }
        requires room { length out.old ≡ 200 }
        ensures value { out.new ≡ written_leg
            (exported_leg self.now period.now columns.now serial) }
        ensures columns { AreLegColumns columns.now }
    {
        let blank = LegMarks {
            rate: b' ',
            overflow: b' ',
        };
        write_leg(out, &self.text, period.text(), blank, columns, serial);
    }

    /// Writes the record of a segment that begins with this leg, which has these columns: with this
    /// tail and this serial, and with a blank for overflow.
    pub fn write_segment(
        &self,
        columns: &LegColumns,
        tail: &SegmentTail,
        serial: u32,
        out: &mut [u8],
    )
        requires serial { serial < 1000000 }
        requires room { length out.old ≡ 200 }
        ensures value { out.new ≡ written_segment
            (exported_segment self.now (slice_index columns.now 0) tail.now serial) }
        ensures tail { IsTail tail.now }
    {
        let service = columns.bytes_held()[0];
        write_segment(out, &self.text, service, tail, b' ', serial);
    }
}
