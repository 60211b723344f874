//! Flight leg records, type 3.

ghost use Rattle.std.specs.Prelude.{◌≡◌, ◌↔◌, IsTrue, ◌≤◌, ◌<◌, ◌∷◌, [], Some, length};
ghost use Rattle.ssim_columns.specs.Columns.{columns};
ghost use Rattle.ssim_columns.specs.Leg.{IsLeg, IsEnd, SpellsLeg, leg_columns, written_leg};
ghost use Rattle.ssim_columns.specs.clauses.Heads.{IsLegHead};

use crate::record::segment::SegmentRecord;
use ssim_columns::leg_fields::{DAYS, OVERFLOW, RATE};
use ssim_columns::{
    LegColumns, LegHead, LegMarks, LegName, SegmentTail, are_same_seven, carried_at, dates_text,
    has_digits, name_text, own_columns_at, seven, write_leg,
};
use ssim_values::{Airline, Day, DayMask, Flight, Period};
use std::marker::Model;

/// A flight leg as its record has it: its name, its period, and its own columns.
#[derive(Clone, Copy, Debug)]
pub struct LegRecord {
    /// Columns 2 to 13.
    name: LegName,
    /// Columns 15 to 21: the first day of the period.
    first: Day,
    /// Columns 22 to 28: its last day, or none if it is open.
    last: Option<Day>,
    /// Columns 29 to 35: the days of operation.
    days: DayMask,
    /// Column 36, carried: the frequency rate.
    rate: u8,
    /// Columns 14, 37 to 127 and 129 to 194.
    columns: LegColumns,
    /// Column 128, carried: the overflow of the itinerary variation.
    overflow: u8,
    /// The serial that the record had, below 1,000,000.
    serial: u32,
}

impl Model for LegRecord {
    ghost use Rattle.ssim_columns.specs.Leg.{LegFields, IsLeg};

    ghost Value = { LegFields };

    ghost view = { λ r. record {
      name = r.name;
      first = r.first;
      last = r.last;
      days = r.days;
      rate = r.rate;
      columns = r.columns;
      overflow = r.overflow;
      serial = r.serial;
    } };

    ghost invariant = { λ r. IsLeg (view r) };

    ghost inverse = { λ v. record {
      name = v.name;
      first = v.first;
      last = v.last;
      days = v.days;
      rate = v.rate;
      columns = v.columns;
      overflow = v.overflow;
      serial = v.serial;
    } };
}

/// The flight leg that a record spells, of the columns that were parsed. The other columns are
/// copied.
pub(crate) fn leg_with(bytes: &[u8; 200], head: &LegHead) -> LegRecord
    requires kind { columns 1 1 bytes.now ≡ 51 ∷ [] }
    requires head { IsLegHead head.now bytes.now }
    ensures { SpellsLeg result bytes.now }
{
    // No effect at run time. The proof reads from these uses that the parts are valid.
    let _ = head.first.number();
    let _ = head.days.days();
    LegRecord {
        name: head.name,
        first: head.first,
        last: head.last,
        days: head.days,
        rate: carried_at(bytes, RATE.first),
        columns: own_columns_at(bytes),
        overflow: carried_at(bytes, OVERFLOW.first),
        serial: head.serial,
    }
}

fn same_end(mine: Option<Day>, theirs: Option<Day>) -> bool
    ensures { IsTrue result ↔ (mine ≡ theirs) }
{
    match (mine, theirs) {
        (None, None) => true,
        (Some(mine), Some(theirs)) => mine == theirs,
        _ => false,
    }
}

impl LegRecord {
    /// The record of a leg in a period, with blanks for frequency rate and overflow, and the serial
    /// 0.
    pub fn new(name: LegName, period: Period, columns: LegColumns) -> LegRecord
        ensures { result ≡ record {
          name = name;
          first = period.first;
          last = Some period.last;
          days = period.days;
          rate = 32;
          columns = columns;
          overflow = 32;
          serial = 0;
        } }
    {
        // No effect at run time. The proof reads from these uses that the parts are valid.
        let _ = name.airline();
        let _ = columns.bytes();
        LegRecord {
            name,
            first: period.first(),
            last: Some(period.last()),
            days: period.mask(),
            rate: b' ',
            columns,
            overflow: b' ',
            serial: 0,
        }
    }

    /// Which leg it is.
    pub fn name(&self) -> LegName
        ensures { result ≡ self.now.name }
    {
        self.name
    }

    /// The airline whose flight it is.
    pub fn airline(&self) -> Airline
        ensures { result ≡ self.now.name.airline }
    {
        self.name.airline()
    }

    /// The flight.
    pub fn flight(&self) -> Flight
        ensures { result ≡ self.now.name.flight }
    {
        self.name.flight()
    }

    /// The first day of the period.
    pub fn first(&self) -> Day
        ensures { result ≡ self.now.first }
    {
        self.first
    }

    /// The last day of the period, not before the first, or none if it is open.
    pub fn last(&self) -> Option<Day>
        ensures value { result ≡ self.now.last }
        ensures is_end { IsEnd self.now.first result }
    {
        self.last
    }

    /// The days of operation.
    pub fn days(&self) -> DayMask
        ensures { result ≡ self.now.days }
    {
        self.days
    }

    /// The frequency rate, column 36.
    pub fn rate(&self) -> u8
        ensures { result ≡ self.now.rate }
    {
        self.rate
    }

    /// The leg's own columns.
    pub fn columns(&self) -> LegColumns
        ensures { result ≡ self.now.columns }
    {
        self.columns
    }

    /// The overflow of the itinerary variation, column 128.
    pub fn overflow(&self) -> u8
        ensures { result ≡ self.now.overflow }
    {
        self.overflow
    }

    /// The serial that the record had.
    pub fn serial(&self) -> u32
        ensures value { result ≡ self.now.serial }
        ensures is_leg { IsLeg self.now }
    {
        self.serial
    }

    /// The same record with this serial.
    pub fn with_serial(self, serial: u32) -> LegRecord
        requires { serial < 1000000 }
        ensures { result ≡ record self { serial = serial } }
    {
        let mut leg = self;
        leg.serial = serial;
        leg
    }

    /// The last day becomes this one, frequency rate and overflow become blanks, and the serial
    /// becomes 0.
    pub fn close(&mut self, last: Day)
        requires { self.old.first ≤ last }
        ensures { self.new ≡ record self.old
            { last = Some last; rate = 32; overflow = 32; serial = 0 } }
    {
        // No effect at run time. The proof reads from this use that the day is in range.
        let _ = last.number();
        self.last = Some(last);
        self.rate = b' ';
        self.overflow = b' ';
        self.serial = 0;
    }

    /// A segment record of this leg: its name, its service type, this tail, a blank for overflow,
    /// and the serial 0.
    pub fn segment(&self, tail: SegmentTail) -> SegmentRecord
        ensures name { result.name ≡ self.now.name }
        ensures service { leg_columns 14 14 self.now.columns ≡ result.service ∷ [] }
        ensures tail { result.tail ≡ tail }
        ensures overflow { result.overflow ≡ 32 }
        ensures serial { result.serial ≡ 0 }
    {
        SegmentRecord::new(self.name, self.columns.service_type(), tail)
    }

    /// The flight leg becomes the one that a record spells, as `leg_with` gives it.
    pub(crate) fn put(&mut self, bytes: &[u8; 200], head: &LegHead)
        requires kind { columns 1 1 bytes.now ≡ 51 ∷ [] }
        requires head { IsLegHead head.now bytes.now }
        ensures { SpellsLeg self.new bytes.now }
    {
        // No effect at run time. The proof reads from these uses that the parts are valid.
        let _ = head.first.number();
        let _ = head.days.days();
        self.name = head.name;
        self.first = head.first;
        self.last = head.last;
        self.days = head.days;
        self.rate = carried_at(bytes, RATE.first);
        self.columns.put(bytes);
        self.overflow = carried_at(bytes, OVERFLOW.first);
        self.serial = head.serial;
    }

    /// Whether two legs are the same.
    pub(crate) fn same(&self, other: &LegRecord) -> bool
        ensures { IsTrue result ↔ (self.now ≡ other.now) }
    {
        if self.name != other.name {
            return false;
        }
        if self.first != other.first {
            return false;
        }
        if !same_end(self.last, other.last) {
            return false;
        }
        if self.days != other.days {
            return false;
        }
        if self.rate != other.rate {
            return false;
        }
        if self.overflow != other.overflow {
            return false;
        }
        if self.serial != other.serial {
            return false;
        }
        self.columns.same(&other.columns)
    }

    /// Writes the one written spelling over 200 bytes.
    pub(crate) fn write_over(&self, out: &mut [u8])
        requires { length out.old ≡ 200 }
        ensures value { out.new ≡ written_leg self.now }
        ensures is_leg { IsLeg self.now }
    {
        let marks = LegMarks {
            rate: self.rate,
            overflow: self.overflow,
        };
        write_leg(
            out,
            &name_text(self.name),
            &dates_text(self.first, self.last, self.days),
            marks,
            &self.columns,
            self.serial,
        );
    }

    /// The one written spelling.
    pub(crate) fn written(&self) -> [u8; 200]
        ensures value { result ≡ written_leg self.now }
        ensures is_leg { IsLeg self.now }
        ensures spells { SpellsLeg self.now result }
    {
        let mut bytes = [b' '; 200];
        self.write_over(&mut bytes);
        bytes
    }

    /// Whether the bytes, which spell this record, are its written spelling: the numbers of the
    /// name have no blanks, and each day of operation is in its place. The other columns are
    /// carried, or have one spelling.
    pub(crate) fn is_written(&self, bytes: &[u8; 200]) -> bool
        requires { SpellsLeg self.now bytes.now }
        ensures same { IsTrue result ↔ (bytes.now ≡ written_leg self.now) }
        ensures is_leg { IsLeg self.now }
    {
        has_digits(bytes) && are_same_seven(seven(DAYS.text(bytes)), self.days.write())
    }
}
