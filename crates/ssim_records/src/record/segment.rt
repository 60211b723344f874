//! Segment data records, type 4.

ghost use Rattle.std.specs.Prelude.{◌≡◌, ◌↔◌, ◌<◌, ◌∷◌, [], IsTrue, length};
ghost use Rattle.ssim_columns.specs.Columns.{columns, is_carried};
ghost use Rattle.ssim_columns.specs.Segment.{IsSegment, SpellsSegment, written_segment};
ghost use Rattle.ssim_columns.specs.clauses.Heads.{IsSegmentHead};

use ssim_columns::leg_fields::SERVICE_TYPE;
use ssim_columns::{
    LegName, SegmentHead, SegmentTail, carried_at, has_digits, name_text, write_segment,
};
use ssim_values::Airline;
use std::marker::Model;

/// Data of a segment that begins with a leg, as its record has them: the name of the leg, and the
/// tail.
#[derive(Clone, Copy, Debug, PartialEq, Eq)]
pub struct SegmentRecord {
    /// Columns 2 to 13.
    name: LegName,
    /// Column 14, carried: the service type.
    service: u8,
    /// Columns 15 to 27 and 29 to 194.
    tail: SegmentTail,
    /// Column 28, carried: the overflow of the itinerary variation.
    overflow: u8,
    /// The serial that the record had, below 1,000,000.
    serial: u32,
}

impl Model for SegmentRecord {
    ghost use Rattle.ssim_columns.specs.Segment.{SegmentFields, IsSegment};

    ghost Value = { SegmentFields };

    ghost view = { λ r. record {
      name = r.name;
      service = r.service;
      tail = r.tail;
      overflow = r.overflow;
      serial = r.serial;
    } };

    ghost invariant = { λ r. IsSegment (view r) };

    ghost inverse = { λ v. record {
      name = v.name;
      service = v.service;
      tail = v.tail;
      overflow = v.overflow;
      serial = v.serial;
    } };
}

impl SegmentRecord {
    /// The record of a tail, with a blank for overflow, and the serial 0.
    pub fn new(name: LegName, service: u8, tail: SegmentTail) -> SegmentRecord
        requires { IsTrue (is_carried service) }
        ensures { result ≡ record {
          name = name;
          service = service;
          tail = tail;
          overflow = 32;
          serial = 0;
        } }
    {
        // No effect at run time. The proof reads from these uses that the parts are valid.
        let _ = name.airline();
        let _ = tail.bytes();
        SegmentRecord {
            name,
            service,
            tail,
            overflow: b' ',
            serial: 0,
        }
    }

    /// A record with blanks in all other columns.
    pub(crate) fn blank(name: LegName) -> SegmentRecord {
        SegmentRecord::new(name, b' ', SegmentTail::blank())
    }

    /// Which leg it belongs to.
    pub fn name(&self) -> LegName
        ensures { result ≡ self.now.name }
    {
        self.name
    }

    /// The airline whose flight it is.
    pub fn airline(&self) -> Airline
        ensures { result ≡ self.now.name.airline }
    {
        self.name.airline()
    }

    /// The service type, column 14.
    pub fn service_type(&self) -> u8
        ensures { result ≡ self.now.service }
    {
        self.service
    }

    /// The columns of its own.
    pub fn tail(&self) -> SegmentTail
        ensures { result ≡ self.now.tail }
    {
        self.tail
    }

    /// The overflow of the itinerary variation, column 28.
    pub fn overflow(&self) -> u8
        ensures { result ≡ self.now.overflow }
    {
        self.overflow
    }

    /// The serial that the record had.
    pub fn serial(&self) -> u32
        ensures value { result ≡ self.now.serial }
        ensures is_segment { IsSegment self.now }
    {
        self.serial
    }

    /// The same record with this serial.
    pub fn with_serial(self, serial: u32) -> SegmentRecord
        requires { serial < 1000000 }
        ensures { result ≡ record self { serial = serial } }
    {
        let mut segment = self;
        segment.serial = serial;
        segment
    }

    /// The overflow becomes a blank, and the serial becomes 0.
    pub fn close(&mut self)
        ensures { self.new ≡ record self.old { overflow = 32; serial = 0 } }
    {
        self.overflow = b' ';
        self.serial = 0;
    }

    /// The segment becomes the one that a record spells. The columns that were not parsed are
    /// copied.
    pub(crate) fn put(&mut self, bytes: &[u8; 200], head: &SegmentHead)
        requires kind { columns 1 1 bytes.now ≡ 52 ∷ [] }
        requires head { IsSegmentHead head.now bytes.now }
        ensures { SpellsSegment self.new bytes.now }
    {
        self.name = head.name;
        self.service = carried_at(bytes, SERVICE_TYPE.first);
        self.tail.put(bytes);
        self.overflow = carried_at(bytes, 28);
        self.serial = head.serial;
    }

    /// Whether two segments are the same.
    pub(crate) fn same(&self, other: &SegmentRecord) -> bool
        ensures { IsTrue result ↔ (self.now ≡ other.now) }
    {
        self == other
    }

    /// Writes the one written spelling over 200 bytes.
    pub(crate) fn write_over(&self, out: &mut [u8])
        requires { length out.old ≡ 200 }
        ensures value { out.new ≡ written_segment self.now }
        ensures is_segment { IsSegment self.now }
    {
        write_segment(
            out,
            &name_text(self.name),
            self.service,
            &self.tail,
            self.overflow,
            self.serial,
        );
    }

    /// The one written spelling.
    pub(crate) fn written(&self) -> [u8; 200]
        ensures value { result ≡ written_segment self.now }
        ensures is_segment { IsSegment self.now }
        ensures spells { SpellsSegment self.now result }
    {
        let mut bytes = [b' '; 200];
        self.write_over(&mut bytes);
        bytes
    }

    /// Whether the bytes, which spell this record, are its written spelling: the numbers of the
    /// name have no blanks. The other columns are carried, or have one spelling.
    pub(crate) fn is_written(&self, bytes: &[u8; 200]) -> bool
        requires { SpellsSegment self.now bytes.now }
        ensures same { IsTrue result ↔ (bytes.now ≡ written_segment self.now) }
        ensures is_segment { IsSegment self.now }
    {
        // No effect at run time. The proof reads from this use that the record is valid.
        let _ = self.serial();
        has_digits(bytes)
    }
}
