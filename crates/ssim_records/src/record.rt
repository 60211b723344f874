//! A record of any type.

ghost use Rattle.std.specs.Prelude.{◌≡◌, ◌≢◌, ◌<◌, ◌↔◌, ◌∷◌, [], Ok, Some, IfOk, IfErr, OnOk, IsTrue, false, length};
ghost use Rattle.ssim_columns.specs.Columns.{columns};
ghost use Rattle.ssim_records.specs.declared.record.Record.{Record};
ghost use Rattle.ssim_records.specs.Record.{Spells, IsRecord, written, fault_of, serial_of};
ghost use Rattle.ssim_records.specs.clauses.Record.{HasSpelt, with_serial};
ghost use Rattle.ssim_records.specs.internal.Record.{HasBadColumn, HasBadType};

pub(crate) mod carrier;
pub(crate) mod header;
pub(crate) mod leg;
pub(crate) mod segment;
pub(crate) mod trailer;

use crate::fault::RecordFault;
use crate::record::carrier::{Carrier, read_carrier};
use crate::record::header::{Header, read_header};
use crate::record::leg::{LegRecord, leg_with};
use crate::record::segment::SegmentRecord;
use crate::record::trailer::{Trailer, read_trailer};
use ssim_columns::{LatestColumns, read_leg_head, read_segment_head};

/// A record of chapter 7, by its type in column 1.
#[derive(Clone, Copy, Debug)]
pub enum Record {
    /// Type 1.
    Header(Header),
    /// Type 2.
    Carrier(Carrier),
    /// Type 3.
    Leg(LegRecord),
    /// Type 4.
    Segment(SegmentRecord),
    /// Type 5.
    Trailer(Trailer),
}

fn kind_of(bytes: &[u8; 200]) -> u8
    ensures { columns 1 1 bytes.now ≡ result ∷ [] }
{
    bytes[0]
}

// Does what `put_record` does for the other types. It is not inlined, which would reserve stack
// space for their records for each leg, too.
#[inline(never)]
fn put_other(bytes: &[u8; 200], into: &mut Option<Record>) -> Result<bool, usize>
    requires leg { columns 1 1 bytes.now ≢ 51 ∷ [] }
    requires segment { columns 1 1 bytes.now ≢ 52 ∷ [] }
    ensures ok { IfOk result (λ known. IsTrue known → HasSpelt into.new bytes.now) }
    ensures none { IfOk result (λ known. known ≡ false → HasBadType bytes.now) }
    ensures err { IfErr result (HasBadColumn bytes.now) }
{
    match kind_of(bytes) {
        b'1' => *into = Some(Record::Header(read_header(bytes)?)),
        b'2' => *into = Some(Record::Carrier(read_carrier(bytes)?)),
        b'5' => *into = Some(Record::Trailer(read_trailer(bytes)?)),
        _ => return Ok(false),
    }
    Ok(true)
}

// Puts a flight leg into `into`. A leg that is there already is overwritten, so that its columns
// are copied once.
fn put_leg(
    bytes: &[u8; 200],
    latest: &mut LatestColumns,
    into: &mut Option<Record>,
) -> Result<(), usize>
    requires { columns 1 1 bytes.now ≡ 51 ∷ [] }
    ensures ok { OnOk result (HasSpelt into.new bytes.now) }
    ensures err { IfErr result (HasBadColumn bytes.now) }
{
    let head = read_leg_head(bytes, latest)?;
    match into {
        Some(Record::Leg(leg)) => leg.put(bytes, &head),
        _ => *into = Some(Record::Leg(leg_with(bytes, &head))),
    }
    Ok(())
}

// Puts segment data into `into`. If there are none, blank ones are put first: then all are
// overwritten, so that their columns are copied once.
fn put_segment(
    bytes: &[u8; 200],
    latest: &mut LatestColumns,
    into: &mut Option<Record>,
) -> Result<(), usize>
    requires { columns 1 1 bytes.now ≡ 52 ∷ [] }
    ensures ok { OnOk result (HasSpelt into.new bytes.now) }
    ensures err { IfErr result (HasBadColumn bytes.now) }
{
    let head = read_segment_head(bytes, latest)?;
    match into {
        Some(Record::Segment(_)) => {}
        _ => *into = Some(Record::Segment(SegmentRecord::blank(head.name))),
    }
    match into {
        Some(Record::Segment(segment)) => segment.put(bytes, &head),
        _ => unreachable!(),
    }
    Ok(())
}

// Puts the record of its type into `into`, or returns the first column of the first invalid field.
// Says whether there is such a type.
fn put_record(
    bytes: &[u8; 200],
    latest: &mut LatestColumns,
    into: &mut Option<Record>,
) -> Result<bool, usize>
    ensures ok { IfOk result (λ known. IsTrue known → HasSpelt into.new bytes.now) }
    ensures none { IfOk result (λ known. known ≡ false → HasBadType bytes.now) }
    ensures err { IfErr result (HasBadColumn bytes.now) }
{
    match kind_of(bytes) {
        b'3' => put_leg(bytes, latest, into)?,
        b'4' => put_segment(bytes, latest, into)?,
        _ => return put_other(bytes, into),
    }
    Ok(true)
}

/// A reader of records one after another, which remembers the latest flight and dates: equal
/// columns are not parsed again.
#[derive(Drop)]
pub struct RecordReader {
    latest: LatestColumns,
}

impl RecordReader {
    /// A reader before the first record.
    pub fn new() -> RecordReader {
        RecordReader {
            latest: LatestColumns::new(),
        }
    }

    /// Puts the record that 200 bytes spell into `into`, or returns the fault at this record
    /// number. After a fault `into` may have any record or none.
    pub fn read_into(
        &mut self,
        bytes: &[u8; 200],
        number: u64,
        into: &mut Option<Record>,
    ) -> Result<(), RecordFault>
        ensures ok { OnOk result (HasSpelt into.new bytes.now) }
        ensures err { IfErr result (λ e. fault_of number bytes.now ≡ Some e) }
    {
        match put_record(bytes, &mut self.latest, into) {
            Ok(true) => Ok(()),
            Ok(false) => Err(RecordFault::BadType { record: number }),
            Err(column) => Err(RecordFault::BadColumn {
                record: number,
                column,
            }),
        }
    }
}

/// Puts the record that 200 bytes spell into `into`, or returns the fault at this record number.
/// After a fault `into` may have any record or none.
pub fn read_into(
    bytes: &[u8; 200],
    number: u64,
    into: &mut Option<Record>,
) -> Result<(), RecordFault>
    ensures ok { OnOk result (HasSpelt into.new bytes.now) }
    ensures err { IfErr result (λ e. fault_of number bytes.now ≡ Some e) }
{
    RecordReader::new().read_into(bytes, number, into)
}

/// The record that 200 bytes spell. A refusal is 11 `BadType` or 12 `BadColumn`, with record number
/// 0.
pub fn read_record(bytes: &[u8; 200]) -> Result<Record, RecordFault>
    ensures ok { IfOk result (λ r. Spells r bytes.now) }
    ensures only { (r : Record) → Spells r bytes.now → result ≡ Ok r }
    ensures err { IfErr result (λ e. fault_of 0 bytes.now ≡ Some e) }
{
    let mut record = None;
    read_into(bytes, 0, &mut record)?;
    match record {
        Some(record) => Ok(record),
        None => unreachable!(),
    }
}

/// The one written spelling of a record. It is read back as this record.
pub fn write_record(value: &Record) -> [u8; 200]
    ensures value { result ≡ written value.now }
    ensures spells { Spells value.now result }
    ensures is_record { IsRecord value.now }
{
    match value {
        Record::Header(header) => header.written(),
        Record::Carrier(carrier) => carrier.written(),
        Record::Leg(leg) => leg.written(),
        Record::Segment(segment) => segment.written(),
        Record::Trailer(trailer) => trailer.written(),
    }
}

// Does what `write_over` does for the other types. It is not inlined, which would reserve stack
// space for the spelling for each leg, too.
#[inline(never)]
fn write_other_over(value: &Record, out: &mut [u8])
    requires { length out.old ≡ 200 }
    ensures value { out.new ≡ written value.now }
    ensures is_record { IsRecord value.now }
{
    out.copy_from_slice(&write_record(value))
}

/// Writes the one written spelling of a record over 200 bytes, as `write_record` gives it.
pub fn write_over(value: &Record, out: &mut [u8])
    requires { length out.old ≡ 200 }
    ensures value { out.new ≡ written value.now }
    ensures is_record { IsRecord value.now }
{
    match value {
        Record::Leg(leg) => leg.write_over(out),
        Record::Segment(segment) => segment.write_over(out),
        _ => write_other_over(value, out),
    }
}

// Whether the bytes are the written spelling of a record. It is not inlined, which would reserve
// stack space for the spelling for each leg, too.
#[inline(never)]
fn is_written_whole(value: &Record, bytes: &[u8; 200]) -> bool
    ensures same { IsTrue result ↔ (bytes.now ≡ written value.now) }
    ensures is_record { IsRecord value.now }
{
    write_record(value).as_slice() == bytes.as_slice()
}

impl Record {
    /// Whether two records are the same. Those of a frame are compared by their spellings, since
    /// each spelling is of one record.
    pub fn same(&self, other: &Record) -> bool
        ensures { IsTrue result ↔ (self.now ≡ other.now) }
    {
        match (self, other) {
            (Record::Leg(mine), Record::Leg(theirs)) => mine.same(theirs),
            (Record::Segment(mine), Record::Segment(theirs)) => mine.same(theirs),
            _ => write_record(self).as_slice() == write_record(other).as_slice(),
        }
    }

    /// Whether the bytes, which spell this record, are its one written spelling. Of a leg and a
    /// segment only the columns that can be spelled in several ways are compared.
    pub fn is_written(&self, bytes: &[u8; 200]) -> bool
        requires { Spells self.now bytes.now }
        ensures same { IsTrue result ↔ (bytes.now ≡ written self.now) }
        ensures is_record { IsRecord self.now }
    {
        match self {
            Record::Leg(leg) => leg.is_written(bytes),
            Record::Segment(segment) => segment.is_written(bytes),
            _ => is_written_whole(self, bytes),
        }
    }

    /// The serial that the record had.
    pub fn serial(&self) -> u32
        ensures value { result ≡ serial_of self.now }
        ensures is_record { IsRecord self.now }
    {
        match self {
            Record::Header(header) => header.serial(),
            Record::Carrier(carrier) => carrier.serial(),
            Record::Leg(leg) => leg.serial(),
            Record::Segment(segment) => segment.serial(),
            Record::Trailer(trailer) => trailer.serial(),
        }
    }

    /// The same record with this serial.
    pub fn with_serial(self, serial: u32) -> Record
        requires { serial < 1000000 }
        ensures { result ≡ with_serial serial self }
    {
        match self {
            Record::Header(header) => Record::Header(header.with_serial(serial)),
            Record::Carrier(carrier) => Record::Carrier(carrier.with_serial(serial)),
            Record::Leg(leg) => Record::Leg(leg.with_serial(serial)),
            Record::Segment(segment) => Record::Segment(segment.with_serial(serial)),
            Record::Trailer(trailer) => {
                let check = trailer.check();
                Record::Trailer(trailer.with_serials(check, serial))
            }
        }
    }
}
