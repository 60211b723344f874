//! The records of a base.

ghost use Rattle.std.specs.Prelude.{◌≡◌, ◌↔◌, ℕ, List, Option, IsTrue, IfOk, IfErr, Ok};
ghost use Rattle.std.specs.List.{All};
ghost use Rattle.ssim_records.specs.declared.record.Record.{Record};
ghost use Rattle.ssim_records.specs.Device.{Reader};
ghost use Rattle.ssim_base.specs.Base.{airline_of};
ghost use Rattle.ssim_base.specs.BaseSeen.{AreFlights, WasRead};
ghost use Rattle.ssim_base.specs.clauses.Closed.{IsClosed};
ghost use Rattle.ssim_base.specs.ReadBack.{AreInOrder, CanExport, HasFrame};
ghost use Rattle.ssim_base.specs.Reading.{IsReadOf, IsWholeOf};
ghost use Rattle.ssim_base.specs.clauses.Reading.{RefusesByRecord, RefusesReading};
ghost use Rattle.ssim_base.specs.internal.Reading.{ReturnsAs};
ghost use Rattle.ssim_base.specs.declared.note.Note.{Note};
ghost use Rattle.ssim_base.specs.SavedBase.{IsBaseRecords};
ghost use Rattle.ssim_base.specs.Timetable.{days_of};

pub(crate) mod acceptance;
pub(crate) mod builder;
pub(crate) mod reader;
pub(crate) mod record_sink;
pub(crate) mod saved_lines;

use crate::base_frame::BaseFrame;
use crate::data_set::reader::{DataSetReader, read_records, read_whole};
use crate::fault::BaseFault;
use crate::note::Note;
use ssim_records::{Record, Records, Source};
use ssim_values::{Airline, Flight, Memory};
use std::alloc::Global;
use std::marker::Model;

/// A data set as it was read, without a station table: its records other than fill, in order,
/// without serials. The rate and the overflow of its legs are blank. The end of each leg is a date;
/// the end of the carrier may be open.
#[derive(Drop)]
pub struct DataSet {
    records: Vec<Record>,
    frame: BaseFrame,
    /// The flights of the leg records, each once, by number and suffix.
    flights: Vec<Flight>,
}

impl Model for DataSet {
    ghost use Rattle.std.specs.Prelude.{List};
    ghost use Rattle.ssim_records.specs.declared.record.Record.{Record};
    ghost use Rattle.ssim_base.specs.BaseSeen.{AreFlights, WasRead};
    ghost use Rattle.ssim_base.specs.ReadBack.{HasFrame};

    ghost Value = { List Record };

    ghost view = { λ read. read.records.items };

    ghost invariant = { λ read. WasRead read.records.items
        × AreFlights read.records.items read.flights.items
        × HasFrame read.frame read.records.items };
}

impl DataSet {
    ghost use Rattle.ssim_base.specs.internal.DataSetReader.{HasRead, IsListOf, IsWhole};

    /// Reads a data set, record by record, and its reader to the end. At most `limit` bytes and one
    /// more are fetched. The refusals are those of `Base::read`. But if the reader fails after the
    /// record that is refused, or more bytes come than the limit, 13 or 14 is returned. This names
    /// the record after the one that is refused.
    pub fn read<R: Source>(alloc: Global, reader: &mut R, limit: u64) -> Result<DataSet, BaseFault>
        ensures read { IfOk result (λ read. (notes : List Note)
            × IsWholeOf limit (R.state reader.old).left (Ok (read, notes))) }
        ensures err { IfErr result
            (RefusesReading limit (R.state reader.old) (R.state reader.new)) }
        ensures no_failure { IfOk result (λ _. (R.state reader.new).failures
            ≡ (R.state reader.old).failures) }
    {
        let mut records = Vec::new(alloc);
        let (records_read, number) = read_whole(alloc, &mut records, reader, limit)?;
        let (data_set, _) = DataSet::finish(alloc, records, records_read, number)?;
        Ok(data_set)
    }

    /// Reads a data set and the notes on it, in the order of their records.
    pub(crate) fn read_noted<R: Source>(
        alloc: Global,
        reader: &mut R,
        limit: u64,
    ) -> Result<(DataSet, Vec<Note>), BaseFault>
        ensures read { ReturnsAs (λ read. (read.0, read.1.items)) result
            (IsReadOf limit (R.state reader.old).left) }
        ensures no_failure { IfOk result (λ _. (R.state reader.new).failures
            ≡ (R.state reader.old).failures) }
        ensures err { IfErr result
            (RefusesByRecord limit (R.state reader.old) (R.state reader.new)) }
    {
        let mut records = Vec::new(alloc);
        let mut blocks = Records::new(limit);
        let (records_read, number) = read_records(alloc, &mut records, &mut blocks, reader)?;
        DataSet::finish(alloc, records, records_read, number)
    }

    // The data set of the records that were read, and the notes; an error if a record is missing at
    // the end.
    fn finish(
        alloc: Global,
        records: Vec<Record>,
        records_read: DataSetReader,
        number: u64,
    ) -> Result<(DataSet, Vec<Note>), BaseFault>
        requires { IsWhole (IsListOf records.items) records_read }
        ensures read { (limit : ℕ) (known : Option (List ℕ))
            → HasRead limit known (IsListOf records.items) records_read number
            → ReturnsAs (λ read. (read.0, read.1.items)) result (IsReadOf limit known) }
        ensures by_record { (limit : ℕ) (before after : Reader)
            → after.failures ≡ before.failures
            → IfErr result (RefusesByRecord limit before after) }
        ensures err { (limit : ℕ) (before after : Reader)
            → HasRead limit before.left (IsListOf records.items) records_read number
            → after.failures ≡ before.failures
            → IfErr result (RefusesReading limit before after) }
    {
        let DataSetReader { kept, notes, .. } = records_read;
        if let Some(refusal) = kept.missing() {
            return Err(BaseFault::Refused(number, refusal));
        }
        let flights = kept.flights()?;
        Ok((DataSet::of_base(alloc, records, flights), notes))
    }

    /// The data set of these records, which are the records of a base, and the flights of its legs.
    pub(crate) fn of_base(alloc: Global, records: Vec<Record>, flights: Vec<Flight>) -> DataSet
        requires was_read { WasRead records.items }
        requires flights { AreFlights records.items flights.items }
        ensures { result ≡ records.items }
    {
        let header = &records[0];
        let carrier = &records[1];
        let trailer = &records[records.len() - 1];
        let frame = BaseFrame::of(alloc, header, carrier, trailer);
        DataSet {
            records,
            frame,
            flights,
        }
    }

    /// The same data set.
    pub fn copy(&self) -> Result<DataSet, Memory>
        ensures { IfOk result (λ copy. copy ≡ self.now) }
    {
        let alloc = self.allocator();
        Ok(DataSet {
            records: Vec::from_slice(alloc, &self.records)?,
            frame: self.frame.copy(),
            flights: Vec::from_slice(alloc, &self.flights)?,
        })
    }

    /// The airline whose schedule it is.
    pub fn airline(&self) -> Airline
        ensures { result ≡ airline_of self.now }
    {
        self.frame.airline()
    }

    /// The allocator of the timetable that is made from it.
    pub fn allocator(&self) -> Global {
        self.frame.alloc
    }

    /// The frame of the base: the header, the carrier record and the trailer.
    pub fn frame(&self) -> &BaseFrame
        ensures frame { HasFrame result.now self.now }
        ensures exports { CanExport self.now }
    {
        &self.frame
    }

    /// The records, in order: a header, a carrier, legs and segments, and a trailer. Serials and
    /// the check reference are 0; rates and overflows are blank. The end of each leg record is a
    /// date. Two leg records of one flight and leg sequence have no date in common.
    pub fn records(&self) -> &[Record]
        ensures value { result.now ≡ self.now }
        ensures is_base { IsBaseRecords result.now }
        ensures closed { All IsClosed result.now }
        ensures in_order { AreInOrder (days_of result.now) }
    {
        &self.records
    }

    /// The flights of the leg records, each once, rising by number and suffix, the blank first.
    pub fn flights(&self) -> &[Flight]
        ensures { AreFlights self.now result.now }
    {
        &self.flights
    }

    /// Whether two data sets have the same records.
    pub fn same(&self, other: &DataSet) -> bool
        ensures { IsTrue result ↔ (self.now ≡ other.now) }
    {
        same_records(&self.records, &other.records)
    }

    /// The records, and the flights of the leg records.
    pub fn into_parts(self) -> (Vec<Record>, Vec<Flight>)
        ensures value { result.0.items ≡ self }
        ensures closed { All IsClosed result.0.items }
    {
        let DataSet {
            records,
            flights,
            ..
        } = self;
        (records, flights)
    }
}

// Whether the two lists have the same records.
fn same_records(mine: &[Record], theirs: &[Record]) -> bool
    ensures { IsTrue result ↔ (mine.now ≡ theirs.now) }
{
    if mine.len() != theirs.len() {
        return false;
    }
    for (place, one) in mine.iter().enumerate() {
        if !one.same(&theirs[place]) {
            return false;
        }
    }
    true
}
