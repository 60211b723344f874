//! The base: the records of a data set and its station table.

ghost use Rattle.std.specs.Prelude.{◌≡◌, ◌↔◌, IsTrue, IfOk, IfErr};
ghost use Rattle.std.specs.List.{All};
ghost use Rattle.ssim_base.specs.Base.{airline_of};
ghost use Rattle.ssim_base.specs.BaseSeen.{AreFlights, base_with};
ghost use Rattle.ssim_base.specs.clauses.Closed.{IsClosed};
ghost use Rattle.ssim_base.specs.ReadBack.{AreInOrder, HasFrame};
ghost use Rattle.ssim_base.specs.Reading.{IsReadOf};
ghost use Rattle.ssim_base.specs.clauses.Reading.{RefusesByRecord, Returns};
ghost use Rattle.ssim_base.specs.SavedBase.{IsBaseRecords};
ghost use Rattle.ssim_base.specs.Timetable.{days_of};

use crate::base_frame::BaseFrame;
use crate::data_set::DataSet;
use crate::fault::BaseFault;
use crate::note::Note;
use crate::stations::{StationRow, Stations};
use ssim_records::{Record, Source};
use ssim_values::{Airline, Flight, Memory};
use std::alloc::Global;
use std::marker::Model;

/// A data set as it was read: its records other than fill, in order, without serials, and the rows
/// of a station table.
///
/// The rate and the overflow of its legs are blank. The end of each leg is a date; the end of the
/// carrier may be open.
#[derive(Drop)]
pub struct Base {
    data_set: DataSet,
    stations: Stations,
}

impl Model for Base {
    ghost use Rattle.ssim_base.specs.BaseSeen.{BaseSeen};

    ghost Value = { BaseSeen };

    ghost view = { λ b. record { records = b.data_set; rows = b.stations } };
}

/// A base, and the notes on its data set.
#[derive(Drop)]
pub struct BaseRead {
    pub base: Base,
    /// In the order of their records. At one record the note on the serial is first.
    pub notes: Vec<Note>,
}

impl Base {
    /// Reads a data set, record by record, and keeps the station table with it. At most `limit`
    /// bytes and one more are fetched.
    ///
    /// The error names the first invalid record by its number, counted from 1 with fill; 13 names
    /// the one after the last that came whole. For one record the order is 13 `ReadFault`, 14
    /// `ReaderNeverEnds`, 10 `Short`, 11 `BadType`, 12 `BadColumn`; 30 `NoHeader`, 31 `NoCarrier`
    /// or 11 for its place; then 33 `OtherAirline`, 36 `Overflow`, 37 `Frequency`, 12 at column 22
    /// for an open end before the start, 34 `Overlap`, 35 `Segment`, 38 `Continuation`. If a record
    /// is missing at the end, 30, 31 or 32 `NoTrailer` has the number after the last.
    pub fn read<R: Source>(
        alloc: Global,
        reader: &mut R,
        stations: Stations,
        limit: u64,
    ) -> Result<BaseRead, BaseFault>
        ensures read { Returns result (IsReadOf limit (R.state reader.old).left) }
        ensures rows { IfOk result (λ read. read.base.rows ≡ stations) }
        ensures no_failure { IfOk result (λ _. (R.state reader.new).failures
            ≡ (R.state reader.old).failures) }
        ensures err { IfErr result
            (RefusesByRecord limit (R.state reader.old) (R.state reader.new)) }
    {
        let (data_set, notes) = DataSet::read_noted(alloc, reader, limit)?;
        let base = Base::of(data_set, stations);
        Ok(BaseRead { base, notes })
    }

    /// The base of a data set, with these rows.
    pub fn of(data_set: DataSet, stations: Stations) -> Base
        ensures records { result.records ≡ data_set }
        ensures rows { result.rows ≡ stations }
    {
        Base { data_set, stations }
    }

    /// The data set and the station table.
    pub fn into_parts(self) -> (DataSet, Stations)
        ensures { base_with result.0 result.1 ≡ self }
    {
        let Base { data_set, stations } = self;
        (data_set, stations)
    }

    /// The data set.
    pub fn data_set(&self) -> &DataSet
        ensures { result.now ≡ self.now.records }
    {
        &self.data_set
    }

    /// The same base.
    pub fn copy(&self) -> Result<Base, Memory>
        ensures { IfOk result (λ copy. copy ≡ self.now) }
    {
        Ok(Base {
            data_set: self.data_set.copy()?,
            stations: self.stations.copy(self.allocator())?,
        })
    }

    /// Whether two bases are the same: their records are, and the rows of their station tables.
    pub fn same(&self, other: &Base) -> bool
        ensures { IsTrue result ↔ (self.now ≡ other.now) }
    {
        self.data_set.same(&other.data_set) && self.stations.same(&other.stations)
    }

    /// The airline whose schedule it is.
    pub fn airline(&self) -> Airline
        ensures { result ≡ airline_of self.now.records }
    {
        self.data_set.airline()
    }

    /// The allocator of the schedules that are made from it.
    pub fn allocator(&self) -> Global {
        self.data_set.allocator()
    }

    /// The frame of the base: the header, the carrier record and the trailer.
    pub fn frame(&self) -> &BaseFrame
        ensures { HasFrame result.now self.now.records }
    {
        self.data_set.frame()
    }

    /// The records, in order: a header, a carrier, legs and segments, and a trailer. Serials and
    /// the check reference are 0; rates and overflows are blank. The end of each leg record is a
    /// date. Two leg records of one flight and leg sequence have no date in common.
    pub fn records(&self) -> &[Record]
        ensures value { result.now ≡ self.now.records }
        ensures is_base { IsBaseRecords result.now }
        ensures closed { All IsClosed result.now }
        ensures in_order { AreInOrder (days_of result.now) }
    {
        self.data_set.records()
    }

    /// The rows of the station table, in order.
    pub fn rows(&self) -> &[StationRow]
        ensures { result.now ≡ self.now.rows }
    {
        self.stations.rows()
    }

    /// The flights of the leg records, each once, rising by number and suffix, the blank first.
    pub fn flights(&self) -> &[Flight]
        ensures { AreFlights self.now.records result.now }
    {
        self.data_set.flights()
    }
}
