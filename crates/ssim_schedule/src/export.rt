//! The canonical export of a timetable: planned and measured first, then written.

ghost use Rattle.std.specs.Prelude.{◌≡◌, ℕ, List, IfErr, OnOk, Some};
ghost use Rattle.std.specs.Io.KnownBytes.{Appends};
ghost use Rattle.ssim_base.specs.Export.{chapter7};
ghost use Rattle.ssim_base.specs.clauses.Export.{frame_from};
ghost use Rattle.ssim_schedule.specs.clauses.ExportResult.{ReadsBackBase, Refuses, RefusesBase};
ghost use Rattle.ssim_schedule.specs.clauses.ExportResult.{Writes, WritesBase};
ghost use Rattle.ssim_base.specs.clauses.ReadBack.{CanReadBack};
ghost use Rattle.ssim_base.specs.ReadBack.{IsTimetable, ReadsBackFrom};
ghost use Rattle.ssim_schedule.specs.clauses.Schedule.{days_in};
ghost use Rattle.ssim_schedule.specs.internal.Table.{table_days};
ghost use Rattle.ssim_base.specs.Timetable.{days_of};

pub(crate) mod flights;
mod lines;
pub(crate) mod plan;

use crate::export::lines::put_export;
use crate::export::plan::{divide, measure};
use crate::schedule::Schedule;
use crate::timetable::flight_table::FlightTable;
use ssim_base::laws::export_bytes_read_back;
use ssim_base::{Base, BaseFrame, DataSet, Place};
use ssim_records::{Carrier, Header, Sink, Trailer};
use ssim_values::{Airline, Designator, Flight, Memory};
use std::alloc::Global;
use thiserror::Error;

/// Why a timetable was not exported.
#[derive(Clone, Copy, Debug, Error, PartialEq, Eq)]
pub enum ExportFault {
    /// 50: the flight needs more than 99 itinerary variations. Nothing was written.
    #[error("flight {0} needs more than 99 itinerary variations")]
    Variations(Flight),

    /// 51: there would be more than 999,999 records, fill not counted. Nothing was written.
    #[error("the export needs more than 999,999 records")]
    Records,

    /// 52: the sink failed, or took no byte. It has taken a prefix of the export.
    #[error("the sink failed, or took no byte")]
    WriteFault,

    /// 90: out of memory. Nothing was written.
    #[error("out of memory")]
    Memory,
}

impl ExportFault {
    ghost use Rattle.ssim_schedule.specs.ExportResult.{export_fault_name, export_fault_number};
    ghost use Rattle.ssim_schedule.specs.ExportResult.{export_fault_place};

    /// The number of the fault: 50, 51, 52 or 90.
    pub fn number(self) -> u8
        ensures { result ≡ export_fault_number self }
    {
        match self {
            ExportFault::Variations(_) => 50,
            ExportFault::Records => 51,
            ExportFault::WriteFault => 52,
            ExportFault::Memory => 90,
        }
    }

    /// The name of the fault, as `Variations`.
    pub fn name(self) -> &'static str
        ensures { result.now ≡ export_fault_name self }
    {
        match self {
            ExportFault::Variations(_) => "Variations",
            ExportFault::Records => "Records",
            ExportFault::WriteFault => "WriteFault",
            ExportFault::Memory => "Memory",
        }
    }

    /// The flight that the fault names, as a flight of the airline.
    pub fn place(self, airline: Airline) -> Place
        ensures { result ≡ export_fault_place airline self }
    {
        match self {
            ExportFault::Variations(flight) => Place::Flight(Designator { airline, flight }),
            ExportFault::Records | ExportFault::WriteFault | ExportFault::Memory => Place::Nowhere,
        }
    }
}

impl From<Memory> for ExportFault {
    ghost use Rattle.ssim_schedule.specs.declared.export.ExportFault.TheVariants.{Memory};

    ghost from_gives = { λ _ e. e ≡ Memory };

    fn from(_refused: Memory) -> ExportFault {
        ExportFault::Memory
    }
}

impl Schedule {
    /// Writes the canonical export: the base's header and carrier, each flight by number and suffix
    /// with its pieces as itinerary variations 01, 02, .., each leg with its segment data, and the
    /// base's trailer. Serials and the check reference are counted anew. Each section is filled up
    /// to a multiple of five records. LF follows each record.
    ///
    /// 50 names the first flight with more than 99 pieces, and 51 means more than 999,999 records;
    /// if one flight gives both, the fault is 50. 50, 51 and 90 come before the first byte is
    /// written. 52 means that the sink failed or took no byte.
    pub fn export<W: Sink>(&self, base: &Base, out: &mut W) -> Result<(), ExportFault>
        ensures ok { OnOk result (WritesBase base.now.records (days_in self.now)
            (W.state out.old) (W.state out.new)) }
        ensures err { IfErr result (λ fault.
            RefusesBase W.state base.now.records (days_in self.now) out.old out.new fault) }

        // The bytes read back to the same itinerary on each date, and the export of what was read
        // is the same bytes.
        ensures reads_back { OnOk result (ReadsBackBase base.now.records (days_in self.now)
            (W.state out.old) (W.state out.new)) }
    {
        let frame = base.frame();
        let own = self.copy()?;
        own.export_in(frame, out)
    }

    /// Writes the canonical export in this frame, as `export` does in the frame of a base. Parts
    /// that no copy of the schedule shares are freed flight by flight.
    pub fn export_in<W: Sink>(self, frame: &BaseFrame, out: &mut W) -> Result<(), ExportFault>
        ensures ok { OnOk result (Writes (chapter7 frame.now (days_in self))
            (W.state out.old) (W.state out.new)) }
        ensures err { IfErr result (λ fault.
            Refuses W.state (chapter7 frame.now (days_in self)) out.old out.new fault) }

        // The bytes read back to the same itinerary on each date, and the export of what was read
        // is the same bytes.
        ensures reads_back { OnOk result ((bytes : List ℕ)
            × Appends (W.state out.old).taken (W.state out.new).taken bytes
            × ReadsBackFrom frame.now (days_in self) bytes) }
    {
        export_bytes_read_back();
        let Schedule { table } = self;
        let (header, carrier, trailer) = frame.records();
        export_frame(table, header, carrier, trailer, frame.allocator(), out)
    }
}

/// Writes the canonical export of the data set's timetable, as `Schedule::of` and
/// `Schedule::export` do. The records are freed while the timetable is made, so it takes the memory
/// of one of the two. 90 can also mean that there is no memory for the timetable.
pub fn export_data_set<W: Sink>(data_set: DataSet, out: &mut W) -> Result<(), ExportFault>
    ensures ok { OnOk result (WritesBase data_set (days_of data_set)
        (W.state out.old) (W.state out.new)) }
    ensures err { IfErr result (λ fault.
        RefusesBase W.state data_set (days_of data_set) out.old out.new fault) }

    // The bytes read back to the same itinerary on each date, and the export of what was read is
    // the same bytes.
    ensures reads_back { OnOk result (ReadsBackBase data_set (days_of data_set)
        (W.state out.old) (W.state out.new)) }
{
    let (schedule, frame) = Schedule::of_data_set(data_set)?;
    schedule.export_in(&frame, out)
}

/// Writes the canonical export of a timetable between a header, a carrier and a trailer. What no
/// copy of the timetable shares is freed flight by flight.
fn export_frame<W: Sink>(
    table: FlightTable,
    header: &Header,
    carrier: &Carrier,
    trailer: &Trailer,
    alloc: Global,
    out: &mut W,
) -> Result<(), ExportFault>
    ensures ok { OnOk result (Writes
        (chapter7 (frame_from header.now carrier.now trailer.now) (table_days table))
        (W.state out.old) (W.state out.new)) }
    ensures err { IfErr result (λ fault. Refuses W.state
        (chapter7 (frame_from header.now carrier.now trailer.now) (table_days table))
        out.old out.new fault) }

    // The legs that were written are legs that records may have.
    ensures readable { OnOk result (IsTimetable (table_days table)
        → CanReadBack (table_days table)) }
{
    let plan = divide(alloc, table.into_blocks())?;
    measure(&plan)?;
    match put_export(out, header, carrier, trailer, plan) {
        Ok(()) => Ok(()),
        Err(_) => Err(ExportFault::WriteFault),
    }
}
