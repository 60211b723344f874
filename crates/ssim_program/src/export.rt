//! Exports that are printed while they are made, and exports in memory.

ghost use Rattle.std.specs.Prelude.{◌≡◌, IfErr, IfOk, List, Ok, OnOk};
ghost use Rattle.ssim_values.specs.Flight.{FlightNumber};
ghost use Rattle.ssim_records.specs.declared.record.Record.{Record};
ghost use Rattle.ssim_base.specs.Base.{airline_of};
ghost use Rattle.ssim_base.specs.Export.{chapter7};
ghost use Rattle.ssim_base.specs.Timetable.{Days, days_of};
ghost use Rattle.ssim_schedule.specs.clauses.Schedule.{days_in};
ghost use Rattle.ssim_desk.specs.Desk.{days_of_desk};
ghost use Rattle.ssim_parts.specs.Chosen.{chosen_days};
ghost use Rattle.ssim_program.specs.Again.{GrowsByItself};
ghost use Rattle.ssim_program.specs.Exports.{HasNoExport, ReadsAsItself};
ghost use Rattle.ssim_program.specs.Made.{IsExport};
ghost use Rattle.ssim_program.specs.internal.Export.{HasNoExportIn, IsWritten, PrintsExport};
ghost use Rattle.ssim_program.specs.print.Paper.{Paper};

use crate::print::printer::Printer;
use crate::refusal::Refusal;
use ssim_base::{BaseFrame, DataSet};
use ssim_desk::Holdings;
use ssim_parts::{Choice, choose};
use ssim_schedule::{ExportFault, Schedule, export_data_set};
use ssim_values::Airline;
use std::alloc::Global;
use std::io::Write;

/// Prints the canonical export of a data set.
pub(crate) fn export_set<W: Write>(
    data_set: DataSet,
    out: &mut Printer<'_, W>,
) -> Result<(), Refusal>
    ensures printed { PrintsExport data_set (days_of data_set) out.old out.new result }
    ensures again { OnOk result (GrowsByItself out.old.taken out.new.taken) }
{
    let airline = data_set.airline();
    let written = export_data_set(data_set, out);
    end_export(airline, written, out)
}

/// Prints the canonical export of what a desk has.
pub(crate) fn export_desk<W: Write>(desk: Holdings, out: &mut Printer<'_, W>) -> Result<(), Refusal>
    ensures printed { PrintsExport desk.base.records (days_of_desk desk) out.old out.new result }
    ensures again { OnOk result (GrowsByItself out.old.taken out.new.taken) }
{
    let airline = desk.data_set().airline();
    let written = desk.export(out);
    end_export(airline, written, out)
}

/// Prints the canonical export of the chosen part of what a desk has.
pub(crate) fn export_part<W: Write>(
    desk: Holdings,
    choice: &Choice,
    out: &mut Printer<'_, W>,
) -> Result<(), Refusal>
    ensures printed { PrintsExport desk.base.records
        (chosen_days choice.now (days_of_desk desk)) out.old out.new result }
    ensures again { OnOk result (GrowsByItself out.old.taken out.new.taken) }
{
    let airline = desk.data_set().airline();
    let written = write_part(desk, choice, out);
    end_export(airline, written, out)
}

/// Writes the canonical export of the chosen part of what a desk has.
fn write_part<W: Write>(
    desk: Holdings,
    choice: &Choice,
    out: &mut Printer<'_, W>,
) -> Result<(), ExportFault>
    ensures { IsWritten desk.base.records (chosen_days choice.now (days_of_desk desk))
        out.old out.new result }
{
    let frame = desk.base().frame().copy();
    let mut schedule = desk.schedule()?;
    drop(desk);
    choose(choice, &mut schedule)?;
    schedule.export_in(&frame, out)
}

/// Flushes `out` after an export of this airline's flights was written to it; or makes the refusal
/// of the export's fault.
fn end_export<W: Write>(
    airline: Airline,
    written: Result<(), ExportFault>,
    out: &mut Printer<'_, W>,
) -> Result<(), Refusal>
    // The export is one of these days over this base, and the printer was `before` when it began.
    ensures printed { (base : List Record) (days : FlightNumber → Days) (before : Paper)
        → airline ≡ airline_of base → IsWritten base days before out.old written
        → PrintsExport base days before out.new result }
    ensures again { (base : List Record) (days : FlightNumber → Days) (before : Paper)
        → IsWritten base days before out.old written
        → OnOk result (GrowsByItself before.taken out.new.taken) }
{
    match written {
        Ok(()) => out.flush(),
        Err(fault) => match fault {
            ExportFault::WriteFault => Err(Refusal::WriteFault),
            _ => Err(Refusal::Export { airline, fault }),
        },
    }
}

/// The canonical export of a schedule in a frame, in memory.
pub(crate) fn export_bytes(
    alloc: Global,
    schedule: Schedule,
    frame: &BaseFrame,
) -> Result<Vec<u8>, ExportFault>
    ensures ok { IfOk result (λ bytes. chapter7 frame.now (days_in schedule) ≡ Ok bytes.items) }
    ensures err { IfErr result (HasNoExportIn frame.now (days_in schedule)) }
    ensures again { IfOk result (λ bytes. ReadsAsItself bytes.items) }
{
    let mut bytes = Vec::new(alloc);
    let mut out = Printer::new(&mut bytes);
    let written = schedule.export_in(frame, &mut out);
    let Printer {
        writer,
        failures: _,
        flushed: _,
    } = out;
    // No effect at run time. The proof reads what the writer holds from this use.
    let _ = &*writer;
    match written {
        Ok(()) => Ok(bytes),
        Err(fault) => match fault {
            // A vector takes all bytes, or memory is out.
            ExportFault::WriteFault => Err(ExportFault::Memory),
            _ => Err(fault),
        },
    }
}

/// The canonical export of a data set, in memory.
pub(crate) fn data_set_bytes(alloc: Global, data_set: DataSet) -> Result<Vec<u8>, ExportFault>
    ensures ok { IfOk result (λ bytes. IsExport data_set (days_of data_set) bytes.items) }
    ensures err { IfErr result (HasNoExport data_set (days_of data_set)) }
    ensures again { IfOk result (λ bytes. ReadsAsItself bytes.items) }
{
    let mut bytes = Vec::new(alloc);
    let mut out = Printer::new(&mut bytes);
    let written = export_data_set(data_set, &mut out);
    let Printer {
        writer,
        failures: _,
        flushed: _,
    } = out;
    // No effect at run time. The proof reads what the writer holds from this use.
    let _ = &*writer;
    match written {
        Ok(()) => Ok(bytes),
        Err(fault) => match fault {
            // A vector takes all bytes, or memory is out.
            ExportFault::WriteFault => Err(ExportFault::Memory),
            _ => Err(fault),
        },
    }
}
