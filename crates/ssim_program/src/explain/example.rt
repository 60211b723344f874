//! An example of the refusals of each number.

ghost use Rattle.std.specs.Prelude.{◌≤◌, ◌<◌, IfOk, IsSome};
ghost use Rattle.ssim_program.specs.internal.Explain.{IsExample};

use crate::refusal::Refusal;
use ssim_base::{BaseFault, BaseRefusal, ResolveFault, StationFault};
use ssim_desk::DeskFault;
use ssim_outbox::OutboxFault;
use ssim_records::RecordFault;
use ssim_schedule::ExportFault;
use ssim_text::{Fault as LineFault, Kind, Originator, Reference, TextFault};
use ssim_values::{Day, Designator, Fault, Memory};
use std::alloc::Global;

/// A refusal of this number, if a command may have one.
pub(crate) fn example(alloc: Global, number: u8) -> Result<Option<Refusal>, Memory>
    ensures { IfOk result (λ found. IsExample number found) }
{
    if number > 90 {
        return of_file(alloc, number);
    }
    if number < 20 {
        return Ok(of_record(number));
    }
    if number < 30 {
        return Ok(of_text(number));
    }
    if number < 40 {
        return Ok(of_data_set(number));
    }
    Ok(of_desk(number))
}

/// An example of 91 to 93.
fn of_file(alloc: Global, number: u8) -> Result<Option<Refusal>, Memory>
    requires { 90 < number }
    ensures { IfOk result (λ found. IsExample number found) }
{
    match number {
        91 => {
            let name = String::from_str(alloc, "season.ssim")?;
            Ok(Some(Refusal::File { name }))
        }
        92 => {
            let name = String::from_str(alloc, "fdh.desk")?;
            Ok(Some(Refusal::Busy { name }))
        }
        93 => {
            let name = String::from_str(alloc, "season.ssim")?;
            Ok(Some(Refusal::Occupied { name }))
        }
        _ => Ok(None),
    }
}

/// An example of 1 to 12.
fn of_record(number: u8) -> Option<Refusal>
    requires { number < 20 }
    ensures { IsExample number result }
{
    let fault = match number {
        1 => return Some(Refusal::Value(Fault::BadDate)),
        3 => return Some(Refusal::Value(Fault::BadStation)),
        6 => return Some(Refusal::Value(Fault::BadDesignator)),
        10 => RecordFault::Short { record: 75 },
        11 => RecordFault::BadType { record: 3 },
        12 => RecordFault::BadColumn {
            record: 3,
            column: 37,
        },
        _ => return None,
    };
    Some(Refusal::DataSet(BaseFault::Read(fault)))
}

/// An example of 20 to 29.
fn of_text(number: u8) -> Option<Refusal>
    requires from { 20 ≤ number }
    requires to { number < 30 }
    ensures { IsExample number result }
{
    let (fault, line) = match number {
        20 => (LineFault::BadKind, 1),
        21 => (LineFault::BadReference, 3),
        22 => (LineFault::BadAction, 4),
        23 => (LineFault::BadFlight, 5),
        24 => (LineFault::BadPeriod, 6),
        25 => (LineFault::BadEquipment, 7),
        26 => (LineFault::BadLeg, 8),
        27 => (LineFault::Extra, 7),
        28 => (LineFault::TooMany, 1),
        29 => (LineFault::NotAscii, 9),
        _ => return None,
    };
    Some(Refusal::Desk(DeskFault::Text(TextFault::Refused { fault, line })))
}

/// An example of 30 to 39.
fn of_data_set(number: u8) -> Option<Refusal>
    requires from { 30 ≤ number }
    requires to { number < 40 }
    ensures { IsExample number result }
{
    let (record, refusal) = match number {
        30 => (1, BaseRefusal::NoHeader),
        31 => (2, BaseRefusal::NoCarrier),
        32 => (76, BaseRefusal::NoTrailer),
        33 => (12, BaseRefusal::OtherAirline),
        34 => (13, BaseRefusal::Overlap),
        35 => (14, BaseRefusal::Segment),
        36 => (15, BaseRefusal::Overflow),
        37 => (16, BaseRefusal::Frequency),
        38 => (75, BaseRefusal::Continuation),
        39 => return Some(Refusal::Stations(StationFault::Stations(3))),
        _ => return None,
    };
    Some(Refusal::DataSet(BaseFault::Refused(record, refusal)))
}

/// An example of 40 to 90.
fn of_desk(number: u8) -> Option<Refusal>
    requires from { 40 ≤ number }
    requires to { number ≤ 90 }
    ensures { IsExample number result }
{
    let fault = match number {
        40 => DeskFault::Resolve(ResolveFault::TimeMode),
        41 => DeskFault::Resolve(ResolveFault::Airline(1)),
        42 => DeskFault::Resolve(ResolveFault::NoSuchDate(1)),
        43 => DeskFault::Resolve(ResolveFault::Period(1)),
        50 => return too_many_variations(),
        51 => return too_many_records(),
        52 => return Some(Refusal::WriteFault),
        60 => DeskFault::Conflict(reference()?),
        61 => DeskFault::OtherBase,
        62 => DeskFault::File(852),
        63 => return Some(Refusal::Script { line: 2 }),
        64 => return Some(Refusal::Publication(OutboxFault::Order(reference()?))),
        65 => return Some(Refusal::Publication(OutboxFault::References)),
        90 => return Some(Refusal::Memory),
        _ => return None,
    };
    Some(Refusal::Desk(fault))
}

fn too_many_variations() -> Option<Refusal>
    ensures { IsExample 50 result }
{
    let Designator { airline, flight } = designator()?;
    let fault = ExportFault::Variations(flight);
    Some(Refusal::Export { airline, fault })
}

fn too_many_records() -> Option<Refusal>
    ensures { IsExample 51 result }
{
    let Designator { airline, .. } = designator()?;
    let fault = ExportFault::Records;
    Some(Refusal::Export { airline, fault })
}

/// The flight of the examples of 50 and 51.
pub(super) fn designator() -> Option<Designator>
    ensures { IsSome result }
{
    Designator::parse(b"LX544").ok()
}

/// The reference of the examples of 60 and 64.
fn reference() -> Option<Reference>
    ensures { IsSome result }
{
    // 15MAR27.
    let date = Day::from_number(9_935)?;
    Some(Reference {
        date,
        group: 2,
        serial: 1,
        kind: Kind::Ssm,
        originator: Originator::none(),
    })
}
