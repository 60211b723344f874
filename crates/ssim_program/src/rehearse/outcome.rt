//! The exports of desks, and whether they are equal.
ghost use Rattle.std.specs.Prelude.{◌≡◌, ◌↔◌, ◌+◌, ◌%◌, ◌^◌, ◌≤◌, [], IfOk, IsTrue};
ghost use Rattle.std.specs.Prelude.{OnErr, OnOk, length, map};
ghost use Rattle.std.specs.FinMap.{entries};
ghost use Rattle.ssim_base.specs.Base.{airline_of};
ghost use Rattle.ssim_held.specs.Entries.{state_of};
ghost use Rattle.ssim_held.specs.Held.{DeskState};
ghost use Rattle.ssim_program.specs.rehearse.Rehearsal.{AreEqualTo, AreSame, HasEnds, IsOutcome};
ghost use Rattle.ssim_program.specs.rehearse.Rehearsal.{IsVerdict, desk_line};
ghost use Rattle.ssim_program.specs.internal.Rehearse.{outcome_of, outcome_with};

use crate::rehearse::line::RehearsalLine;
use ssim_desk::{DeskFault, Holdings};
use ssim_records::Bytes;
use ssim_schedule::ExportFault;
use ssim_values::{Airline, Memory};
use std::alloc::Global;

/// The export of a desk.
#[derive(Drop)]
pub(crate) enum Outcome {
    /// Its bytes.
    Exported(Bytes),
    /// Why there is none: 50, 51 or 90.
    Refused(ExportFault),
}

/// Exports a desk into an empty buffer. Returns why there is no export, if there is none. `Err` if
/// memory ran out for the bytes in the buffer.
fn export_into(desk: Holdings, out: &mut Bytes) -> Result<Option<ExportFault>, Memory>
    requires empty { out.now.bytes ≡ [] }
    ensures ok { IfOk result
        (λ fault. IsOutcome (state_of desk) (outcome_with out.new.bytes fault)) }
    ensures err { OnErr result (out.new.failures ≡ (out.old.failures + 1) % 2 ^ 64) }
{
    match desk.export(out) {
        Ok(()) => Ok(None),
        Err(fault) => match fault {
            ExportFault::WriteFault => Err(Memory),
            _ => Ok(Some(fault)),
        },
    }
}

/// Exports a desk into memory.
fn export_of(alloc: Global, desk: Holdings) -> Result<Outcome, Memory>
    ensures { IfOk result (λ outcome. IsOutcome (state_of desk) (outcome_of outcome)) }
{
    let mut out = Bytes::new(alloc);
    match export_into(desk, &mut out) {
        Ok(None) => Ok(Outcome::Exported(out)),
        Ok(Some(fault)) => Ok(Outcome::Refused(fault)),
        Err(_) => Err(Memory),
    }
}

/// The line of the desk with this number, which held this many messages over a base of this
/// carrier, and has this export.
fn line_of(number: usize, messages: usize, airline: Airline, outcome: &Outcome) -> RehearsalLine
    ensures { (desk : DeskState) → messages ≡ length (entries desk.held)
        → airline ≡ airline_of desk.base.records
        → result ≡ desk_line number desk (outcome_of outcome.now) }
{
    match outcome {
        Outcome::Exported(bytes) => RehearsalLine::Exported {
            desk: number,
            messages,
            bytes: bytes.bytes().len(),
        },
        Outcome::Refused(fault) => RehearsalLine::NotExported {
            desk: number,
            airline,
            fault: *fault,
        },
    }
}

/// Exports the desk with this number, counted from 1: its line, and its export.
fn end_of(alloc: Global, number: usize, desk: Holdings) -> Result<(RehearsalLine, Outcome), Memory>
    ensures export { IfOk result (λ end. IsOutcome (state_of desk) (outcome_of end.1)) }
    ensures line { IfOk result
        (λ end. end.0 ≡ desk_line number (state_of desk) (outcome_of end.1)) }
{
    let messages = desk.held().len();
    let airline = desk.data_set().airline();
    let outcome = export_of(alloc, desk)?;
    Ok((line_of(number, messages, airline, &outcome), outcome))
}

/// Whether two exports are the same bytes, or refusals of the same number and place.
fn same(one: &Outcome, other: &Outcome) -> bool
    ensures { IsTrue result ↔ (outcome_of other.now ≡ outcome_of one.now) }
{
    match one {
        Outcome::Exported(bytes) => match other {
            Outcome::Exported(others) => bytes.bytes() == others.bytes(),
            _ => false,
        },
        Outcome::Refused(fault) => match other {
            Outcome::Refused(another) => fault == another,
            _ => false,
        },
    }
}

/// Whether each of these exports is equal to one.
fn are_equal_to(outcome: &Outcome, others: &[Outcome]) -> bool
    ensures { IsTrue result ↔ AreEqualTo (outcome_of outcome.now) (map outcome_of others.now) }
{
    match others.split_first() {
        Some((other, others)) => same(outcome, other) && are_equal_to(outcome, others),
        None => true,
    }
}

/// Whether all exports are equal.
fn are_same(outcomes: &[Outcome]) -> bool
    ensures { IsTrue result ↔ AreSame (map outcome_of outcomes.now) }
{
    match outcomes.split_first() {
        Some((outcome, others)) => are_equal_to(outcome, others),
        None => true,
    }
}

/// The last line.
fn verdict(outcomes: &[Outcome]) -> RehearsalLine
    ensures { IsVerdict (map outcome_of outcomes.now) result }
{
    if are_same(outcomes) {
        RehearsalLine::Same
    } else {
        RehearsalLine::Different
    }
}

/// The lines of desks after a run: a line for each desk, counted from 1, and whether all exports
/// are equal. Each desk is freed as it is exported.
pub(crate) fn ends_of(alloc: Global, desks: Vec<Holdings>) -> Result<Vec<RehearsalLine>, Memory>
    requires { length desks.items ≤ 9 }
    ensures { IfOk result (λ lines. HasEnds (map state_of desks.items) lines.items) }
{
    // No effect at run time. The borrow checker learns from these uses which types a line contains.
    let _fault: Option<DeskFault> = None;
    let _export: Option<ExportFault> = None;
    let mut lines = Vec::new(alloc);
    let mut outcomes = Vec::new(alloc);
    for desk in desks {
        let (line, outcome) = end_of(alloc, lines.len() + 1, desk)?;
        lines.push(line)?;
        outcomes.push(outcome)?;
    }
    lines.push(verdict(&outcomes))?;
    Ok(lines)
}
