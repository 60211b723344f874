//! What is printed on a file: the refusal of its first invalid place, what else it is, or that it is
//! valid.

ghost use Rattle.std.specs.Prelude.{◌≡◌, ◌≤◌, ◌++◌, codes, false, length, true, IfOk, None};
ghost use Rattle.ssim_base.specs.Export.{line};
ghost use Rattle.ssim_program.specs.Explained.{BeginsWith, ExplainsBytes, TellsInvalid, kind_name};
ghost use Rattle.ssim_program.specs.Explained.{kind_of, may_be_mail, told_as};
ghost use Rattle.ssim_program.specs.Foreign.{foreign_kind};
ghost use Rattle.ssim_program.specs.internal.Explain.{Judges};
ghost use Rattle.ssim_program.specs.Made.{file_limit};
ghost use Rattle.ssim_program.specs.declared.explain.file_kind.FileKind.TheVariants as kind;

use super::file_kind::{FileKind, kind_of};
use super::foreign::{ForeignKind, foreign_kind, on_foreign};
use super::mail::{is_mail, is_mailbox, on_mailbox, tried_texts};
use super::on_refusal;
use crate::data_set::{LIMIT, sum_bytes};
use crate::made::Report;
use crate::refusal::Refusal;
use crate::rehearse::script::Script;
use ssim_base::{BaseFault, BaseRefusal, Place, StationFault, Stations};
use ssim_desk::{DeskFault, Holdings};
use ssim_guide::{
    words_on_continuation, words_on_line, words_on_offset, words_on_overflow, words_on_overlap,
    words_on_record, words_on_type,
};
use ssim_text::{TextFault, decode};
use ssim_values::Memory;
use std::alloc::{AllocError, Global};

/// What is printed on a file of these bytes, and whether something is invalid.
pub(crate) fn on_bytes(alloc: Global, bytes: &[u8]) -> Result<Report, Memory>
    requires { length bytes.now ≤ file_limit }
    ensures { IfOk result
        (λ report. ExplainsBytes bytes.now report.lines.items report.found) }
{
    let kind = kind_of(bytes);
    match judged(alloc, kind, bytes)? {
        Some(refusal) => on_invalid(alloc, kind, bytes, &refusal),
        None => on_valid(alloc, kind),
    }
}

/// What is printed on a file of this kind with this refusal.
fn on_invalid(
    alloc: Global,
    kind: FileKind,
    bytes: &[u8],
    refusal: &Refusal,
) -> Result<Report, Memory>
    requires { kind ≡ kind_of bytes.now }
    ensures { IfOk result (λ report.
        TellsInvalid (told_as (foreign_kind bytes.now) bytes.now) bytes.now refusal.now
        report.lines.items report.found) }
{
    match foreign_kind(bytes) {
        Some(foreign) => {
            let lines = on_foreign(alloc, foreign)?;
            Ok(Report { lines, found: true })
        }
        None if may_be_mail(kind) => on_text(alloc, bytes, refusal),
        None => {
            let lines = on_refused(alloc, bytes, refusal)?;
            Ok(Report { lines, found: true })
        }
    }
}

/// Whether a file of this kind may be mail.
fn may_be_mail(kind: FileKind) -> bool
    ensures { result ≡ may_be_mail kind }
{
    matches!(kind, FileKind::Message | FileKind::Stations)
}

/// What is printed on a file with this refusal that may be mail.
fn on_text(alloc: Global, bytes: &[u8], refusal: &Refusal) -> Result<Report, Memory>
    requires { may_be_mail (kind_of bytes.now) ≡ true }
    ensures { IfOk result (λ report.
        TellsInvalid (told_as None bytes.now) bytes.now refusal.now report.lines.items report.found) }
{
    let texts = tried_texts(alloc, bytes)?;
    let as_mailbox = is_mailbox(alloc, &texts, bytes)?;
    if as_mailbox {
        return on_mailbox(alloc, bytes, &texts);
    }
    let as_mail = is_mail(alloc, &texts, bytes)?;
    if as_mail {
        let lines = on_foreign(alloc, ForeignKind::Mail)?;
        return Ok(Report { lines, found: true });
    }
    let lines = on_refused(alloc, bytes, refusal)?;
    Ok(Report { lines, found: true })
}

/// The line of the refusal of a file, the words on it, and the words on its place.
fn on_refused(alloc: Global, bytes: &[u8], refusal: &Refusal) -> Result<Vec<u8>, Memory>
    ensures { IfOk result (λ text. BeginsWith refusal.now text.items) }
{
    let place = words_on_place(alloc, bytes, refusal)?;
    on_refusal(alloc, refusal, &place)
}

/// That a file is valid.
fn on_valid(alloc: Global, kind: FileKind) -> Result<Report, Memory>
    ensures lines { IfOk result
        (λ report. report.lines.items ≡ line (codes "valid " ++ kind_name kind)) }
    ensures found { IfOk result (λ report. report.found ≡ false) }
{
    let mut lines = Vec::from_slice(alloc, b"valid ")?;
    lines.extend_from_slice(name_of(kind).as_bytes())?;
    Ok(Report {
        lines,
        found: false,
    })
}

/// The name of a kind of file, as the end of a line.
pub(super) fn name_of(kind: FileKind) -> &'static str
    ensures { result.now ≡ line (kind_name kind) }
{
    match kind {
        FileKind::DataSet => "data set\n",
        FileKind::Desk => "desk file\n",
        FileKind::Script => "desk script\n",
        FileKind::Message => "text\n",
        FileKind::Stations => "station table\n",
    }
}

// ---- the refusal

/// The refusal of a file of this kind, or none if it is valid.
pub(super) fn judged(alloc: Global, kind: FileKind, bytes: &[u8]) -> Result<Option<Refusal>, Memory>
    requires { length bytes.now ≤ file_limit }
    ensures { IfOk result (λ found. Judges kind bytes.now found) }
{
    match kind {
        FileKind::DataSet => data_set(alloc, bytes),
        FileKind::Desk => desk_file(alloc, bytes),
        FileKind::Script => script(alloc, bytes),
        FileKind::Message => message(alloc, bytes),
        FileKind::Stations => station_table(alloc, bytes),
    }
}

fn data_set(alloc: Global, bytes: &[u8]) -> Result<Option<Refusal>, Memory>
    requires { length bytes.now ≤ file_limit }
    ensures { IfOk result (λ found. Judges kind.DataSet bytes.now found) }
{
    match sum_bytes(alloc, bytes) {
        Ok(_) => Ok(None),
        Err(BaseFault::Memory) => Err(Memory),
        Err(fault) => Ok(Some(Refusal::from(fault))),
    }
}

fn desk_file(alloc: Global, bytes: &[u8]) -> Result<Option<Refusal>, Memory>
    requires { length bytes.now ≤ file_limit }
    ensures { IfOk result (λ found. Judges kind.Desk bytes.now found) }
{
    let mut left = bytes;
    match Holdings::open(alloc, &mut left, LIMIT) {
        Ok(_) => Ok(None),
        Err(DeskFault::File(offset)) => Ok(Some(Refusal::Desk(DeskFault::File(offset)))),
        Err(_) => Err(Memory),
    }
}

fn script(alloc: Global, bytes: &[u8]) -> Result<Option<Refusal>, Memory>
    ensures { IfOk result (λ found. Judges kind.Script bytes.now found) }
{
    match Script::read(alloc, bytes) {
        Ok(_) => Ok(None),
        Err(Refusal::Memory) => Err(Memory),
        Err(refusal) => Ok(Some(refusal)),
    }
}

fn message(alloc: Global, bytes: &[u8]) -> Result<Option<Refusal>, Memory>
    ensures { IfOk result (λ found. Judges kind.Message bytes.now found) }
{
    match decode(alloc, bytes) {
        Ok(_) => Ok(None),
        Err(TextFault::Memory) => Err(Memory),
        Err(fault) => Ok(Some(Refusal::Desk(DeskFault::Text(fault)))),
    }
}

fn station_table(alloc: Global, bytes: &[u8]) -> Result<Option<Refusal>, Memory>
    ensures { IfOk result (λ found. Judges kind.Stations bytes.now found) }
{
    match Stations::read(alloc, bytes) {
        Ok(_) => Ok(None),
        Err(StationFault::Memory) => Err(Memory),
        Err(fault) => Ok(Some(Refusal::from(fault))),
    }
}

// ---- the place

/// The words on the place of a refusal in the file.
fn words_on_place(alloc: Global, bytes: &[u8], refusal: &Refusal) -> Result<Vec<u8>, AllocError> {
    match refusal.place() {
        Place::Record(record) => words_on_refused(alloc, bytes, record, refusal),
        Place::Column { record, column } => words_on_record(alloc, bytes, record, Some(column)),
        Place::Line(line) => words_on_line(alloc, bytes, line, refusal.number()),
        Place::Offset(offset) => words_on_offset(alloc, bytes, offset),
        _ => Ok(Vec::new(alloc)),
    }
}

/// The words on a record that is refused.
fn words_on_refused(
    alloc: Global,
    bytes: &[u8],
    record: u64,
    refusal: &Refusal,
) -> Result<Vec<u8>, AllocError> {
    match refusal {
        Refusal::DataSet(BaseFault::Refused(_, BaseRefusal::Overlap)) => {
            words_on_overlap(alloc, bytes, record)
        }
        Refusal::DataSet(BaseFault::Refused(_, BaseRefusal::Overflow)) => {
            words_on_overflow(alloc, bytes, record)
        }
        Refusal::DataSet(BaseFault::Refused(_, BaseRefusal::Continuation)) => {
            words_on_continuation(alloc, bytes, record)
        }
        Refusal::DataSet(BaseFault::Refused(_, BaseRefusal::BadType)) => {
            words_on_type(alloc, bytes, record)
        }
        Refusal::DataSet(BaseFault::Refused(_, why)) => {
            words_on_record(alloc, bytes, record, column_of(*why))
        }
        _ => words_on_record(alloc, bytes, record, None),
    }
}

/// The first column of the field for which a record is refused, if it is one field.
fn column_of(refusal: BaseRefusal) -> Option<usize> {
    match refusal {
        BaseRefusal::OtherAirline => Some(3),
        BaseRefusal::Frequency => Some(36),
        _ => None,
    }
}
