//! The timetable in a file, a desk file or a data set, and its carrier record.

ghost use Rattle.std.specs.Prelude.{◌≡◌, Err, IfErr, IfOk, IfSome, Option};
ghost use Rattle.ssim_program.specs.Files.{Files, IsOpened};
ghost use Rattle.ssim_program.specs.Made.{IsOfBytes, ReadsFile, RefusesLoad};
ghost use Rattle.ssim_program.specs.Timetables.{HasCarrier, HasFault, ReadsAs, ReadsAsDesk};
ghost use Rattle.ssim_program.specs.Timetables.{ReadsTimetable, RefusesReading, RefusesTimetable};
ghost use Rattle.ssim_program.specs.Timetables.{known_in, shown_in};

use crate::data_set::{open_file, read_opened};
use crate::desk_file::read_desk;
use crate::explain::file_kind::FileKind;
use crate::refusal::Refusal;
use crate::store::Store;
use ssim_base::{BaseFault, Stations};
use ssim_desk::{DeskFault, Holdings};
use ssim_records::{Carrier, Peekable, Source};
use std::alloc::Global;

/// The desk whose timetable the file of this name has. A data set is read as a desk that holds no
/// message, with an empty station table. Returns 91 if there is no such file within the limit.
pub(crate) fn open_timetable<S: Store>(
    alloc: Global,
    name: &str,
    store: &mut S,
) -> Result<Holdings, Refusal>
    ensures read { IfOk result (ReadsTimetable (S.files store.old) name.now) }
    ensures refused { IfErr result (RefusesTimetable (S.files store.old) name.now) }
    ensures same { S.files store.new ≡ S.files store.old }
    ensures counted { S.failures store.new ≡ S.failures store.old }
{
    let file = open_file(alloc, name, store)?;
    match read_timetable(alloc, name, file) {
        Ok(Ok((_, desk))) => Ok(desk),
        Ok(Err(fault)) => Err(Refusal::from(fault)),
        Err(refusal) => Err(refusal),
    }
}

/// The kind of the file of this name, and the desk of `open_timetable`.
pub(crate) fn open_known<S: Store>(
    alloc: Global,
    name: &str,
    store: &mut S,
) -> Result<(FileKind, Holdings), Refusal>
    ensures answer { known_in (S.files store.old) name.now result }
    ensures same { S.files store.new ≡ S.files store.old }
    ensures counted { S.failures store.new ≡ S.failures store.old }
{
    let file = open_file(alloc, name, store)?;
    match read_timetable(alloc, name, file) {
        Ok(Ok((kind, desk))) => Ok((kind, desk)),
        Ok(Err(fault)) => Err(Refusal::from(fault)),
        Err(refusal) => Err(refusal),
    }
}

/// The desk of `open_timetable`, for commands that say what messages did. A file that is neither a
/// desk file nor a data set is refused as no desk file (62).
pub(crate) fn open_shown<S: Store>(
    alloc: Global,
    name: &str,
    store: &mut S,
) -> Result<Holdings, Refusal>
    ensures answer { shown_in (S.files store.old) name.now result }
    ensures same { S.files store.new ≡ S.files store.old }
    ensures counted { S.failures store.new ≡ S.failures store.old }
{
    let file = open_file(alloc, name, store)?;
    match read_timetable(alloc, name, file) {
        Ok(Ok((_, desk))) => Ok(desk),
        Ok(Err(_)) => Err(Refusal::from(DeskFault::File(0))),
        Err(refusal) => Err(refusal),
    }
}

/// The kind of a file that was opened under this name, a desk file if it begins as one and else a data
/// set, and the desk whose timetable it has; or the fault of a data set.
fn read_timetable<F: Source + Drop>(
    alloc: Global,
    name: &str,
    file: F,
) -> Result<Result<(FileKind, Holdings), BaseFault>, Refusal>
    ensures read { (files : Option Files) → IsOpened files name.now (F.state file).left
        → IfOk result (λ read. IfOk read (λ known. ReadsAs known.0 files name.now known.1)) }
    ensures fault { (files : Option Files) → IsOpened files name.now (F.state file).left
        → IfOk result (λ read. IfErr read (HasFault files name.now)) }
    ensures refused { (files : Option Files) → IsOpened files name.now (F.state file).left
        → IfSome files (λ _. (other : F) → (F.state other).failures ≡ 0)
        → IfErr result (RefusesReading files name.now) }
{
    let mut file = Peekable::new(file);
    match file.begins_with(b"SSIMDESK ") {
        Ok(true) => match read_desk(alloc, name, file) {
            Ok(desk) => Ok(Ok((FileKind::Desk, desk))),
            Err(refusal) => Err(refusal),
        },
        Ok(false) => match read_data_set(alloc, name, file) {
            Ok(Ok(desk)) => Ok(Ok((FileKind::DataSet, desk))),
            Ok(Err(fault)) => Ok(Err(fault)),
            Err(refusal) => Err(refusal),
        },
        Err(_) => Err(Refusal::of_file(alloc, name)),
    }
}

/// The desk of the data set in a file that was opened under this name, or the data set's fault.
fn read_data_set<F: Source + Drop>(
    alloc: Global,
    name: &str,
    file: F,
) -> Result<Result<Holdings, BaseFault>, Refusal>
    ensures read { (files : Option Files) → IsOpened files name.now (F.state file).left
        → IfOk result (λ read. IfOk read (ReadsAsDesk files name.now)) }
    ensures fault { (files : Option Files) → IsOpened files name.now (F.state file).left
        → IfOk result (λ read. IfErr read
        (λ e. IsOfBytes e × ReadsFile files name.now (Err e))) }
    ensures refused { (files : Option Files) → IsOpened files name.now (F.state file).left
        → IfSome files (λ _. (other : F) → (F.state other).failures ≡ 0)
        → IfErr result (RefusesLoad files name.now) }
{
    match read_opened(alloc, name, file) {
        Ok(Ok(data_set)) => Ok(Ok(Holdings::start(alloc, data_set, Stations::new(alloc)))),
        Ok(Err(fault)) => Ok(Err(fault)),
        Err(refusal) => Err(refusal),
    }
}

/// The carrier record of the desk's data set.
pub(crate) fn carrier_of(desk: &Holdings) -> Carrier
    ensures { HasCarrier desk.now.base.records result }
{
    let (_, carrier, _) = desk.data_set().frame().records();
    *carrier
}
