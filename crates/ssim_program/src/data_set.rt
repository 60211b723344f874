//! Files of the store: any file, the data set in a file, and a base from a data set and a station
//! table.

ghost use Rattle.std.specs.Prelude.{◌≡◌, ◌⊎◌, ◌≤◌, ℕ, List, Option, IfErr, IfOk, IfSome};
ghost use Rattle.std.specs.Prelude.{Ok, Err, length};
ghost use Rattle.ssim_records.specs.declared.record.Record.{Record};
ghost use Rattle.ssim_base.specs.BaseSeen.{base_with};
ghost use Rattle.ssim_base.specs.Reading.{IsReadAs};
ghost use Rattle.ssim_base.specs.declared.fault.BaseFault.TheVariants as base_fault;
ghost use Rattle.ssim_base.specs.declared.note.Note.{Note};
ghost use Rattle.ssim_program.specs.Files.{Files, IsOpened};
ghost use Rattle.ssim_program.specs.Made.{FindsProblems, HasFile, IsOfBytes, ReadsFile};
ghost use Rattle.ssim_program.specs.Made.{RefusesFile, RefusesLoad, RefusesWithin, base_in, file_limit};
ghost use Rattle.ssim_program.specs.internal.DataSet.{SumsFile, IsUnread};

use crate::refusal::Refusal;
use crate::store::{Store, StoreFault};
use ssim_base::{BaseFault, DataSet, Problems, Stations, Summary};
use ssim_records::{RecordFault, Source};
use std::alloc::Global;

/// The most bytes that a file may have.
pub(crate) const LIMIT: u64 = 268_435_456;

/// Loads the file of this name. Returns 91 if there is no such file within the limit.
pub(crate) fn load_file<S: Store>(
    alloc: Global,
    name: &str,
    store: &mut S,
) -> Result<Vec<u8>, Refusal>
    ensures bytes { IfOk result (λ v. HasFile (S.files store.old) name.now v.items) }
    ensures within { IfOk result (λ v. length v.items ≤ file_limit) }
    ensures refused { IfErr result (RefusesLoad (S.files store.old) name.now) }
    ensures same { S.files store.new ≡ S.files store.old }
    ensures counted { S.failures store.new ≡ S.failures store.old }
{
    match store.load(alloc, name, LIMIT) {
        Ok(bytes) => Ok(bytes),
        Err(StoreFault::Memory) => Err(Refusal::Memory),
        Err(StoreFault::Fault) => Err(Refusal::of_file(alloc, name)),
    }
}

/// Opens the file of this name. Returns 91 if there is no such file.
pub(crate) fn open_file<S: Store>(
    alloc: Global,
    name: &str,
    store: &mut S,
) -> Result<S::File, Refusal>
    ensures opened { IfOk result
        (λ file. IsOpened (S.files store.old) name.now (S.File.state file).left) }
    ensures refused { (limit : ℕ)
        → IfErr result (RefusesWithin limit (S.files store.old) name.now) }
    ensures same { S.files store.new ≡ S.files store.old }
    ensures counted { S.failures store.new ≡ S.failures store.old }
{
    match store.open(alloc, name) {
        Ok(file) => Ok(file),
        Err(StoreFault::Memory) => Err(Refusal::Memory),
        Err(StoreFault::Fault) => Err(Refusal::of_file(alloc, name)),
    }
}

/// Why a file has no outcome, if the fault is not of its bytes: memory ran out, or the file was not
/// read to its end within the limit.
fn unread(alloc: Global, name: &str, fault: &BaseFault) -> Option<Refusal>
    ensures { IsUnread name.now fault.now result }
{
    match fault {
        BaseFault::Memory => Some(Refusal::Memory),
        BaseFault::Read(RecordFault::ReadFault { .. }) => Some(Refusal::of_file(alloc, name)),
        BaseFault::Read(RecordFault::ReaderNeverEnds { .. }) => Some(Refusal::of_file(alloc, name)),
        _ => None,
    }
}

/// Reads the data set in the file of this name, to be exported: its records, or the fault of its
/// bytes. Returns 91 if there is no such file within the limit.
fn read_file<S: Store>(
    alloc: Global,
    name: &str,
    store: &mut S,
) -> Result<Result<DataSet, BaseFault>, Refusal>
    ensures read { IfOk result (λ read. IfOk read
        (λ set. (notes : List Note) × ReadsFile (S.files store.old) name.now (Ok (set, notes)))) }
    ensures fault { IfOk result
        (λ read. IfErr read (λ e. IsOfBytes e × ReadsFile (S.files store.old) name.now (Err e))) }
    ensures within { IfOk result
        (λ _. (bytes : List ℕ) × HasFile (S.files store.old) name.now bytes) }
    ensures refused { IfErr result (RefusesLoad (S.files store.old) name.now) }
    ensures same { S.files store.new ≡ S.files store.old }
    ensures counted { S.failures store.new ≡ S.failures store.old }
{
    let file = open_file(alloc, name, store)?;
    read_opened(alloc, name, file)
}

/// Reads the data set in a file that was opened under this name, to be exported: its records, or
/// the fault of its bytes. Returns 91 if the file has more bytes than the limit, or fails.
pub(crate) fn read_opened<F: Source + Drop>(
    alloc: Global,
    name: &str,
    mut file: F,
) -> Result<Result<DataSet, BaseFault>, Refusal>
    ensures read { (files : Option Files) → IsOpened files name.now (F.state file).left
        → IfOk result (λ read. IfOk read
        (λ set. (notes : List Note) × ReadsFile files name.now (Ok (set, notes)))) }
    ensures fault { (files : Option Files) → IsOpened files name.now (F.state file).left
        → IfOk result (λ read. IfErr read (λ e. IsOfBytes e × ReadsFile files name.now (Err e))) }
    ensures refused { (files : Option Files) → IsOpened files name.now (F.state file).left
        → IfSome files (λ _. (other : F) → (F.state other).failures ≡ 0)
        → IfErr result (RefusesLoad files name.now) }
{
    match DataSet::read(alloc, &mut file, LIMIT) {
        Ok(data_set) => Ok(Ok(data_set)),
        Err(fault) => match unread(alloc, name, &fault) {
            Some(refusal) => Err(refusal),
            None => Ok(Err(fault)),
        },
    }
}

/// Reads what the data set in the file of this name has, or the fault of its bytes. Returns 91 if
/// there is no such file within the limit.
fn sum_file<S: Store>(
    alloc: Global,
    name: &str,
    store: &mut S,
) -> Result<Result<Summary, BaseFault>, Refusal>
    ensures sums { IfOk result (λ read. IfOk read (SumsFile (S.files store.old) name.now)) }
    ensures fault { IfOk result
        (λ read. IfErr read (λ e. IsOfBytes e × ReadsFile (S.files store.old) name.now (Err e))) }
    ensures refused { IfErr result (RefusesLoad (S.files store.old) name.now) }
    ensures same { S.files store.new ≡ S.files store.old }
    ensures counted { S.failures store.new ≡ S.failures store.old }
{
    let mut file = open_file(alloc, name, store)?;
    match Summary::read(alloc, &mut file, LIMIT) {
        Ok(summary) => Ok(Ok(summary)),
        Err(fault) => match unread(alloc, name, &fault) {
            Some(refusal) => Err(refusal),
            None => Ok(Err(fault)),
        },
    }
}

/// Reads the data set in the file of this name, to be exported.
pub(crate) fn load<S: Store>(alloc: Global, name: &str, store: &mut S) -> Result<DataSet, Refusal>
    ensures read { IfOk result
        (λ read. (notes : List Note) × ReadsFile (S.files store.old) name.now (Ok (read, notes))) }
    ensures refused { IfErr result (RefusesFile (S.files store.old) name.now) }
    ensures same { S.files store.new ≡ S.files store.old }
    ensures counted { S.failures store.new ≡ S.failures store.old }
{
    Ok(read_file(alloc, name, store)??)
}

/// Reads what the data set in the file of this name has.
pub(crate) fn load_summary<S: Store>(
    alloc: Global,
    name: &str,
    store: &mut S,
) -> Result<Summary, Refusal>
    ensures sums { IfOk result (SumsFile (S.files store.old) name.now) }
    ensures refused { IfErr result (RefusesFile (S.files store.old) name.now) }
    ensures same { S.files store.new ≡ S.files store.old }
    ensures counted { S.failures store.new ≡ S.failures store.old }
{
    Ok(sum_file(alloc, name, store)??)
}

/// Reads all problems of the data set in the file of this name. Returns 91 if there is no such file
/// within the limit.
pub(crate) fn load_problems<S: Store>(
    alloc: Global,
    name: &str,
    store: &mut S,
) -> Result<Problems, Refusal>
    ensures found { IfOk result (FindsProblems (S.files store.old) name.now) }
    ensures refused { IfErr result (RefusesLoad (S.files store.old) name.now) }
    ensures same { S.files store.new ≡ S.files store.old }
    ensures counted { S.failures store.new ≡ S.failures store.old }
{
    let mut file = open_file(alloc, name, store)?;
    match Problems::read(alloc, &mut file, LIMIT) {
        Ok(problems) => Ok(problems),
        Err(fault) => match unread(alloc, name, &fault) {
            Some(refusal) => Err(refusal),
            None => unreachable!(),
        },
    }
}

/// Reads what the bytes of a data set have.
pub(crate) fn sum_bytes(alloc: Global, bytes: &[u8]) -> Result<Summary, BaseFault>
    requires { length bytes.now ≤ file_limit }
    ensures valid { IfOk result (λ summary. (base : List Record) × (notes : List Note)
        × IsReadAs file_limit bytes.now (Ok (base, notes))) }
    ensures invalid { IfErr result
        (λ e. (e ≡ base_fault.Memory) ⊎ (IsOfBytes e × IsReadAs file_limit bytes.now (Err e))) }
{
    let mut left = bytes;
    Summary::read(alloc, &mut left, LIMIT)
}

/// Reads the data set in one file, with the station table in another. The data set is read to its
/// end first, and then the table is loaded and read; the fault of the data set comes last.
pub(crate) fn load_base<S: Store>(
    alloc: Global,
    dataset: &str,
    stations: &str,
    store: &mut S,
) -> Result<(DataSet, Stations), Refusal>
    ensures read { IfOk result (λ read.
        base_in (S.files store.old) dataset.now stations.now (Ok (base_with read.0 read.1))) }
    ensures refused { IfErr result
        (λ why. base_in (S.files store.old) dataset.now stations.now (Err why)) }
    ensures same { S.files store.new ≡ S.files store.old }
    ensures counted { S.failures store.new ≡ S.failures store.old }
{
    let read = read_file(alloc, dataset, store)?;
    let table = load_file(alloc, stations, store)?;
    let stations = Stations::read(alloc, &table)?;
    match read {
        Ok(data_set) => Ok((data_set, stations)),
        Err(fault) => Err(Refusal::from(fault)),
    }
}
