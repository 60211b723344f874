//! A file that a command holds: the lock of the file that is there, and what it was then.

ghost use Rattle.std.specs.Prelude.{◌≡◌, IfOk, string_bytes};

use crate::draft::keep_fault_of;
use crate::file_bytes::fill;
use ssim_program::{ContentKind, Hold, HoldFault, KeepFault, StoreFault};
use std::alloc::Global;
use std::fs::{File, Metadata, OpenOptions, TryLockError};
use std::io::ErrorKind;
use std::os::fd::AsRawFd;
use std::os::unix::fs::MetadataExt;
use std::rt::Files;
use std::{fs, io, mem};

/// How often another file may come to the place while it is opened.
const TRIES: u32 = 100;

/// The number of the standard streams, whose numbers begin with 0.
const STANDARD: i32 = 3;

/// How many bytes tell the kind of a file.
const BEGINNING: usize = 35;

/// What tells that a file is another one, or has changed.
#[derive(Clone, Copy, PartialEq, Eq)]
struct Stamp {
    device: u64,
    inode: u64,
    length: u64,
    /// The time of the last change of its bytes, in seconds and nanoseconds.
    seconds: i64,
    nanoseconds: i64,
}

impl Stamp {
    fn of(metadata: &Metadata) -> Stamp {
        Stamp {
            device: metadata.dev(),
            inode: metadata.ino(),
            length: metadata.len(),
            seconds: metadata.mtime(),
            nanoseconds: metadata.mtime_nsec(),
        }
    }

    fn is_of_same_file(&self, other: &Stamp) -> bool {
        self.device == other.device && self.inode == other.inode
    }
}

/// What was at the place of a file when it was held.
#[derive(Drop)]
enum Found {
    /// Nothing.
    Nothing,
    /// A regular file, which is locked until this value is dropped.
    Regular { _locked: File, stamp: Stamp },
    /// A device, a FIFO, a folder, or what cannot be looked at. It is held by nobody.
    Other,
}

/// A file that is held, by its name.
#[derive(Drop)]
pub struct FileHold {
    name: String,
    found: Found,
}

impl Hold for FileHold {
    ghost use Rattle.std.specs.Prelude.{string_bytes};

    ghost file = { λ h. string_bytes h.name };

    fn name(&self) -> &str {
        self.name.as_str()
    }
}

impl FileHold {
    /// Fails with 92 if what is at the place is not what was there when it was held.
    pub(crate) fn check_unchanged<R: Files>(&self, rt: &R, place: &str) -> Result<(), KeepFault> {
        let is_unchanged = match (&self.found, rt.symlink_metadata(place)) {
            (Found::Regular { stamp, .. }, Ok(there)) => *stamp == Stamp::of(&there),
            (_, Ok(_)) => false,
            (found, Err(error)) if error.kind() == ErrorKind::NotFound => {
                matches!(found, Found::Nothing)
            }
            (_, Err(error)) => return Err(keep_fault_of(&error)),
        };
        if is_unchanged {
            Ok(())
        } else {
            Err(KeepFault::Busy)
        }
    }

    /// Whether a device, a FIFO or a folder was at the place, or what cannot be looked at.
    pub(crate) fn is_of_other(&self) -> bool {
        matches!(self.found, Found::Other)
    }
}

/// Opens a file so that it can be locked over NFS too, if it may be written.
fn open<R: Files<File = File>>(rt: &R, name: &str) -> io::Result<File> {
    let mut options = OpenOptions::new();
    options.read(true).write(true);
    match rt.open_file(&options, name) {
        Err(error) if error.kind() != ErrorKind::NotFound => fs::open(rt, name),
        opened => opened,
    }
}

/// The same open file under a number that is none of a standard stream, so that nothing is printed
/// into it if the program was started without one of them.
fn apart(alloc: Global, file: File) -> Result<File, HoldFault> {
    let mut file = file;
    let mut others = Vec::new(alloc);
    for _ in 0..STANDARD {
        if file.as_raw_fd() >= STANDARD {
            return Ok(file);
        }
        let copy = match file.try_clone() {
            Ok(copy) => copy,
            Err(error) => return Err(fault_of(&error)),
        };
        let other = mem::replace(&mut file, copy);
        if others.push(other).is_err() {
            return Err(HoldFault::Memory);
        }
    }
    Ok(file)
}

/// Locks an open file without waiting. Returns whether no other program holds it; a file system
/// without locks says so of each file.
pub(crate) fn lock(file: &File) -> bool {
    !matches!(file.try_lock(), Err(TryLockError::WouldBlock))
}

/// Whether the open file is the one that has the name now.
pub(crate) fn is_there<R: Files>(rt: &R, file: &File, name: &str) -> bool {
    match (file.metadata(), rt.metadata(name)) {
        (Ok(open), Ok(there)) => Stamp::of(&open).is_of_same_file(&Stamp::of(&there)),
        _ => false,
    }
}

/// Whether two names are names of one file.
pub(crate) fn is_same_file<R: Files>(rt: &R, one: &str, other: &str) -> bool {
    if one == other {
        return true;
    }
    match (rt.metadata(one), rt.metadata(other)) {
        (Ok(one), Ok(other)) => Stamp::of(&one).is_of_same_file(&Stamp::of(&other)),
        _ => false,
    }
}

/// Why a file is not held, after an error of the system.
fn fault_of(error: &io::Error) -> HoldFault {
    match error.kind() {
        ErrorKind::OutOfMemory => HoldFault::Memory,
        _ => HoldFault::Fault,
    }
}

/// The regular file of this name, locked; nothing if it has gone.
fn locked<R: Files<File = File>>(
    rt: &R,
    alloc: Global,
    name: &str,
) -> Result<Option<File>, HoldFault> {
    for _ in 0..TRIES {
        let file = match open(rt, name) {
            Ok(file) => apart(alloc, file)?,
            Err(error) if error.kind() == ErrorKind::NotFound => return Ok(None),
            Err(error) => return Err(fault_of(&error)),
        };
        if !lock(&file) {
            return Err(HoldFault::Busy);
        }
        if is_there(rt, &file, name) {
            return Ok(Some(file));
        }
    }
    Err(HoldFault::Busy)
}

/// The first bytes of a file.
fn beginning_of(alloc: Global, file: &mut File) -> Result<Vec<u8>, HoldFault> {
    let mut chunk = [0; BEGINNING];
    let mut bytes = Vec::new(alloc);
    match fill(file, &mut chunk, &mut bytes, BEGINNING) {
        Ok(()) => Ok(bytes),
        Err(StoreFault::Memory) => Err(HoldFault::Memory),
        Err(StoreFault::Fault) => Err(HoldFault::Fault),
    }
}

/// What is at the place of a regular file, which is locked if it may be replaced.
fn found_regular<R: Files<File = File>>(
    rt: &R,
    alloc: Global,
    name: &str,
    kind: ContentKind,
) -> Result<Found, HoldFault> {
    let Some(mut file) = locked(rt, alloc, name)? else {
        return Ok(Found::Nothing);
    };
    let beginning = beginning_of(alloc, &mut file)?;
    if !kind.replaces(&beginning) {
        return Err(HoldFault::Occupied);
    }
    match file.metadata() {
        Ok(metadata) => Ok(Found::Regular {
            _locked: file,
            stamp: Stamp::of(&metadata),
        }),
        Err(error) => Err(fault_of(&error)),
    }
}

/// Holds the file of this name for a content of this kind. Of a symbolic link it holds the file to
/// which it leads.
pub(crate) fn hold_file<R: Files<File = File>>(
    rt: &R,
    alloc: Global,
    name: &str,
    kind: ContentKind,
) -> Result<FileHold, HoldFault>
    ensures { IfOk result (λ hold. string_bytes hold.name ≡ name.now) }
{
    let found = match rt.metadata(name) {
        _ if name == "-" => Found::Other,
        Ok(there) if there.is_file() => found_regular(rt, alloc, name, kind)?,
        Err(error) if error.kind() == ErrorKind::NotFound => Found::Nothing,
        _ => Found::Other,
    };
    match String::from_str(alloc, name) {
        Ok(name) => Ok(FileHold { name, found }),
        Err(_) => Err(HoldFault::Memory),
    }
}
