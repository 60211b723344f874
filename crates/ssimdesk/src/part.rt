//! The part of a file: a file beside its place, which gets its name when it is whole.

use crate::draft::keep_fault_of;
use crate::hold::{is_there, lock};
use ssim_program::KeepFault;
use std::alloc::Global;
use std::fs::{File, OpenFile, OpenOptions};
use std::io;
use std::io::ErrorKind;
use std::rt::Files;

/// How many names beside a place are tried before the file is refused.
const TRIES: u32 = 100;

/// A new or emptied file beside a place. It is locked, so no other command takes it over.
#[derive(Drop)]
pub(crate) struct Part {
    pub name: String,
    pub file: File,
}

/// Makes the part of a file, or takes over one that a command left that was killed.
pub(crate) fn part_of<R: Files<File = File>>(
    rt: &R,
    alloc: Global,
    place: &str,
) -> Result<Part, KeepFault> {
    for number in 0..TRIES {
        let Ok(name) = format!(in alloc; "{place}.{number}.part") else {
            return Err(KeepFault::Memory);
        };
        match part_at(rt, name.as_str()) {
            Ok(Some(file)) => return Ok(Part { name, file }),
            Ok(None) => {}
            Err(error) => return Err(keep_fault_of(&error)),
        }
    }
    Err(KeepFault::Fault)
}

/// The empty part of this name; nothing if another command writes it.
fn part_at<R: Files<File = File>>(rt: &R, name: &str) -> io::Result<Option<File>> {
    let mut options = OpenOptions::new();
    options.write(true).create_new(true);
    match rt.open_file(&options, name) {
        Ok(file) if lock(&file) => Ok(Some(file)),
        Ok(_) => Ok(None),
        Err(error) if error.kind() == ErrorKind::AlreadyExists => Ok(left_part(rt, name)),
        Err(error) => Err(error),
    }
}

/// The part of this name that a command left, emptied; nothing if it cannot be taken over.
fn left_part<R: Files<File = File>>(rt: &R, name: &str) -> Option<File> {
    if !rt.symlink_metadata(name).ok()?.is_file() {
        return None;
    }
    let mut options = OpenOptions::new();
    options.write(true);
    let file = rt.open_file(&options, name).ok()?;
    // A lock that was refused, or that the file system does not have, shows no command's end.
    if file.try_lock().is_err() || !is_there(rt, &file, name) {
        return None;
    }
    file.set_len(0).ok()?;
    Some(file)
}
