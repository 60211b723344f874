//! Files that are written whole: beside their place, synced, and then renamed.

use crate::draft::{keep_fault_of, put_whole};
use crate::hold::FileHold;
use crate::part::{Part, part_of};
use ssim_program::{Content, Hold, KeepFault};
use std::alloc::Global;
use std::fs::{File, Metadata, OpenFile};
use std::os::unix::fs::MetadataExt;
use std::path::PathBuf;
use std::rt::Files;
use std::{fs, io};

/// How many symbolic links may lead to a place.
const LINKS: u32 = 40;

/// Writes the content in the file that is held: all of it, or what is there stays as it is, and
/// nothing is left beside it unless it cannot be removed.
///
/// A symbolic link stays, and the file to which it leads is written, whether it is there or not. A
/// device or a FIFO is written straight. The permissions of a file that is there are kept, and its
/// owner and group if the system lets us.
pub(crate) fn write_whole<R: Files<File = File>, C: Content>(
    rt: &R,
    alloc: Global,
    hold: &FileHold,
    content: &C,
) -> Result<(), KeepFault> {
    let place = place_of(rt, alloc, hold.name())?;
    if hold.is_of_other() {
        return write_straight(rt, alloc, place.as_str(), content);
    }
    replace(rt, alloc, hold, place.as_str(), content)
}

/// The place to which a name leads: the name, or the target of its symbolic links.
fn place_of<R: Files>(rt: &R, alloc: Global, name: &str) -> Result<String, KeepFault> {
    let Ok(mut place) = String::from_str(alloc, name) else {
        return Err(KeepFault::Memory);
    };
    for _ in 0..LINKS {
        match rt.symlink_metadata(place.as_str()) {
            Ok(found) if found.is_symlink() => place = target_of(rt, alloc, place.as_str())?,
            _ => return Ok(place),
        }
    }
    Err(KeepFault::Fault)
}

/// The target of a symbolic link. A relative one begins in the folder of the link.
fn target_of<R: Files>(rt: &R, alloc: Global, link: &str) -> Result<String, KeepFault> {
    let target: PathBuf = match rt.read_link(alloc, link) {
        Ok(target) => target,
        Err(error) => return Err(keep_fault_of(&error)),
    };
    let target = target.as_str();
    let made = match link.rsplit_once('/') {
        Some((folder, _)) if !target.starts_with('/') => format!(in alloc; "{folder}/{target}"),
        _ => String::from_str(alloc, target),
    };
    match made {
        Ok(place) => Ok(place),
        Err(_) => Err(KeepFault::Memory),
    }
}

/// Writes the content to a device or a FIFO. A file that could not be held is not written.
fn write_straight<R: Files, C: Content>(
    rt: &R,
    alloc: Global,
    place: &str,
    content: &C,
) -> Result<(), KeepFault> {
    match rt.metadata(place) {
        Ok(found) if found.is_file() => return Err(KeepFault::Fault),
        Ok(_) => {}
        Err(error) => return Err(keep_fault_of(&error)),
    }
    let file = match fs::create(rt, place) {
        Ok(file) => file,
        Err(error) => return Err(keep_fault_of(&error)),
    };
    match put_whole(alloc, file, content) {
        Ok(_file) => Ok(()),
        Err(fault) => Err(fault),
    }
}

/// Writes the part of a file, and renames it. After an error it is removed.
fn replace<R: Files<File = File>, C: Content>(
    rt: &R,
    alloc: Global,
    hold: &FileHold,
    place: &str,
    content: &C,
) -> Result<(), KeepFault> {
    let Part { name, file } = part_of(rt, alloc, place)?;
    let replaced = fill(rt, alloc, file, name.as_str(), place, content);
    let renamed = match replaced {
        Ok(file) => rename(rt, hold, file, name.as_str(), place),
        Err(fault) => Err(fault),
    };
    match renamed {
        Ok(()) => sync_folder_of(rt, place),
        Err(_) => {
            let _ = rt.remove_file(name.as_str());
        }
    }
    renamed
}

/// Writes the content into the part, and waits until the device has it.
fn fill<R: Files<File = File>, C: Content>(
    rt: &R,
    alloc: Global,
    file: File,
    part: &str,
    place: &str,
    content: &C,
) -> Result<File, KeepFault> {
    if let Ok(there) = rt.metadata(place) {
        if let Err(error) = take_after(rt, &file, part, &there) {
            return Err(keep_fault_of(&error));
        }
    }
    let file = put_whole(alloc, file, content)?;
    match file.sync_all() {
        Ok(()) => Ok(file),
        Err(error) => Err(keep_fault_of(&error)),
    }
}

/// Gives the part the owner and the group of the file that is there, if the system lets us, and its
/// permissions.
fn take_after<R: Files>(rt: &R, file: &File, part: &str, there: &Metadata) -> io::Result<()> {
    let (owner, group) = (there.uid(), there.gid());
    let own = file.metadata()?;
    if own.uid() != owner || own.gid() != group {
        if rt.chown(part, Some(owner), Some(group)).is_err() {
            let _ = rt.chown(part, None, Some(group));
        }
    }
    file.set_permissions(there.permissions())
}

/// Gives the part the name of the place, if what is there has not changed since it was held.
fn rename<R: Files>(
    rt: &R,
    hold: &FileHold,
    _locked: File,
    part: &str,
    place: &str,
) -> Result<(), KeepFault> {
    hold.check_unchanged(rt, place)?;
    match rt.rename(part, place) {
        Ok(()) => Ok(()),
        Err(error) => Err(keep_fault_of(&error)),
    }
}

/// Waits until the device has the new name of a file at the place. An error changes nothing: the
/// file is there.
fn sync_folder_of<R: Files>(rt: &R, place: &str) {
    let folder = match place.rsplit_once('/') {
        Some(("", _)) => "/",
        Some((folder, _)) => folder,
        None => ".",
    };
    if let Ok(file) = fs::open(rt, folder) {
        let _ = file.sync_all();
    }
}
