//! The file that a command refuses.

ghost use Rattle.std.specs.Prelude.{◌≡◌};

use super::read_file::{ReadFile, Role, are_one_line, files_read};
use crate::desk_file::open_holdings;
use crate::refusal::Refusal;
use crate::store::Store;
use ssim_command_line::Request;
use ssim_desk::{DeskFault, Intake};
use ssim_outbox::OutboxFault;
use ssim_values::Memory;
use std::alloc::Global;

/// The file that a refusal of a command is about. Of two desks or timetables that do not go together
/// it is the second. Of several files it is the first that has the refusal, when it is read again.
pub(super) fn refused_file<'a, S: Store>(
    alloc: Global,
    request: &Request<'a>,
    refusal: &Refusal,
    store: &mut S,
) -> Result<Option<ReadFile<'a>>, Memory>
    ensures same { S.files store.new ≡ S.files store.old }
    ensures counted { S.failures store.new ≡ S.failures store.old }
{
    let files = files_read(alloc, request)?;
    if is_of_both(request, refusal) {
        return Ok(files.last().copied());
    }
    let files = files_with(alloc, &files, refusal)?;
    match request {
        Request::Take { desk, .. } if *desk != "-" && is_of_text(refusal) => {
            refused_text(alloc, desk, &files, refusal, store)
        }
        _ => first_refused(alloc, &files, refusal, store),
    }
}

/// Those of the files that may have the refusal.
fn files_with<'a>(
    alloc: Global,
    files: &[ReadFile<'a>],
    refusal: &Refusal,
) -> Result<Vec<ReadFile<'a>>, Memory> {
    let mut found = Vec::with_capacity(alloc, files.len())?;
    for file in files {
        if file.role.may_have(refusal) {
            found.push(*file)?;
        }
    }
    Ok(found)
}

/// Whether a refusal is of two desks or two timetables together.
fn is_of_both(request: &Request<'_>, refusal: &Refusal) -> bool {
    match refusal {
        Refusal::Publication(OutboxFault::OtherAirline | OutboxFault::OtherMode) => true,
        Refusal::Desk(DeskFault::Conflict(_) | DeskFault::OtherBase) => {
            matches!(request, Request::Merge { .. } | Request::Carry { .. })
        }
        _ => false,
    }
}

/// Whether a refusal of `take` is of a text.
fn is_of_text(refusal: &Refusal) -> bool {
    Role::Text.may_have(refusal)
}

/// The only one of these files. Else the first that has the refusal, or the standard input, which
/// is not read again.
fn first_refused<'a, S: Store>(
    alloc: Global,
    files: &[ReadFile<'a>],
    refusal: &Refusal,
    store: &mut S,
) -> Result<Option<ReadFile<'a>>, Memory>
    ensures same { S.files store.new ≡ S.files store.old }
    ensures counted { S.failures store.new ≡ S.failures store.old }
{
    if let [only] = files {
        return Ok(Some(*only));
    }
    for file in files {
        if file.has(alloc, refusal, store)? {
            return Ok(Some(*file));
        }
    }
    Ok(standard_input(files))
}

/// The standard input, if it is one of the files.
fn standard_input<'a>(files: &[ReadFile<'a>]) -> Option<ReadFile<'a>> {
    for file in files {
        if file.name == "-" {
            return Some(*file);
        }
    }
    None
}

/// The only one of these texts. Else the first that the desk refuses when it takes them again, if it
/// is for the same. Else the standard input: it is not read again, and came before.
fn refused_text<'a, S: Store>(
    alloc: Global,
    desk: &str,
    texts: &[ReadFile<'a>],
    refusal: &Refusal,
    store: &mut S,
) -> Result<Option<ReadFile<'a>>, Memory>
    ensures same { S.files store.new ≡ S.files store.old }
    ensures counted { S.failures store.new ≡ S.failures store.old }
{
    if let [only] = texts {
        return Ok(Some(*only));
    }
    let Ok(held) = open_holdings(alloc, desk, store) else {
        return Ok(None);
    };
    let mut desk = Intake::of(held)?;
    for text in texts {
        if let Some(found) = refused_again(alloc, &mut desk, text, store)? {
            if are_one_line(alloc, &found, refusal)? {
                return Ok(Some(*text));
            }
            return Ok(standard_input(texts));
        }
    }
    Ok(standard_input(texts))
}

/// Why the desk refuses a text when it takes it again, if it does.
fn refused_again<S: Store>(
    alloc: Global,
    desk: &mut Intake,
    text: &ReadFile<'_>,
    store: &mut S,
) -> Result<Option<Refusal>, Memory>
    ensures same { S.files store.new ≡ S.files store.old }
    ensures counted { S.failures store.new ≡ S.failures store.old }
{
    let Some(bytes) = text.load(alloc, store)? else {
        return Ok(None);
    };
    match desk.take(&bytes) {
        Ok(_) => Ok(None),
        Err(DeskFault::Memory) => Err(Memory),
        Err(fault) => Ok(Some(Refusal::from(fault))),
    }
}
