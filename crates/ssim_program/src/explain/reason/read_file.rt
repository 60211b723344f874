//! The files that a command reads.

ghost use Rattle.std.specs.Prelude.{◌≡◌, ◌≤◌, IfOk, IfSome, length};
ghost use Rattle.ssim_program.specs.Made.{file_limit};

use crate::data_set::load_file;
use crate::explain::file::judged;
use crate::explain::file_kind::FileKind;
use crate::refusal::Refusal;
use crate::store::Store;
use ssim_command_line::Request;
use ssim_desk::DeskFault;
use ssim_values::Memory;
use std::alloc::Global;

/// As what a command reads a file.
#[derive(Clone, Copy, Debug, PartialEq, Eq)]
pub(super) enum Role {
    DataSet,
    Desk,
    /// A desk file, or nothing.
    OlderDesk,
    /// A desk file or a data set.
    Timetable,
    Stations,
    Text,
    Script,
}

impl Role {
    /// Whether a file of this kind is read in the role.
    pub(super) fn reads(self, kind: FileKind) -> bool {
        match self {
            Role::DataSet => kind == FileKind::DataSet,
            Role::Desk | Role::OlderDesk => kind == FileKind::Desk,
            Role::Timetable => kind == FileKind::DataSet || kind == FileKind::Desk,
            Role::Stations => kind == FileKind::Stations,
            Role::Text => kind == FileKind::Message,
            Role::Script => kind == FileKind::Script,
        }
    }

    /// Whether a file in the role may have this refusal.
    pub(super) fn may_have(self, refusal: &Refusal) -> bool {
        match refusal {
            Refusal::DataSet(_) => matches!(self, Role::DataSet | Role::Timetable),
            Refusal::Stations(_) => self == Role::Stations,
            Refusal::Script { .. } => self == Role::Script,
            Refusal::Export { .. } => matches!(self, Role::DataSet | Role::Desk | Role::Timetable),
            Refusal::Desk(DeskFault::File(_)) => {
                matches!(self, Role::Desk | Role::OlderDesk | Role::Timetable)
            }
            Refusal::Desk(DeskFault::Text(_) | DeskFault::Resolve(_) | DeskFault::Conflict(_)) => {
                self == Role::Text
            }
            _ => false,
        }
    }

    /// The kind as which a file of these bytes is read in the role.
    fn kind_of(self, bytes: &[u8]) -> FileKind {
        match self {
            Role::Timetable if !bytes.starts_with(b"SSIMDESK ") => FileKind::DataSet,
            Role::DataSet => FileKind::DataSet,
            Role::Desk | Role::OlderDesk | Role::Timetable => FileKind::Desk,
            Role::Stations => FileKind::Stations,
            Role::Text => FileKind::Message,
            Role::Script => FileKind::Script,
        }
    }

    /// Why a command refuses a file of these bytes in the role, if it does.
    fn refusal(self, alloc: Global, bytes: &[u8]) -> Result<Option<Refusal>, Memory>
        requires { length bytes.now ≤ file_limit }
    {
        if self == Role::OlderDesk && bytes.is_empty() {
            return Ok(None);
        }
        judged(alloc, self.kind_of(bytes), bytes)
    }
}

/// A file that a command reads.
#[derive(Clone, Copy, Debug)]
pub(super) struct ReadFile<'a> {
    pub name: &'a str,
    pub role: Role,
}

impl<'a> ReadFile<'a> {
    /// The bytes of the file, read once more. Nothing if it is the standard input, or is not read.
    pub(super) fn load<S: Store>(
        &self,
        alloc: Global,
        store: &mut S,
    ) -> Result<Option<Vec<u8>>, Memory>
        ensures within { IfOk result
            (λ found. IfSome found (λ bytes. length bytes.items ≤ file_limit)) }
        ensures same { S.files store.new ≡ S.files store.old }
        ensures counted { S.failures store.new ≡ S.failures store.old }
    {
        if self.name == "-" {
            return Ok(None);
        }
        match load_file(alloc, self.name, store) {
            Ok(bytes) => Ok(Some(bytes)),
            Err(Refusal::Memory) => Err(Memory),
            Err(_) => Ok(None),
        }
    }

    /// Whether a command that reads the file has this refusal of it.
    pub(super) fn has<S: Store>(
        &self,
        alloc: Global,
        refusal: &Refusal,
        store: &mut S,
    ) -> Result<bool, Memory>
        ensures same { S.files store.new ≡ S.files store.old }
        ensures counted { S.failures store.new ≡ S.failures store.old }
    {
        let Some(bytes) = self.load(alloc, store)? else {
            return Ok(false);
        };
        match self.role.refusal(alloc, &bytes)? {
            Some(found) => are_one_line(alloc, &found, refusal),
            None => Ok(false),
        }
    }
}

/// Whether the lines of two refusals are equal.
pub(super) fn are_one_line(alloc: Global, one: &Refusal, other: &Refusal) -> Result<bool, Memory> {
    let line = one.line(alloc)?;
    let other = other.line(alloc)?;
    Ok(line == other)
}

/// The file of a command that reads only one, or in which all others are refused in what is printed.
fn only_file<'a>(request: &Request<'a>) -> Option<ReadFile<'a>> {
    let (name, role) = match request {
        Request::Check { dataset } => (*dataset, Role::DataSet),
        Request::Problems { dataset, .. } => (*dataset, Role::DataSet),
        Request::Tidy { dataset } => (*dataset, Role::DataSet),
        Request::Split { dataset, .. } => (*dataset, Role::DataSet),
        Request::Receive { desk, .. } => (*desk, Role::Desk),
        Request::Withdraw { desk, .. } => (*desk, Role::Desk),
        Request::Texts { desk, .. } => (*desk, Role::Desk),
        Request::Findings { desk, .. } => (*desk, Role::Desk),
        Request::Export { desk } => (*desk, Role::Desk),
        Request::Show { file, .. } => (*file, Role::Timetable),
        Request::History { file, .. } => (*file, Role::Timetable),
        Request::Blame { file, .. } => (*file, Role::Timetable),
        Request::Board { file, .. } => (*file, Role::Timetable),
        Request::List { file, .. } => (*file, Role::Timetable),
        Request::Calendar { file, .. } => (*file, Role::Timetable),
        Request::Info { file } => (*file, Role::Timetable),
        Request::Stations { file } => (*file, Role::Timetable),
        Request::Sql { file } => (*file, Role::Timetable),
        Request::Select { file, .. } => (*file, Role::Timetable),
        Request::Convert { file, .. } => (*file, Role::Timetable),
        _ => return None,
    };
    Some(ReadFile { name, role })
}

/// Adds a file.
fn push<'a>(files: &mut Vec<ReadFile<'a>>, name: &'a str, role: Role) -> Result<(), Memory> {
    files.push(ReadFile { name, role })?;
    Ok(())
}

/// Adds the texts.
fn push_texts<'a>(files: &mut Vec<ReadFile<'a>>, texts: &[&'a str]) -> Result<(), Memory> {
    for text in texts {
        push(files, *text, Role::Text)?;
    }
    Ok(())
}

/// Adds the files of a command that reads several.
fn push_several<'a>(files: &mut Vec<ReadFile<'a>>, request: &Request<'a>) -> Result<(), Memory> {
    match request {
        Request::Start {
            dataset,
            stations,
            ..
        } => {
            push(files, *dataset, Role::DataSet)?;
            push(files, *stations, Role::Stations)
        }
        Request::Rehearse {
            dataset,
            stations,
            script,
        } => {
            push(files, *dataset, Role::DataSet)?;
            push(files, *stations, Role::Stations)?;
            push(files, *script, Role::Script)
        }
        Request::Take { desk, texts, .. } => {
            push(files, *desk, Role::Desk)?;
            push_texts(files, texts)
        }
        Request::Carry { desk, other, .. } => {
            push(files, *desk, Role::Desk)?;
            push(files, *other, Role::Desk)
        }
        _ => push_either(files, request),
    }
}

/// Adds the files of a command that compares two timetables, or merges two desks.
fn push_either<'a>(files: &mut Vec<ReadFile<'a>>, request: &Request<'a>) -> Result<(), Memory> {
    match request {
        Request::Merge {
            since,
            desk,
            other,
            ..
        } => {
            if let Some(older) = since {
                push(files, *older, Role::OlderDesk)?;
            }
            push(files, *desk, Role::Desk)?;
            push(files, *other, Role::Desk)
        }
        Request::Page { from, file } => {
            if let Some(from) = from {
                push(files, *from, Role::Timetable)?;
            }
            push(files, *file, Role::Timetable)
        }
        Request::Diff { from, to, .. } | Request::Publish { from, to, .. } => {
            push(files, *from, Role::Timetable)?;
            push(files, *to, Role::Timetable)
        }
        _ => Ok(()),
    }
}

/// The files that a command reads, in this order. Those of `explain` and the mailboxes of `receive`
/// are left out, since they are refused in what is printed.
pub(super) fn files_read<'a>(
    alloc: Global,
    request: &Request<'a>,
) -> Result<Vec<ReadFile<'a>>, Memory> {
    let mut files = Vec::new(alloc);
    match only_file(request) {
        Some(file) => files.push(file)?,
        None => push_several(&mut files, request)?,
    }
    Ok(files)
}
