//! What a refusal of a command is about: the lines that `--explain` prints after its line.

ghost use Rattle.std.specs.Prelude.{◌≡◌, ◌≤◌, length};
ghost use Rattle.ssim_program.specs.Made.{file_limit};

mod message_line;
mod read_file;
mod refused_file;
mod refused_word;

use self::message_line::words_on_message;
use self::read_file::{ReadFile, Role};
use self::refused_file::refused_file;
use self::refused_word::refused_word;
use super::file::{name_of, on_bytes};
use super::file_kind::kind_of;
use crate::print::name::printed_name;
use crate::refusal::Refusal;
use crate::store::Store;
use ssim_command_line::Request;
use ssim_guide::{words_on, words_on_word};
use ssim_lines::written;
use ssim_text::cut;
use ssim_values::Memory;
use std::alloc::Global;
use std::io::Write;

/// The lines on a refusal of a command: the word or the file that is refused, what the file looks
/// like, what is at the place, what the refusal means and what to do about it.
pub(crate) fn reason_of<S: Store>(
    alloc: Global,
    request: &Request<'_>,
    refusal: &Refusal,
    store: &mut S,
) -> Result<Vec<u8>, Memory>
    ensures same { S.files store.new ≡ S.files store.old }
    ensures counted { S.failures store.new ≡ S.failures store.old }
{
    if let Some(word) = refused_word(alloc, request, refusal, store)? {
        let mut lines = words_on_word(alloc, word)?;
        lines.extend_from_slice(&meaning(alloc, refusal)?)?;
        return Ok(lines);
    }
    match refused_file(alloc, request, refusal, store)? {
        Some(file) => on_file(alloc, file, refusal, store),
        None => meaning(alloc, refusal),
    }
}

/// What a refusal means and what to do about it.
fn meaning(alloc: Global, refusal: &Refusal) -> Result<Vec<u8>, Memory> {
    let words = words_on(alloc, refusal.number(), refusal.name(), b"")?;
    Ok(words)
}

/// The lines on a file that is refused. The standard input is not read again.
fn on_file<S: Store>(
    alloc: Global,
    file: ReadFile<'_>,
    refusal: &Refusal,
    store: &mut S,
) -> Result<Vec<u8>, Memory>
    ensures same { S.files store.new ≡ S.files store.old }
    ensures counted { S.failures store.new ≡ S.failures store.old }
{
    let mut lines = Vec::new(alloc);
    let name = printed_name(alloc, file.name)?;
    written(writeln!(lines, "file: {name}"))?;
    let words = match file.load(alloc, store)? {
        Some(bytes) => on_read(alloc, file.role, &bytes, refusal)?,
        None => meaning(alloc, refusal)?,
    };
    lines.extend_from_slice(&words)?;
    Ok(lines)
}

/// The lines on the bytes of a file that is refused, which a command reads in this role.
fn on_read(alloc: Global, role: Role, bytes: &[u8], refusal: &Refusal) -> Result<Vec<u8>, Memory>
    requires { length bytes.now ≤ file_limit }
{
    let report = on_bytes(alloc, bytes)?;
    let explained = report.lines.as_slice();
    let mut lines = Vec::new(alloc);
    if let Some(name) = looks_like(role, bytes, explained) {
        lines.extend_from_slice(b"looks like: ")?;
        lines.extend_from_slice(name)?;
        lines.push(b'\n')?;
    }
    let line = refusal.line(alloc)?;
    match explained.strip_prefix(line.as_slice()) {
        Some(rest) => lines.extend_from_slice(rest)?,
        None => {
            lines.extend_from_slice(&words_on_message(alloc, bytes, refusal)?)?;
            lines.extend_from_slice(&meaning(alloc, refusal)?)?;
        }
    }
    Ok(lines)
}

/// The kind of a file, if it is another one than what a command reads in this role. What `explain`
/// prints of the file names files of other programs and mailboxes.
fn looks_like<'b>(role: Role, bytes: &[u8], explained: &'b [u8]) -> Option<&'b [u8]> {
    let (first, _) = cut(explained, b'\n');
    if let Some(name) = first.strip_prefix(b"foreign ".as_slice()) {
        return Some(name);
    }
    if first.starts_with(b"mailbox ") {
        return Some(b"mailbox");
    }
    let kind = kind_of(bytes);
    if role.reads(kind) {
        return None;
    }
    Some(cut(name_of(kind).as_bytes(), b'\n').0)
}
