//! Which kind of file the bytes are, by their beginning.

ghost use Rattle.std.specs.Prelude.{◌≡◌};
ghost use Rattle.ssim_program.specs.Explained.{begins_data_set, begins_message, kind_of};
ghost use Rattle.ssim_program.specs.Explained.{kind_of_line, kind_of_text};

use crate::word::is_word;
use ssim_text::{cut, first_word, without_end};

/// The files that commands read.
#[derive(Clone, Copy, Debug, PartialEq, Eq)]
pub enum FileKind {
    /// A chapter 7 data set: the file begins with a digit, or is empty.
    DataSet,
    /// A desk file: the first word is `SSIMDESK`.
    Desk,
    /// A desk script: the first word is `DESKS`.
    Script,
    /// An SSM or ASM text: the first line has one part, or is an originator.
    Message,
    /// A station table: any other file.
    Stations,
}

/// The kind of file that bytes are taken for. Empty lines at the beginning are left out.
pub(crate) fn kind_of(bytes: &[u8]) -> FileKind
    ensures { result ≡ kind_of bytes.now }
{
    kind_of_text(bytes.trim_ascii_start())
}

/// The kind of file by its first line.
fn kind_of_text(bytes: &[u8]) -> FileKind
    ensures { result ≡ kind_of_text bytes.now }
{
    if begins_data_set(bytes) {
        return FileKind::DataSet;
    }
    let (first, _) = cut(bytes, b'\n');
    kind_of_line(without_end(first))
}

fn begins_data_set(bytes: &[u8]) -> bool
    ensures { result ≡ begins_data_set bytes.now }
{
    match bytes {
        [] => true,
        [first, ..] => first.is_ascii_digit(),
    }
}

fn kind_of_line(first: &[u8]) -> FileKind
    ensures { result ≡ kind_of_line first.now }
{
    let (word, _) = first_word(first);
    if is_word(word, b"SSIMDESK") {
        return FileKind::Desk;
    }
    if is_word(word, b"DESKS") {
        return FileKind::Script;
    }
    if begins_message(first) {
        return FileKind::Message;
    }
    FileKind::Stations
}

fn begins_message(line: &[u8]) -> bool
    ensures { result ≡ begins_message line.now }
{
    let Some(first) = line.first() else {
        return true;
    };
    if *first == b'.' {
        return true;
    }
    let (_, rest) = first_word(line);
    is_word(rest, b"")
}
