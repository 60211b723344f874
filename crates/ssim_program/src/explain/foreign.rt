//! Files of other programs, which no command reads.

ghost use Rattle.std.specs.Prelude.{◌≡◌, ◌++◌, ℕ, List, IfOk};
ghost use Rattle.ssim_program.specs.Foreign.{BeginsWithForeign, foreign_kind, foreign_name};
ghost use Rattle.ssim_program.specs.Foreign.{is_markup, is_utf16, is_zip};

use ssim_lines::written;
use ssim_values::Memory;
use std::alloc::Global;
use std::io::Write;

/// A kind of file of other programs. It is known by its first bytes, with which no valid file
/// begins; a mail also by having no message.
#[derive(Clone, Copy, Debug, PartialEq, Eq)]
pub enum ForeignKind {
    /// A file that gzip made: bytes 1F 8B.
    Gzip,
    /// A zip archive, or a workbook: `PK` and bytes 03 04, or 05 06 if it is empty.
    Zip,
    /// A document in PDF: `%PDF-`.
    Pdf,
    /// Text in UTF-16: the byte order mark FF FE or FE FF.
    Utf16,
    /// Text in UTF-8 after the byte order mark EF BB BF.
    Utf8Mark,
    /// A data set in EBCDIC: F1 C1 is its `1A`.
    Ebcdic,
    /// A page of HTML or XML: `<` after white space.
    Markup,
    /// A mail without a message: a header, or the first line of a mail in a mail folder.
    Mail,
}

/// The kind of a file of another program, by its first bytes alone.
pub(crate) fn foreign_kind(bytes: &[u8]) -> Option<ForeignKind>
    ensures { result ≡ foreign_kind bytes.now }
{
    if bytes.starts_with(b"\x1F\x8B") {
        return Some(ForeignKind::Gzip);
    }
    if is_zip(bytes) {
        return Some(ForeignKind::Zip);
    }
    if bytes.starts_with(b"%PDF-") {
        return Some(ForeignKind::Pdf);
    }
    if is_utf16(bytes) {
        return Some(ForeignKind::Utf16);
    }
    if bytes.starts_with(b"\xEF\xBB\xBF") {
        return Some(ForeignKind::Utf8Mark);
    }
    if bytes.starts_with(b"\xF1\xC1") {
        return Some(ForeignKind::Ebcdic);
    }
    if is_markup(bytes) {
        return Some(ForeignKind::Markup);
    }
    None
}

fn is_zip(bytes: &[u8]) -> bool
    ensures { result ≡ is_zip bytes.now }
{
    bytes.starts_with(b"PK\x03\x04") || bytes.starts_with(b"PK\x05\x06")
}

fn is_utf16(bytes: &[u8]) -> bool
    ensures { result ≡ is_utf16 bytes.now }
{
    bytes.starts_with(b"\xFF\xFE") || bytes.starts_with(b"\xFE\xFF")
}

fn is_markup(bytes: &[u8]) -> bool
    ensures { result ≡ is_markup bytes.now }
{
    bytes.trim_ascii_start().starts_with(b"<")
}

/// The line that names a foreign kind, and what to do about a file of it.
pub(crate) fn on_foreign(alloc: Global, kind: ForeignKind) -> Result<Vec<u8>, Memory>
    ensures { IfOk result (λ text. BeginsWithForeign kind text.items) }
{
    let mut text = Vec::new(alloc);
    let name = kind.name();
    written(writeln!(text, "foreign {name}"))?;
    let advice = kind.advice();
    written(writeln!(text, "what to do: {advice}"))?;
    Ok(text)
}

impl ForeignKind {
    /// What `explain` calls it.
    fn name(self) -> &'static str
        ensures { result.now ≡ foreign_name self }
    {
        match self {
            ForeignKind::Gzip => "gzip",
            ForeignKind::Zip => "zip",
            ForeignKind::Pdf => "pdf",
            ForeignKind::Utf16 => "utf-16",
            ForeignKind::Utf8Mark => "utf-8-mark",
            ForeignKind::Ebcdic => "ebcdic",
            ForeignKind::Markup => "markup",
            ForeignKind::Mail => "mail",
        }
    }

    /// How to get a file that a command reads.
    fn advice(self) -> &'static str {
        match self {
            ForeignKind::Gzip => "unpack it with gunzip",
            ForeignKind::Zip => "unpack it with unzip; a workbook has to be saved as text",
            ForeignKind::Pdf => "ask for the text or the data set itself",
            ForeignKind::Utf16 => "write it as ASCII: iconv -f UTF-16 -t ASCII",
            ForeignKind::Utf8Mark => "take its first three bytes off: tail -c +4",
            ForeignKind::Ebcdic => "ask for it in ASCII, or dd conv=ascii",
            ForeignKind::Markup => "save it as text, not as a page",
            ForeignKind::Mail => "save the text of the mail, or its attachment, as a file",
        }
    }
}
