//! Mail among the invalid files that are taken for a text or a station table: mailboxes, and mails
//! without a message.

ghost use Rattle.std.specs.Prelude.{◌≡◌, IfOk, is_some, map};
ghost use Rattle.std.specs.List.{AllByRecursion, count_by, list_any};
ghost use Rattle.ssim_base.specs.Export.{line};
ghost use Rattle.ssim_mailbox.specs.Roles.{is_kind};
ghost use Rattle.ssim_mailbox.specs.Texts.{texts_in};
ghost use Rattle.ssim_mailbox.specs.clauses.Mail.{mail_of};
ghost use Rattle.ssim_text.specs.Left.{lines_left};
ghost use Rattle.ssim_program.specs.Mailboxes.{BeginsWithMailbox, IsTried, after_name, are_more};
ghost use Rattle.ssim_program.specs.Mailboxes.{begins_mail, has_message, is_mail, is_mailbox, is_of_name};
ghost use Rattle.ssim_program.specs.Mailboxes.{any_is_none, mailbox_text};
ghost use Rattle.ssim_program.specs.internal.Explain.{tried_of};

use super::with_words;
use crate::made::Report;
use crate::print::printed_line::add_line;
use crate::print::refusal_line::RefusedAt;
use crate::refusal::Refusal;
use ssim_base::Place;
use ssim_desk::DeskFault;
use ssim_guide::words_on_line;
use ssim_lines::written;
use ssim_mailbox::{Text, Texts};
use ssim_text::{Line, TextFault, decode, lines_left};
use ssim_values::Memory;
use std::alloc::{AllocError, Global};
use std::io::Write;

/// A text of a mailbox, and why it is no message, if it is none.
#[derive(Drop)]
pub(super) struct TriedText {
    text: Text,
    fault: Option<TextFault>,
}

/// The texts of a file as a mailbox, each of which is tried.
pub(super) fn tried_texts(alloc: Global, bytes: &[u8]) -> Result<Vec<TriedText>, Memory>
    ensures texts { IfOk result
        (λ v. map (λ t. (tried_of t).0) v.items ≡ texts_in bytes.now) }
    ensures tried { IfOk result (λ v. AllByRecursion IsTried (map tried_of v.items)) }
{
    let mut tried = Vec::new(alloc);
    let mut texts = Texts::new(alloc, bytes)?;
    while let Some(text) = texts.next_text(alloc)? {
        let one = tried_text(alloc, text)?;
        tried.push(one)?;
    }
    Ok(tried)
}

/// A text, and why it is no message, if it is none.
fn tried_text(alloc: Global, text: Text) -> Result<TriedText, Memory>
    ensures text { IfOk result (λ t. (tried_of t).0 ≡ mail_of text) }
    ensures tried { IfOk result (λ t. IsTried (tried_of t)) }
{
    match decode(alloc, &text.bytes) {
        Ok(_) => Ok(TriedText { text, fault: None }),
        Err(TextFault::Memory) => Err(Memory),
        Err(fault) => Ok(TriedText {
            text,
            fault: Some(fault),
        }),
    }
}

// ---- whether a file is mail

/// Whether a line is the first one of a message.
fn is_kind(line: &[u8]) -> bool
    ensures { result ≡ is_kind line.now }
{
    line == b"SSM".as_slice() || line == b"ASM".as_slice()
}

/// Whether one of these lines is the first one of a message.
fn has_kind(lines: &[Line]) -> bool
    ensures { result ≡ list_any (λ l. is_kind l.bytes.now) lines.now }
{
    lines.iter().any(|line| is_kind(line.bytes))
}

/// Whether a text has a line SSM or ASM.
fn has_message(alloc: Global, text: &TriedText) -> Result<bool, AllocError>
    ensures { IfOk result (λ found. found ≡ has_message (tried_of text.now).0) }
{
    let lines = lines_left(alloc, &text.text.bytes)?;
    Ok(has_kind(&lines))
}

/// Whether one of the texts has a line SSM or ASM.
fn have_message(alloc: Global, texts: &[TriedText]) -> Result<bool, AllocError>
    ensures { IfOk result
        (λ found. found ≡ list_any has_message (map (λ t. (tried_of t).0) texts.now)) }
{
    for text in texts {
        let found = has_message(alloc, text)?;
        if found {
            return Ok(true);
        }
    }
    Ok(false)
}

/// Whether there are several texts, or a line of the file is in none of them.
fn are_more(alloc: Global, texts: &[TriedText], bytes: &[u8]) -> Result<bool, AllocError>
    ensures { IfOk result
        (λ more. more ≡ are_more (map (λ t. (tried_of t).0) texts.now) bytes.now) }
{
    match texts {
        [only] => {
            let lines = lines_left(alloc, &only.text.bytes)?;
            let all = lines_left(alloc, bytes)?;
            Ok(lines.len() < all.len())
        }
        _ => Ok(true),
    }
}

/// Whether a byte may be in the name of a header.
fn is_of_name(byte: u8) -> bool
    ensures { result ≡ is_of_name byte }
{
    byte.is_ascii_alphanumeric() || byte == b'-'
}

/// The bytes after a name.
fn after_name(bytes: &[u8]) -> &[u8]
    ensures { result.now ≡ after_name bytes.now }
{
    let mut left = bytes;
    while let [first, rest @ ..] = left {
        if !is_of_name(*first) {
            return left;
        }
        left = rest;
    }
    left
}

/// Whether the first line is that of a mail in a mail folder, or the header of a mail.
fn begins_mail(bytes: &[u8]) -> bool
    ensures { result ≡ begins_mail bytes.now }
{
    bytes.starts_with(b"From ") || !bytes.starts_with(b":") && after_name(bytes).starts_with(b": ")
}

/// Whether a file of these texts is a mailbox.
pub(super) fn is_mailbox(
    alloc: Global,
    texts: &[TriedText],
    bytes: &[u8],
) -> Result<bool, AllocError>
    requires { map (λ t. (tried_of t).0) texts.now ≡ texts_in bytes.now }
    ensures { IfOk result (λ answer. answer ≡ is_mailbox bytes.now) }
{
    let found = have_message(alloc, texts)?;
    let more = are_more(alloc, texts, bytes)?;
    Ok(found && more)
}

/// Whether a file of these texts is a mail without a message.
pub(super) fn is_mail(alloc: Global, texts: &[TriedText], bytes: &[u8]) -> Result<bool, AllocError>
    requires { map (λ t. (tried_of t).0) texts.now ≡ texts_in bytes.now }
    ensures { IfOk result (λ answer. answer ≡ is_mail bytes.now) }
{
    let found = have_message(alloc, texts)?;
    Ok(begins_mail(bytes) && !found)
}

// ---- what is said of a mailbox

/// How many texts are no message.
fn refused_of(texts: &[TriedText]) -> usize
    ensures { result ≡ count_by (λ t. is_some (tried_of t).1) texts.now }
{
    texts.iter().filter(|text| text.fault.is_some()).count()
}

/// The line that counts the texts of a mailbox.
fn mailbox_line(alloc: Global, texts: &[TriedText]) -> Result<Vec<u8>, Memory>
    ensures { IfOk result
        (λ text. text.items ≡ line (mailbox_text (map tried_of texts.now))) }
{
    let mut text = Vec::new(alloc);
    let all = texts.len();
    let refused = refused_of(texts);
    written(writeln!(text, "mailbox texts {all} refused {refused}"))?;
    Ok(text)
}

/// The line that counts the texts of a mailbox. Then, for each that is no message, an empty line and
/// what is printed on it, with lines counted from the mailbox's first. Something is found if there is
/// one.
pub(super) fn on_mailbox(alloc: Global, bytes: &[u8], texts: &[TriedText]) -> Result<Report, Memory>
    requires texts { map (λ t. (tried_of t).0) texts.now ≡ texts_in bytes.now }
    requires tried { AllByRecursion IsTried (map tried_of texts.now) }
    ensures { IfOk result
        (λ report. BeginsWithMailbox bytes.now report.lines.items report.found) }
{
    let mut lines = mailbox_line(alloc, texts)?;
    let words = words_on_texts(alloc, bytes, texts)?;
    lines.extend_from_slice(&words)?;
    let found = any_is_none(texts);
    Ok(Report { lines, found })
}

/// Whether one of the texts is no message.
fn any_is_none(texts: &[TriedText]) -> bool
    ensures { result ≡ any_is_none (map tried_of texts.now) }
{
    refused_of(texts) > 0
}

/// What is printed on each text that is no message, after an empty line.
fn words_on_texts(alloc: Global, bytes: &[u8], texts: &[TriedText]) -> Result<Vec<u8>, Memory> {
    let mut words = Vec::new(alloc);
    for tried in texts {
        if let Some(fault) = tried.fault {
            let text = words_on_text(alloc, bytes, tried.text.line, fault)?;
            words.push(b'\n')?;
            words.extend_from_slice(&text)?;
        }
    }
    Ok(words)
}

/// What is printed on a text that begins on this line of a mailbox and is no message.
fn words_on_text(
    alloc: Global,
    bytes: &[u8],
    first: usize,
    fault: TextFault,
) -> Result<Vec<u8>, Memory> {
    let refused = RefusedAt {
        first,
        fault: DeskFault::Text(fault),
    };
    let mut line = Vec::new(alloc);
    add_line(&mut line, &refused)?;
    let refusal = Refusal::Desk(refused.fault);
    let place = match refusal.place() {
        Place::Line(n) => {
            let number = (first as u64).saturating_add(n).saturating_sub(1);
            words_on_line(alloc, bytes, number, refusal.number())?
        }
        _ => Vec::new(alloc),
    };
    with_words(alloc, line, &refusal, &place)
}
