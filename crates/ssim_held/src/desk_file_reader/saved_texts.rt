//! The messages of a desk as a desk file has them.

ghost use Rattle.std.specs.Prelude.{◌≡◌, ◌≢◌, ◌↔◌, ◌++◌, ◌∷◌, [], ◌<◌, ◌^◌, List, ℕ, length, IfErr};
ghost use Rattle.std.specs.Prelude.{IfNone, IfOk, IfSome, IsTrue};
ghost use Rattle.ssim_base.specs.Resolve.{ResolvesIn};
ghost use Rattle.ssim_base.specs.declared.resolution.ResolvedText.{ResolvedText};
ghost use Rattle.ssim_text.specs.Canonical.{canonical};
ghost use Rattle.ssim_text.specs.Message.{MessageValue};
ghost use Rattle.ssim_text.specs.Spelling.{SpellsMessage};
ghost use Rattle.ssim_held.specs.File.{text_element, texts_part};
ghost use Rattle.ssim_held.specs.Entries.{AreRising, Entry};
ghost use Rattle.ssim_held.specs.internal.DeskFileReader.{AreHeld, IsNextText, IsTextOf};

use crate::desk_file_reader::count_line::{count_line, elements};
use crate::desk_file_reader::fault::PartFault;
use crate::desk_file_reader::version::FileVersion;
use crate::held::Held;
use crate::lookup::compare;
use ssim_base::laws::resolving_has_one_outcome;
use ssim_base::{DataSet, ResolveFault, ResolvedText};
use ssim_text::laws::equal_where_written_equal;
use ssim_text::{Message, TextFault, decode};
use std::alloc::Global;
use std::cmp::Ordering;

/// The message whose canonical text this is.
fn read_canonical(alloc: Global, text: &[u8]) -> Result<Option<Message>, PartFault>
    ensures some { IfOk result
        (λ read. IfSome read (λ m. SpellsMessage m (canonical m) × (text.now ≡ canonical m))) }
    ensures none { IfOk result (λ read. IfNone read
        ((m : MessageValue) → SpellsMessage m (canonical m) → text.now ≡ canonical m → ⊥)) }
    ensures err { IfErr result (λ e. e ≡ PartFault.Memory) }
{
    match decode(alloc, text) {
        Ok(message) => {
            if message.text() != text {
                return Ok(None);
            }
            Ok(Some(message))
        }
        Err(TextFault::Memory) => Err(PartFault::Memory),
        Err(TextFault::Refused { .. }) => Ok(None),
    }
}

/// A message with its year and full dates, if it resolves.
fn resolve_if(data_set: &DataSet, message: &Message) -> Result<Option<ResolvedText>, PartFault>
    ensures some { IfOk result (λ read. IfSome read (ResolvesIn data_set.now message.now)) }
    ensures none { IfOk result (λ read. IfNone read
        ((text : ResolvedText) → ResolvesIn data_set.now message.now text → ⊥)) }
    ensures err { IfErr result (λ e. e ≡ PartFault.Memory) }
{
    resolving_has_one_outcome();
    match data_set.frame().resolve(message) {
        Ok(resolved) => Ok(Some(resolved)),
        Err(fault) => match fault {
            ResolveFault::Memory => Err(PartFault::Memory),
            _ => Ok(None),
        },
    }
}

/// The message of a text, if the text is canonical and the message resolves.
fn read_message(alloc: Global, data_set: &DataSet, text: &[u8]) -> Result<Option<Held>, PartFault>
    ensures some { IfOk result (λ read. IfSome read (IsTextOf data_set.now text.now)) }
    ensures none { IfOk result
        (λ read. IfNone read ((e : Entry) → IsTextOf data_set.now text.now e → ⊥)) }
    ensures err { IfErr result (λ e. e ≡ PartFault.Memory) }
{
    equal_where_written_equal();
    let Some(message) = read_canonical(alloc, text)? else {
        return Ok(None);
    };
    let Some(resolved) = resolve_if(data_set, &message)? else {
        return Ok(None);
    };
    let held = Held::of(alloc, resolved.reference, message, resolved.subs)?;
    Ok(Some(held))
}

/// Whether the reference of a message is greater than the last one.
fn follows(held: &[Held], next: &Held) -> bool
    requires { AreRising held.now }
    ensures { IsTrue result ↔ AreRising (held.now ++ next.now ∷ []) }
{
    if held.is_empty() {
        return true;
    }
    match compare(&held[held.len() - 1], &next.reference()) {
        Ordering::Less => true,
        _ => false,
    }
}

/// The message of a text that a file may hold after others.
fn read_next(
    alloc: Global,
    data_set: &DataSet,
    version: FileVersion,
    held: &[Held],
    text: &[u8],
) -> Result<Option<Held>, PartFault>
    requires { AreRising held.now }
    ensures some { IfOk result (λ read. IfSome read
        (λ e. IsNextText version data_set.now held.now e × IsTextOf data_set.now text.now e)) }
    ensures none { IfOk result (λ read. IfNone read ((e : Entry)
        → IsNextText version data_set.now held.now e → IsTextOf data_set.now text.now e → ⊥)) }
    ensures err { IfErr result (λ e. e ≡ PartFault.Memory) }
{
    equal_where_written_equal();
    match read_message(alloc, data_set, text)? {
        Some(next) => {
            if follows(held, &next) && version.allows(&next) {
                Ok(Some(next))
            } else {
                Ok(None)
            }
        }
        None => Ok(None),
    }
}

/// The length of a text and the text, which a file may hold after others, and the bytes after it.
fn read_text<'a>(
    alloc: Global,
    data_set: &DataSet,
    version: FileVersion,
    held: &[Held],
    bytes: &'a [u8],
) -> Result<(Held, &'a [u8]), PartFault>
    requires { AreRising held.now }
    ensures ok { IfOk result (λ read. IsNextText version data_set.now held.now read.0
        × (bytes.now ≡ text_element read.0 ++ read.1.now)) }
    ensures shorter { IfOk result (λ read. length read.1.now < length bytes.now) }
    ensures err { IfErr result (λ e. e ≢ PartFault.Memory → (next : Entry) (later : List ℕ)
        → IsNextText version data_set.now held.now next → bytes.now ≡ text_element next ++ later
        → ⊥) }
{
    let Some((count, rest)) = count_line(b"TEXT", bytes) else {
        return Err(PartFault::Invalid(bytes.len()));
    };
    let Some((text, after)) = elements(count, 1, rest) else {
        return Err(PartFault::Invalid(rest.len()));
    };
    match read_next(alloc, data_set, version, held, text)? {
        Some(next) => Ok((next, after)),
        None => Err(PartFault::Invalid(rest.len())),
    }
}

/// The messages with their number before them, and the bytes after them.
///
/// The error names the first line that is invalid, or the first text that is not canonical, does
/// not resolve, has a reference that does not follow the one before, or an originator in version 1.
pub(crate) fn read_texts<'a>(
    alloc: Global,
    data_set: &DataSet,
    version: FileVersion,
    bytes: &'a [u8],
) -> Result<(Vec<Held>, &'a [u8]), PartFault>
    ensures ok { IfOk result (λ read. AreHeld version data_set.now read.0.items
        × (bytes.now ≡ texts_part read.0.items ++ read.1.now)) }
    ensures err { IfErr result (λ e. e ≢ PartFault.Memory → (entries : List Entry) (later : List ℕ)
        → length entries < 2 ^ 64 → AreHeld version data_set.now entries
        → bytes.now ≡ texts_part entries ++ later → ⊥) }
{
    equal_where_written_equal();
    let Some((count, mut rest)) = count_line(b"TEXTS", bytes) else {
        return Err(PartFault::Invalid(bytes.len()));
    };
    let mut held: Vec<Held> = Vec::new(alloc);
    while count != Some(held.len()) {
        let (next, after) = read_text(alloc, data_set, version, &held, rest)?;
        held.push(next)?;
        rest = after;
    }
    Ok((held, rest))
}
