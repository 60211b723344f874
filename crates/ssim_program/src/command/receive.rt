//! The command `receive`: a desk tries the texts of mailbox files.

mod mailboxes;
mod receipt;
mod receipt_rows;

ghost use Rattle.std.specs.Prelude.{◌≡◌, ◌&&◌, ◌∷◌, Err, IfErr, IfOk, IfSome, IsTrue, Ok, map, option_map};
ghost use Rattle.std.specs.List.{list_any};
ghost use Rattle.std.specs.Str.{bytes_eq};
ghost use Rattle.ssim_program.specs.Answers.{receive};
ghost use Rattle.ssim_program.specs.Receiving.{places_in, received, refused_place};
ghost use Rattle.ssim_program.specs.internal.Program.{MakesOr};
ghost use Rattle.ssim_program.specs.internal.Receive.{HasReceived};
ghost use Rattle.ssim_program.specs.declared.made.Contents.TheVariants as contents;

use crate::command::receive::mailboxes::receive_files;
use crate::content_kind::ContentKind;
use crate::effects::{open_before, push_effects};
use crate::hold::hold;
use crate::made::{Contents, Kept, Made};
use crate::refusal::Refusal;
use crate::store::{Hold, Store};
use ssim_command_line::ReceiveForm;
use ssim_desk::Holdings;
use std::alloc::Global;

/// The options of the command, and the mailbox files that it names.
#[derive(Clone, Copy)]
pub(crate) struct ReceiveWords<'a> {
    pub refused: Option<&'a str>,
    pub form: ReceiveForm,
    pub texts: &'a [&'a str],
}

/// What became of the texts of mailbox files at a desk.
#[derive(Drop)]
struct Received {
    /// The desk with all that it took.
    desk: Holdings,
    /// Whether a text was refused, or a file was not read.
    found: bool,
    /// What became of each text, as rows or as lines, and the effects, if the words ask for them.
    lines: Vec<u8>,
    /// The refused texts.
    refused: Vec<u8>,
}

/// Tries the texts of these mailbox files at the desk in a file.
fn received_by<S: Store>(
    alloc: Global,
    form: ReceiveForm,
    file: &str,
    names: &[&str],
    store: &mut S,
) -> Result<Received, Refusal>
    ensures ok { IfOk result (λ r. HasReceived form (S.files store.old) file.now
        (map (λ t. t.now) names.now) r.desk r.found r.lines.items r.refused.items) }
    ensures err { IfErr result (λ why. received (S.files store.old) file.now
        (map (λ t. t.now) names.now) (Err why)) }
    ensures same { S.files store.new ≡ S.files store.old }
    ensures counted { S.failures store.new ≡ S.failures store.old }
{
    let (mut desk, before) = open_before(alloc, form.effects, file, store)?;
    let receipts = receive_files(alloc, form.csv, &mut desk, names, store)?;
    let found = receipts.has_refused();
    let (mut lines, refused) = receipts.finish()?;
    let desk = desk.finish()?;
    // No effect at run time. The proof reads from this use that the messages are in order.
    let _ = desk.held();
    push_effects(alloc, &mut lines, &before, &desk)?;
    Ok(Received {
        desk,
        found,
        lines,
        refused,
    })
}

/// Whether the file for refused texts is one that the command reads or keeps.
fn is_used<S: Store>(refused: &str, file: &str, kept: &str, names: &[&str], store: &S) -> bool
    ensures { IfSome (S.files store.now) (λ _. result ≡ list_any (bytes_eq refused.now)
        (kept.now ∷ file.now ∷ map (λ t. t.now) names.now)) }
{
    store.is_same_file(refused, kept)
        || store.is_same_file(refused, file)
        || is_among(refused, names, store)
}

/// Whether a name is a name of one of these files.
fn is_among<S: Store>(name: &str, others: &[&str], store: &S) -> bool
    ensures { IfSome (S.files store.now)
        (λ _. result ≡ list_any (bytes_eq name.now) (map (λ t. t.now) others.now)) }
{
    for other in others {
        if store.is_same_file(name, *other) {
            return true;
        }
    }
    false
}

/// Holds the file for refused texts. Returns 93 if it is one that the command reads or keeps.
fn hold_refused<S: Store>(
    alloc: Global,
    refused: &str,
    file: &str,
    kept: &str,
    names: &[&str],
    store: &mut S,
) -> Result<S::Hold, Refusal>
    requires fresh { IsTrue (S.is_fresh store.now) }
    ensures name { IfOk result (λ hold. S.Hold.file hold ≡ refused.now) }
    ensures held { IfOk result (λ _. refused_place (S.files store.old)
        (kept.now ∷ file.now ∷ map (λ t. t.now) names.now) refused.now (Ok tt)) }
    ensures refused { IfErr result (λ why. refused_place (S.files store.old)
        (kept.now ∷ file.now ∷ map (λ t. t.now) names.now) refused.now (Err why)) }
    ensures same { S.files store.new ≡ S.files store.old }
    ensures counted { S.failures store.new ≡ S.failures store.old }
{
    if is_used(refused, file, kept, names, store) {
        return Err(Refusal::occupied(alloc, refused));
    }
    hold(alloc, refused, ContentKind::RefusedTexts, store)
}

/// The places that `receive` holds: for the refused texts, if a file is named for them, and for the
/// desk.
#[derive(Drop)]
struct Places<H: Hold + Drop> {
    refused: Option<H>,
    desk: H,
}

/// Holds the files that `receive` keeps: first the desk's, then that of refused texts.
fn hold_places<S: Store>(
    alloc: Global,
    refused: Option<&str>,
    file: &str,
    out: &str,
    names: &[&str],
    store: &mut S,
) -> Result<Places<S::Hold>, Refusal>
    requires fresh { IsTrue (S.is_fresh store.now) }
    ensures names { IfOk result (λ places. (S.Hold.file places.desk ≡ out.now)
        × (option_map S.Hold.file places.refused ≡ option_map (λ t. t.now) refused.entry)) }
    ensures held { IfOk result (λ _. places_in (S.files store.old)
        (option_map (λ t. t.now) refused.entry) file.now out.now
        (map (λ t. t.now) names.now) (Ok tt)) }
    ensures refused { IfErr result (λ why. places_in (S.files store.old)
        (option_map (λ t. t.now) refused.entry) file.now out.now
        (map (λ t. t.now) names.now) (Err why)) }
    ensures same { S.files store.new ≡ S.files store.old }
    ensures counted { S.failures store.new ≡ S.failures store.old }
{
    let desk = hold(alloc, out, ContentKind::DeskFile, store)?;
    match refused {
        None => Ok(Places {
            refused: None,
            desk,
        }),
        Some(name) => {
            let place = hold_refused(alloc, name, file, out, names, store)?;
            Ok(Places {
                refused: Some(place),
                desk,
            })
        }
    }
}

/// The refused texts, if a place is held for them.
fn kept_texts<H: Hold + Drop>(place: Option<H>, texts: Vec<u8>) -> Option<Kept<H>>
    ensures { result ≡ option_map (λ p. record { place = p; contents = contents.Bytes texts }) place }
{
    let place = place?;
    let contents = Contents::Bytes(texts);
    Some(Kept { place, contents })
}

/// Tries the texts of mailbox files at the desk in a file. The lines or rows say what became of each;
/// then the refused texts are kept, if a file is named for them, and then the desk file.
///
/// The file for refused texts has to be new or empty, and none that the command reads or keeps. A
/// text that is refused, with 90 too, is a line, and so is a file that cannot be read. If there is
/// no memory for the texts of a file or for the lines, the command is refused with 90.
pub(crate) fn receive<'n, S: Store>(
    alloc: Global,
    words: &ReceiveWords<'_>,
    file: &str,
    out: &str,
    store: &mut S,
) -> Result<Made<'n, S::Hold>, Refusal>
    requires fresh { IsTrue (S.is_fresh store.now) }
    ensures answer { MakesOr S.Hold.file (S.files store.old)
        (receive (S.files store.old) (option_map (λ t. t.now) words.now.refused) words.now.form
        file.now out.now (map (λ t. t.now) words.now.texts.now)) result }
    ensures same { S.files store.new ≡ S.files store.old }
    ensures counted { S.failures store.new ≡ S.failures store.old }
{
    let places = hold_places(alloc, words.refused, file, out, words.texts, store)?;
    let received = received_by(alloc, words.form, file, words.texts, store)?;
    let lines = received.lines;
    let refused = kept_texts(places.refused, received.refused);
    let kept = Kept {
        place: places.desk,
        contents: Contents::DeskFile(received.desk),
    };
    Ok(Made::Printed {
        found: is_told(words, received.found),
        lines,
        refused,
        kept,
    })
}

/// Whether the status says that a text was refused, or that a file was not read.
fn is_told(words: &ReceiveWords<'_>, found: bool) -> bool
    ensures { result ≡ (words.now.form.status && found) }
{
    words.form.status && found
}
