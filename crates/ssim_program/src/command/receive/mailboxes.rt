//! Mailbox files, whose texts are tried at a desk one after another.

ghost use Rattle.std.specs.Prelude.{◌≡◌, IfNone, IfOk, IfSome, OnOk, map};
ghost use Rattle.ssim_mailbox.specs.clauses.Mail.{mail_of};
ghost use Rattle.ssim_mailbox.specs.Texts.{texts_in};
ghost use Rattle.ssim_program.specs.Made.{HasFile, IsMissing};
ghost use Rattle.ssim_program.specs.Receiving.{ReceivesFile, Tries, TriesEach};
ghost use Rattle.ssim_program.specs.internal.Receive.{Adds, HasReceipts, receipt_of};

use crate::command::receive::receipt::{Receipt, Receipts};
use crate::data_set::LIMIT;
use crate::store::{Store, StoreFault};
use ssim_desk::Intake;
use ssim_mailbox::{Text, Texts};
use ssim_values::Memory;
use std::alloc::Global;

/// The mailbox in the file of this name; none if there is no such file within the limit.
fn load_mailbox<S: Store>(
    alloc: Global,
    name: &str,
    store: &mut S,
) -> Result<Option<Vec<u8>>, Memory>
    ensures bytes { IfOk result
        (λ loaded. IfSome loaded (λ v. HasFile (S.files store.old) name.now v.items)) }
    ensures missing { IfOk result
        (λ loaded. IfNone loaded (IsMissing (S.files store.old) name.now)) }
    ensures same { S.files store.new ≡ S.files store.old }
    ensures counted { S.failures store.new ≡ S.failures store.old }
{
    match store.load(alloc, name, LIMIT) {
        Ok(bytes) => Ok(Some(bytes)),
        Err(StoreFault::Memory) => Err(Memory),
        Err(StoreFault::Fault) => Ok(None),
    }
}

/// Tries a text of a file.
fn try_text<'n>(desk: &mut Intake, file: &'n str, text: Text) -> Receipt<'n>
    ensures { Tries file.now desk.old (mail_of text) (receipt_of result) desk.new }
{
    match desk.take(&text.bytes) {
        Ok((took, reference)) => Receipt::Accepted {
            file,
            line: text.line,
            took,
            reference,
        },
        Err(fault) => Receipt::Refused { file, text, fault },
    }
}

/// Tries the texts of the mailbox in a file, one after another.
fn try_texts(
    alloc: Global,
    desk: &mut Intake,
    file: &str,
    mailbox: &[u8],
    receipts: &mut Receipts,
) -> Result<(), Memory>
    ensures { OnOk result (Adds (λ before some after. TriesEach file.now before
        (texts_in mailbox.now) some after)
        desk.old desk.new receipts.old receipts.new) }
{
    let mut texts = Texts::new(alloc, mailbox)?;
    while let Some(text) = texts.next_text(alloc)? {
        receipts.push(alloc, try_text(desk, file, text))?;
    }
    Ok(())
}

/// Tries the texts of the mailbox in the file of this name.
fn receive_file<S: Store>(
    alloc: Global,
    desk: &mut Intake,
    file: &str,
    store: &mut S,
    receipts: &mut Receipts,
) -> Result<(), Memory>
    ensures received { OnOk result (Adds (ReceivesFile (S.files store.old) file.now)
        desk.old desk.new receipts.old receipts.new) }
    ensures same { S.files store.new ≡ S.files store.old }
    ensures counted { S.failures store.new ≡ S.failures store.old }
{
    match load_mailbox(alloc, file, store)? {
        Some(mailbox) => try_texts(alloc, desk, file, &mailbox, receipts),
        None => receipts.push(alloc, Receipt::Unread { file }),
    }
}

/// Tries the texts of the mailboxes in the files of these names, in order. The receipts are rows of
/// CSV, or lines.
pub(crate) fn receive_files<S: Store>(
    alloc: Global,
    csv: bool,
    desk: &mut Intake,
    names: &[&str],
    store: &mut S,
) -> Result<Receipts, Memory>
    ensures received { IfOk result (λ receipts. HasReceipts csv (S.files store.old)
        (map (λ t. t.now) names.now) desk.old receipts desk.new) }
    ensures same { S.files store.new ≡ S.files store.old }
    ensures counted { S.failures store.new ≡ S.failures store.old }
{
    let mut receipts = Receipts::new(alloc, csv)?;
    for name in names {
        receive_file(alloc, desk, *name, store, &mut receipts)?;
    }
    Ok(receipts)
}
