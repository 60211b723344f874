//! The file in which messages are kept until they are sent.

ghost use Rattle.std.specs.Prelude.{◌≡◌, ◌++◌, IfOk, codes};
ghost use Rattle.std.specs.List.{AllByRecursion};
ghost use Rattle.ssim_text.specs.Canonical.{canonical};
ghost use Rattle.ssim_mailbox.specs.Texts.{texts_in};
ghost use Rattle.ssim_outbox.specs.MailFile.{IsMail, mail_file, mail_texts};

use ssim_lines::{Printed, push_each};
use ssim_text::Message;
use ssim_values::Memory;
use std::alloc::Global;

/// The file of messages.
#[derive(Clone, Copy)]
struct MailFile;

/// The canonical texts of messages, with a line `NNNN` after each, as a mailbox has texts.
pub fn mail_file_of(alloc: Global, messages: &[Message]) -> Result<Vec<u8>, Memory>
    ensures ok { IfOk result (λ bytes. bytes.items ≡ mail_file messages.now) }

    // A mailbox reads them again, each as it is.
    ensures read { IfOk result
        (λ bytes. AllByRecursion IsMail messages.now
        → texts_in bytes.items ≡ mail_texts 1 messages.now) }
{
    let mut bytes = Vec::new(alloc);
    push_each(&mut bytes, &MailFile, messages)?;
    Ok(bytes)
}

impl Printed<MailFile> for Message {
    ghost text = { λ _ message. canonical message ++ codes "NNNN\n" };

    fn print(&self, _file: &MailFile, bytes: &mut Vec<u8>) -> Result<(), Memory> {
        bytes.extend_from_slice(self.text())?;
        bytes.extend_from_slice(b"NNNN\n")?;
        Ok(())
    }
}
