//! A text of which some lines are read.
ghost use Rattle.std.specs.Prelude.{◌≡◌, ◌≤◌, ◌++◌, [], ◌∷◌, List, None, OnOk, false, length};
ghost use Rattle.std.specs.Prelude.{option_map, true};
ghost use Rattle.ssim_mailbox.specs.declared.free_text.FreeText.TheVariants.{Ahead};
ghost use Rattle.ssim_mailbox.specs.FreeTexts.{free_after};
ghost use Rattle.ssim_mailbox.specs.Lines.{MailLine};
ghost use Rattle.ssim_mailbox.specs.clauses.Mail.{mail_of};
ghost use Rattle.ssim_mailbox.specs.Texts.{is_empty, text_from, trimmed, with_line};
ghost use Rattle.ssim_mailbox.specs.internal.Lines.{line_of};
ghost use Rattle.ssim_mailbox.specs.internal.Texts.{IsDraft, ends_by, number_from, texts_with};

use crate::free_text::FreeText;
use crate::line::MailboxLine;
use crate::role::Role;
use crate::text::Text;
use std::alloc::{AllocError, Global};

/// A text of which some lines are read.
#[derive(Drop)]
pub(crate) struct TextDraft {
    /// The number of its first line, once there is one.
    line: usize,
    /// Its lines, each of which LF ends. There are none before the first that is not empty.
    bytes: Vec<u8>,
    /// How many of the bytes end with the last line that is not empty.
    end: usize,
    /// Its free text.
    free: FreeText,
}

/// Whether a line of this role ends the text above it.
fn ends(free: FreeText, role: Role, line: &[u8]) -> bool
    ensures { result ≡ ends_by free role line.now }
{
    match role {
        Role::First | Role::End => true,
        Role::Inside => free.is_ended_by(line),
        Role::Envelope => false,
    }
}

impl TextDraft {
    /// A draft without lines.
    pub(crate) fn new(alloc: Global) -> TextDraft
        ensures draft { IsDraft result [] }
        ensures free { result.free ≡ Ahead }
    {
        TextDraft {
            line: 0,
            bytes: Vec::new(alloc),
            end: 0,
            free: FreeText::Ahead,
        }
    }

    /// The number of the first line, if a line of this number is added.
    fn number_from(&self, number: usize) -> usize
        ensures { result ≡ number_from self.now.bytes.items self.now.line number }
    {
        if self.bytes.is_empty() {
            number
        } else {
            self.line
        }
    }

    /// Adds a line that is not empty.
    fn push_filled(&mut self, line: &MailboxLine) -> Result<(), AllocError>
        ensures draft { OnOk result (is_empty (line_of line.now) ≡ false
            → (begun : List MailLine) → IsDraft self.old begun
            → IsDraft self.new (begun ++ line_of line.now ∷ [])) }
        ensures free { self.new.free ≡ self.old.free }
    {
        self.line = self.number_from(line.number);
        self.bytes.extend_from_slice(line.bytes)?;
        self.bytes.push(b'\n')?;
        self.end = self.bytes.len();
        Ok(())
    }

    /// Adds an empty line.
    fn push_empty(&mut self) -> Result<(), AllocError>
        ensures draft { OnOk result ((line : MailLine) → is_empty line ≡ true
            → (begun : List MailLine) → IsDraft self.old begun
            → IsDraft self.new (begun ++ line ∷ [])) }
        ensures free { self.new.free ≡ self.old.free }
    {
        if !self.bytes.is_empty() {
            self.bytes.push(b'\n')?;
        }
        Ok(())
    }

    /// Adds a line.
    fn push(&mut self, line: &MailboxLine) -> Result<(), AllocError>
        ensures draft { OnOk result ((begun : List MailLine) → IsDraft self.old begun
            → IsDraft self.new (begun ++ line_of line.now ∷ [])) }
        ensures free { OnOk result
            (self.new.free ≡ free_after self.old.free line.now.bytes.now) }
    {
        self.free = self.free.after(line.bytes);
        if line.bytes.is_empty() {
            self.push_empty()
        } else {
            self.push_filled(line)
        }
    }

    /// Whether a line of this role ends the text of the lines. There is none before a line that is
    /// not empty.
    pub(crate) fn is_ended_by(&self, role: Role, line: &MailboxLine) -> bool
        ensures yes { result ≡ true → (1 ≤ length self.now.bytes.items)
            × (ends_by self.now.free role line.now.bytes.now ≡ true) }
        ensures no { result ≡ false → ends_by self.now.free role line.now.bytes.now ≡ true
            → self.now.bytes.items ≡ [] }
    {
        !self.bytes.is_empty() && ends(self.free, role, line.bytes)
    }

    /// Adds a line by its role, if it does not end the text of the lines.
    pub(crate) fn add(
        &mut self,
        alloc: Global,
        role: Role,
        line: &MailboxLine,
    ) -> Result<(), AllocError>
        requires { ends_by self.old.free role line.now.bytes.now ≡ true
            → self.old.bytes.items ≡ [] }
        ensures { OnOk result ((begun : List MailLine) → IsDraft self.old begun
            → (more : List MailLine) × IsDraft self.new more
            × ((parts : List (List MailLine))
            → texts_with begun self.old.free (with_line role (line_of line.now) parts)
            ≡ texts_with more self.new.free parts)) }
    {
        match role {
            Role::First => {
                *self = TextDraft::new(alloc);
                self.push(line)?;
            }
            Role::Inside if self.free.is_ended_by(line.bytes) => *self = TextDraft::new(alloc),
            Role::Inside => self.push(line)?,
            Role::Envelope => {}
            Role::End => *self = TextDraft::new(alloc),
        }
        Ok(())
    }

    /// The text of the lines, if there is any.
    pub(crate) fn into_text(self) -> Option<Text>
        ensures text { (begun : List MailLine) → IsDraft self begun
            → option_map mail_of result ≡ text_from (trimmed begun) }
        ensures none { result ≡ None → self.bytes.items ≡ [] }
    {
        let mut bytes = self.bytes;
        if bytes.is_empty() {
            return None;
        }
        bytes.truncate(self.end);
        Some(Text {
            line: self.line,
            bytes,
        })
    }
}
