//! The texts of a mailbox.
ghost use Rattle.std.specs.Prelude.{◌≡◌, [], ◌++◌, IfOk, None, Ok, option_map};
ghost use Rattle.std.specs.Option.{option_to_list};
ghost use Rattle.ssim_mailbox.specs.Texts.{texts_in};
ghost use Rattle.ssim_mailbox.specs.clauses.Mail.{mail_of};
ghost use Rattle.ssim_mailbox.specs.internal.Texts.{AreRolesOf, texts_left};

use crate::draft::TextDraft;
use crate::line::Lines;
use crate::role::{Role, roles};
use ssim_values::Memory;
use std::alloc::{AllocError, Global};
use std::marker::Model;

/// A text of a mailbox.
#[derive(Debug, Drop)]
pub struct Text {
    /// The number of the line of the mailbox on which it begins, from 1.
    pub line: usize,
    /// Its lines, each of which LF ends.
    pub bytes: Vec<u8>,
}

/// The texts of a mailbox that are left. Beside the mailbox there is a byte for each of its lines.
#[derive(Drop)]
pub struct Texts<'a> {
    /// The lines that are left.
    lines: Lines<'a>,
    /// The roles of all lines, as if none were under a dot.
    roles: Vec<Role>,
}

impl<'a> Model for Texts<'a> {
    ghost use Rattle.std.specs.Prelude.{List};
    ghost use Rattle.ssim_mailbox.specs.Texts.{MailText};
    ghost use Rattle.ssim_mailbox.specs.internal.Texts.{AreRolesOf, texts_left};

    ghost Value = { List MailText };

    ghost view = { λ t. texts_left t.lines };

    ghost invariant = { λ t. AreRolesOf t.roles.items t.lines };
}

impl<'a> Texts<'a> {
    /// The texts of a mailbox, in order.
    pub fn new(alloc: Global, mailbox: &'a [u8]) -> Result<Texts<'a>, Memory>
        ensures { IfOk result (λ texts. texts ≡ texts_in mailbox.now) }
    {
        Ok(Texts {
            lines: Lines::new(mailbox),
            roles: roles(alloc, mailbox)?,
        })
    }

    /// The next text, if there is one.
    pub fn next_text(&mut self, alloc: Global) -> Result<Option<Text>, Memory>
        ensures next { IfOk result
            (λ text. self.old ≡ option_to_list (option_map mail_of text) ++ self.new) }
        ensures none { result ≡ Ok None → self.old ≡ [] }
    {
        Ok(read_text(alloc, &mut self.lines, &self.roles)?)
    }
}

/// The first text of the lines that are left, if there is one. A line that ends it is left.
fn read_text(alloc: Global, lines: &mut Lines, roles: &[Role]) -> Result<Option<Text>, AllocError>
    requires { AreRolesOf roles.now lines.old }
    ensures roles { AreRolesOf roles.now lines.new }
    ensures text { IfOk result (λ text. texts_left lines.old
        ≡ option_to_list (option_map mail_of text) ++ texts_left lines.new) }
    ensures none { result ≡ Ok None → texts_left lines.new ≡ [] }
{
    let mut draft = TextDraft::new(alloc);
    loop {
        let mut after = *lines;
        let Some(line) = after.next() else {
            return Ok(draft.into_text());
        };
        let role = roles[lines.above].of(&line);
        if draft.is_ended_by(role, &line) {
            return Ok(draft.into_text());
        }
        *lines = after;
        draft.add(alloc, role, &line)?;
    }
}
