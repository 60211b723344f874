//! What each line of a mailbox is.
ghost use Rattle.std.specs.Prelude.{◌≡◌, ◌==◌, ◌∷◌, ℕ, List, IfOk, false};
ghost use Rattle.std.specs.List.{slice_split};
ghost use Rattle.ssim_mailbox.specs.Roles.{is_end, is_kind, is_start, role_of};
ghost use Rattle.ssim_mailbox.specs.Lines.{MailLine, shown};
ghost use Rattle.ssim_mailbox.specs.internal.Lines.{line_of};
ghost use Rattle.ssim_mailbox.specs.internal.Roles.{AreRoles, IsAhead, plain_line};

use crate::address::is_address_line;
use crate::line::{MailboxLine, begins_with_dot, rsplit_once, shown};
use std::alloc::{AllocError, Global};

/// What a line is to the texts.
#[derive(Clone, Copy)]
pub(crate) enum Role {
    /// The first line of a text.
    First,
    /// Another line of a text.
    Inside,
    /// A line of the envelope of the next text.
    Envelope,
    /// The line that ends a text.
    End,
}

/// What the lines from one on begin with.
#[derive(Clone, Copy)]
struct Ahead {
    /// The first is SSM or ASM.
    is_message: bool,
    /// The first that is not empty is SSM or ASM.
    leads_to_message: bool,
    /// The first is an origin line.
    is_origin: bool,
    /// The first is one of the address lines above an origin line.
    is_addressing: bool,
}

fn is_kind(line: &[u8]) -> bool
    ensures { result ≡ is_kind line.now }
{
    line == b"SSM".as_slice() || line == b"ASM".as_slice()
}

fn is_end(line: &[u8]) -> bool
    ensures { result ≡ is_end line.now }
{
    line == b"NNNN".as_slice()
}

fn is_start(line: &[u8]) -> bool
    ensures { result ≡ is_start line.now }
{
    matches!(line, [b'Z', b'C', b'Z', b'C', ..])
}

/// What is ahead from a line of these bytes on.
fn ahead_from(bytes: &[u8], below: Ahead) -> Ahead
    ensures { (line : MailLine) (lines : List MailLine) → line.bytes ≡ bytes.now
        → IsAhead below lines → IsAhead result (line ∷ lines) }
{
    let is_message = is_kind(bytes);
    Ahead {
        is_message,
        leads_to_message: if bytes.is_empty() {
            below.leads_to_message
        } else {
            is_message
        },
        is_origin: begins_with_dot(bytes) && below.leads_to_message,
        is_addressing: is_address_line(bytes) && (below.is_origin || below.is_addressing),
    }
}

/// The role of a line of these bytes that is not under a dot, by what is ahead from this line on,
/// and below it.
fn role_of(bytes: &[u8], ahead: Ahead, below: Ahead) -> Role
    ensures { (line : MailLine) (lines : List MailLine) → line.bytes ≡ bytes.now
        → line.under_dot ≡ false → IsAhead ahead (line ∷ lines) → IsAhead below lines
        → result ≡ role_of line lines }
{
    if is_end(bytes) {
        return Role::End;
    }
    if ahead.is_message || ahead.is_origin {
        return Role::First;
    }
    if ahead.is_addressing {
        return Role::Envelope;
    }
    let is_above_text = below.is_message || below.is_origin || below.is_addressing;
    if is_above_text && is_start(bytes) {
        return Role::Envelope;
    }
    Role::Inside
}

impl Role {
    /// The role of a line that has this role if it is not under a dot.
    pub(crate) fn of(self, line: &MailboxLine) -> Role
        ensures { (n : ℕ) (piece : List ℕ) (below : List MailLine)
            → shown piece ≡ line.now.bytes.now → self ≡ role_of (plain_line n piece) below
            → result ≡ role_of (line_of line.now) below }
    {
        if line.under_dot && is_kind(line.bytes) {
            Role::Inside
        } else {
            self
        }
    }
}

/// The roles of the lines of a mailbox, in order, as if none were under a dot. They are found from
/// the last line to the first.
pub(crate) fn roles(alloc: Global, mailbox: &[u8]) -> Result<Vec<Role>, AllocError>
    ensures { IfOk result (λ v. AreRoles v.items (slice_split (λ b. b == 10) mailbox.now)) }
{
    let mut roles = Vec::new(alloc);
    let mut below = Ahead {
        is_message: false,
        leads_to_message: false,
        is_origin: false,
        is_addressing: false,
    };
    let mut rest = mailbox;
    loop {
        let (above, line) = rsplit_once(rest, b'\n');
        let bytes = shown(line);
        let ahead = ahead_from(bytes, below);
        roles.push(role_of(bytes, ahead, below))?;
        below = ahead;
        match above {
            Some(next) => rest = next,
            None => break,
        }
    }
    roles.reverse();
    Ok(roles)
}
