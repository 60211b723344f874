//! The messages that send sub-messages.

ghost use Rattle.std.specs.Prelude.{◌≡◌, ◌+◌, ◌≤◌, ◌∷◌, [], List, drop, length, IfErr, IfOk};
ghost use Rattle.std.specs.List.{AllByRecursion};
ghost use Rattle.ssim_text.specs.Canonical.{canonical, written};
ghost use Rattle.ssim_text.specs.Grammar.{Divider, sub_parts};
ghost use Rattle.ssim_text.specs.Message.{MessageValue};
ghost use Rattle.ssim_outbox.specs.clauses.Messages.{IsAlone, RefusesSubs};
ghost use Rattle.ssim_outbox.specs.Messages.{IsFirst, Send, headed};
ghost use Rattle.ssim_outbox.specs.internal.Texts.{IsFullAt};

use crate::heading_lines::heading_lines;
use crate::send_fault::SendFault;
use ssim_text::{GivenReference, Message, Sub, push_line};
use ssim_values::Memory;
use std::alloc::Global;

/// The most sub-messages of a message.
const MOST_SUBS: usize = 250;

/// The most bytes of the canonical text of a message.
const MOST_BYTES: usize = 65_536;

/// The last message group serial.
const LAST_GROUP: u32 = 99_999;

/// The messages that send sub-messages, in order. The heading is a message's: its originator, kind
/// and time mode, and its reference, but that the group serial counts up by one for each
/// message. Each message has as many sub-messages as a text can have.
///
/// The errors are 90, and 65 if the group serial would pass 99999.
pub fn messages_of(
    alloc: Global,
    heading: &Message,
    subs: &[Sub],
) -> Result<Vec<Message>, SendFault>
    requires { AllByRecursion (IsAlone heading.now) subs.now }
    ensures ok { IfOk result
        (λ messages. Send heading.now heading.now.reference.group subs.now messages.items) }
    ensures only { IfOk result
        (λ messages. (other : List MessageValue)
        → Send heading.now heading.now.reference.group subs.now other
        → other ≡ messages.items) }
    ensures err { IfErr result (RefusesSubs heading.now subs.now) }

    // There are messages if as many group serials are left as there are sub-messages.
    ensures enough { heading.now.reference.group + length subs.now ≤ 100000
        → IfErr result (λ fault. fault ≡ SendFault.Memory) }
{
    let mut messages = Vec::new(alloc);
    let mut group = heading.reference().group;
    let mut left = subs;
    while let Some((first, later)) = left.split_first() {
        if group > LAST_GROUP {
            return Err(SendFault::References);
        }
        let message = next_message(alloc, heading, group, first, later)?;
        left = after(left, message.subs().len());
        messages.push(message)?;
        group += 1;
    }
    Ok(messages)
}

// The sub-messages after the first ones.
fn after(subs: &[Sub], count: usize) -> &[Sub]
    requires { count ≤ length subs.now }
    ensures { result.now ≡ drop count subs.now }
{
    &subs[count..]
}

// The message with as many of the sub-messages as a text can have.
fn next_message(
    alloc: Global,
    heading: &Message,
    group: u32,
    first: &Sub,
    later: &[Sub],
) -> Result<Message, Memory>
    requires group { group ≤ 99999 }
    requires first { IsAlone heading.now first.now }
    requires later { AllByRecursion (IsAlone heading.now) later.now }
    ensures { IfOk result (IsFirst heading.now group (first.now ∷ later.now)) }
{
    let count = later_count(alloc, heading, group, first, later)?;
    let subs = copies(alloc, first, &later[..count])?;
    let reference = with_group(heading.reference(), group)?;
    Message::new(
        alloc,
        heading.originator(),
        heading.kind(),
        heading.mode(),
        reference,
        subs,
    )
}

// How many later sub-messages a text can have after the first one.
fn later_count(
    alloc: Global,
    heading: &Message,
    group: u32,
    first: &Sub,
    later: &[Sub],
) -> Result<usize, Memory>
    requires { IsAlone heading.now first.now }
    ensures { IfOk result (IsFullAt heading.now group first.now later.now) }
{
    let text = first_text(alloc, heading, group, first)?;
    let mut bytes = text.len();
    for (at, sub) in later.iter().enumerate() {
        let lines = later_lines(alloc, sub)?;
        if at + 1 == MOST_SUBS || bytes + lines.len() > MOST_BYTES {
            return Ok(at);
        }
        bytes += lines.len();
    }
    Ok(later.len())
}

// Equal sub-messages.
fn copies(alloc: Global, first: &Sub, later: &[Sub]) -> Result<Vec<Sub>, Memory>
    ensures { IfOk result (λ subs. subs.items ≡ first.now ∷ later.now) }
{
    let mut subs = Vec::with_capacity(alloc, later.len() + 1)?;
    subs.push(first.clone()?)?;
    for sub in later {
        subs.push(sub.clone()?)?;
    }
    Ok(subs)
}

// The reference with this group serial.
fn with_group(reference: &GivenReference, group: u32) -> Result<GivenReference, Memory>
    ensures { IfOk result (λ own. own ≡ record reference.now { group = group }) }
{
    let mut own = reference.clone()?;
    own.group = group;
    Ok(own)
}

// The text of a message with one sub-message.
fn first_text(alloc: Global, heading: &Message, group: u32, first: &Sub) -> Result<Vec<u8>, Memory>
    ensures { IfOk result
        (λ text. text.items ≡ canonical (headed heading.now group (first.now ∷ []))) }
{
    let mut text = heading_lines(alloc, heading, group)?;
    first.push(&mut text)?;
    Ok(text)
}

// The lines of a sub-message after another one.
fn later_lines(alloc: Global, sub: &Sub) -> Result<Vec<u8>, Memory>
    ensures { IfOk result (λ lines. lines.items ≡ written (Divider ∷ sub_parts sub.now)) }
{
    let mut lines = Vec::new(alloc);
    push_line(&mut lines, b"//")?;
    sub.push(&mut lines)?;
    Ok(lines)
}
