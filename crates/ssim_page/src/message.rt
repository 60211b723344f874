//! The messages on the page: an article for each message of a desk.

ghost use Rattle.std.specs.Prelude.{◌≡◌, ◌++◌, IfOk, OnOk, codes};
ghost use Rattle.ssim_text.specs.Lines.{identifier_text};
ghost use Rattle.ssim_text.specs.Reference.{printed_reference};
ghost use Rattle.ssim_page.specs.Html.{escaped};
ghost use Rattle.ssim_page.specs.Messages.{mark, mark_byte, message_article, message_section};
ghost use Rattle.ssim_page.specs.Messages.{message_title, messages, sub_begin};

use crate::html::push_escaped;
use crate::link::push_dated_link;
use ssim_lines::{Printed, push_each, written};
use ssim_text::{ActionIdentifier, Reference};
use ssim_values::{Designator, Memory, Period};
use std::alloc::Global;
use std::io::Write;

/// Bytes as the mark of a message.
#[derive(Clone, Copy)]
struct MessageMark;

/// Adds the begin of the line of a sub-message: its action, a link to its flight, and its period with
/// full dates. What the sub-message found has to follow it.
#[tactic(auto, unfolding(crate::specs::Messages::sub_begin))]
pub fn push_sub_begin(
    lines: &mut Vec<u8>,
    action: ActionIdentifier,
    designator: Designator,
    period: Period,
) -> Result<(), Memory>
    ensures { OnOk result
        (lines.new.items ≡ lines.old.items ++ sub_begin action designator period) }
{
    push_action(lines, action)?;
    push_dated_link(lines, designator.write().as_slice(), period)
}

// Adds the begin of a line, and an action.
fn push_action(lines: &mut Vec<u8>, action: ActionIdentifier) -> Result<(), Memory>
    ensures { OnOk result (lines.new.items
        ≡ lines.old.items ++ (codes "<li>" ++ identifier_text action ++ codes " ")) }
{
    written(write!(lines, "<li>{action} "))
}

/// Adds the article of a message, given the lines of its sub-messages and its canonical text.
#[tactic(auto, unfolding(crate::specs::Messages::message_article))]
pub fn push_message(
    alloc: Global,
    articles: &mut Vec<u8>,
    reference: &Reference,
    subs: &[u8],
    text: &[u8],
) -> Result<(), Memory>
    ensures { OnOk result (articles.new.items
        ≡ articles.old.items ++ message_article reference.now subs.now text.now) }
{
    push_title(alloc, articles, reference)?;
    articles.extend_from_slice(subs)?;
    articles.extend_from_slice(b"</ol><pre>\n")?;
    push_text(articles, text)?;
    articles.extend_from_slice(b"</pre></article>\n")?;
    Ok(())
}

// Adds the begin of the article of a message.
#[tactic(auto, unfolding(crate::specs::Messages::message_title))]
fn push_title(alloc: Global, articles: &mut Vec<u8>, reference: &Reference) -> Result<(), Memory>
    ensures { OnOk result (articles.new.items ≡ articles.old.items ++ message_title reference.now) }
{
    let name = name_of(alloc, reference)?;
    articles.extend_from_slice(b"<article id=\"")?;
    push_mark(articles, reference, &name)?;
    articles.extend_from_slice(b"\"><h3>")?;
    articles.extend_from_slice(&name)?;
    articles.extend_from_slice(b"</h3><ol>\n")?;
    Ok(())
}

// A reference as it is printed.
fn name_of(alloc: Global, reference: &Reference) -> Result<Vec<u8>, Memory>
    ensures { IfOk result (λ name. name.items ≡ printed_reference reference.now) }
{
    let mut name = Vec::new(alloc);
    written(write!(name, "{reference}"))?;
    Ok(name)
}

// Adds the mark of the message with this reference, which is printed so.
#[tactic(auto, unfolding(crate::specs::Messages::mark))]
fn push_mark(articles: &mut Vec<u8>, reference: &Reference, name: &[u8]) -> Result<(), Memory>
    requires { name.now ≡ printed_reference reference.now }
    ensures { OnOk result (articles.new.items ≡ articles.old.items ++ mark reference.now) }
{
    push_each(articles, &MessageMark, name)
}

impl Printed<MessageMark> for u8 {
    ghost text = { λ _. mark_byte };

    // Adds a byte: a hyphen for a blank.
    fn print(&self, _mark: &MessageMark, articles: &mut Vec<u8>) -> Result<(), Memory> {
        articles.push(if *self == b' ' { b'-' } else { *self })?;
        Ok(())
    }
}

// Adds a text.
fn push_text(articles: &mut Vec<u8>, text: &[u8]) -> Result<(), Memory>
    ensures { OnOk result (articles.new.items ≡ articles.old.items ++ escaped text.now) }
{
    push_escaped(articles, text)
}

/// Adds the messages with these articles; nothing if there is none.
pub(crate) fn push_messages(page: &mut Vec<u8>, articles: &[u8]) -> Result<(), Memory>
    ensures { OnOk result (page.new.items ≡ page.old.items ++ messages articles.now) }
{
    match articles.split_first() {
        None => Ok(()),
        Some(_) => push_section(page, articles),
    }
}

// Adds the section of messages with these articles.
#[tactic(auto, unfolding(crate::specs::Messages::message_section))]
fn push_section(page: &mut Vec<u8>, articles: &[u8]) -> Result<(), Memory>
    ensures { OnOk result (page.new.items ≡ page.old.items ++ message_section articles.now) }
{
    page.extend_from_slice(b"<section id=\"messages\"><h2>Messages</h2>\n")?;
    page.extend_from_slice(articles)?;
    page.extend_from_slice(b"</section>\n")?;
    Ok(())
}
