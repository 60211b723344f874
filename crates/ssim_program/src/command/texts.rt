//! The command `texts`: the messages that a desk holds, as their canonical texts; or their
//! sub-messages as CSV.

ghost use Rattle.std.specs.Prelude.{◌≡◌, ◌++◌, [], ◌∷◌, if◌then◌else◌, IfOk, OnOk, map};
ghost use Rattle.std.specs.List.{list_any};
ghost use Rattle.ssim_text.specs.Canonical.{canonical};
ghost use Rattle.ssim_command_line.specs.Line.{span_line};
ghost use Rattle.ssim_program.specs.Messages.{is_all, is_chosen, is_sub_chosen, message_texts};
ghost use Rattle.ssim_program.specs.Messages.{messages_on, printed_messages};
ghost use Rattle.ssim_program.specs.Answers.{texts};
ghost use Rattle.ssim_program.specs.internal.Program.{Answers};

use crate::command::span::{dates_alone, has_date, has_end, has_flight};
use crate::desk_file::open_holdings;
use crate::print::sub_rows::rows_of;
use crate::refusal::Refusal;
use crate::store::Store;
use ssim_base::ResolvedSub;
use ssim_command_line::SpanWords;
use ssim_desk::Held;
use ssim_parts::Choice;
use ssim_values::{Flight, Memory};
use std::alloc::Global;

/// The texts of the messages that the desk in a file holds; with flights or a span of dates, of
/// those of which one sub-message is of such a flight and has such a date. As CSV, a row for each
/// such sub-message.
pub(crate) fn texts<S: Store>(
    alloc: Global,
    csv: bool,
    span: SpanWords<'_>,
    file: &str,
    flights: &[&str],
    store: &mut S,
) -> Result<Vec<u8>, Refusal>
    ensures answer { Answers (texts (S.files store.old) csv (span_line span.entry) file.now
        (map (λ t. t.now) flights.now)) result }
    ensures same { S.files store.new ≡ S.files store.old }
    ensures counted { S.failures store.new ≡ S.failures store.old }
{
    let desk = open_holdings(alloc, file, store)?;
    let choice = dates_alone(alloc, desk.data_set().airline(), span, flights)?;
    let text = printed(alloc, csv, desk.held(), has_end(span), &choice)?;
    Ok(text)
}

/// The rows of the chosen sub-messages, or the texts of the chosen messages.
fn printed(
    alloc: Global,
    csv: bool,
    held: &[Held],
    has_span: bool,
    choice: &Choice,
) -> Result<Vec<u8>, Memory>
    ensures { IfOk result
        (λ text. text.items ≡ printed_messages csv has_span choice.now held.now) }
{
    if csv {
        rows_of(alloc, held, has_span, choice)
    } else {
        texts_of(alloc, held, has_span, choice)
    }
}

/// The texts of the chosen messages, with an empty line between two.
fn texts_of(
    alloc: Global,
    held: &[Held],
    has_span: bool,
    choice: &Choice,
) -> Result<Vec<u8>, Memory>
    ensures { IfOk result
        (λ texts. texts.items ≡ message_texts (messages_on has_span choice.now held.now)) }
{
    let mut texts = Vec::new(alloc);
    let mut is_first = true;
    for message in held {
        if is_chosen(message, has_span, choice) {
            push_text(&mut texts, is_first, message)?;
            is_first = false;
        }
    }
    Ok(texts)
}

/// Adds the text of a message, and before it an empty line if it is not the first.
fn push_text(texts: &mut Vec<u8>, is_first: bool, message: &Held) -> Result<(), Memory>
    ensures { OnOk result (texts.new.items
        ≡ texts.old.items ++ ((if is_first then [] else 10 ∷ [])
        ++ canonical message.now.message)) }
{
    texts.extend_from_slice(separator(is_first))?;
    texts.extend_from_slice(message.text())?;
    Ok(())
}

fn separator(is_first: bool) -> &'static [u8]
    ensures { result.now ≡ (if is_first then [] else 10 ∷ []) }
{
    if is_first { b"" } else { b"\n" }
}

/// Whether neither flights nor a span are given, or one sub-message is chosen by both.
fn is_chosen(message: &Held, has_span: bool, choice: &Choice) -> bool
    ensures { result ≡ is_chosen has_span choice.now message.now }
{
    is_all(has_span, &choice.flights) || has_chosen_sub(message, has_span, choice)
}

/// Whether neither flights nor a span are given.
fn is_all(has_span: bool, flights: &[Flight]) -> bool
    ensures { result ≡ is_all has_span flights.now }
{
    match flights.split_first() {
        None => !has_span,
        Some(_) => false,
    }
}

/// Whether a sub-message of the message is chosen.
fn has_chosen_sub(message: &Held, has_span: bool, choice: &Choice) -> bool
    ensures { result ≡ list_any (is_sub_chosen has_span choice.now) message.now.dates }
{
    message
        .dates()
        .iter()
        .any(|sub| is_sub_chosen(sub, has_span, choice))
}

/// Whether a sub-message is of a chosen flight and, if a span is given, has a chosen date.
pub(crate) fn is_sub_chosen(sub: &ResolvedSub, has_span: bool, choice: &Choice) -> bool
    ensures { result ≡ is_sub_chosen has_span choice.now sub.now }
{
    has_flight(choice, sub.flight) && (!has_span || has_date(&sub.period, choice))
}
