//! The heading of the messages, as a word names it.

ghost use Rattle.std.specs.Prelude.{◌≡◌, ◌∷◌, ◌++◌, [], ℕ, List, length};
ghost use Rattle.std.specs.Prelude.{IfErr, IfNone, IfOk, IfSome, OnOk};
ghost use Rattle.std.specs.List.{list_all};
ghost use Rattle.ssim_text.specs.Bytes.{is_alphanumeric};
ghost use Rattle.ssim_text.specs.Spelling.{SpellsMessage};
ghost use Rattle.ssim_values.specs.Designator.{SpellsDesignator, designator_text};
ghost use Rattle.ssim_outbox.specs.Heading.{NamesHeading};
ghost use Rattle.ssim_outbox.specs.internal.Headings.{RefusesText, RefusesWord, added_lines};
ghost use Rattle.ssim_outbox.specs.internal.Headings.{cancellation, cancelling_lines};
ghost use Rattle.ssim_outbox.specs.internal.Headings.{first_flight};

use crate::fault::OutboxFault;
use ssim_records::Carrier;
use ssim_text::{Message, TextFault, decode, is_text_line, push_line, push_mode};
use ssim_values::{Airline, Designator, Flight, Memory};
use std::alloc::Global;

/// The heading that a word names, in the time mode of a carrier: an SSM that cancels a flight of
/// the carrier's airline.
pub(crate) fn heading_of(
    alloc: Global,
    carrier: &Carrier,
    word: &[u8],
) -> Result<Message, OutboxFault>
    ensures named { IfOk result (NamesHeading carrier.now.time_mode word.now) }
    ensures subs { IfOk result (λ heading. heading.subs ≡ cancellation carrier.now.airline ∷ []) }
    ensures err { IfErr result (RefusesWord carrier.now.time_mode word.now) }
{
    match cut_word(word) {
        None => plain_heading(alloc, carrier, word),
        Some((address, line)) => originated_heading(alloc, carrier, address, line),
    }
}

// The address of the originator that a word begins with, and what follows its solidus.
fn cut_word(word: &[u8]) -> Option<(&[u8], &[u8])>
    ensures address { IfSome result (λ cut. length cut.0.now ≡ 7) }
    ensures whole { IfSome result (λ cut. word.now ≡ 46 ∷ cut.0.now ++ 47 ∷ cut.1.now) }
    ensures none { IfNone result ((address line : List ℕ) → length address ≡ 7
        → word.now ≡ 46 ∷ address ++ 47 ∷ line → ⊥) }
{
    match word {
        [b'.', a, b, c, d, e, f, g, b'/', line @ ..] => Some((&word[1..8], line)),
        _ => None,
    }
}

// The heading of a word that has no originator.
fn plain_heading(alloc: Global, carrier: &Carrier, word: &[u8]) -> Result<Message, OutboxFault>
    requires { (address line : List ℕ) → length address ≡ 7
        → word.now ≡ 46 ∷ address ++ 47 ∷ line → ⊥ }
    ensures named { IfOk result (NamesHeading carrier.now.time_mode word.now) }
    ensures subs { IfOk result (λ heading. heading.subs ≡ cancellation carrier.now.airline ∷ []) }
    ensures err { IfErr result (RefusesWord carrier.now.time_mode word.now) }
{
    if !is_text_line(word) {
        return Err(OutboxFault::Reference);
    }
    let text = Vec::new(alloc);
    heading_after(alloc, text, carrier, word)
}

// The heading of a word that has an originator.
fn originated_heading(
    alloc: Global,
    carrier: &Carrier,
    address: &[u8],
    line: &[u8],
) -> Result<Message, OutboxFault>
    requires { length address.now ≡ 7 }
    ensures named { (word : List ℕ) → word ≡ 46 ∷ address.now ++ 47 ∷ line.now
        → IfOk result (NamesHeading carrier.now.time_mode word) }
    ensures subs { IfOk result (λ heading. heading.subs ≡ cancellation carrier.now.airline ∷ []) }
    ensures err { (word : List ℕ) → word ≡ 46 ∷ address.now ++ 47 ∷ line.now
        → IfErr result (RefusesWord carrier.now.time_mode word) }
{
    if !are_alphanumeric(address) {
        return Err(OutboxFault::Reference);
    }
    if !is_text_line(line) {
        return Err(OutboxFault::Reference);
    }
    let mut text = Vec::new(alloc);
    push_originator_line(&mut text, address)?;
    heading_after(alloc, text, carrier, line)
}

// Adds the line of an originator.
fn push_originator_line(text: &mut Vec<u8>, address: &[u8]) -> Result<(), Memory>
    ensures { OnOk result
        (text.new.items ≡ text.old.items ++ ((46 ∷ address.now) ++ 10 ∷ [])) }
{
    text.push(b'.')?;
    push_line(text, address)?;
    Ok(())
}

// Whether all bytes are letters and digits.
fn are_alphanumeric(text: &[u8]) -> bool
    ensures { result ≡ list_all is_alphanumeric text.now }
{
    text.iter().all(|byte| (b'A' <= *byte && *byte <= b'Z') || (b'0' <= *byte && *byte <= b'9'))
}

// The message of a text that has these first lines, and then the heading with a reference line.
fn heading_after(
    alloc: Global,
    text: Vec<u8>,
    carrier: &Carrier,
    line: &[u8],
) -> Result<Message, OutboxFault>
    ensures code { SpellsDesignator (first_flight carrier.now.airline)
        (designator_text (first_flight carrier.now.airline)) }
    ensures ok { IfOk result (λ message. SpellsMessage message (added_lines text.items
        (cancelling_lines carrier.now.time_mode carrier.now.airline line.now))) }
    ensures err { IfErr result (RefusesText (added_lines text.items
        (cancelling_lines carrier.now.time_mode carrier.now.airline line.now))) }
{
    let mut text = text;
    push_lines(&mut text, carrier, line)?;
    read(alloc, &text)
}

// Adds the lines of a heading with a reference line, and of a flight that is cancelled.
fn push_lines(text: &mut Vec<u8>, carrier: &Carrier, line: &[u8]) -> Result<(), Memory>
    ensures code { SpellsDesignator (first_flight carrier.now.airline)
        (designator_text (first_flight carrier.now.airline)) }
    ensures lines { OnOk result (text.new.items ≡ added_lines text.old.items
        (cancelling_lines carrier.now.time_mode carrier.now.airline line.now)) }
{
    let airline = carrier.airline();
    spells(airline);
    push_line(text, b"SSM")?;
    push_mode(text, carrier.time_mode())?;
    push_line(text, line)?;
    push_line(text, b"CNL")?;
    push_flight(text, airline)?;
    push_line(text, b"01JUL25 07JUL25 2")?;
    Ok(())
}

// The written line of flight 1 spells it.
fn spells(airline: Airline)
    ensures { SpellsDesignator (first_flight airline) (designator_text (first_flight airline)) }
{
    let _ = first_flight(airline).write();
}

// Adds the line of flight 1 of an airline.
fn push_flight(text: &mut Vec<u8>, airline: Airline) -> Result<(), Memory>
    ensures { OnOk result (text.new.items
        ≡ text.old.items ++ (designator_text (first_flight airline) ++ 10 ∷ [])) }
{
    let flight = first_flight(airline).write();
    push_line(text, &flight)?;
    Ok(())
}

// Flight 1 of an airline.
fn first_flight(airline: Airline) -> Designator
    ensures { result ≡ first_flight airline }
{
    let Some(flight) = Flight::new(1, b' ') else {
        unreachable!();
    };
    Designator { airline, flight }
}

// The message that a text spells.
fn read(alloc: Global, text: &[u8]) -> Result<Message, OutboxFault>
    ensures ok { IfOk result (λ message. SpellsMessage message text.now) }
    ensures err { IfErr result (RefusesText text.now) }
{
    match decode(alloc, text) {
        Ok(message) => Ok(message),
        Err(TextFault::Memory) => Err(OutboxFault::Memory),
        Err(TextFault::Refused { .. }) => Err(OutboxFault::Reference),
    }
}
