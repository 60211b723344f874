//! From a text to its message.
ghost use Rattle.std.specs.Prelude.{◌≡◌, ◌≤◌, ℕ, length, map, IfOk, IfErr};
ghost use Rattle.ssim_text.specs.Message.{MessageValue};
ghost use Rattle.ssim_text.specs.Grammar.{SpellsText};
ghost use Rattle.ssim_text.specs.Decoder.{IsRefusal, NoMessage};
ghost use Rattle.ssim_text.specs.internal.Decoder.{IsPlace, IsTooManyAtOne, IsSpelledWhereShort};
ghost use Rattle.ssim_text.specs.Spelling.{SpellsMessage};
ghost use Rattle.ssim_text.specs.Canonical.{canonical};

use crate::decoder_state::{State, Stop};
use crate::fault::{Fault, TextFault};
use crate::lines::{Line, first_unprintable, lines_left, number_at};
use crate::message::{Draft, Message};
use std::alloc::Global;

/// Why lines are refused: out of memory, or a fault and the index of its line.
#[derive(Drop)]
pub(crate) enum LineRefusal {
    NoMemory,
    Misplaced(Fault, usize),
}

/// The message that the lines spell.
fn read_lines(alloc: Global, lines: &[Line]) -> Result<Draft, LineRefusal>
    ensures found { IfOk result (λ m. SpellsText m (map (λ l. l.bytes.now) lines.now)) }
    ensures only { IfOk result
        (λ m. (n : MessageValue) → SpellsText n (map (λ l. l.bytes.now) lines.now) → n ≡ m) }
    ensures place { IfErr result (λ refusal. IsPlace (map (λ l. l.bytes.now) lines.now) refusal) }
{
    let mut state = State::AtStart;
    for (index, line) in lines.iter().enumerate() {
        state = match state.after(alloc, line.bytes) {
            Ok(next) => next,
            Err(Stop::OutOfMemory) => return Err(LineRefusal::NoMemory),
            Err(Stop::Refused(fault)) => return Err(LineRefusal::Misplaced(fault, index)),
        };
    }
    match state.finish() {
        Ok(draft) => Ok(draft),
        Err(Stop::OutOfMemory) => Err(LineRefusal::NoMemory),
        Err(Stop::Refused(fault)) => Err(LineRefusal::Misplaced(fault, lines.len())),
    }
}

/// The message of what was read, if its canonical text is not too long. Memory for `room` bytes of
/// that text is reserved at once.
fn finished(alloc: Global, draft: Draft, room: usize) -> Result<Message, TextFault>
    requires { IsSpelledWhereShort draft }
    ensures ok { IfOk result (λ m. (m ≡ draft) × (length (canonical draft) ≤ 65536)) }
    ensures err { IfErr result (λ fault. IsTooManyAtOne draft fault) }
{
    let text = draft.encode(alloc, room)?;
    if text.len() > 65_536 {
        return Err(TextFault::Refused {
            fault: Fault::TooMany,
            line: 1,
        });
    }
    Ok(Message::of(draft, text))
}

/// The message that a text spells.
///
/// A text that spells no message is refused, in this order:
/// - 28 at line 1 if it has more than 65,536 bytes;
/// - 29 at the first line with a byte outside 32 to 126, after the dropping;
/// - the number of what was expected, 20 to 28, at the first line after which no valid message is
///   possible, or at the line after the last if the text ends too early;
/// - 28 at line 1 if only the canonical text has more than 65,536 bytes.
pub fn decode(alloc: Global, text: &[u8]) -> Result<Message, TextFault>
    ensures found { IfOk result (λ m. SpellsMessage m text.now) }
    ensures only { IfOk result (λ m. (n : MessageValue) → SpellsMessage n text.now → n ≡ m) }
    ensures none { IfErr result (λ fault. NoMessage text.now fault) }
    ensures place { IfErr result (λ fault. IsRefusal text.now fault) }
{
    if text.len() > 65_536 {
        return Err(TextFault::Refused {
            fault: Fault::TooMany,
            line: 1,
        });
    }
    let lines = lines_left(alloc, text)?;
    let lines = lines.as_slice();
    if let Some(number) = first_unprintable(lines) {
        return Err(TextFault::Refused {
            fault: Fault::NotAscii,
            line: number,
        });
    }
    match read_lines(alloc, lines) {
        // The canonical text is seldom longer than the text with a mode line.
        Ok(draft) => finished(alloc, draft, text.len() + 4),
        Err(LineRefusal::NoMemory) => Err(TextFault::Memory),
        Err(LineRefusal::Misplaced(fault, index)) => {
            Err(TextFault::Refused {
                fault,
                line: number_at(lines, index),
            })
        }
    }
}
