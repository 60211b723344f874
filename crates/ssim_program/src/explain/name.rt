//! The refusal that a word names.

ghost use Rattle.std.specs.Prelude.{IfNone, IfOk, IfSome};
ghost use Rattle.ssim_program.specs.Explained.{ExplainsName, ExplainsNamed, Names, NamesNone};
ghost use Rattle.ssim_program.specs.internal.Explain.{NamesNoneOf};

use super::example::example;
use super::{on_refusal, with_words};
use crate::refusal::Refusal;
use ssim_lines::written;
use ssim_values::Memory;
use std::alloc::Global;
use std::io::Write;

/// What is printed on the refusal that the word names: it is the refusal's name, in any case, or the
/// line that a command printed of it. There is none exactly if the word names no refusal.
pub(crate) fn on_name(alloc: Global, word: &str) -> Result<Option<Vec<u8>>, Memory>
    ensures found { IfOk result
        (λ found. IfSome found (λ text. ExplainsName word.now text.items)) }
    ensures none { IfOk result (λ found. IfNone found (NamesNone word.now)) }
{
    for number in 1..94 {
        if let Some(text) = on_number(alloc, word, number)? {
            return Ok(Some(text));
        }
    }
    Ok(None)
}

/// What is printed on a refusal of this number, exactly if the word names one.
fn on_number(alloc: Global, word: &str, number: u8) -> Result<Option<Vec<u8>>, Memory>
    ensures found { IfOk result
        (λ found. IfSome found (λ text. ExplainsName word.now text.items)) }
    ensures none { IfOk result (λ found. IfNone found (NamesNoneOf number word.now)) }
{
    match example(alloc, number)? {
        Some(refusal) => on_named(alloc, word, &refusal),
        None => Ok(None),
    }
}

/// What is printed on a refusal, exactly if the word names it.
fn on_named(alloc: Global, word: &str, refusal: &Refusal) -> Result<Option<Vec<u8>>, Memory>
    ensures found { IfOk result
        (λ found. IfSome found (λ text. ExplainsNamed word.now refusal.now text.items)) }
    ensures none { IfOk result (λ found. IfNone found (Names word.now refusal.now → ⊥)) }
{
    if refusal.name().eq_ignore_ascii_case(word) {
        let text = on_refusal(alloc, refusal, b"")?;
        return Ok(Some(text));
    }
    let number = refusal.number();
    let name = refusal.name();
    let head = format!(in alloc; "refused {number} {name}")?;
    if word.as_bytes().starts_with(head.as_bytes()) {
        let mut line = Vec::new(alloc);
        written(writeln!(line, "{word}"))?;
        let text = with_words(alloc, line, refusal, b"")?;
        return Ok(Some(text));
    }
    Ok(None)
}
