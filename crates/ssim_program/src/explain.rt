//! The command `explain`: what the refusals of a number or a name mean, or what is invalid in a file.

ghost use Rattle.std.specs.Prelude.{◌≡◌, ◌++◌, codes, IfErr, IfOk};
ghost use Rattle.std.specs.Fmt.{decimal};
ghost use Rattle.ssim_base.specs.Export.{line};
ghost use Rattle.ssim_values.specs.Characters.{two_digits_of};
ghost use Rattle.ssim_program.specs.Explained.{BeginsWith, ExplainsNumber, ExplainsWord, HasWords};
ghost use Rattle.ssim_program.specs.Explained.{RefusesWord, number_in};
ghost use Rattle.ssim_program.specs.Answers.{explain};
ghost use Rattle.ssim_program.specs.internal.Program.{Reports};

mod example;
mod file;
pub(crate) mod file_kind;
pub(crate) mod foreign;
mod mail;
mod name;
pub(crate) mod reason;

use crate::data_set::load_file;
use crate::made::Report;
use crate::refusal::Refusal;
use crate::store::Store;
use example::example;
use file::on_bytes;
use name::on_name;
use ssim_guide::words_on;
use ssim_lines::written;
use ssim_values::Memory;
use std::alloc::Global;
use std::io::Write;

/// What the refusals of a number or a name mean, or what is invalid in the file of this name; and
/// whether something is.
pub(crate) fn explain<S: Store>(alloc: Global, word: &str, store: &mut S) -> Result<Report, Refusal>
    ensures answer { Reports (explain (S.files store.old) word.now) result }
    ensures same { S.files store.new ≡ S.files store.old }
    ensures counted { S.failures store.new ≡ S.failures store.old }
{
    match number_in(word.as_bytes()) {
        Some(number) => {
            let lines = on_number(alloc, number)?;
            Ok(Report {
                lines,
                found: false,
            })
        }
        None => on_file(alloc, word, store),
    }
}

/// What is printed on the file of this name or, if there is none, on the refusal of this name.
fn on_file<S: Store>(alloc: Global, name: &str, store: &mut S) -> Result<Report, Refusal>
    ensures ok { IfOk result (λ report. ExplainsWord (S.files store.old) name.now
        report.lines.items report.found) }
    ensures err { IfErr result (RefusesWord (S.files store.old) name.now) }
    ensures same { S.files store.new ≡ S.files store.old }
    ensures counted { S.failures store.new ≡ S.failures store.old }
{
    match load_file(alloc, name, store) {
        Ok(bytes) => Ok(on_bytes(alloc, &bytes)?),
        Err(refusal) if refusal.number() == Memory.number() => Err(refusal),
        Err(refusal) => match on_name(alloc, name)? {
            Some(lines) => Ok(Report {
                lines,
                found: false,
            }),
            None => Err(refusal),
        },
    }
}

/// The number that one or two digits spell.
fn number_in(word: &[u8]) -> Option<u8>
    ensures { result ≡ number_in word.now }
{
    match word {
        [digit] => two_digits_in(b'0', *digit),
        [tens, units] => two_digits_in(*tens, *units),
        _ => None,
    }
}

/// The number that two digits spell.
fn two_digits_in(tens: u8, units: u8) -> Option<u8>
    ensures { result ≡ two_digits_of tens units }
{
    if tens.is_ascii_digit() && units.is_ascii_digit() {
        Some((tens - b'0') * 10 + (units - b'0'))
    } else {
        None
    }
}

/// The line of an example of the refusals of a number and the words on it, or that there are none.
fn on_number(alloc: Global, number: u8) -> Result<Vec<u8>, Memory>
    ensures { IfOk result (λ text. ExplainsNumber number text.items) }
{
    match example(alloc, number)? {
        Some(refusal) => on_refusal(alloc, &refusal, b""),
        None => no_refusal(alloc, number),
    }
}

/// The line of a refusal, the words on it, and those on its place.
fn on_refusal(alloc: Global, refusal: &Refusal, place: &[u8]) -> Result<Vec<u8>, Memory>
    ensures { IfOk result (λ text. BeginsWith refusal.now text.items) }
{
    let line = refusal.line(alloc)?;
    with_words(alloc, line, refusal, place)
}

/// A line, and then the words on a refusal and on its place.
fn with_words(
    alloc: Global,
    line: Vec<u8>,
    refusal: &Refusal,
    place: &[u8],
) -> Result<Vec<u8>, Memory>
    ensures { IfOk result (λ text. HasWords line.items refusal.now text.items) }
{
    let mut text = line;
    let words = words_on(alloc, refusal.number(), refusal.name(), place)?;
    text.extend_from_slice(&words)?;
    Ok(text)
}

fn no_refusal(alloc: Global, number: u8) -> Result<Vec<u8>, Memory>
    ensures { IfOk result
        (λ text. text.items ≡ line (codes "no refusal has the number " ++ decimal number)) }
{
    let mut text = Vec::new(alloc);
    written(writeln!(text, "no refusal has the number {number}"))?;
    Ok(text)
}
