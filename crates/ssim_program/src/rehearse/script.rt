//! Desk scripts: how many desks there are, and the steps that they try.

ghost use Rattle.std.specs.Prelude.{◌≡◌, ◌<◌, ◌≤◌, All, IfErr, IfOk, IfSome, Some, map, option_map};
ghost use Rattle.ssim_program.specs.rehearse.Script.{RefusesScript, SpellsScript, count_in};
ghost use Rattle.ssim_program.specs.rehearse.Script.{desk_in, merge_in, name_in, step_in, take_in};
ghost use Rattle.ssim_program.specs.internal.Rehearse.{IsOtherLine, IsStepOf, as_written};
ghost use Rattle.ssim_program.specs.internal.Rehearse.{script_of};

use crate::refusal::Refusal;
use crate::word::is_word;
use ssim_text::{Line, first_word, lines_left};
use std::alloc::Global;

/// A step of a script. Desks are counted from 0.
#[derive(Clone, Copy, Debug)]
pub(crate) enum Written<'s> {
    /// The desk takes the text in the file of this name.
    Take(usize, &'s str),
    /// The first desk takes over what the second holds.
    Merge(usize, usize),
}

/// A desk script.
#[derive(Drop)]
pub(crate) struct Script<'s> {
    /// How many desks there are, 1 to 9.
    pub count: usize,
    pub steps: Vec<Written<'s>>,
}

// ---- a line

/// One digit from 1 up to `count` names a desk.
fn desk_in(count: usize, text: &[u8]) -> Option<usize>
    requires { count ≤ 9 }
    ensures value { result ≡ desk_in count text.now }
    ensures below { IfSome result (λ desk. desk < count) }
{
    match text {
        [digit] => {
            if 49 <= *digit && (*digit as usize) < 49 + count {
                Some((*digit - 49) as usize)
            } else {
                None
            }
        }
        _ => None,
    }
}

/// `DESKS n`: the number of desks.
fn count_in(line: &[u8]) -> Option<usize>
    ensures value { result ≡ count_in line.now }
    ensures least { IfSome result (λ count. 0 < count) }
    ensures most { IfSome result (λ count. count ≤ 9) }
{
    let (word, rest) = first_word(line);
    if !is_word(word, b"DESKS") {
        return None;
    }
    match desk_in(9, rest) {
        Some(last) => Some(last + 1),
        None => None,
    }
}

/// The name of a file.
fn name_in<'s>(text: &'s [u8]) -> Option<&'s str>
    ensures { option_map (λ name. name.now) result ≡ name_in text.now }
{
    if text.is_empty() || text.contains(&b' ') {
        return None;
    }
    match str::from_utf8(text) {
        Ok(name) => Some(name),
        Err(_) => None,
    }
}

/// `TAKE d NAME`, without its first word.
fn take_in<'s>(count: usize, rest: &'s [u8]) -> Option<Written<'s>>
    requires { count ≤ 9 }
    ensures value { option_map as_written result ≡ take_in count rest.now }
    ensures below { IfSome result (λ step. IsStepOf count (as_written step)) }
{
    let (desk, name) = first_word(rest);
    let desk = desk_in(count, desk)?;
    let name = name_in(name)?;
    Some(Written::Take(desk, name))
}

/// `MERGE d e`, without its first word.
fn merge_in<'s>(count: usize, rest: &'s [u8]) -> Option<Written<'s>>
    requires { count ≤ 9 }
    ensures value { option_map as_written result ≡ merge_in count rest.now }
    ensures below { IfSome result (λ step. IsStepOf count (as_written step)) }
{
    let (into, from) = first_word(rest);
    let into = desk_in(count, into)?;
    let from = desk_in(count, from)?;
    Some(Written::Merge(into, from))
}

/// The step that a line spells.
fn step_in<'s>(count: usize, line: &'s [u8]) -> Option<Written<'s>>
    requires { count ≤ 9 }
    ensures value { option_map as_written result ≡ step_in count line.now }
    ensures below { IfSome result (λ step. IsStepOf count (as_written step)) }
{
    let (word, rest) = first_word(line);
    if is_word(word, b"TAKE") {
        return take_in(count, rest);
    }
    if is_word(word, b"MERGE") {
        return merge_in(count, rest);
    }
    None
}

// ---- the lines

/// The steps that lines spell.
fn read_steps<'s>(
    alloc: Global,
    count: usize,
    lines: &[Line<'s>],
) -> Result<Vec<Written<'s>>, Refusal>
    requires { count ≤ 9 }
    ensures ok { IfOk result (λ steps. map (λ l. step_in count l.bytes.now) lines.now
        ≡ map (λ step. Some (as_written step)) steps.items) }
    ensures below { IfOk result
        (λ steps. All (λ step. IsStepOf count (as_written step)) steps.items) }
    ensures err { IfErr result (IsOtherLine count (map (λ l. (l.number, l.bytes.now)) lines.now)) }
{
    let mut steps = Vec::new(alloc);
    for line in lines {
        match step_in(count, line.bytes) {
            Some(step) => steps.push(step)?,
            None => {
                return Err(Refusal::Script {
                    line: line.number as u64,
                });
            }
        }
    }
    Ok(steps)
}

impl<'s> Script<'s> {
    /// Reads a script. CR bytes and blanks at line ends are dropped, and then empty lines. The
    /// first line that is left is `DESKS n`, n from 1 to 9; each other is `TAKE d NAME` or `MERGE d
    /// e`, with desks from 1 to n and one or more blanks between the parts.
    ///
    /// 63 `Script` names the first line that is not spelled so, by its number among all lines, from
    /// 1; line 1 if no line is left.
    pub(crate) fn read(alloc: Global, text: &'s [u8]) -> Result<Script<'s>, Refusal>
        ensures ok { IfOk result (λ script. SpellsScript (script_of script) text.now) }
        ensures least { IfOk result (λ script. 0 < script.count) }
        ensures most { IfOk result (λ script. script.count ≤ 9) }
        ensures below { IfOk result
            (λ script. All (λ step. IsStepOf script.count (as_written step)) script.steps.items) }
        ensures err { IfErr result (RefusesScript text.now) }
    {
        let lines = lines_left(alloc, text)?;
        let Some((first, others)) = lines.split_first() else {
            return Err(Refusal::Script { line: 1 });
        };
        let Some(count) = count_in(first.bytes) else {
            return Err(Refusal::Script {
                line: first.number as u64,
            });
        };
        let steps = read_steps(alloc, count, others)?;
        Ok(Script { count, steps })
    }
}
