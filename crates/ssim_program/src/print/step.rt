//! What each sub-message of a desk did with a flight on a date.

ghost use Rattle.std.specs.Prelude.{◌≡◌, ◌++◌, IfOk, OnOk};
ghost use Rattle.ssim_base.specs.Export.{line};
ghost use Rattle.ssim_listing.specs.Marks.{marked_line};
ghost use Rattle.ssim_program.specs.print.Shown.{history_lines, indented_lines, legs_after};
ghost use Rattle.ssim_program.specs.print.Shown.{reason_word, step_lines, step_text};

use crate::print::legs::push_heading;
use ssim_desk::{DateHistory, DateStep};
use ssim_lines::{Printed, push_each, written};
use ssim_listing::{is_like_one, mark_of, push_leg_text};
use ssim_schedule::{PlacedLeg, Reason};
use ssim_values::{Day, Designator, Memory};
use std::alloc::Global;
use std::io::Write;

/// The legs before a sub-message, from which the legs after it may differ.
#[derive(Clone, Copy)]
struct Before<'a> {
    alloc: Global,
    before: &'a [PlacedLeg],
}

/// The flight and the date, the legs in the data set, and the lines of each sub-message.
pub(crate) fn lines_of(
    alloc: Global,
    designator: Designator,
    day: Day,
    history: &DateHistory,
) -> Result<Vec<u8>, Memory>
    ensures { IfOk result (λ lines. lines.items
        ≡ history_lines designator day history.now.first history.now.steps.items) }
{
    let mut lines = Vec::new(alloc);
    push_heading(&mut lines, designator, day)?;
    lines.extend_from_slice(b"data set\n")?;
    push_legs(alloc, &mut lines, &[], history.first.legs())?;
    push_steps(alloc, &mut lines, history.first.legs(), &history.steps)?;
    Ok(lines)
}

/// Adds the lines of sub-messages. `before` are the legs before the first.
fn push_steps(
    alloc: Global,
    lines: &mut Vec<u8>,
    before: &[PlacedLeg],
    steps: &[DateStep],
) -> Result<(), Memory>
    ensures { OnOk result (lines.new.items ≡ lines.old.items ++ step_lines before.now steps.now) }
{
    let mut before = before;
    for step in steps {
        push_step(alloc, lines, before, step)?;
        before = step.itinerary.legs();
    }
    Ok(())
}

/// Adds the line of a sub-message and, if it acted, the legs after it.
fn push_step(
    alloc: Global,
    lines: &mut Vec<u8>,
    before: &[PlacedLeg],
    step: &DateStep,
) -> Result<(), Memory>
    ensures { OnOk result (lines.new.items ≡ lines.old.items ++ line (step_text step.now)
        ++ legs_after before.now step.now) }
{
    push_step_text(lines, step)?;
    if step.reason == Reason::Acted {
        push_legs(alloc, lines, before, step.itinerary.legs())?;
    }
    Ok(())
}

/// Adds the reference, the number of the sub-message, its action, and what it found.
fn push_step_text(lines: &mut Vec<u8>, step: &DateStep) -> Result<(), Memory>
    ensures { OnOk result (lines.new.items ≡ lines.old.items ++ line (step_text step.now)) }
{
    let reference = step.reference;
    let sub = step.sub;
    let action = step.action;
    let found = word_of(step.reason);
    written(writeln!(lines, "{reference} {sub} {action} {found}"))
}

/// What a sub-message found, in a word of `findings`.
pub(crate) fn word_of(reason: Reason) -> &'static str
    ensures { result.now ≡ reason_word reason }
{
    match reason {
        Reason::Acted => "acted",
        Reason::Absent => "absent",
        Reason::Present => "present",
        Reason::Leg => "leg",
        Reason::Station => "station",
    }
}

/// Adds a line for each leg, two blanks before it, or `no flight`. A leg is marked if one of the
/// legs before differs from it, but has the same line.
fn push_legs(
    alloc: Global,
    lines: &mut Vec<u8>,
    before: &[PlacedLeg],
    legs: &[PlacedLeg],
) -> Result<(), Memory>
    ensures { OnOk result (lines.new.items
        ≡ lines.old.items ++ indented_lines before.now legs.now) }
{
    match legs.split_first() {
        None => {
            lines.extend_from_slice(b"  no flight\n")?;
            Ok(())
        }
        Some(_) => push_each(lines, &Before { alloc, before }, legs),
    }
}

impl Printed<Before<'_>> for PlacedLeg {
    ghost text = { λ context leg. marked_line context.before.now leg };

    /// Adds the line of a leg, two blanks before it, and its mark.
    fn print(&self, context: &Before<'_>, lines: &mut Vec<u8>) -> Result<(), Memory> {
        let marked = is_like_one(context.alloc, context.before, self)?;
        lines.extend_from_slice(b"  ")?;
        push_leg_text(lines, self)?;
        lines.extend_from_slice(mark_of(marked))?;
        lines.push(b'\n')?;
        Ok(())
    }
}
