//! The new legs of `NEW` and `RPL` that whole itineraries have.

ghost use Rattle.std.specs.Prelude.{◌≡◌, ◌++◌, ◌∷◌, [], List, Some, IfOk, IfSome, OnOk};
ghost use Rattle.std.specs.List.{AllByRecursion, AllZip, flat_map};
ghost use Rattle.ssim_text.specs.Grammar.{IsLegLine, IsSegmentLine};
ghost use Rattle.ssim_text.specs.declared.action.NewLegs.{NewLegs};
ghost use Rattle.ssim_text.specs.declared.leg.LegLine.{LegLine};
ghost use Rattle.ssim_text.specs.declared.segment.SegmentLine.{SegmentLine};
ghost use Rattle.ssim_outbox.specs.Sayable.{AreNewLegs};
ghost use Rattle.ssim_outbox.specs.internal.ColumnLines.{HasLine, HasSegment, HaveLines};

use crate::column_lines::{equipment_of, leg_line_of, segment_line_of};
use ssim_records::{LegColumns, SegmentTail};
use ssim_schedule::PlacedLeg;
use ssim_text::{LegLine, NewLegs, SegmentLine};
use ssim_values::Memory;
use std::alloc::Global;

/// The new legs of `NEW` or `RPL` with the equipment of the first of these legs, their leg lines, and
/// the segment lines of their tails, if the grammar allows them. Legs and tails that no line can
/// spell have none.
pub(crate) fn new_legs(alloc: Global, legs: &[PlacedLeg]) -> Result<Option<NewLegs>, Memory>
    ensures are { IfOk result (λ made. IfSome made AreNewLegs) }
    ensures found { (new : NewLegs) → AreNewLegs new → HaveLines new legs.now
        → IfOk result (λ made. made ≡ Some new) }
{
    let Some((first, _)) = legs.split_first() else {
        return Ok(None);
    };
    let Some(equipment) = equipment_of(&first.columns()) else {
        return Ok(None);
    };
    let lines = leg_lines(alloc, legs)?;
    let segments = segment_lines(alloc, legs)?;
    Ok(NewLegs::new(alloc, equipment, &lines, segments)?)
}

// The leg lines of legs.
fn leg_lines(alloc: Global, legs: &[PlacedLeg]) -> Result<Vec<LegLine>, Memory>
    ensures are { IfOk result (λ lines. AllByRecursion IsLegLine lines.items) }
    ensures found { (all : List LegLine) → AllZip (λ line leg. HasLine line leg.columns) all legs.now
        → IfOk result (λ lines. lines.items ≡ all) }
{
    let mut lines = Vec::new(alloc);
    for leg in legs {
        push_leg_line(&mut lines, &leg.columns())?;
    }
    Ok(lines)
}

/// Adds the leg line of a leg with these columns, if a line can spell it.
pub(crate) fn push_leg_line(lines: &mut Vec<LegLine>, columns: &LegColumns) -> Result<(), Memory>
    requires { AllByRecursion IsLegLine lines.old.items }
    ensures are { OnOk result (AllByRecursion IsLegLine lines.new.items) }
    ensures found { (line : LegLine) → HasLine line columns.now
        → OnOk result (lines.new.items ≡ lines.old.items ++ line ∷ []) }
{
    match leg_line_of(columns) {
        None => Ok(()),
        Some(line) => {
            lines.push(line)?;
            Ok(())
        }
    }
}

// The segment lines of the tails of legs, one leg after another.
fn segment_lines(alloc: Global, legs: &[PlacedLeg]) -> Result<Vec<SegmentLine>, Memory>
    ensures are { IfOk result (λ segments. AllByRecursion IsSegmentLine segments.items) }
    ensures found { (all : List (List SegmentLine))
        → AllZip (λ own leg. AllZip HasSegment own leg.tails) all legs.now
        → IfOk result (λ segments. segments.items ≡ flat_map (λ own. own) all) }
{
    let mut segments = Vec::new(alloc);
    for leg in legs {
        push_segment_lines(alloc, &mut segments, leg.tails())?;
    }
    Ok(segments)
}

// Adds the segment lines of the tails of a leg.
fn push_segment_lines(
    alloc: Global,
    segments: &mut Vec<SegmentLine>,
    tails: &[SegmentTail],
) -> Result<(), Memory>
    requires { AllByRecursion IsSegmentLine segments.old.items }
    ensures are { OnOk result (AllByRecursion IsSegmentLine segments.new.items) }
    ensures found { (own : List SegmentLine) → AllZip HasSegment own tails.now
        → OnOk result (segments.new.items ≡ segments.old.items ++ own) }
{
    for tail in tails {
        push_segment_line(alloc, segments, tail)?;
    }
    Ok(())
}

// Adds the segment line that gives a tail, if a line can spell it.
fn push_segment_line(
    alloc: Global,
    segments: &mut Vec<SegmentLine>,
    tail: &SegmentTail,
) -> Result<(), Memory>
    requires { AllByRecursion IsSegmentLine segments.old.items }
    ensures are { OnOk result (AllByRecursion IsSegmentLine segments.new.items) }
    ensures found { (segment : SegmentLine) → HasSegment segment tail.now
        → OnOk result (segments.new.items ≡ segments.old.items ++ segment ∷ []) }
{
    match segment_line_of(alloc, tail)? {
        None => Ok(()),
        Some(segment) => {
            segments.push(segment)?;
            Ok(())
        }
    }
}
