//! A flight on a date.

ghost use Rattle.std.specs.Prelude.{◌≡◌, ◌++◌, ◌∷◌, IfOk, OnOk};
ghost use Rattle.ssim_base.specs.Export.{line};
ghost use Rattle.ssim_values.specs.Day.{day_text};
ghost use Rattle.ssim_values.specs.Designator.{designator_text};
ghost use Rattle.ssim_program.specs.print.Shown.{leg_line, shown_flight};

use crate::print::AsLine;
use ssim_lines::{Printed, push_each};
use ssim_listing::push_leg_text;
use ssim_schedule::PlacedLeg;
use ssim_values::{Day, Designator, Memory};
use std::alloc::Global;

/// The flight and the date, then a line for each leg, or `no flight`.
pub(crate) fn lines_of(
    alloc: Global,
    designator: Designator,
    day: Day,
    legs: &[PlacedLeg],
) -> Result<Vec<u8>, Memory>
    ensures { IfOk result (λ lines. lines.items ≡ shown_flight designator day legs.now) }
{
    let mut lines = Vec::new(alloc);
    push_heading(&mut lines, designator, day)?;
    if legs.is_empty() {
        lines.extend_from_slice(b"no flight\n")?;
    }
    push_each(&mut lines, &AsLine, legs)?;
    Ok(lines)
}

/// Adds the line of the flight and the date.
pub(crate) fn push_heading(
    lines: &mut Vec<u8>,
    designator: Designator,
    day: Day,
) -> Result<(), Memory>
    ensures { OnOk result (lines.new.items
        ≡ lines.old.items ++ line (designator_text designator ++ 32 ∷ day_text day)) }
{
    lines.extend_from_slice(designator.write().as_slice())?;
    lines.push(b' ')?;
    lines.extend_from_slice(&day.write())?;
    lines.push(b'\n')?;
    Ok(())
}

impl Printed<AsLine> for PlacedLeg {
    ghost text = { λ _ leg. leg_line leg };

    fn print(&self, _line: &AsLine, lines: &mut Vec<u8>) -> Result<(), Memory> {
        push_leg_text(lines, self)?;
        lines.push(b'\n')?;
        Ok(())
    }
}
