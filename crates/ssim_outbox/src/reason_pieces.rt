//! The periods of the dates of a flight that have the same reason.

ghost use Rattle.std.specs.Prelude.{◌≡◌, ℕ, List, IfOk, OnOk};
ghost use Rattle.ssim_periods.specs.Days.{each_day};
ghost use Rattle.ssim_outbox.specs.internal.ReasonPieces.{division, reason_put};

use crate::period_parts::{next_cut, part_of};
use crate::reason::UnsaidReason;
use ssim_base::StationRow;
use ssim_difference::Difference;
use ssim_periods::Periods;
use ssim_values::{Memory, Period};
use std::alloc::Global;

/// The canonical division of the dates on which a flight differs by the reasons why no messages make
/// its new itineraries, each period with its reason. The pieces are those of the flight's
/// difference.
pub(crate) fn reason_pieces(
    alloc: Global,
    rows: &[StationRow],
    pieces: &[(Period, Difference)],
) -> Result<Vec<(Period, UnsaidReason)>, Memory>
    ensures { IfOk result (λ found. found.items ≡ division rows.now pieces.now) }
{
    let mut reasons: Periods<UnsaidReason> = Periods::new(alloc);
    for piece in pieces {
        put_reasons(alloc, rows, &mut reasons, &piece.0, &piece.1)?;
    }
    reasons.pieces()
}

// Gives each day of a period its reason, in parts on which the UTC variations of the new legs stay
// the same, and so the reason.
fn put_reasons(
    alloc: Global,
    rows: &[StationRow],
    reasons: &mut Periods<UnsaidReason>,
    period: &Period,
    difference: &Difference,
) -> Result<(), Memory>
    ensures { (before : ℕ → List ℕ) → reasons.old.days ≡ each_day before → OnOk result
        (reasons.new.days ≡ each_day (reason_put rows.now (period.now, difference.now) before)) }
{
    let end = period.last().number() + 1;
    let mut first = period.first().number();
    while first < end {
        let next = next_cut(rows, difference.new.legs(), first, end);
        let part = part_of(period, first, next);
        let reason = UnsaidReason::of(alloc, rows, part.first(), difference)?;
        reasons.replace(&part, &reason)?;
        first = next;
    }
    Ok(())
}
