//! The mark of a leg that differs from another one, but has the same line.

ghost use Rattle.std.specs.Prelude.{◌≡◌, IfOk};
ghost use Rattle.ssim_listing.specs.Marks.{is_like, is_like_one, mark_text};

use crate::leg_text::text_of;
use ssim_schedule::PlacedLeg;
use ssim_values::Memory;
use std::alloc::Global;

/// The mark after the line of a leg, or nothing.
pub fn mark_of(marked: bool) -> &'static [u8]
    ensures { result.now ≡ mark_text marked }
{
    if marked { b" *" } else { b"" }
}

/// Whether one of the legs differs from this one, but has the same line.
pub fn is_like_one(alloc: Global, legs: &[PlacedLeg], leg: &PlacedLeg) -> Result<bool, Memory>
    ensures { IfOk result (λ like. like ≡ is_like_one legs.now leg.now) }
{
    for other in legs {
        if is_like(alloc, other, leg)? {
            return Ok(true);
        }
    }
    Ok(false)
}

/// Whether two legs differ, but have the same line.
pub fn is_like(alloc: Global, other: &PlacedLeg, leg: &PlacedLeg) -> Result<bool, Memory>
    ensures { IfOk result (λ like. like ≡ is_like other.now leg.now) }
{
    if other.same(leg) {
        return Ok(false);
    }
    let text = text_of(alloc, other)?;
    let own = text_of(alloc, leg)?;
    Ok(*text == *own)
}
