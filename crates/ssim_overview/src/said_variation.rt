//! The UTC variation that most of several sayings say.

ghost use Rattle.std.specs.Prelude.{◌≡◌, IfOk, filter};
ghost use Rattle.ssim_overview.specs.SaidRows.{beats, comes_before, is_same, most, said, votes};
ghost use Rattle.ssim_overview.specs.internal.SaidRows.{better};

use crate::sayings::Saying;
use ssim_values::{Memory, Variation};
use std::alloc::Global;

/// What counts of these sayings about one station on one date.
pub(crate) fn said(alloc: Global, sayings: &[Saying]) -> Result<Option<Variation>, Memory>
    ensures { IfOk result (λ variation. variation ≡ said sayings.now) }
{
    let own = own(alloc, sayings)?;
    match most(&own) {
        Some(variation) => Ok(Some(variation)),
        None => Ok(most(sayings)),
    }
}

// The sayings of ends that are on the date of origin.
fn own(alloc: Global, sayings: &[Saying]) -> Result<Vec<Saying>, Memory>
    ensures { IfOk result (λ own. own.items ≡ filter (λ s. s.is_own) sayings.now) }
{
    let mut own = Vec::new(alloc);
    for saying in sayings {
        if saying.is_own {
            own.push(*saying)?;
        }
    }
    Ok(own)
}

// The variation that is said most often, of several the first by bytes.
fn most(sayings: &[Saying]) -> Option<Variation>
    ensures { result ≡ most sayings.now }
{
    let mut best = None;
    for saying in sayings {
        best = better(sayings, saying.variation, best);
    }
    best
}

// The better of a variation and another one, if there is another one.
fn better(sayings: &[Saying], variation: Variation, other: Option<Variation>) -> Option<Variation>
    ensures { result ≡ better sayings.now variation other }
{
    match other {
        None => Some(variation),
        Some(other) => {
            if !is_same(variation, other) && beats(sayings, variation, other) {
                Some(variation)
            } else {
                Some(other)
            }
        }
    }
}

// Whether a variation is said more often than another one, or as often and comes before it.
fn beats(sayings: &[Saying], variation: Variation, other: Variation) -> bool
    ensures { result ≡ beats sayings.now variation other }
{
    let often = votes(sayings, variation);
    let other_often = votes(sayings, other);
    often > other_often || often == other_often && comes_before(variation, other)
}

// How many say a variation.
fn votes(sayings: &[Saying], variation: Variation) -> usize
    ensures { result ≡ votes sayings.now variation }
{
    let mut count = 0;
    for saying in sayings {
        if is_same(saying.variation, variation) {
            count += 1;
        }
    }
    count
}

// Whether two variations have the same sign and the same minutes.
pub(crate) fn is_same(one: Variation, other: Variation) -> bool
    ensures { result ≡ is_same one other }
{
    one.is_negative() == other.is_negative() && one.minutes() == other.minutes()
}

// Whether a variation comes before another one in order of bytes.
fn comes_before(one: Variation, other: Variation) -> bool
    ensures { result ≡ comes_before one other }
{
    if one.is_negative() == other.is_negative() {
        one.minutes() < other.minutes()
    } else {
        other.is_negative()
    }
}
