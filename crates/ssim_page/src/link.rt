//! Links of the page.

ghost use Rattle.std.specs.Prelude.{◌≡◌, ◌++◌, ◌∷◌, OnOk};
ghost use Rattle.ssim_listing.specs.Lines.{period_text};
ghost use Rattle.ssim_page.specs.Link.{dated_link, flight_link};

use crate::timetable::push_days;
use ssim_listing::push_shown;
use ssim_values::{Memory, Period};

/// Adds a link to a flight, and a period.
#[tactic(auto, unfolding(crate::specs::Link::dated_link))]
pub(crate) fn push_dated_link(page: &mut Vec<u8>, name: &[u8], period: Period) -> Result<(), Memory>
    ensures { OnOk result (page.new.items ≡ page.old.items ++ dated_link name.now period) }
{
    push_flight_link(page, name)?;
    push_period(page, period)
}

// Adds a link to the article of the flight with this name.
#[tactic(auto, unfolding(crate::specs::Link::flight_link))]
fn push_flight_link(page: &mut Vec<u8>, name: &[u8]) -> Result<(), Memory>
    ensures { OnOk result (page.new.items ≡ page.old.items ++ flight_link name.now) }
{
    page.extend_from_slice(b"<a href=\"#")?;
    page.extend_from_slice(name)?;
    page.extend_from_slice(b"\">")?;
    page.extend_from_slice(name)?;
    page.extend_from_slice(b"</a>")?;
    Ok(())
}

// Adds a blank and a period.
fn push_period(page: &mut Vec<u8>, period: Period) -> Result<(), Memory>
    ensures { OnOk result (page.new.items ≡ page.old.items ++ 32 ∷ period_text period) }
{
    push_days(page, Some((period.first(), period.last())))?;
    push_shown(page, &period.mask().write())
}
