//! What the page is of.

ghost use Rattle.std.specs.Prelude.{◌≡◌, ◌++◌, OnOk, codes};
ghost use Rattle.ssim_values.specs.Airline.{airline_text};
ghost use Rattle.ssim_page.specs.Page.{mode_text, title};

use crate::html::Html;
use ssim_lines::{push_each, written};
use ssim_values::{Airline, Memory, TimeMode};
use std::io::Write;

/// What the page is of: its title.
#[derive(Clone, Copy, Debug)]
pub struct PageHeading {
    pub airline: Airline,
    /// Columns 11 to 13 of the carrier record.
    pub season: [u8; 3],
    pub time_mode: TimeMode,
}

/// Adds the airline, the season and the time mode.
#[tactic(auto, unfolding(crate::specs::Page::title))]
pub(crate) fn push_title(page: &mut Vec<u8>, heading: &PageHeading) -> Result<(), Memory>
    ensures { OnOk result (page.new.items ≡ page.old.items ++ title heading.now) }
{
    push_airline(page, heading.airline)?;
    push_each(page, &Html, &heading.season)?;
    page.extend_from_slice(b", ")?;
    page.extend_from_slice(mode_text(heading.time_mode))?;
    Ok(())
}

// Adds an airline without its blank column, and a blank.
fn push_airline(page: &mut Vec<u8>, airline: Airline) -> Result<(), Memory>
    ensures { OnOk result (page.new.items ≡ page.old.items ++ (airline_text airline ++ codes " ")) }
{
    written(write!(page, "{airline} "))
}

// What the times of a time mode are.
fn mode_text(mode: TimeMode) -> &'static [u8]
    ensures { result.now ≡ mode_text mode }
{
    match mode {
        TimeMode::Utc => b"UTC",
        TimeMode::Local => b"local times",
    }
}
