//! The whole page.

ghost use Rattle.std.specs.Prelude.{◌≡◌, ◌++◌, IfOk, OnOk};
ghost use Rattle.ssim_page.specs.Page.{bar, document_end, document_title, look, script};
ghost use Rattle.ssim_page.specs.Page.{shown_title, timetable_script, view_script, whole_page};

use crate::change::push_changes;
use crate::heading::{PageHeading, push_title};
use crate::look::bar::BAR;
use crate::look::style::LOOK;
use crate::look::timetable_script::TIMETABLE_SCRIPT;
use crate::look::view_script::VIEW_SCRIPT;
use crate::message::push_messages;
use crate::timetable::push_timetable;
use ssim_difference::FlightDifference;
use ssim_schedule::FlightPieces;
use ssim_values::Memory;
use std::alloc::Global;

/// The page of the flights of an airline: an article for each flight, in order, with the legs of
/// its different itineraries and its periods; then an article for each period on which flights differ
/// from an earlier timetable; and then the articles of messages, which [`push_message`] made.
///
/// [`push_message`]: crate::push_message
#[tactic(auto, unfolding(crate::specs::Page::whole_page))]
pub fn page_of(
    alloc: Global,
    heading: &PageHeading,
    flights: &[FlightPieces],
    changes: &[FlightDifference],
    messages: &[u8],
) -> Result<Vec<u8>, Memory>
    ensures { IfOk result (λ page. page.items
        ≡ whole_page heading.now flights.now changes.now messages.now) }
{
    let mut page = Vec::new(alloc);
    push_document_title(&mut page, heading)?;
    push_look(&mut page)?;
    push_shown_title(&mut page, heading)?;
    push_bar(&mut page)?;
    push_timetable(alloc, &mut page, heading.airline, flights)?;
    push_changes(alloc, &mut page, heading.airline, changes)?;
    push_messages(&mut page, messages)?;
    push_script(&mut page)?;
    push_end(&mut page)?;
    Ok(page)
}

// Adds the title of the document.
#[tactic(auto, unfolding(crate::specs::Page::document_title))]
fn push_document_title(page: &mut Vec<u8>, heading: &PageHeading) -> Result<(), Memory>
    ensures { OnOk result (page.new.items ≡ page.old.items ++ document_title heading.now) }
{
    page.extend_from_slice(
        b"<!DOCTYPE html>\n<html lang=\"en\">\n<head>\n<meta charset=\"utf-8\">\n\
        <meta name=\"viewport\" content=\"width=device-width\">\n<title>",
    )?;
    push_title(page, heading)?;
    page.extend_from_slice(b"</title>\n")?;
    Ok(())
}

// Adds the style.
#[tactic(auto, unfolding(crate::specs::Page::look))]
fn push_look(page: &mut Vec<u8>) -> Result<(), Memory>
    ensures { OnOk result (page.new.items ≡ page.old.items ++ look) }
{
    page.extend_from_slice(LOOK)?;
    Ok(())
}

// Adds the same as the first line that is shown.
#[tactic(auto, unfolding(crate::specs::Page::shown_title))]
fn push_shown_title(page: &mut Vec<u8>, heading: &PageHeading) -> Result<(), Memory>
    ensures { OnOk result (page.new.items ≡ page.old.items ++ shown_title heading.now) }
{
    page.extend_from_slice(b"</head>\n<body>\n<header><h1>")?;
    push_title(page, heading)?;
    page.extend_from_slice(b"</h1>\n")?;
    Ok(())
}

// Adds the links of the views and the search form.
#[tactic(auto, unfolding(crate::specs::Page::bar))]
fn push_bar(page: &mut Vec<u8>) -> Result<(), Memory>
    ensures { OnOk result (page.new.items ≡ page.old.items ++ bar) }
{
    page.extend_from_slice(BAR)?;
    Ok(())
}

// Adds the script.
fn push_script(page: &mut Vec<u8>) -> Result<(), Memory>
    ensures { OnOk result (page.new.items ≡ page.old.items ++ script) }
{
    push_timetable_script(page)?;
    push_view_script(page)
}

// Adds the first part of the script.
#[tactic(auto, unfolding(crate::specs::Page::timetable_script))]
fn push_timetable_script(page: &mut Vec<u8>) -> Result<(), Memory>
    ensures { OnOk result (page.new.items ≡ page.old.items ++ timetable_script) }
{
    page.extend_from_slice(TIMETABLE_SCRIPT)?;
    Ok(())
}

// Adds the second part of the script.
#[tactic(auto, unfolding(crate::specs::Page::view_script))]
fn push_view_script(page: &mut Vec<u8>) -> Result<(), Memory>
    ensures { OnOk result (page.new.items ≡ page.old.items ++ view_script) }
{
    page.extend_from_slice(VIEW_SCRIPT)?;
    Ok(())
}

// Adds the end of the document.
#[tactic(auto, unfolding(crate::specs::Page::document_end))]
fn push_end(page: &mut Vec<u8>) -> Result<(), Memory>
    ensures { OnOk result (page.new.items ≡ page.old.items ++ document_end) }
{
    page.extend_from_slice(b"</body>\n</html>\n")?;
    Ok(())
}
