//! The changes on the page: the periods on which flights differ from an earlier timetable.

ghost use Rattle.std.specs.Prelude.{◌≡◌, ◌++◌, IfOk, OnOk};
ghost use Rattle.std.specs.List.{flat_map};
ghost use Rattle.ssim_difference.specs.Lines.{difference_legs};
ghost use Rattle.ssim_listing.specs.Lines.{flight_name};
ghost use Rattle.ssim_page.specs.Changes.{change, change_articles, change_lines};
ghost use Rattle.ssim_page.specs.Changes.{change_section, change_title, changes};

use crate::html::push_escaped;
use crate::link::push_dated_link;
use ssim_difference::{Difference, FlightDifference, push_difference};
use ssim_lines::{Printed, push_each};
use ssim_listing::name_of;
use ssim_values::{Airline, Memory, Period};
use std::alloc::Global;

/// The changes of an airline's flights.
#[derive(Clone, Copy)]
struct Changes {
    alloc: Global,
    airline: Airline,
}

/// The name of a flight with changes.
#[derive(Clone, Copy)]
struct NamedChanges<'a> {
    alloc: Global,
    name: &'a [u8],
}

/// Adds the changes of an airline's flights; nothing if no flight differs.
pub(crate) fn push_changes(
    alloc: Global,
    page: &mut Vec<u8>,
    airline: Airline,
    flights: &[FlightDifference],
) -> Result<(), Memory>
    ensures { OnOk result (page.new.items ≡ page.old.items ++ changes airline flights.now) }
{
    match flights.split_first() {
        None => Ok(()),
        Some(_) => push_section(alloc, page, airline, flights),
    }
}

// Adds the section of the changes.
#[tactic(auto, unfolding(crate::specs::Changes::change_section))]
fn push_section(
    alloc: Global,
    page: &mut Vec<u8>,
    airline: Airline,
    flights: &[FlightDifference],
) -> Result<(), Memory>
    ensures { OnOk result
        (page.new.items ≡ page.old.items ++ change_section airline flights.now) }
{
    page.extend_from_slice(b"<section id=\"changes\"><h2>Changes</h2>\n")?;
    push_articles(alloc, page, airline, flights)?;
    page.extend_from_slice(b"</section>\n")?;
    Ok(())
}

// Adds the articles of the changes.
fn push_articles(
    alloc: Global,
    page: &mut Vec<u8>,
    airline: Airline,
    flights: &[FlightDifference],
) -> Result<(), Memory>
    ensures { OnOk result
        (page.new.items ≡ page.old.items ++ change_articles airline flights.now) }
{
    push_each(page, &Changes { alloc, airline }, flights)
}

impl Printed<Changes> for FlightDifference {
    ghost text = { λ changes flight.
        flat_map (change (flight_name changes.airline flight.0)) flight.1 };

    // Adds the changes of a flight.
    fn print(&self, changes: &Changes, page: &mut Vec<u8>) -> Result<(), Memory> {
        let name = name_of(changes.airline, self.flight());
        let named = NamedChanges {
            alloc: changes.alloc,
            name: name.as_slice(),
        };
        push_each(page, &named, self.pieces())
    }
}

impl Printed<NamedChanges<'_>> for (Period, Difference) {
    ghost text = { λ named piece. change named.name.now piece };

    // Adds a change.
    fn print(&self, named: &NamedChanges<'_>, page: &mut Vec<u8>) -> Result<(), Memory> {
        push_change(named.alloc, page, named.name, self)
    }
}

// Adds the article of a period on which the flight with this name differs.
#[tactic(auto, unfolding(crate::specs::Changes::change))]
fn push_change(
    alloc: Global,
    page: &mut Vec<u8>,
    name: &[u8],
    piece: &(Period, Difference),
) -> Result<(), Memory>
    ensures { OnOk result (page.new.items ≡ page.old.items ++ change name.now piece.now) }
{
    push_title(page, name, piece.0)?;
    push_lines(alloc, page, &piece.1)?;
    page.extend_from_slice(b"</pre></article>\n")?;
    Ok(())
}

// Adds the begin of a change.
#[tactic(auto, unfolding(crate::specs::Changes::change_title))]
fn push_title(page: &mut Vec<u8>, name: &[u8], period: Period) -> Result<(), Memory>
    ensures { OnOk result (page.new.items ≡ page.old.items ++ change_title name.now period) }
{
    page.extend_from_slice(b"<article><h3>")?;
    push_dated_link(page, name, period)?;
    page.extend_from_slice(b"</h3><pre>\n")?;
    Ok(())
}

// Adds the lines of the old and the new itinerary.
#[tactic(auto, unfolding(crate::specs::Changes::change_lines))]
fn push_lines(alloc: Global, page: &mut Vec<u8>, difference: &Difference) -> Result<(), Memory>
    ensures { OnOk result (page.new.items ≡ page.old.items ++ change_lines difference.now) }
{
    let lines = lines_of(alloc, difference)?;
    push_escaped(page, &lines)
}

// The lines of the old and the new itinerary, before they are escaped.
fn lines_of(alloc: Global, difference: &Difference) -> Result<Vec<u8>, Memory>
    ensures { IfOk result (λ lines. lines.items ≡ difference_legs difference.now) }
{
    let mut lines = Vec::new(alloc);
    push_difference(alloc, &mut lines, difference)?;
    Ok(lines)
}
