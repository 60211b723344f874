//! A flight on the page: the legs of its different itineraries, and its periods.

ghost use Rattle.std.specs.Prelude.{◌≡◌, ◌++◌, OnOk};
ghost use Rattle.std.specs.List.{flat_map};
ghost use Rattle.ssim_listing.specs.clauses.Groups.{group_in, is_mixed};
ghost use Rattle.ssim_page.specs.Flight.{article, article_title, flight_lines, key_of};
ghost use Rattle.ssim_page.specs.Flight.{lines_among, piece_line};
ghost use Rattle.ssim_page.specs.internal.RowLines.{row_line, row_lines};

use crate::key::{itineraries, key_of};
use crate::leg_row::{push_row, row_groups};
use ssim_calendar::DistinctValues;
use ssim_lines::{Printed, push_each};
use ssim_listing::{LegGroups, are_mixed, mark_of, push_period};
use ssim_schedule::{Itinerary, PlacedLeg};
use ssim_values::{Memory, Period};
use std::alloc::Global;

/// The different itineraries of a flight, by which its lines have their keys, and the groups of their
/// legs by row, by which these are marked.
#[derive(Clone, Copy)]
struct KeyedFlight<'a, 'b> {
    alloc: Global,
    found: &'b DistinctValues<'a, Itinerary>,
    groups: &'b LegGroups<'a>,
}

/// The key of an itinerary, and the groups of the legs of its flight.
#[derive(Clone, Copy)]
struct KeyedLegs<'a, 'b, 'c> {
    alloc: Global,
    key: &'c [u8],
    groups: &'b LegGroups<'a>,
}

/// Adds the article of a flight with this name.
#[tactic(auto, unfolding(crate::specs::Flight::article))]
pub(crate) fn push_article(
    alloc: Global,
    page: &mut Vec<u8>,
    name: &[u8],
    pieces: &[(Period, Itinerary)],
) -> Result<(), Memory>
    ensures { OnOk result (page.new.items ≡ page.old.items ++ article name.now pieces.now) }
{
    push_article_title(page, name)?;
    push_lines(alloc, page, pieces)?;
    page.extend_from_slice(b"</pre></article>\n")?;
    Ok(())
}

// Adds the begin of the article of a flight.
#[tactic(auto, unfolding(crate::specs::Flight::article_title))]
fn push_article_title(page: &mut Vec<u8>, name: &[u8]) -> Result<(), Memory>
    ensures { OnOk result (page.new.items ≡ page.old.items ++ article_title name.now) }
{
    page.extend_from_slice(b"<article id=\"")?;
    page.extend_from_slice(name)?;
    page.extend_from_slice(b"\"><h3>")?;
    page.extend_from_slice(name)?;
    page.extend_from_slice(b"</h3><pre>\n")?;
    Ok(())
}

// Adds the lines of a flight.
#[tactic(auto, unfolding(crate::specs::Flight::flight_lines))]
fn push_lines(
    alloc: Global,
    page: &mut Vec<u8>,
    pieces: &[(Period, Itinerary)],
) -> Result<(), Memory>
    ensures { OnOk result (page.new.items ≡ page.old.items ++ flight_lines pieces.now) }
{
    let found = itineraries(alloc, pieces)?;
    push_lines_among(alloc, page, &found, pieces)
}

// Adds the lines of different itineraries, and those of pieces.
fn push_lines_among<'a>(
    alloc: Global,
    page: &mut Vec<u8>,
    found: &DistinctValues<'a, Itinerary>,
    pieces: &'a [(Period, Itinerary)],
) -> Result<(), Memory>
    ensures { OnOk result
        (page.new.items ≡ page.old.items ++ lines_among found.now pieces.now) }
{
    let groups = row_groups(alloc, found.values())?;
    let flight = KeyedFlight {
        alloc,
        found,
        groups: &groups,
    };
    push_each(page, &flight, found.values())?;
    push_periods(alloc, page, found, pieces)
}

impl<'a> Printed<KeyedFlight<'a, '_>> for &'a Itinerary {
    ghost text = { λ flight legs. row_lines (λ row. is_mixed (group_in flight.groups.now row))
        (key_of flight.found.now legs.now) legs.now };

    // Adds the line of each leg of an itinerary.
    fn print(&self, flight: &KeyedFlight<'a, '_>, page: &mut Vec<u8>) -> Result<(), Memory> {
        let key = key_of(flight.alloc, flight.found, *self)?;
        let legs = KeyedLegs {
            alloc: flight.alloc,
            key: key.as_slice(),
            groups: flight.groups,
        };
        push_each(page, &legs, self.legs())
    }
}

// Adds the line of each piece.
fn push_periods<'a>(
    alloc: Global,
    page: &mut Vec<u8>,
    found: &DistinctValues<'a, Itinerary>,
    pieces: &'a [(Period, Itinerary)],
) -> Result<(), Memory>
    ensures { OnOk result
        (page.new.items ≡ page.old.items ++ flat_map (piece_line found.now) pieces.now) }
{
    for piece in pieces {
        let key = key_of(alloc, found, &piece.1)?;
        push_period(page, key.as_slice(), piece.0)?;
    }
    Ok(())
}

impl Printed<KeyedLegs<'_, '_, '_>> for PlacedLeg {
    ghost text = { λ legs leg.
        row_line (λ row. is_mixed (group_in legs.groups.now row)) legs.key.now leg };

    // Adds the line of a leg.
    fn print(&self, legs: &KeyedLegs<'_, '_, '_>, page: &mut Vec<u8>) -> Result<(), Memory> {
        page.extend_from_slice(legs.key)?;
        page.push(b' ')?;
        let begin = page.len();
        push_row(legs.alloc, page, self)?;
        let marked = are_mixed(legs.groups, &page[begin..]);
        page.extend_from_slice(mark_of(marked))?;
        page.push(b'\n')?;
        Ok(())
    }
}
