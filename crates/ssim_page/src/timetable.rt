//! The timetable of an airline on the page: all its flights.

ghost use Rattle.std.specs.Prelude.{◌≡◌, ◌++◌, OnOk};
ghost use Rattle.ssim_listing.specs.Lines.{flight_name};
ghost use Rattle.ssim_page.specs.Flight.{article};
ghost use Rattle.ssim_page.specs.Timetable.{articles, days_of_all, days_text, timetable};
ghost use Rattle.ssim_page.specs.Timetable.{timetable_title, widened, widened_by};

use crate::flight::push_article;
use ssim_lines::{Printed, push_each};
use ssim_listing::name_of;
use ssim_schedule::{FlightPieces, Itinerary};
use ssim_values::{Airline, Day, Memory, Period};
use std::alloc::Global;

/// The articles of an airline's flights.
#[derive(Clone, Copy)]
struct Articles {
    alloc: Global,
    airline: Airline,
}

/// Adds the timetable of an airline's flights.
#[tactic(auto, unfolding(crate::specs::Timetable::timetable))]
pub(crate) fn push_timetable(
    alloc: Global,
    page: &mut Vec<u8>,
    airline: Airline,
    flights: &[FlightPieces],
) -> Result<(), Memory>
    ensures { OnOk result (page.new.items ≡ page.old.items ++ timetable airline flights.now) }
{
    push_timetable_title(page, flights)?;
    push_articles(alloc, page, airline, flights)?;
    page.extend_from_slice(b"</section>\n")?;
    Ok(())
}

// Adds the begin of the timetable.
#[tactic(auto, unfolding(crate::specs::Timetable::timetable_title))]
fn push_timetable_title(page: &mut Vec<u8>, flights: &[FlightPieces]) -> Result<(), Memory>
    ensures { OnOk result (page.new.items ≡ page.old.items ++ timetable_title flights.now) }
{
    page.extend_from_slice(b"<section id=\"timetable\"><h2>Timetable")?;
    push_days(page, days_of_all(flights))?;
    page.extend_from_slice(b"</h2>\n")?;
    Ok(())
}

// Adds the article of each flight.
fn push_articles(
    alloc: Global,
    page: &mut Vec<u8>,
    airline: Airline,
    flights: &[FlightPieces],
) -> Result<(), Memory>
    ensures { OnOk result (page.new.items ≡ page.old.items ++ articles airline flights.now) }
{
    push_each(page, &Articles { alloc, airline }, flights)
}

impl Printed<Articles> for FlightPieces {
    ghost text = { λ articles flight. article (flight_name articles.airline flight.0) flight.1 };

    fn print(&self, articles: &Articles, page: &mut Vec<u8>) -> Result<(), Memory> {
        let name = name_of(articles.airline, self.flight());
        push_article(articles.alloc, page, name.as_slice(), self.pieces())
    }
}

/// Adds a blank and the first day, a blank and the last.
pub(crate) fn push_days(page: &mut Vec<u8>, days: Option<(Day, Day)>) -> Result<(), Memory>
    ensures { OnOk result (page.new.items ≡ page.old.items ++ days_text days) }
{
    let Some((first, last)) = days else {
        return Ok(());
    };
    page.push(b' ')?;
    page.extend_from_slice(&first.write())?;
    page.push(b' ')?;
    page.extend_from_slice(&last.write())?;
    Ok(())
}

// The first day of the first period of the flights, and the last day of the last.
fn days_of_all(flights: &[FlightPieces]) -> Option<(Day, Day)>
    ensures { result ≡ days_of_all flights.now }
{
    let mut days = None;
    for flight in flights {
        days = widened_by(days, flight.pieces());
    }
    days
}

// A first and a last day after these pieces, too.
fn widened_by(days: Option<(Day, Day)>, pieces: &[(Period, Itinerary)]) -> Option<(Day, Day)>
    ensures { result ≡ widened_by days pieces.now }
{
    let mut days = days;
    for piece in pieces {
        days = widened(days, piece.0);
    }
    days
}

// A first and a last day after one more period.
fn widened(days: Option<(Day, Day)>, period: Period) -> Option<(Day, Day)>
    ensures { result ≡ widened days period }
{
    match days {
        None => Some((period.first(), period.last())),
        Some((first, last)) => Some((first.min(period.first()), last.max(period.last()))),
    }
}
