//! The command `page`: a timetable as one page of HTML.

ghost use Rattle.std.specs.Prelude.{◌≡◌, [], IfOk, None, Some, option_map};
ghost use Rattle.ssim_records.specs.Carrier.{CarrierFields};
ghost use Rattle.ssim_values.specs.Flight.{FlightNumber};
ghost use Rattle.ssim_base.specs.Timetable.{Days, days_of};
ghost use Rattle.ssim_schedule.specs.FlightPieces.{divided_flights};
ghost use Rattle.ssim_held.specs.Entries.{DeskSeen};
ghost use Rattle.ssim_difference.specs.Differences as differing;
ghost use Rattle.ssim_program.specs.Answers.{changed_page, desk_page, heading_of, page};
ghost use Rattle.ssim_program.specs.Timetables.{HasCarrier};
ghost use Rattle.ssim_program.specs.internal.Diff.{HasFlights};
ghost use Rattle.ssim_program.specs.internal.Program.{Answers};

use crate::command::diff::{Timetable, open_flights};
use crate::print::message_articles::articles_of;
use crate::refusal::Refusal;
use crate::store::Store;
use crate::timetable_file::{carrier_of, open_timetable};
use ssim_desk::Holdings;
use ssim_difference::{FlightDifference, differences};
use ssim_outbox::compare;
use ssim_page::{PageHeading, page_of};
use ssim_records::Carrier;
use ssim_schedule::{FlightPieces, Schedule};
use ssim_values::Memory;
use std::alloc::Global;

/// The page of the timetable of the desk, or of the data set, in a file, with its changes from that
/// of another file. If no other is named, they are those from its own data set.
pub(crate) fn page<S: Store>(
    alloc: Global,
    from: Option<&str>,
    file: &str,
    store: &mut S,
) -> Result<Vec<u8>, Refusal>
    ensures answer { Answers
        (page (S.files store.old) (option_map (λ f. f.now) from.entry) file.now) result }
    ensures same { S.files store.new ≡ S.files store.old }
    ensures counted { S.failures store.new ≡ S.failures store.old }
{
    match from {
        None => page_of_file(alloc, file, store),
        Some(from) => page_between(alloc, from, file, store),
    }
}

/// The page of a file, with its changes from its own data set.
fn page_of_file<S: Store>(alloc: Global, file: &str, store: &mut S) -> Result<Vec<u8>, Refusal>
    ensures answer { Answers (page (S.files store.old) None file.now) result }
    ensures same { S.files store.new ≡ S.files store.old }
    ensures counted { S.failures store.new ≡ S.failures store.old }
{
    let desk = open_timetable(alloc, file, store)?;
    let page = own_page(alloc, desk)?;
    Ok(page)
}

/// The page of a file, with its changes from another. The records of the other are freed before the
/// file is read.
fn page_between<S: Store>(
    alloc: Global,
    from: &str,
    file: &str,
    store: &mut S,
) -> Result<Vec<u8>, Refusal>
    ensures answer { Answers (page (S.files store.old) (Some from.now) file.now) result }
    ensures same { S.files store.new ≡ S.files store.old }
    ensures counted { S.failures store.new ≡ S.failures store.old }
{
    let old = open_flights(alloc, from, store)?;
    let desk = open_timetable(alloc, file, store)?;
    changed_page(alloc, old, desk)
}

/// The page of a desk, with its changes from an old timetable.
fn changed_page(alloc: Global, old: Timetable, desk: Holdings) -> Result<Vec<u8>, Refusal>
    ensures { (before : DeskSeen) → HasFlights before old.carrier old.flights.items
        → Answers (changed_page before desk) result }
{
    let carrier = carrier_of(&desk);
    compare(&old.carrier, &carrier)?;
    let page = desk_page(alloc, &carrier, old.flights, desk)?;
    Ok(page)
}

/// The page of a desk, with its changes from its own data set.
fn own_page(alloc: Global, desk: Holdings) -> Result<Vec<u8>, Memory>
    ensures { IfOk result (λ page. (carrier : CarrierFields) × HasCarrier desk.base.records carrier
        × (page.items ≡ desk_page carrier (days_of desk.base.records) desk)) }
{
    let carrier = carrier_of(&desk);
    if desk.held().is_empty() {
        return unchanged_page(alloc, &carrier, desk);
    }
    let before = Schedule::of(desk.base())?.into_flights()?;
    desk_page(alloc, &carrier, before, desk)
}

/// The page of a desk without messages, which has no changes.
fn unchanged_page(alloc: Global, carrier: &Carrier, desk: Holdings) -> Result<Vec<u8>, Memory>
    requires { desk.held ≡ [] }
    ensures { IfOk result (λ page. page.items
        ≡ desk_page carrier.now (days_of desk.base.records) desk) }
{
    let flights = desk.into_flights()?;
    page_of(alloc, &heading_of(carrier), &flights, &[], b"")
}

/// The page of a desk, with its changes from these flights.
fn desk_page(
    alloc: Global,
    carrier: &Carrier,
    before: Vec<FlightPieces>,
    desk: Holdings,
) -> Result<Vec<u8>, Memory>
    ensures { (old : FlightNumber → Days) → before.items ≡ divided_flights old
        → IfOk result (λ page. page.items ≡ desk_page carrier.now old desk) }
{
    let articles = articles_of(alloc, &desk)?;
    let flights = desk.into_flights()?;
    let changes = changes_of(alloc, before, &flights)?;
    page_of(alloc, &heading_of(carrier), &flights, &changes, &articles)
}

/// The flights that differ. The old ones are freed.
fn changes_of(
    alloc: Global,
    before: Vec<FlightPieces>,
    after: &[FlightPieces],
) -> Result<Vec<FlightDifference>, Memory>
    ensures { (old new : FlightNumber → Days)
        → before.items ≡ divided_flights old → after.now ≡ divided_flights new
        → IfOk result (λ changes. changes.items ≡ differing.differences old new) }
{
    differences(alloc, &before, after)
}

/// What the page of a data set with this carrier record is of.
fn heading_of(carrier: &Carrier) -> PageHeading
    ensures { result ≡ heading_of carrier.now }
{
    PageHeading {
        airline: carrier.airline(),
        season: carrier.season(),
        time_mode: carrier.time_mode(),
    }
}
