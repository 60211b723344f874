//! What the ends of legs say: that a station has a UTC variation.

ghost use Rattle.std.specs.Prelude.{◌≡◌, ℕ, [], IfOk, OnOk, length, map, slice_index_or};
ghost use Rattle.ssim_overview.specs.SaidRows.{end_says, is_none};
ghost use Rattle.ssim_overview.specs.internal.SaidRows.{AddsSayings, AreByRank, dated};
ghost use Rattle.ssim_overview.specs.internal.SaidRows.{flights_say, leg_says_on, legs_say};
ghost use Rattle.ssim_overview.specs.internal.SaidRows.{pieces_say};

use crate::station_marks::number_of;
use ssim_schedule::{FlightPieces, Itinerary, PlacedLeg};
use ssim_values::{Memory, Period, Station, Variation};
use std::alloc::Global;

/// The number of stations: three letters each.
const STATIONS: usize = 17_576;

/// What an end of a leg says.
#[derive(Clone, Copy, Debug, PartialEq, Eq)]
pub(crate) struct Saying {
    /// The station.
    pub(crate) station: Station,
    /// The UTC variation that it has.
    pub(crate) variation: Variation,
    /// Whether the end is on the date of origin.
    pub(crate) is_own: bool,
}

/// What the legs of flights say, and on which dates, by the rank of the station.
pub(crate) fn sayings_by_station(
    alloc: Global,
    flights: &[FlightPieces],
) -> Result<Vec<Vec<(Period, Saying)>>, Memory>
    ensures { IfOk result (λ sayings.
        AreByRank (flights_say flights.now) (map (λ list. list.items) sayings.items)) }
{
    let mut sayings = no_sayings(alloc)?;
    for flight in flights {
        push_pieces(&mut sayings, flight.pieces())?;
    }
    Ok(sayings)
}

// Nothing is said at each rank.
fn no_sayings(alloc: Global) -> Result<Vec<Vec<(Period, Saying)>>, Memory>
    ensures len { IfOk result (λ sayings. length sayings.items ≡ 17576) }
    ensures none { IfOk result (λ sayings. (k : ℕ)
        → slice_index_or (map (λ list. list.items) sayings.items) k [] ≡ []) }
{
    let mut sayings = Vec::with_capacity(alloc, STATIONS)?;
    for _ in 0..STATIONS {
        sayings.push(Vec::new(alloc))?;
    }
    Ok(sayings)
}

// Adds what the legs of pieces say.
fn push_pieces(
    sayings: &mut Vec<Vec<(Period, Saying)>>,
    pieces: &[(Period, Itinerary)],
) -> Result<(), Memory>
    requires { length sayings.old.items ≡ 17576 }
    ensures { OnOk result (AddsSayings (pieces_say pieces.now)
        (map (λ list. list.items) sayings.old.items) (map (λ list. list.items) sayings.new.items)) }
{
    for piece in pieces {
        push_legs(sayings, piece.0, piece.1.legs())?;
    }
    Ok(())
}

// Adds what legs say on the dates of a period.
fn push_legs(
    sayings: &mut Vec<Vec<(Period, Saying)>>,
    period: Period,
    legs: &[PlacedLeg],
) -> Result<(), Memory>
    requires { length sayings.old.items ≡ 17576 }
    ensures { OnOk result (AddsSayings (legs_say period legs.now)
        (map (λ list. list.items) sayings.old.items) (map (λ list. list.items) sayings.new.items)) }
{
    for leg in legs {
        push_leg(sayings, period, leg)?;
    }
    Ok(())
}

// Adds what the two ends of a leg say.
fn push_leg(
    sayings: &mut Vec<Vec<(Period, Saying)>>,
    period: Period,
    leg: &PlacedLeg,
) -> Result<(), Memory>
    requires { length sayings.old.items ≡ 17576 }
    ensures { OnOk result (AddsSayings (leg_says_on period leg.now)
        (map (λ list. list.items) sayings.old.items) (map (λ list. list.items) sayings.new.items)) }
{
    let columns = leg.columns();
    let [departure, arrival] = columns.date_variations();
    let from = columns.departure_variation();
    let to = columns.arrival_variation();
    push_end(
        sayings,
        period,
        columns.departure_station(),
        from,
        departure,
    )?;
    push_end(sayings, period, columns.arrival_station(), to, arrival)
}

// Adds what an end of a leg says: nothing if its variation is blank.
fn push_end(
    sayings: &mut Vec<Vec<(Period, Saying)>>,
    period: Period,
    station: Station,
    variation: Option<Variation>,
    date_variation: u8,
) -> Result<(), Memory>
    requires { length sayings.old.items ≡ 17576 }
    ensures len { OnOk result (length sayings.new.items ≡ 17576) }
    ensures adds { OnOk result (AddsSayings (dated period (end_says station variation date_variation))
        (map (λ list. list.items) sayings.old.items) (map (λ list. list.items) sayings.new.items)) }
{
    let Some(variation) = variation else {
        return Ok(());
    };
    let saying = saying_of(station, variation, date_variation);
    sayings[number_of(station)].push((period, saying))?;
    Ok(())
}

// What an end of a leg says that has a variation.
fn saying_of(station: Station, variation: Variation, date_variation: u8) -> Saying
    ensures { result ≡ record {
      station = station;
      variation = variation;
      is_own = is_none date_variation;
    } }
{
    Saying {
        station,
        variation,
        is_own: date_variation == b'0' || date_variation == b' ',
    }
}
