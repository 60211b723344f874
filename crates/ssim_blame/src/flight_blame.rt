//! Flights with the periods of their dates that have one maker.

ghost use Rattle.std.specs.Prelude.{◌≡◌, ℕ, map, IfOk};
ghost use Rattle.ssim_values.specs.Flight.{IsFlight};
ghost use Rattle.ssim_periods.specs.Days.{each_day};
ghost use Rattle.ssim_periods.specs.Pieces.{pieces_of};
ghost use Rattle.ssim_base.specs.Timetable.{itinerary};
ghost use Rattle.ssim_schedule.specs.clauses.Schedule.{days_in};
ghost use Rattle.ssim_blame.specs.Makers.{blamed, maker_pieces, same_maker};
ghost use Rattle.ssim_blame.specs.declared.made.MadeItinerary.{MadeItinerary};
ghost use Rattle.ssim_blame.specs.declared.maker.Maker.TheVariants.{Nobody};

use crate::acting::{Acting, act_all};
use crate::made::MadeItinerary;
use crate::maker::Maker;
use ssim_desk::Holdings;
use ssim_periods::Periods;
use ssim_schedule::Schedule;
use ssim_values::{Flight, Memory, Period};
use std::alloc::Global;
use std::marker::Model;

/// A flight, and the canonical division of its dates by their makers, each period with its maker, in
/// order of first day. No period has a date that nobody made.
#[derive(Drop)]
pub struct FlightBlame {
    flight: Flight,
    pieces: Vec<(Period, Maker)>,
}

impl Model for FlightBlame {
    ghost use Rattle.ssim_blame.specs.Makers.{Blamed};

    ghost Value = { Blamed };

    ghost view = { λ b. (b.flight, b.pieces.items) };
}

impl FlightBlame {
    /// The flight.
    pub fn flight(&self) -> Flight
        ensures { result ≡ self.now.0 }
    {
        self.flight
    }

    /// Its pieces. There are none if neither the data set nor a message made anything of it.
    pub fn pieces(&self) -> &[(Period, Maker)]
        ensures { result.now ≡ self.now.1 }
    {
        &self.pieces
    }
}

/// Flights of a desk, in the order of the list, each with the pieces of its makers. Reads all
/// records of the base once. Of its timetable only these flights are made, and each sub-message acts
/// on its flight alone.
pub fn flights_blamed(
    alloc: Global,
    desk: &Holdings,
    flights: &[Flight],
) -> Result<Vec<FlightBlame>, Memory>
    ensures { IfOk result (λ found. found.items ≡ map (blamed desk.now) flights.now) }
{
    let schedule = Schedule::of_flights(desk.data_set(), flights)?;
    let mut found = Vec::with_capacity(alloc, flights.len())?;
    for flight in flights {
        found.push(FlightBlame {
            flight: *flight,
            pieces: pieces_of(alloc, desk, &schedule, *flight)?,
        })?;
    }
    Ok(found)
}

// The pieces of the makers of a flight, by the schedule of the data set.
fn pieces_of(
    alloc: Global,
    desk: &Holdings,
    schedule: &Schedule,
    flight: Flight,
) -> Result<Vec<(Period, Maker)>, Memory>
    requires { IsFlight flight
        → days_in schedule.now flight ≡ each_day (itinerary desk.now.base.records flight) }
    ensures { IfOk result (λ pieces. pieces.items ≡ maker_pieces desk.now flight) }
{
    // No effect at run time. The proof reads from these uses that the flight exists.
    let _ = flight.number();
    let _ = flight.suffix();
    let mut days = Periods::new(alloc);
    days.replace_each(&schedule.days(&flight)?.pieces()?)?;
    let acting = Acting {
        rows: desk.base().rows(),
        flight,
    };
    act_all(&acting, &mut days, desk.held())?;
    makers_of(alloc, &days)
}

// The pieces of the makers alone.
fn makers_of(alloc: Global, days: &Periods<MadeItinerary>) -> Result<Vec<(Period, Maker)>, Memory>
    ensures { (made : ℕ → MadeItinerary) → days.now.days ≡ each_day made → IfOk result (λ pieces.
        pieces.items ≡ pieces_of same_maker Nobody (each_day (λ n. (made n).maker))) }
{
    let mut makers = Periods::new(alloc);
    makers.replace_each(&days.pieces()?)?;
    makers.pieces()
}
