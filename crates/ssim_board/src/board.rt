//! What is on the board of a station on a date.

ghost use Rattle.std.specs.Prelude.{◌≡◌, ◌<◌, ◌≤◌, ◌-◌, ◌++◌, IfOk, OnOk};
ghost use Rattle.std.specs.List.{AllByRecursion, flat_map};
ghost use Rattle.ssim_values.specs.Flight.{FlightNumber};
ghost use Rattle.ssim_periods.specs.Calendar.{holds};
ghost use Rattle.ssim_base.specs.Timetable.{Days};
ghost use Rattle.ssim_schedule.specs.clauses.Dates.{AgreeBetween};
ghost use Rattle.ssim_schedule.specs.FlightPieces.{divided_flights};
ghost use Rattle.ssim_board.specs.InOrder.{board_of};
ghost use Rattle.ssim_board.specs.Movements.{end_movements, is_there};
ghost use Rattle.ssim_board.specs.clauses.Movements.{first_date, last_date};
ghost use Rattle.ssim_board.specs.Movements.{leg_movements, movement};
ghost use Rattle.ssim_board.specs.internal.DaysThere.{AreWithin, IsWithin};
ghost use Rattle.ssim_board.specs.internal.DaysThere.{days_of_end, days_of_leg};
ghost use Rattle.ssim_board.specs.internal.PieceMovements.{all_movements, date_end};
ghost use Rattle.ssim_board.specs.internal.PieceMovements.{divided_movements, piece_movements};
ghost use Rattle.ssim_board.specs.internal.PieceMovements.{on_date};

use crate::in_order::in_order;
use crate::leg_times::{days_after, is_uncertain, station_of, time_of};
use crate::movement::{Movement, MovementKind};
use ssim_records::LegColumns;
use ssim_schedule::{FlightPieces, Itinerary, PlacedLeg};
use ssim_values::{Day, Flight, Memory, Period, Station, TimeMode};
use std::alloc::Global;

/// A board: a station, a local date there, and the time mode of the timetable.
#[derive(Debug, Drop)]
pub struct Board {
    pub station: Station,
    /// The local date.
    pub day: Day,
    pub mode: TimeMode,
}

impl Board {
    /// The departures and arrivals at the station on the local date, by time, departures first,
    /// then by flight, date of origin and leg sequence. The flights are those that fly on some
    /// date, as `Schedule::into_flights` gives them, of the timetable or of one that agrees with it
    /// from `first_date` to `last_date`.
    pub fn movements(
        &self,
        alloc: Global,
        flights: &[FlightPieces],
    ) -> Result<Vec<Movement>, Memory>
        ensures { (days near : FlightNumber → Days) → flights.now ≡ divided_flights near
            → AgreeBetween (first_date self.now) (last_date self.now) near days
            → IfOk result (λ movements. movements.items ≡ board_of self.now days) }
    {
        let mut movements = Vec::new(alloc);
        self.push_flights(&mut movements, flights)?;
        in_order(movements)
    }

    /// The first date of origin that can have something on the board.
    pub fn first_date(&self) -> Day
        ensures { result ≡ first_date self.now }
    {
        let Some(first) = Day::from_number(self.day.number().saturating_sub(10)) else {
            unreachable!();
        };
        first
    }

    /// The last date of origin that can have something on the board.
    pub fn last_date(&self) -> Day
        ensures { result ≡ last_date self.now }
    {
        match Day::from_number(self.day.number() + 1) {
            Some(next) => next,
            None => self.day,
        }
    }

    // Adds what these flights have on the board.
    fn push_flights(
        &self,
        movements: &mut Vec<Movement>,
        flights: &[FlightPieces],
    ) -> Result<(), Memory>
        ensures { OnOk result
            (movements.new.items ≡ movements.old.items ++ all_movements self.now flights.now) }
    {
        for flight in flights {
            self.push_flight(movements, flight)?;
        }
        Ok(())
    }

    // Adds what a flight has on the board: nothing if it is never at the station. Else the dates of
    // origin that can have something there begin a day before the board's date, or earlier by the
    // flight's greatest date variation there, and end a day after the board's date.
    fn push_flight(
        &self,
        movements: &mut Vec<Movement>,
        flight: &FlightPieces,
    ) -> Result<(), Memory>
        ensures { OnOk result
            (movements.new.items ≡ movements.old.items ++ divided_movements self.now flight.now) }
    {
        let days = self.days_of_pieces(flight.pieces());
        if days == 0 {
            return Ok(());
        }
        for number in self.day.number().saturating_sub(days)..self.date_end() {
            let Some(date) = Day::from_number(number) else {
                unreachable!();
            };
            self.push_pieces(movements, flight.flight(), date, flight.pieces())?;
        }
        Ok(())
    }

    // One more than the greatest date variation, in days, of an end of these pieces at the station;
    // 0 if none of their ends is there.
    fn days_of_pieces(&self, pieces: &[(Period, Itinerary)]) -> u16
        ensures within { AreWithin self.now result pieces.now }
        ensures bound { result ≤ 10 }
    {
        let mut days = 0;
        for piece in pieces {
            days = self.days_of_legs(piece.1.legs()).max(days);
        }
        days
    }

    // The same of legs.
    fn days_of_legs(&self, legs: &[PlacedLeg]) -> u16
        ensures within { AllByRecursion (IsWithin self.now result) legs.now }
        ensures bound { result ≤ 10 }
    {
        let mut days = 0;
        for leg in legs {
            days = self.days_of_leg(&leg.columns()).max(days);
        }
        days
    }

    // The same of a leg with these columns.
    fn days_of_leg(&self, columns: &LegColumns) -> u16
        ensures value { result ≡ days_of_leg self.now columns.now }
        ensures bound { result ≤ 10 }
    {
        let departure = self.days_of_end(columns, MovementKind::Departure);
        departure.max(self.days_of_end(columns, MovementKind::Arrival))
    }

    // The same of an end of a leg with these columns.
    fn days_of_end(&self, columns: &LegColumns, kind: MovementKind) -> u16
        ensures value { result ≡ days_of_end self.now columns.now kind }
        ensures bound { result ≤ 10 }
    {
        if station_of(columns, kind) == self.station {
            days_after(columns, kind) + 1
        } else {
            0
        }
    }

    // The number after the last date of origin that can have something on the board.
    fn date_end(&self) -> u16
        ensures value { result ≡ date_end self.now }
        ensures bound { result < 36526 }
    {
        self.last_date().number() + 1
    }

    // Adds what those pieces of a flight that hold the date of origin have on the board.
    fn push_pieces(
        &self,
        movements: &mut Vec<Movement>,
        flight: Flight,
        date: Day,
        pieces: &[(Period, Itinerary)],
    ) -> Result<(), Memory>
        ensures { OnOk result (movements.new.items
            ≡ movements.old.items ++ piece_movements self.now flight date pieces.now) }
    {
        for piece in pieces {
            self.push_piece(movements, flight, date, piece)?;
        }
        Ok(())
    }

    // Adds what a piece has on the board, if it holds the date of origin.
    fn push_piece(
        &self,
        movements: &mut Vec<Movement>,
        flight: Flight,
        date: Day,
        piece: &(Period, Itinerary),
    ) -> Result<(), Memory>
        ensures { OnOk result (movements.new.items
            ≡ movements.old.items ++ on_date self.now flight date piece.now) }
    {
        if holds(piece.0, date) {
            self.push_legs(movements, flight, date, piece.1.legs())?;
        }
        Ok(())
    }

    // Adds what legs of a flight have on the board from a date of origin.
    fn push_legs(
        &self,
        movements: &mut Vec<Movement>,
        flight: Flight,
        date: Day,
        legs: &[PlacedLeg],
    ) -> Result<(), Memory>
        ensures { OnOk result (movements.new.items
            ≡ movements.old.items ++ flat_map (leg_movements self.now flight date) legs.now) }
    {
        for leg in legs {
            self.push_leg(movements, flight, date, leg)?;
        }
        Ok(())
    }

    // Adds the departure of a leg, and its arrival, if they are on the board.
    #[tactic(auto, unfolding(crate::specs::Movements::leg_movements))]
    fn push_leg(
        &self,
        movements: &mut Vec<Movement>,
        flight: Flight,
        date: Day,
        leg: &PlacedLeg,
    ) -> Result<(), Memory>
        ensures { OnOk result (movements.new.items
            ≡ movements.old.items ++ leg_movements self.now flight date leg.now) }
    {
        self.push_end(movements, flight, date, leg, MovementKind::Departure)?;
        self.push_end(movements, flight, date, leg, MovementKind::Arrival)
    }

    // Adds the departure or the arrival of a leg, if it is on the board.
    fn push_end(
        &self,
        movements: &mut Vec<Movement>,
        flight: Flight,
        date: Day,
        leg: &PlacedLeg,
        kind: MovementKind,
    ) -> Result<(), Memory>
        ensures { OnOk result (movements.new.items
            ≡ movements.old.items ++ end_movements self.now flight date leg.now kind) }
    {
        if self.is_there(date, leg, kind) {
            movements.push(self.movement(flight, date, leg, kind))?;
        }
        Ok(())
    }

    // Whether an end of a leg is at the station on its local date.
    #[tactic(auto, unfolding(crate::specs::Movements::is_there))]
    fn is_there(&self, date: Day, leg: &PlacedLeg, kind: MovementKind) -> bool
        ensures { result ≡ is_there self.now date leg.now kind }
    {
        let columns = leg.columns();
        station_of(&columns, kind) == self.station
            && time_of(self.mode, date, &columns, kind).days() == self.day.number() + 1
    }

    // The departure or the arrival of a leg.
    #[tactic(auto, unfolding(crate::specs::Movements::movement))]
    fn movement(&self, flight: Flight, date: Day, leg: &PlacedLeg, kind: MovementKind) -> Movement
        ensures { result ≡ movement self.now flight date leg.now kind }
    {
        let columns = leg.columns();
        Movement {
            kind,
            time: time_of(self.mode, date, &columns, kind),
            flight,
            date,
            sequence: leg.sequence(),
            aircraft_type: columns.aircraft_type(),
            other_station: station_of(&columns, kind.other_end()),
            other_time: time_of(self.mode, date, &columns, kind.other_end()),
            is_uncertain: is_uncertain(self.mode, &columns),
        }
    }
}

// Whether the period holds the date.
fn holds(period: Period, date: Day) -> bool
    ensures { result ≡ holds period date }
{
    period.holds(date)
}
