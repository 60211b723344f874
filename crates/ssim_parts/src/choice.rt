//! Which flight dates are chosen.

ghost use Rattle.std.specs.Prelude.{◌≡◌, length, true};
ghost use Rattle.std.specs.List.{list_any};
ghost use Rattle.ssim_base.specs.Timetable.{is_among};
ghost use Rattle.ssim_parts.specs.Chosen.{chooses_flight, chooses_legs, has_aircraft};
ghost use Rattle.ssim_parts.specs.Chosen.{left_aligned, none_or, touches};

use ssim_schedule::PlacedLeg;
use ssim_values::{Day, Flight, Station};
use std::marker::Model;

/// A choice of flight dates. Where none is named, all are chosen.
#[derive(Drop)]
pub struct Choice {
    pub flights: Vec<Flight>,
    /// The first date of origin.
    pub first: Day,
    /// The last date of origin.
    pub last: Day,
    pub stations: Vec<Station>,
    /// Aircraft types as columns 73 to 75 have them, with blanks after them.
    pub aircraft: Vec<[u8; 3]>,
}

impl Model for Choice {
    ghost use Rattle.ssim_parts.specs.Chosen.{Choosing};

    ghost Value = { Choosing };

    ghost view = { λ c. record {
      flights = c.flights.items;
      first = c.first;
      last = c.last;
      stations = c.stations.items;
      aircraft = c.aircraft.items;
    } };
}

impl Choice {
    /// Whether a flight is chosen.
    pub fn has_flight(&self, flight: Flight) -> bool
        ensures { result ≡ chooses_flight self.now flight }
    {
        match self.flights.split_first() {
            None => true,
            Some(_) => is_among(flight, &self.flights),
        }
    }

    /// Whether an itinerary is chosen.
    pub fn has_legs(&self, legs: &[PlacedLeg]) -> bool
        ensures { result ≡ chooses_legs self.now legs.now }
    {
        touch_one(legs, &self.stations) && have_one(legs, &self.aircraft)
    }

    /// Whether neither stations nor aircraft types are named, so that all itineraries are chosen.
    pub fn has_all_legs(&self) -> bool
        ensures { result ≡ true
            → (length self.now.stations ≡ 0) × (length self.now.aircraft ≡ 0) }
    {
        self.stations.is_empty() && self.aircraft.is_empty()
    }
}

fn is_among(flight: Flight, flights: &[Flight]) -> bool
    ensures { result ≡ is_among flights.now flight }
{
    flights.iter().any(|other| flight == *other)
}

// Whether no station is named, or a leg touches one that is named.
fn touch_one(legs: &[PlacedLeg], stations: &[Station]) -> bool
    ensures { result ≡ none_or (λ station. list_any (touches station) legs.now) stations.now }
{
    match stations.split_first() {
        None => true,
        Some(_) => touch_any(legs, stations),
    }
}

fn touch_any(legs: &[PlacedLeg], stations: &[Station]) -> bool
    ensures { result ≡ list_any (λ station. list_any (touches station) legs.now) stations.now }
{
    stations.iter().any(|station| touch(legs, *station))
}

fn touch(legs: &[PlacedLeg], station: Station) -> bool
    ensures { result ≡ list_any (touches station) legs.now }
{
    legs.iter().any(|leg| touches(leg, station))
}

// Whether a leg departs from a station or arrives at it.
fn touches(leg: &PlacedLeg, station: Station) -> bool
    ensures { result ≡ touches station leg.now }
{
    let columns = leg.columns();
    columns.departure_station() == station || columns.arrival_station() == station
}

// Whether no aircraft type is named, or a leg has one that is named.
fn have_one(legs: &[PlacedLeg], aircraft: &[[u8; 3]]) -> bool
    ensures { result ≡ none_or (λ one. list_any (has_aircraft one) legs.now) aircraft.now }
{
    match aircraft.split_first() {
        None => true,
        Some(_) => have_any(legs, aircraft),
    }
}

fn have_any(legs: &[PlacedLeg], aircraft: &[[u8; 3]]) -> bool
    ensures { result ≡ list_any (λ one. list_any (has_aircraft one) legs.now) aircraft.now }
{
    aircraft.iter().any(|one| have(legs, *one))
}

fn have(legs: &[PlacedLeg], aircraft: [u8; 3]) -> bool
    ensures { result ≡ list_any (has_aircraft aircraft) legs.now }
{
    legs.iter().any(|leg| has_aircraft(leg, aircraft))
}

// Whether a leg has an aircraft type.
fn has_aircraft(leg: &PlacedLeg, aircraft: [u8; 3]) -> bool
    ensures { result ≡ has_aircraft aircraft leg.now }
{
    left_aligned(leg.columns().aircraft_type()) == aircraft
}

// Three columns with their text moved before the blanks.
fn left_aligned(columns: [u8; 3]) -> [u8; 3]
    ensures { result ≡ left_aligned columns }
{
    let [a, b, d] = columns;
    if a == b' ' {
        if b == b' ' {
            [d, b' ', b' ']
        } else {
            [b, d, b' ']
        }
    } else {
        columns
    }
}
