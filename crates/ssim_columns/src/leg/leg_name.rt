//! The name of a leg in a record of type 3 or 4.

ghost use Rattle.std.specs.Prelude.{◌≡◌, ◌<◌, IsSome, IfSome, length};
ghost use Rattle.ssim_columns.specs.Columns.{EachIsValid};
ghost use Rattle.ssim_columns.specs.internal.LatestColumns.{SpellsFlight, SpellsFlightLeg};
ghost use Rattle.ssim_columns.specs.Leg.{Name, IsName, SpellsName, name_table};

use crate::field::columns::{airline_at, number_at, sequence_at, suffix_at};
use crate::leg::leg_fields::{AIRLINE, FLIGHT_NUMBER, ITINERARY_VARIATION, LEG_SEQUENCE, SUFFIX};
use crate::text::array::bytes_of;
use crate::text::number::{number_of, sequence_of};
use ssim_values::{Airline, Flight};
use std::marker::Model;

/// The name of a leg in a record of type 3 or 4: an airline's flight, the itinerary variation and
/// the leg sequence, in columns 2 to 13.
#[derive(Clone, Copy, Debug, PartialEq, Eq, Hash)]
pub struct LegName {
    airline: Airline,
    flight: Flight,
    /// 0 to 99.
    variation: u8,
    /// 1 to 99.
    sequence: u8,
}

impl Model for LegName {
    ghost use Rattle.ssim_columns.specs.Leg.{Name, IsName};

    ghost Value = { Name };

    ghost view = { λ n. record {
      airline = n.airline;
      flight = n.flight;
      variation = n.variation;
      sequence = n.sequence;
    } };

    ghost invariant = { λ n. IsName (view n) };

    ghost inverse = { λ v. record {
      airline = v.airline;
      flight = v.flight;
      variation = v.variation;
      sequence = v.sequence;
    } };
}

/// The name in columns 2 to 13.
pub(crate) fn name_at(bytes: &[u8; 200]) -> LegName
    requires { EachIsValid bytes.now name_table }
    ensures spells { SpellsName result bytes.now }
    ensures is_name { IsName result }
{
    let number = number_at(bytes, FLIGHT_NUMBER);
    let Some(flight) = Flight::new(number as u16, suffix_at(bytes)) else {
        unreachable!();
    };
    LegName {
        airline: airline_at(bytes),
        flight,
        variation: number_at(bytes, ITINERARY_VARIATION) as u8,
        sequence: sequence_at(bytes, LEG_SEQUENCE) as u8,
    }
}

/// A flight of an airline: columns 2 to 9.
#[derive(Clone, Copy, Debug)]
pub(crate) struct AirlineFlight {
    pub(crate) airline: Airline,
    pub(crate) flight: Flight,
}

/// The flight in columns 2 to 9, if they spell one.
pub(crate) fn read_flight(bytes: &[u8; 200]) -> Option<AirlineFlight>
    ensures { IfSome result (λ named. SpellsFlight named bytes.now) }
{
    let number = number_of(FLIGHT_NUMBER.text(bytes))?;
    let airline = airline_of(AIRLINE.text(bytes))?;
    let flight = Flight::new(number as u16, bytes[SUFFIX.first - 1])?;
    Some(AirlineFlight { airline, flight })
}

/// A leg of a flight: columns 10 to 13.
#[derive(Clone, Copy, Debug)]
pub(crate) struct FlightLeg {
    pub(crate) variation: u8,
    pub(crate) sequence: u8,
}

/// The leg of a flight in columns 10 to 13, if they spell an itinerary variation and a leg
/// sequence.
pub(crate) fn read_flight_leg(bytes: &[u8; 200]) -> Option<FlightLeg>
    ensures { IfSome result (λ leg. SpellsFlightLeg leg bytes.now) }
{
    let variation = number_of(ITINERARY_VARIATION.text(bytes))?;
    let sequence = sequence_of(LEG_SEQUENCE.text(bytes))?;
    Some(FlightLeg {
        variation: variation as u8,
        sequence: sequence as u8,
    })
}

/// The name of a leg of a flight, both of which a record spells.
pub(crate) fn name_with(bytes: &[u8; 200], named: AirlineFlight, leg: FlightLeg) -> LegName
    requires flight { SpellsFlight named bytes.now }
    requires leg { SpellsFlightLeg leg bytes.now }
    ensures spells { SpellsName result bytes.now }
    ensures is_name { IsName result }
{
    let AirlineFlight { airline, flight } = named;
    // No effect at run time. The proof reads from these uses that the parts are valid.
    let _ = airline.write();
    let _ = flight.number();
    let _ = flight.suffix();
    LegName {
        airline,
        flight,
        variation: leg.variation,
        sequence: leg.sequence,
    }
}

fn airline_of(text: &[u8]) -> Option<Airline>
    requires { length text.now ≡ 3 }
    ensures { IfSome result (λ airline. airline ≡ text.now) }
{
    match Airline::parse(&bytes_of::<3>(text)) {
        Ok(airline) => Some(airline),
        Err(_) => None,
    }
}

impl LegName {
    /// The name of a leg of a flight.
    pub fn new(airline: Airline, flight: Flight, variation: u8, sequence: u8) -> LegName
        requires variation { variation < 100 }
        requires sequence_from { 0 < sequence }
        requires sequence_to { sequence < 100 }
        ensures { result ≡ record {
          airline = airline;
          flight = flight;
          variation = variation;
          sequence = sequence;
        } }
    {
        let _ = airline.write();
        let _ = flight.number();
        let _ = flight.suffix();
        LegName {
            airline,
            flight,
            variation,
            sequence,
        }
    }

    /// The airline whose flight it is.
    pub fn airline(self) -> Airline
        ensures { result ≡ self.airline }
    {
        self.airline
    }

    /// The flight.
    pub fn flight(self) -> Flight
        ensures { result ≡ self.flight }
    {
        self.flight
    }

    /// The itinerary variation, 0 to 99.
    pub fn variation(self) -> u8
        ensures value { result ≡ self.variation }
        ensures bound { result < 100 }
    {
        self.variation
    }

    /// The leg sequence, 1 to 99.
    pub fn sequence(self) -> u8
        ensures value { result ≡ self.sequence }
        ensures from { 0 < result }
        ensures to { result < 100 }
    {
        self.sequence
    }
}
