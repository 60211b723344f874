//! The choice of flight dates that words of the command line make.

ghost use Rattle.std.specs.Prelude.{◌≡◌, ◌⊎◌, ◌<◌, ◌≤◌, IfErr, IfOk, None, Some, false, map};
ghost use Rattle.std.specs.Prelude.{option_map, true};
ghost use Rattle.ssim_values.specs.declared.fault.Fault.TheVariants as value_fault;
ghost use Rattle.ssim_command_line.specs.Line.{choice_line};
ghost use Rattle.ssim_program.specs.Choices.{choice_in, dated};
ghost use Rattle.ssim_program.specs.print.Refusal.{IsMemory};
ghost use Rattle.ssim_program.specs.declared.refusal.Refusal.TheVariants as refused;
ghost use Rattle.ssim_words.specs.Aircraft.{typed_aircraft};
ghost use Rattle.ssim_words.specs.Several.{each_read};
ghost use Rattle.ssim_words.specs.Station.{typed_station};

use crate::command::named_flights::{flights_of, has_other};
use crate::command::show::day_in;
use crate::refusal::Refusal;
use ssim_base::ResolveFault;
use ssim_command_line::ChoiceWords;
use ssim_desk::DeskFault;
use ssim_parts::Choice;
use ssim_values::{Airline, Day, Designator, Fault, Flight, Memory, Station};
use ssim_words::{typed_aircraft_types, typed_stations};
use std::alloc::Global;

/// The number of the last day of the calendar.
const LAST: u16 = 36_524;

/// The choice of flight dates of the airline.
pub(crate) fn choice_in(
    alloc: Global,
    airline: Airline,
    words: &ChoiceWords<'_>,
    flights: &[&str],
) -> Result<Choice, Refusal>
    ensures { choice_in airline (choice_line words.now) (map (λ t. t.now) flights.now) result }
{
    let named = flights_of(alloc, airline, flights)?;
    let stations = stations_in(alloc, &words.stations)?;
    let aircraft = aircraft_in(alloc, &words.aircraft)?;
    let first = date_or(alloc, 0, words.from)?;
    let last = date_or(alloc, LAST, words.to)?;
    if has_other(airline, &named) {
        return Err(Refusal::from(DeskFault::Resolve(ResolveFault::Airline(0))));
    }
    if are_turned(first, last) {
        return Err(Refusal::from(DeskFault::Resolve(ResolveFault::Period(0))));
    }
    let flights = numbers_of(alloc, &named)?;
    Ok(Choice {
        flights,
        first,
        last,
        stations,
        aircraft,
    })
}

/// The stations that the words are.
fn stations_in(alloc: Global, words: &[&str]) -> Result<Vec<Station>, Refusal>
    ensures ok { IfOk result (λ stations.
        each_read typed_station (map (λ t. t.now) words.now) ≡ Some stations.items) }
    ensures err { IfErr result (λ refusal. IsMemory refusal
        ⊎ ((refusal ≡ refused.Value value_fault.BadStation)
        × (each_read typed_station (map (λ t. t.now) words.now) ≡ None))) }
{
    match typed_stations(alloc, words)? {
        Some(stations) => Ok(stations),
        None => Err(Refusal::from(Fault::BadStation)),
    }
}

/// The aircraft types that the words spell.
fn aircraft_in(alloc: Global, words: &[&str]) -> Result<Vec<[u8; 3]>, Refusal>
    ensures ok { IfOk result (λ types.
        each_read typed_aircraft (map (λ t. t.now) words.now) ≡ Some types.items) }
    ensures err { IfErr result (λ refusal. IsMemory refusal
        ⊎ ((refusal ≡ refused.Aircraft)
        × (each_read typed_aircraft (map (λ t. t.now) words.now) ≡ None))) }
{
    match typed_aircraft_types(alloc, words)? {
        Some(types) => Ok(types),
        None => Err(Refusal::Aircraft),
    }
}

/// The date that the word spells, or the one of this number if there is no word.
fn date_or(alloc: Global, other: u16, word: Option<&str>) -> Result<Day, Refusal>
    requires { other < 36525 }
    ensures ok { IfOk result (λ day. dated other (option_map (λ t. t.now) word.entry) ≡ Some day) }
    ensures err { IfErr result (λ refusal. IsMemory refusal
        ⊎ ((refusal ≡ refused.Value value_fault.BadDate)
        × (dated other (option_map (λ t. t.now) word.entry) ≡ None))) }
{
    match word {
        Some(word) => day_in(alloc, word),
        None => {
            let Some(day) = Day::from_number(other) else {
                unreachable!();
            };
            Ok(day)
        }
    }
}

/// Whether the first date is after the last.
fn are_turned(first: Day, last: Day) -> bool
    ensures turned { result ≡ true → first ≤ last → ⊥ }
    ensures rising { result ≡ false → first ≤ last }
{
    first > last
}

/// The flights without their airline.
pub(crate) fn numbers_of(alloc: Global, named: &[Designator]) -> Result<Vec<Flight>, Memory>
    ensures { IfOk result (λ flights. flights.items ≡ map (λ d. d.flight) named.now) }
{
    let mut flights = Vec::with_capacity(alloc, named.len())?;
    for designator in named {
        flights.push(designator.flight)?;
    }
    Ok(flights)
}
