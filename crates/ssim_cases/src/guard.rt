//! What desks show, to see that a refusal changed nothing.

use crate::desks::push_findings;
use crate::fault::Fault;
use crate::transcript::{number, parts, push_value};
use ssim_desk::Desk;
use ssim_records::Bytes;
use ssim_schedule::{ExportFault, PlacedLeg};
use ssim_values::{Day, Designator};
use std::alloc::{AllocError, Global};

/// Which itineraries are compared: those of these flights from a day to a day.
#[derive(Clone, Copy)]
pub struct Guard<'t> {
    first: u16,
    last: u16,
    flights: &'t str,
}

impl<'t> Guard<'t> {
    /// The first and the last day by their numbers, and then the flights.
    pub fn parse(rest: &'t str) -> Result<Guard<'t>, Fault> {
        let (first, rest) = parts(rest)?;
        let (last, flights) = parts(rest)?;
        Ok(Guard {
            first: day_number(first)?,
            last: day_number(last)?,
            flights,
        })
    }

    /// All that desks show: the messages that they hold, their findings, itineraries, desk files
    /// and exports.
    pub fn seen(&self, alloc: Global, desks: &[Desk]) -> Result<Vec<u8>, Fault> {
        let mut seen = Vec::new(alloc);
        for desk in desks {
            add_held(&mut seen, desk)?;
            push_findings(&mut seen, &desk.findings()?)?;
            self.add_flights(&mut seen, desk)?;
            add_files(alloc, &mut seen, desk)?;
        }
        Ok(seen)
    }

    fn add_flights(&self, seen: &mut Vec<u8>, desk: &Desk) -> Result<(), Fault> {
        for name in self.flights.split_whitespace() {
            let Ok(designator) = Designator::parse(name.as_bytes()) else {
                return Err(Fault::Line);
            };
            self.add_days(seen, desk, &designator)?;
        }
        Ok(())
    }

    fn add_days(
        &self,
        seen: &mut Vec<u8>,
        desk: &Desk,
        designator: &Designator,
    ) -> Result<(), Fault> {
        for number in self.first..=self.last {
            let day = Day::from_number(number).ok_or(Fault::Line)?;
            add_legs(seen, desk.itinerary(&designator.flight, day))?;
        }
        Ok(())
    }
}

fn day_number(text: &str) -> Result<u16, Fault> {
    match u16::try_from(number(text)?) {
        Ok(number) => Ok(number),
        Err(_) => Err(Fault::Line),
    }
}

fn add_held(seen: &mut Vec<u8>, desk: &Desk) -> Result<(), Fault> {
    for held in desk.held() {
        push_value(seen, &held.reference())?;
        seen.push(b'\n')?;
        seen.extend_from_slice(held.text())?;
    }
    Ok(())
}

fn add_legs(seen: &mut Vec<u8>, legs: &[PlacedLeg]) -> Result<(), AllocError> {
    for leg in legs {
        seen.push(leg.sequence())?;
        seen.extend_from_slice(&leg.columns().bytes())?;
        add_tails(seen, leg)?;
    }
    Ok(seen.push(b'\n')?)
}

fn add_tails(seen: &mut Vec<u8>, leg: &PlacedLeg) -> Result<(), AllocError> {
    for tail in leg.tails() {
        seen.extend_from_slice(&tail.bytes())?;
    }
    Ok(())
}

/// Adds the desk file and the export. A desk that has no export shows none.
fn add_files(alloc: Global, seen: &mut Vec<u8>, desk: &Desk) -> Result<(), Fault> {
    let mut files = Bytes::new(alloc);
    if desk.save(&mut files).is_err() {
        return Err(Fault::Memory);
    }
    match desk.export(&mut files) {
        Err(ExportFault::Memory | ExportFault::WriteFault) => Err(Fault::Memory),
        _ => Ok(seen.extend_from_slice(files.bytes())?),
    }
}
