//! The timetable of a base, its canonical export, and what messages do to it.
//!
//! - [`Schedule`]: the itinerary of each flight on each date, which is its [`PlacedLeg`]s in order.
//!   `of` makes it from a base, `of_flights` from some flights of a data set, and `of_data_set`
//!   from a data set whose records are freed; `of_dates` makes it so for some dates alone.
//! - `Schedule::export` and `export_in`: write it as chapter 7 in the one canonical division, or
//!   return an [`ExportFault`]. [`export_data_set`] does the same for the timetable of a data set.
//! - `Schedule::into_flights`: all flights with their [`FlightPieces`], the periods of the same
//!   division; `Schedule::pieces_of` gives those of some flights, which [`flights_in_order`] puts in
//!   order.
//! - `Schedule::apply_sub`: a resolved sub-message acts on each date of its period by itself, by the
//!   rows of a station table; a [`Finding`] counts the dates by what happened on them.
//!
//! Contracts see of a schedule what each flight has on each day (`days_in`) and its cuts
//! (`cuts_in`), and not how it is stored.
//!
//! The promise: a schedule has on each date what the records, and then the sub-messages, say of
//! that date alone; and its export is the chapter 7 of that timetable, which reads back to itself.
#![tactic(auto)]

mod builder;
mod effect;
mod export;
mod finding;
mod itinerary;
mod leg;
mod schedule;
mod timetable;

pub use effect::flight_date::FlightDate;
pub use export::flights::{flights_in_order, listed_flights_are_exported};
pub use export::plan::FlightPieces;
pub use export::{ExportFault, export_data_set};
pub use finding::{Finding, Reason};
pub use itinerary::{Itinerary, same_legs};
pub use leg::{PlacedLeg, copy_legs, same_tails};
pub use schedule::Schedule;
