//! Words of a command line, as people type them.
//!
//! A word is read without its blanks, and with `a` to `z` as `A` to `Z`. Then
//!
//! - [`typed_day`] is a date: `5JUN27`, `05JUN27`, `5JUN2027`, `05JUN2027` or `2027-06-05`;
//! - [`typed_flight`] is a flight designator, or one to four digits and perhaps a letter: a flight of
//!   the airline that is asked for; [`typed_flights`] are those of several words;
//! - [`typed_station`] is a station: three letters; [`typed_stations`] are those of several words;
//! - [`typed_aircraft`] is an aircraft type: one to three letters or digits;
//!   [`typed_aircraft_types`] are those of several words.
//!
//! The only error is [`Memory`].
#![tactic(auto)]

mod aircraft;
mod date;
mod flight;
mod flights;
mod letters;
mod station;

pub use aircraft::{typed_aircraft, typed_aircraft_types};
pub use date::typed_day;
pub use flight::typed_flight;
pub use flights::typed_flights;
pub use ssim_values::Memory;
pub use station::{typed_station, typed_stations};
