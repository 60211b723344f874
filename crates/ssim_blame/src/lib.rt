//! Which message acted last on each date of flights.
//!
//! - [`Maker`]: who made what a flight has on a date: the last sub-message that acted on it, the data
//!   set, or nobody. A sub-message is a [`SubName`].
//! - [`flights_blamed`]: flights with the periods of their dates that have one maker, each a
//!   [`FlightBlame`].
//! - [`blame_lines`], [`blame_rows`]: the same as lines, and as CSV.
//! - [`laws`]: on each date exactly one period names its maker.
//!
//! The steps of a date are those of `DateSteps` of `ssim_desk`, which a history shows. The code never
//! goes over dates: an itinerary and its maker are one value of a period. The only error is
//! [`Memory`].
//!
//! **Promise.** The periods are the canonical ones, as those of a listing: on each of their dates the
//! last step of the history that acted is the one that is named.
#![tactic(auto)]

mod acting;
mod division;
mod flight_blame;
pub mod laws;
mod lines;
mod made;
mod maker;
mod rows;

pub use flight_blame::{FlightBlame, flights_blamed};
pub use lines::blame_lines;
pub use maker::{Maker, SubName};
pub use rows::blame_rows;
pub use ssim_values::Memory;
