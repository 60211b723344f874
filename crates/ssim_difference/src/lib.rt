//! The difference of two timetables: on which dates a flight has another itinerary.
//!
//! - [`Difference`]: the old and the new itinerary of a date on which they differ. It is a
//!   [`Value`](ssim_periods::Value), so that `ssim_periods` divides the dates of a flight by it.
//! - [`differences`]: the [`FlightDifference`]s of two timetables: each flight that differs, with
//!   the periods on which it does.
//! - [`chosen_differences`]: the same of the dates of which the old or the new itinerary is chosen.
//! - [`date_count`]: on how many dates flights differ.
//! - [`difference_lines`]: differences as lines, with the old and the new legs. [`push_difference`]
//!   adds the lines of one difference. [`difference_rows`]: the same as CSV.
//! - [`ChangeKind`]: the kind of a change of a flight date. [`summary_lines`] are the numbers of the
//!   changes of each kind, as lines.
//! - [`laws`]: each date that differs is in exactly one period of its flight, and no other date is
//!   in any; no flight differs exactly if the timetables are equal.
//!
//! A timetable is given as the flights that fly, each with its pieces, as `Schedule::into_flights`
//! and an export have them. The only error is [`Memory`].
//!
//! **Promise.** On each date on which a flight differs, exactly one of its pieces holds the date,
//! with the two itineraries of the date. The pieces are the canonical ones: neither the order in
//! which a timetable was made nor how it was divided before changes them.
#![tactic(auto)]

mod change_kind;
mod chosen;
mod dates;
mod difference;
mod flight_difference;
pub mod laws;
mod lines;
mod piece_changes;
mod rows;
mod summary;
mod timetable_difference;

pub use change_kind::ChangeKind;
pub use dates::date_count;
pub use difference::Difference;
pub use flight_difference::FlightDifference;
pub use lines::{difference_lines, push_difference};
pub use rows::difference_rows;
pub use ssim_values::Memory;
pub use summary::summary_lines;
pub use timetable_difference::{chosen_differences, differences};
