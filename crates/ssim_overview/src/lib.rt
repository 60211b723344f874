//! What a timetable has as a whole.
//!
//! - [`Totals`]: how many flights, stations and flight dates it has, and its first and last date.
//! - [`said_rows`]: the station table that its legs say.
//! - [`station_notes`]: what the legs of a data set say that its station table does not have.
//!
//! A timetable is given as the flights that fly, each with its pieces, as `Schedule::into_flights`
//! has them. The only error is [`Memory`].
//!
//! **Promise.** What is counted over the periods of pieces is what the definitions count date by
//! date, neither more nor less.
#![tactic(auto)]

mod held_ends;
mod leg_ends;
mod said_table;
mod said_variation;
mod sayings;
mod spelled_row;
mod station_marks;
mod station_rows;
mod table_notes;
mod totals;

pub use said_table::said_rows;
pub use ssim_values::Memory;
pub use station_rows::SaidRow;
pub use table_notes::{NoteKind, StationNote, station_notes};
pub use totals::Totals;
