//! The board of a station on a date: which flights depart and arrive, by local time.
//!
//! - [`Board`]: a station, a local date, and the time mode of the timetable. `Board::movements`
//!   gives what is on it, from flights that need be right from `first_date` to `last_date` alone.
//! - [`Movement`]: a departure or an arrival of a leg ([`MovementKind`]), with its local time, its
//!   flight, and the other station of the leg.
//! - [`of_kind`]: the departures or the arrivals alone.
//! - [`board_lines`]: a line for each departure and arrival on a board. [`push_movements`] adds a row
//!   of CSV for each, and [`movement_names`] is the row of names.
//! - [`LocalTime`]: a day and a time of day at a station. The day may be beside the calendar.
//!   [`time_of`] is the local time of an end of a leg, [`utc_time_of`] its UTC time, and
//!   [`is_uncertain`] whether they may be wrong.
//! - [`laws`]: only dates of origin near the date of a board have something on it; a movement is a
//!   departure or an arrival.
//!
//! A leg departs on the date of origin plus its date variation of departure, and arrives on the
//! date of origin plus its date variation of arrival. In UTC mode the times are moved by the UTC
//! variation of their station. The only error is [`Memory`].
//!
//! **Promise.** A board has each departure and each arrival of any flight at the station whose
//! local date is the board's, and nothing else, by time, departures first, then by flight,
//! date of origin and leg sequence.
#![tactic(auto)]

mod board;
mod in_order;
mod kinds;
pub mod laws;
mod leg_times;
mod lines;
mod local_time;
mod movement;
mod rows;

pub use board::Board;
pub use kinds::of_kind;
pub use leg_times::{is_uncertain, time_of, utc_time_of};
pub use lines::board_lines;
pub use local_time::LocalTime;
pub use movement::{Movement, MovementKind};
pub use rows::{movement_names, push_movements};
pub use ssim_values::Memory;
