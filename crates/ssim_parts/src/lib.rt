//! Parts of a timetable: the flight dates that are chosen, and no others; a timetable in the other
//! time mode; and the sections of a file of several carriers.
//!
//! - [`Choice`]: some flights, the dates of origin from a first to a last, some stations and some
//!   aircraft types. It chooses a flight date if the flight is one of them, the date is one of
//!   them, a leg departs from one of the stations or arrives at it, and a leg is flown with one of
//!   the aircraft types. Where none is named, all are chosen.
//! - [`choose`]: leaves of a timetable the chosen flight dates.
//! - [`convert`]: the timetable in local time of one in UTC, or the other way round. [`FlightFates`]
//!   says for each flight what becomes of its dates ([`Fate`]): which are kept, and which are left
//!   and why ([`LeftReason`]). [`conversion_lines`] are the lines of those that are left, and the
//!   numbers of all. [`unconverted_lines`] are those of a timetable that stays as it is.
//! - [`SectionReader`]: the sections of a file of several carriers, one after another. A [`Section`]
//!   has the data set of a carrier and its notes ([`DataSetRead`]), or why it is refused.
//!
//! A flight date is chosen whole, with all its legs and their segments. The only error of these is
//! [`Memory`].
//!
//! **Promise.** On each chosen date a flight has the itinerary that it had, and on each other date
//! none. Converted, a flight has on each date the legs of the least flight date that comes to it,
//! with moved times and date variations. Each flight date is in the new timetable or is left, and
//! the first reason why is named. A section is what the header and it alone are as a data set, with
//! its records numbered as in the file.
#![tactic(auto)]

mod choice;
mod chosen;
mod converted;
mod date_counts;
mod dated_end;
mod fate;
mod fate_runs;
mod left_lines;
mod leg_end;
mod moved_columns;
mod moved_end;
mod moved_flight;
mod moved_legs;
mod moved_parts;
mod moved_period;
mod moved_time;
mod section;
mod section_builder;
mod sections;

pub use choice::Choice;
pub use chosen::{choose, daily_period};
pub use converted::{Converted, FlightFates, convert};
pub use fate::{Fate, LeftReason};
pub use left_lines::{conversion_lines, unconverted_lines};
pub use section::{DataSetRead, Section};
pub use sections::SectionReader;
pub use ssim_values::Memory;
