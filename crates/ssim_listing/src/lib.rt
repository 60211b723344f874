//! The flights of a timetable as text: with their periods or date by date, as lines or as CSV.
//!
//! - [`listing`]: each flight with its periods, and a line for each leg of each period.
//! - [`dated_listing`]: a line for each flight, date and leg.
//! - [`csv_listing`], [`dated_csv_listing`]: the same as CSV, a row for each period or date and leg.
//! - [`CsvRows`]: rows of CSV of any fields; [`push_leg_names`], [`push_leg_row`] and
//!   [`push_no_leg`]: the rows of legs after other fields. [`iso_date`] and [`iso_time`] are dates and
//!   times as fields.
//! - [`Rowed`]: a value that is written as rows, and [`RowedAt`] one that has rows at each number of a
//!   range. [`put_each`] and [`put_range`] add them.
//! - [`name_of`]: a flight as its designator.
//! - [`push_leg_text`]: a leg as one line, which shows some of its columns; [`is_like_one`]: whether
//!   a leg differs from another one that has the same line; [`LegGroups`]: the same of many legs, by
//!   whatever text they have.
//!
//! The flights are those that `ssim_schedule` gives, each with its pieces: the periods of the
//! export. The only error is [`Memory`].
//!
//! **Promise.** Each piece and each date of a piece is there once, in order, with all its legs. CSV
//! is what the crate `csv` writes of the fields.
#![tactic(auto)]

mod csv_rows;
mod dates;
mod division;
mod groups;
mod iso;
mod leg_row;
mod leg_text;
mod lines;
mod marks;
mod rowed;
mod rows;

pub use csv_rows::CsvRows;
pub use groups::{LegGroup, LegGroups, add_leg, are_mixed};
pub use iso::{iso_date, iso_time};
pub use leg_row::{push_leg_names, push_leg_row, push_no_leg};
pub use leg_text::{push_leg_text, push_sequence, push_shown};
pub use lines::{dated_listing, listing, name_of, push_period};
pub use marks::{is_like, is_like_one, mark_of};
pub use rowed::{Rowed, RowedAt, put_each, put_range};
pub use rows::{csv_listing, dated_csv_listing};
pub use ssim_values::Memory;
