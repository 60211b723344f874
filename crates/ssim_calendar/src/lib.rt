//! The calendar of a value for each day: on which days there is one, and where it changes.
//!
//! - [`Calendar`]: the different values by first day, and a letter for each day. [`add_new`],
//!   [`place_of`] and [`letter_at`] give the different ones of any values, and their letters.
//! - [`push_picture`]: lines in which a column is a week and a row a weekday, with the letter of
//!   each day.
//! - [`push_legend`]: the number of dates of each letter, and texts that say what it means.
//! - [`laws`]: two days have the same letter if and only if they have the same value.
//!
//! The crate knows nothing of airlines. A value is any type that implements [`Value`] of
//! `ssim_periods`. The only error is [`Memory`].
//!
//! **Promise.** Two days have the same letter if and only if they have the same value, if their
//! values are among the first 52. The picture has each day in the row of its weekday and the column
//! of its week.
#![tactic(auto)]

pub mod laws;
mod legend;
mod letters;
mod picture;
mod week;

pub use legend::push_legend;
pub use letters::{Calendar, add_new, letter_at, place_of};
pub use picture::push_picture;
pub use ssim_periods::{DistinctValues, Value};
pub use ssim_values::Memory;
