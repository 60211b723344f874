//! A value for each day from 1 January 2000 to 31 December 2099.
//!
//! [`Periods`] holds one value for each of the 36,525 days. At first it is a list of a few periods
//! with values, of which no two have a common day, so `apply` calls a [`Change`] once. A change
//! that meets a day of the list makes rows of it: rising *cuts*, the days at which a range begins
//! or ends, and for each range a row of seven values, one for each weekday from Monday on. From
//! then on `apply` calls a change at most seven times for each range that the period touches. A
//! period of a hundred years costs no more than one of a day. No list of days is ever made.
//!
//! A value is any type that implements [`Value`]: it has an empty value, a test for equality, a total
//! order, and a copy, which may run out of memory. The crate knows nothing of airlines.
//!
//! What the contracts promise, for every value and change that keep the laws of their traits:
//!
//! - `apply` replaces the value of each day of the period by the outcome of the change, and keeps
//!   the value of each other day. It returns the number of days of the period in each class.
//!   `replace` does the same and counts nothing. After an error nothing has changed.
//! - `replace_each` does what `replace` does for one change after another.
//! - `pieces` returns the periods of the definition `pieces_of`. By `a_cover_is_the_division`, those
//!   of a value are the one division of its days in the words of `IsNextPeriod`. By `pieces_hold_each_day_once`,
//!   exactly one piece holds each day, the piece with the value of that day; if that value is
//!   empty, none does.
//! - `number_of_days` counts the days that a period holds, by arithmetic.
//! - There are few `cuts`: `new` has none, a copy has the cuts of its source, and `apply`,
//!   `replace` and `replace_each` add at most the first day of each period and the day after its
//!   last.
//!
//! The only error is [`Memory`]: an allocation failed, or the copy of a value or a change ran out
//! of memory.
#![tactic(auto)]

mod apart_periods;
mod common_days;
mod cover;
mod distinct_values;
mod numbers;
mod period_days;
mod periods;
mod range_rows;
mod rows;
mod value;
mod value_key;
mod weekday_bits;

pub use common_days::{are_apart, meets};
pub use cover::union::union;
pub use distinct_values::DistinctValues;
pub use period_days::number_of_days;
pub use periods::Periods;
pub use periods::pieces::{
    a_cover_is_the_division, covers_hold_each_day_once, pieces_hold_each_day_once, worked_pieces,
};
pub use ssim_values::Memory;
pub use value::{Change, Value};
