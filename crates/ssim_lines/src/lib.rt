//! Values that are printed one after another.
//!
//! - [`Printed`]: a value whose text is added to lines, under a context such as the name of its
//!   flight. [`push_each`] adds the text of each value of a slice.
//! - [`PrintedAt`]: a value that has a text at each number of a range. [`push_range`] adds them.
//! - [`push_blanks`]: a number of blanks; [`written`]: the result of `write!` into memory.
//!
//! The only error is [`Memory`].
#![tactic(auto)]

mod outcome;
mod printed;
mod printed_at;

pub use outcome::written;
pub use printed::{Printed, push_blanks, push_each};
pub use printed_at::{PrintedAt, push_range};
pub use ssim_values::Memory;
