//! Texts in the columns of a record.

pub(crate) mod array;
pub(crate) mod clock_digits;
pub(crate) mod equality;
pub(crate) mod number;
pub(crate) mod overlay;
