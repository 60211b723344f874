//! The stored flights of a schedule, in blocks that copies of the schedule share.

pub(crate) mod copy_on_write;
pub(crate) mod flight_table;
