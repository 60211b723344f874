//! A timetable made of records.

pub(crate) mod flight_set;
pub(crate) mod leg_group;
pub(crate) mod leg_key;
pub(crate) mod pending_segments;
pub(crate) mod run;
pub(crate) mod table_builder;
pub(crate) mod timetable_builder;
pub(crate) mod wanted_dates;
