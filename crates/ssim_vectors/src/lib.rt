//! Worked vectors as public constants: data sets, a station table, texts and desk scripts. Readers
//! and writers that fail. The cases, the tests and the examples use them.
#![tactic(auto)]

mod data_sets;
mod devices;
mod texts;
mod vector_names;

pub use data_sets::{
    CARRIER, CARRIER_OF_YEARS, FILL, HEADER, LEG, LEG_FROM_JULY, LEG_OF_YEARS, LEG_TO_JUNE,
    NO_FLIGHTS, SEGMENT, SUMMER, SUMMER_DIVIDED, SUMMER_EXPORT, TRAILER, TRAILER_OF_FIVE,
    TRAILER_OF_THREE, YEARS, add_lines,
};
pub use devices::{Extent, FailingReader, FailingWriter};
pub use texts::{
    EVERY_PART, EVERY_PART_WRITTEN, ONE_DATE_CANCELLED, ONE_WEEKDAY_CANCELLED, STATIONS,
    THREE_DESKS, TIMES_CHANGED_ON_MONDAYS, TWO_DESKS,
};
pub use vector_names::add_vector;
