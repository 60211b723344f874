//! The base of a desk: a data set as it was read, with a table of stations, and messages resolved
//! against it.
//!
//! - [`Stations`]: which UTC variation a station has on a day, read from a table of
//!   [`StationRow`]s. [`variation_at`] looks it up in rows.
//! - [`DataSet`]: a data set as it was read, record by record, in one list; or a [`BaseFault`],
//!   which names the first invalid record. What is unusual but not refused is a [`Note`].
//! - [`DataSetBuilder`]: a data set that is made record by record.
//! - [`Base`]: a data set with a station table.
//! - [`read_saved`]: the data set whose records the next lines of a file are, or a [`SavedFault`].
//! - [`Summary`]: how many records and flights a data set has, and its notes. It is read as a base
//!   is, but no record is stored.
//! - [`Problems`]: every invalid record of a data set, not only the first.
//! - [`BaseFrame`]: the header, the carrier record and the trailer of a base. Messages resolve by
//!   it, and a timetable is exported in it.
//! - [`resolve`] and `BaseFrame::resolve`: resolve a message against a base: its reference with its
//!   year, its sub-messages with full dates, or a [`ResolveFault`].
//! - [`OutputBuffer`]: bytes for a sink, or a [`WriteFault`]. [`put_record`], [`put_leg`],
//!   [`put_segment`], [`put_fill`] and [`put_bytes`] fill it, and [`flush`] empties it. [`put_all`]
//!   puts bytes without it.
//! - [`Place`]: what a fault names, such as a record, a column, a line, a sub-message or a flight.
//! - [`laws`]: the first invalid record is named; a base and its export read back; saved records
//!   read back; a message has one outcome.
//!
//! The promise: a data set, a station table and a message's dates are read exactly, however a
//! reader cuts the bytes, and the first invalid record, line or date is the one that is named.
#![tactic(auto)]

mod base;
mod base_frame;
mod data_set;
mod fault;
pub mod laws;
mod leg_table;
mod note;
mod output_buffer;
mod place;
mod problems;
mod resolution;
mod stations;
mod sub_message;
mod summary;

pub use base::{Base, BaseRead};
pub use base_frame::BaseFrame;
pub use data_set::DataSet;
pub use data_set::acceptance::validity_end;
pub use data_set::builder::DataSetBuilder;
pub use data_set::saved_lines::{SavedFault, read_saved};
pub use fault::{BaseFault, BaseRefusal};
pub use note::Note;
pub use output_buffer::{
    OutputBuffer, WriteFault, flush, put_all, put_bytes, put_fill, put_leg, put_record, put_segment,
};
pub use place::Place;
pub use problems::Problems;
pub use resolution::{ResolveFault, ResolvedText, resolve};
pub use stations::{StationFault, StationRow, Stations, variation_at};
pub use sub_message::{Resolved, ResolvedSub};
pub use summary::Summary;
