//! The 200-byte records of a schedule data set, as chapter 7 of IATA's Standard Schedules
//! Information Manual has them, and the devices that they come from and go to.
//!
//! - [`Record`]: a [`Header`], [`Carrier`], [`LegRecord`], [`SegmentRecord`] or [`Trailer`], read
//!   by [`read_record`] or a [`RecordReader`] and written by [`write_record`] and [`write_over`].
//! - [`leg_fields`], [`LegName`], [`LegColumns`], [`SegmentTail`], [`NameText`] and the like: the
//!   columns of records, from `ssim_columns`.
//! - [`Records`]: the records of a stream, one after another, from any [`Source`].
//! - [`Source`] and [`Sink`]: devices that bytes come from and go to. Contracts know the bytes of a
//!   `&[u8]` and of [`Bytes`]. [`Input`] and [`Output`], over std's readers and writers, count their
//!   bytes and failures. A [`Peekable`] gives the bytes of another source, of which the first can be
//!   looked at before.
//! - [`InputBuffer`]: the bytes of a [`Source`] as they are needed, at most a limit; [`InputFault`]:
//!   refusals 13 and 14 of it.
//! - [`RecordFault`]: refusals 10 to 14, with the record number.
//!
//! **Promise.** Records are read and written exactly. If 200 bytes spell a record, that record is
//! read; else the fault names the first column of the first invalid field. What is written is read
//! back as it was. The records of a stream come in order, with their numbers, in whatever pieces
//! its reader returns the bytes. 13 comes only if the reader failed, and 14 only if more bytes came
//! than the limit. Only [`Bytes`] allocates, when it grows.
#![tactic(auto)]

mod blocks;
mod bytes;
mod device;
mod fault;
mod input_buffer;
mod laws;
mod peekable;
mod record;
mod records;
mod stream;
mod window;

pub use bytes::Bytes;
pub use device::{DeviceFault, Sink, Source};
pub use fault::RecordFault;
pub use input_buffer::{InputBuffer, InputFault};
pub use laws::{frames_are_one, worked_records, written_records_read_back};
pub use peekable::Peekable;
pub use record::carrier::Carrier;
pub use record::header::Header;
pub use record::leg::LegRecord;
pub use record::segment::SegmentRecord;
pub use record::trailer::Trailer;
pub use record::{Record, RecordReader, read_into, read_record, write_over, write_record};
pub use records::Records;
pub use ssim_columns::{
    EndCode, Field, LegColumns, LegEquipment, LegName, LegStations, LegTimes, NameText, PeriodText,
    SegmentTail, leg_fields,
};
pub use ssim_values::TimeMode;
pub use stream::{Input, Output, put_counted};
