//! The columns of the 200-byte records of a schedule data set, as chapter 7 of IATA's Standard
//! Schedules Information Manual has them: which texts each field allows, what they say, and how
//! they are written.
//!
//! - [`Field`] and [`FieldKind`]: a field's columns and its valid texts. [`first_fault`] finds the
//!   first column of the first invalid field of a table.
//! - [`leg_fields`]: the one table of a leg's fields with their columns. [`LegColumns::text`]
//!   returns the bytes of a field.
//! - [`LegName`] identifies the leg of a record. [`LegColumns`] and [`SegmentTail`] are the columns
//!   that a leg or a segment has of its own, with a reader for each field.
//! - [`LegStations`], [`LegTimes`] and [`LegEquipment`]: the parts of a new leg's columns, and what
//!   messages change in them.
//! - [`read_leg_head`] and [`read_segment_head`]: the columns of a leg or segment that are parsed.
//!   [`LatestColumns`] has those of the latest records, so that equal columns are parsed once.
//! - [`write_leg`] and [`write_segment`]: the one writer of each of these records. [`NameText`] and
//!   [`PeriodText`] are texts that several records have in common, so that they are written once.
//!
//! **Promise.** A field has a value if its text is valid, and a table's first fault is the first
//! column of the first field whose text is not. A leg's columns are changed only where its new
//! times or equipment go. A leg or a segment has one written text, of which it is read again.
#![tactic(auto)]

/// A row of a table: the columns of a field, and its kind.
#[macro_export]
macro_rules! field {
    ($first:literal $last:literal $kind:ident) => {
        Field {
            first: $first,
            last: $last,
            kind: FieldKind::$kind,
        }
    };
}

mod field;
mod latest_columns;
mod latest_months;
mod latest_value;
mod leg;
mod record_writers;
mod segment;
mod text;

pub use field::columns::{
    airline_at, carried_at, created_at, details_at, digits_at, first_day_at, last_day_at, serial_at,
};
pub use field::end_code::{EndCode, end_code_of, end_code_text};
pub use field::time_mode::{time_mode_of, time_mode_text};
pub use field::{Field, FieldKind, first_fault};
pub use latest_columns::LatestColumns;
pub use leg::leg_columns::{LegColumns, own_columns_at};
pub use leg::leg_fields;
pub use leg::leg_head::{LegHead, read_leg_head};
pub use leg::leg_name::LegName;
pub use leg::leg_parts::{LegEquipment, LegStations, LegTimes};
pub use leg::name_text::{NameText, has_digits, name_text};
pub use leg::period_text::{PeriodText, dates_text, end_text};
pub use record_writers::{LegMarks, write_leg, write_segment};
pub use segment::segment_head::{SegmentHead, read_segment_head};
pub use segment::segment_tail::SegmentTail;
pub use text::array::{bytes_of, seven};
pub use text::equality::are_same_seven;
pub use text::number::six_digits;
pub use text::overlay::join;
