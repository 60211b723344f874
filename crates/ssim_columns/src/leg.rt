//! The columns of flight leg records, type 3.

pub(crate) mod leg_columns;
pub mod leg_fields;
pub(crate) mod leg_head;
pub(crate) mod leg_name;
pub(crate) mod leg_parts;
pub(crate) mod leg_points;
pub(crate) mod name_text;
pub(crate) mod period_text;
