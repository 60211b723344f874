//! The columns of segment data records, type 4.

pub(crate) mod segment_head;
pub(crate) mod segment_tail;
