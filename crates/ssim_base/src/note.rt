//! Notes: what is unusual in a data set but not refused.

/// Something unusual in a data set that is not refused, with the record number, counted from 1 with
/// fill.
#[derive(Clone, Copy, Debug, PartialEq, Eq)]
pub enum Note {
    /// The serial is not one more than the serial before it, fill aside; the serial before the
    /// first is taken as 0.
    Serial(u64),

    /// The trailer's check reference is not the serial of the record before, fill aside.
    CheckReference(u64),
}
