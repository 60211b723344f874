//! Whether times are UTC or local.

/// Whether the times of a data set or of a message are UTC or local to their stations. Records and
/// messages spell it each in their way.
#[derive(Clone, Copy, Debug, PartialEq, Eq)]
pub enum TimeMode {
    Utc,
    Local,
}
