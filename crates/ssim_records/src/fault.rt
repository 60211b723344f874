//! Why a record is refused.

ghost use Rattle.std.specs.Prelude.{◌≡◌};
ghost use Rattle.ssim_records.specs.Record.{fault_name, fault_number, fault_record};

use thiserror::Error;

/// Why a record is refused, with its record number, counted from 1. The number is 0 if the bytes
/// were read by themselves.
#[derive(Clone, Copy, Debug, Error, PartialEq, Eq)]
pub enum RecordFault {
    /// 10: the input ends within a record.
    #[error("record {record}: the input ends within it")]
    Short { record: u64 },

    /// 11: column 1 is none of `1` to `5`.
    #[error("record {record}: column 1 is none of 1 to 5")]
    BadType { record: u64 },

    /// 12: a field is invalid; the column is its first.
    #[error("record {record}: the field at column {column} is invalid")]
    BadColumn { record: u64, column: usize },

    /// 13: the reader failed.
    #[error("record {record}: the reader failed")]
    ReadFault { record: u64 },

    /// 14: more bytes came than the limit allows.
    #[error("record {record}: more bytes came than the limit allows")]
    ReaderNeverEnds { record: u64 },
}

impl RecordFault {
    /// The number by which the fault is known.
    pub fn number(self) -> u8
        ensures { result ≡ fault_number self }
    {
        match self {
            RecordFault::Short { .. } => 10,
            RecordFault::BadType { .. } => 11,
            RecordFault::BadColumn { .. } => 12,
            RecordFault::ReadFault { .. } => 13,
            RecordFault::ReaderNeverEnds { .. } => 14,
        }
    }

    /// The name by which the fault is known.
    pub fn name(self) -> &'static str
        ensures { result.now ≡ fault_name self }
    {
        match self {
            RecordFault::Short { .. } => "Short",
            RecordFault::BadType { .. } => "BadType",
            RecordFault::BadColumn { .. } => "BadColumn",
            RecordFault::ReadFault { .. } => "ReadFault",
            RecordFault::ReaderNeverEnds { .. } => "ReaderNeverEnds",
        }
    }

    /// The number of the invalid record.
    pub fn record(self) -> u64
        ensures { result ≡ fault_record self }
    {
        match self {
            RecordFault::Short { record }
            | RecordFault::BadType { record }
            | RecordFault::BadColumn { record, .. }
            | RecordFault::ReadFault { record }
            | RecordFault::ReaderNeverEnds { record } => record,
        }
    }
}
