//! A section of a file of several carriers, as it was read.

use ssim_base::{BaseFault, DataSet, Note};
use ssim_values::Airline;

/// The data set of a section, and the notes on it.
#[derive(Drop)]
pub struct DataSetRead {
    pub data_set: DataSet,
    /// The notes on serials and on the check reference, in the order of their records.
    pub notes: Vec<Note>,
    /// The trailer's number, if its end code is `C` and no carrier follows, or `E` and one does.
    pub end_note: Option<u64>,
}

/// A section: the records of one carrier.
#[derive(Drop)]
pub struct Section {
    /// The airline of the carrier record, if that is valid.
    pub airline: Option<Airline>,
    /// The number of its records other than fill.
    pub records: u64,
    /// Its data set, or why it is refused.
    pub outcome: Result<DataSetRead, BaseFault>,
}
