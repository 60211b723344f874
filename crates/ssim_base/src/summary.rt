//! What a data set has, without its records.

ghost use Rattle.std.specs.Prelude.{◌≡◌, ℕ, List, Option, IfOk, IfErr};
ghost use Rattle.ssim_records.specs.Device.{Reader};
ghost use Rattle.ssim_base.specs.clauses.Reading.{RefusesReading};
ghost use Rattle.ssim_base.specs.clauses.Summary.{IsSummary};

use crate::data_set::reader::{DataSetReader, read_whole};
use crate::fault::BaseFault;
use crate::note::Note;
use ssim_records::Source;
use std::alloc::Global;

/// The number of records and flights of a data set, and its notes. Records are read and checked as
/// `Base::read` does; none is stored.
#[derive(Drop)]
pub struct Summary {
    /// The number of the records other than fill.
    pub records: usize,
    /// The number of the flights of the leg records.
    pub flights: usize,
    /// In the order of their records. At one record the note on the serial is first.
    pub notes: Vec<Note>,
}

impl Summary {
    ghost use Rattle.ssim_base.specs.internal.DataSetReader.{HasRead, IsCountOf, IsWhole};

    /// Reads what a data set has, record by record, and its reader to the end. At most `limit`
    /// bytes and one more are fetched. The refusals are those of `DataSet::read`.
    pub fn read<R: Source>(alloc: Global, reader: &mut R, limit: u64) -> Result<Summary, BaseFault>
        ensures sums { IfOk result (IsSummary limit (R.state reader.old).left) }
        ensures err { IfErr result
            (RefusesReading limit (R.state reader.old) (R.state reader.new)) }
        ensures no_failure { IfOk result (λ _. (R.state reader.new).failures
            ≡ (R.state reader.old).failures) }
    {
        let mut records = 0;
        let (records_read, number) = read_whole(alloc, &mut records, reader, limit)?;
        Summary::finish(records, records_read, number)
    }

    // The summary of the records that were read; an error if a record is missing at the end.
    fn finish(
        records: usize,
        records_read: DataSetReader,
        number: u64,
    ) -> Result<Summary, BaseFault>
        requires { IsWhole (IsCountOf records) records_read }
        ensures sums { (limit : ℕ) (known : Option (List ℕ))
            → HasRead limit known (IsCountOf records) records_read number
            → IfOk result (IsSummary limit known) }
        ensures err { (limit : ℕ) (before after : Reader)
            → HasRead limit before.left (IsCountOf records) records_read number
            → after.failures ≡ before.failures
            → IfErr result (RefusesReading limit before after) }
    {
        let DataSetReader { kept, notes, .. } = records_read;
        if let Some(refusal) = kept.missing() {
            return Err(BaseFault::Refused(number, refusal));
        }
        let flights = kept.flights()?;
        Ok(Summary {
            records,
            flights: flights.len(),
            notes,
        })
    }
}
