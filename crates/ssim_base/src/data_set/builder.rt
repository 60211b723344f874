//! A data set that is made record by record.

ghost use Rattle.std.specs.Prelude.{◌≡◌, ◌∷◌, ◌++◌, ℕ, [], List, IfErr, IfOk, OnOk, Ok};
ghost use Rattle.ssim_records.specs.Record.{serial_of};
ghost use Rattle.ssim_records.specs.declared.record.Record.{Record};
ghost use Rattle.ssim_base.specs.Base.{Done, data_set, notes_of};

use crate::data_set::DataSet;
use crate::data_set::reader::DataSetReader;
use crate::data_set::record_sink::RecordSink;
use crate::fault::BaseFault;
use crate::note::Note;
use ssim_records::Record;
use std::alloc::Global;

/// A data set of which the first records are known. Each record comes with the number that its
/// refusal and its notes name.
#[derive(Drop)]
pub struct DataSetBuilder {
    alloc: Global,
    records: Vec<Record>,
    reader: DataSetReader,
}

impl DataSetBuilder {
    ghost use Rattle.ssim_base.specs.clauses.Building.{HasBuilt, IsRefusedAt, IsRefusedAtEnd};

    /// No record, and no notes.
    pub fn new(alloc: Global) -> DataSetBuilder
        ensures built { HasBuilt result [] }
        ensures notes { result.reader.notes.items ≡ [] }
        ensures previous { result.reader.previous ≡ 0 }
    {
        DataSetBuilder {
            alloc,
            records: Vec::new(alloc),
            reader: DataSetReader::new(alloc),
        }
    }

    /// Forgets the notes so far. The next record is expected to have the serial after `previous`.
    pub fn follow(&mut self, previous: u32)
        ensures built { (done : List (ℕ × Record)) → HasBuilt self.old done
            → HasBuilt self.new done }
        ensures notes { self.new.reader.notes.items ≡ [] }
        ensures previous { self.new.reader.previous ≡ previous }
    {
        self.reader.follow(previous);
    }

    /// Adds a record with its number. A refusal is that of the data set, whatever records come
    /// after this one. The record becomes the one that the data set has.
    #[inline(always)]
    pub fn add(&mut self, number: u64, one: &mut Record) -> Result<(), BaseFault>
        ensures built { OnOk result ((done : List (ℕ × Record)) → HasBuilt self.old done
            → HasBuilt self.new (done ++ (number, one.old) ∷ [])) }
        ensures notes { OnOk result (self.new.reader.notes.items
            ≡ self.old.reader.notes.items
            ++ notes_of self.old.reader.previous ((number, one.old) ∷ [])) }
        ensures previous { OnOk result (self.new.reader.previous ≡ serial_of one.old) }
        ensures err { IfErr result (λ e. (done : List (ℕ × Record)) → HasBuilt self.old done
            → IsRefusedAt done (number, one.old) e) }
    {
        self.reader.take(number, one)?;
        self.records.push_record(one)?;
        Ok(())
    }

    /// The data set, and the notes on its records. `number` is the number after the last record: a
    /// record that is missing at the end has it.
    pub fn finish(self, number: u64) -> Result<(DataSet, Vec<Note>), BaseFault>
        requires { (done : List (ℕ × Record)) × HasBuilt self done }
        ensures read { IfOk result (λ read. (done : List (ℕ × Record)) → HasBuilt self done
            → data_set (Done number) done ≡ Ok (read.0, notes_of 0 done)) }
        ensures notes { IfOk result (λ read. read.1.items ≡ self.reader.notes.items) }
        ensures err { IfErr result (λ e. (done : List (ℕ × Record)) → HasBuilt self done
            → IsRefusedAtEnd (Done number) done e) }
    {
        let DataSetBuilder {
            alloc,
            records,
            reader,
        } = self;
        let DataSetReader { kept, notes, .. } = reader;
        if let Some(refusal) = kept.missing() {
            return Err(BaseFault::Refused(number, refusal));
        }
        let flights = kept.flights()?;
        Ok((DataSet::of_base(alloc, records, flights), notes))
    }
}
