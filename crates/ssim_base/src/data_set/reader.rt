//! The reading of a data set, record by record, with the notes on it.

ghost use Rattle.std.specs.Prelude.{◌≡◌, ◌+◌, ◌<◌, ◌^◌, ◌∷◌, ◌++◌, [], false, true, List, IfErr, IfOk, OnOk};
ghost use Rattle.ssim_records.specs.clauses.Blocks.{Fetches};
ghost use Rattle.ssim_records.specs.Record.{IsRecord, serial_of};
ghost use Rattle.ssim_records.specs.declared.record.Record.{Record};
ghost use Rattle.ssim_base.specs.internal.DataSetReader.{HasRead, unread};
ghost use Rattle.ssim_base.specs.clauses.Reading.{Came, IsRecordAfter, RefusesByRecord};
ghost use Rattle.ssim_base.specs.clauses.Reading.{RefusesReading};
ghost use Rattle.ssim_base.specs.clauses.Reading.{is_of_bytes};
ghost use Rattle.ssim_base.specs.internal.Reading.{Refuses};

use crate::data_set::acceptance::Acceptance;
use crate::data_set::record_sink::RecordSink;
use crate::fault::BaseFault;
use crate::note::Note;
use ssim_records::{Record, RecordFault, Records, Source, frames_are_one};
use ssim_values::Memory;
use std::alloc::Global;

/// The state for checking the next record, and the notes on the records accepted so far.
#[derive(Drop)]
pub(crate) struct DataSetReader {
    pub kept: Acceptance,
    pub notes: Vec<Note>,
    /// The serial of the record before, or 0.
    previous: u32,
}

impl DataSetReader {
    ghost use Rattle.ssim_base.specs.internal.Acceptance.{Accepts, HasAccepted, IsRecordRefused};
    ghost use Rattle.ssim_base.specs.internal.DataSetReader.{notes_at};

    /// No record.
    pub(crate) fn new(alloc: Global) -> DataSetReader
        ensures kept { HasAccepted result.kept [] }
        ensures notes { result.notes.items ≡ [] }
        ensures previous { result.previous ≡ 0 }
    {
        DataSetReader {
            kept: Acceptance::new(alloc),
            notes: Vec::new(alloc),
            previous: 0,
        }
    }

    /// Accepts one more record with its number, or refuses it. An accepted record becomes the
    /// record as the base has it.
    ///
    /// This function and those that it calls for each record are inlined into the loop that reads
    /// the records.
    #[inline(always)]
    pub(crate) fn take(&mut self, number: u64, one: &mut Record) -> Result<(), BaseFault>
        ensures accepts { OnOk result (Accepts self.old.kept self.new.kept one.old one.new) }
        ensures noted { OnOk result (self.new.notes.items
            ≡ self.old.notes.items ++ notes_at number self.old.previous one.old) }
        ensures previous { OnOk result (self.new.previous ≡ serial_of one.old) }
        ensures err { IfErr result (λ e. (earlier : List Record) → HasAccepted self.old.kept earlier
            → IsRecordRefused number earlier one.old e) }
        ensures is_record { IsRecord one.old }
    {
        // `put` changes the record, so its serial is read before.
        self.note(number, one)?;
        self.kept.put(number, one)
    }

    /// Forgets the notes so far. The next record is expected to have the serial after `previous`.
    pub(crate) fn follow(&mut self, previous: u32)
        ensures kept { self.new.kept ≡ self.old.kept }
        ensures notes { self.new.notes.items ≡ [] }
        ensures previous { self.new.previous ≡ previous }
    {
        self.notes.clear();
        self.previous = previous;
    }

    // Adds the notes on a record.
    #[inline(always)]
    fn note(&mut self, number: u64, one: &Record) -> Result<(), Memory>
        ensures noted { OnOk result (self.new.notes.items
            ≡ self.old.notes.items ++ notes_at number self.old.previous one.now) }
        ensures previous { OnOk result (self.new.previous ≡ serial_of one.now) }
        ensures kept { self.new.kept ≡ self.old.kept }
        ensures is_record { IsRecord one.now }
    {
        let serial = one.serial();
        if serial as u64 != self.previous as u64 + 1 {
            self.add_note(Note::Serial(number))?;
        }
        if let Record::Trailer(trailer) = one {
            if trailer.check() != self.previous {
                self.add_note(Note::CheckReference(number))?;
            }
        }
        self.previous = serial;
        Ok(())
    }

    // Adds a note. Few records have one.
    #[inline(never)]
    fn add_note(&mut self, note: Note) -> Result<(), Memory>
        ensures noted { OnOk result (self.new.notes.items ≡ self.old.notes.items ++ note ∷ []) }
        ensures previous { self.new.previous ≡ self.old.previous }
        ensures kept { self.new.kept ≡ self.old.kept }
    {
        self.notes.push(note)?;
        Ok(())
    }
}

/// Puts the records of a reader into `records`. Returns the state after them, and the number after
/// the last of them.
pub(crate) fn read_records<R: Source, L: RecordSink>(
    alloc: Global,
    records: &mut L,
    blocks: &mut Records,
    reader: &mut R,
) -> Result<(DataSetReader, u64), BaseFault>
    requires empty { L.has records.old [] }
    requires unread { blocks.old ≡ unread blocks.old.limit }
    requires limit { blocks.old.limit < 2 ^ 64 }
    ensures ok { IfOk result (λ read.
        HasRead blocks.old.limit (R.state reader.old).left (L.has records.new) read.0 read.1) }
    ensures err { IfErr result (λ e. Refuses blocks.old.limit (R.state reader.old).left e) }
    ensures no_failure { IfOk result (λ _. (R.state reader.new).failures
        ≡ (R.state reader.old).failures) }
    ensures by_record { IfErr result
        (RefusesByRecord blocks.old.limit (R.state reader.old) (R.state reader.new)) }
    ensures next { IfErr result (λ e.
        is_of_bytes e ≡ true → IsRecordAfter e (blocks.new.number + 1)) }
    ensures limit { IfErr result (λ _. blocks.new.limit ≡ blocks.old.limit) }
    ensures fetched { IfErr result (λ _. Fetches false 0 [] (R.state reader.old).left
        blocks.new.number blocks.new.held (R.state reader.new).left) }
    ensures came { IfErr result (λ _.
        Came (R.state reader.old) (R.state reader.new) blocks.new.came) }
{
    frames_are_one();
    let mut records_read = DataSetReader::new(alloc);
    let mut next = None;
    loop {
        match blocks.next_into(reader, &mut next) {
            Ok(number) => match &mut next {
                Some(record) => {
                    records_read.take(number, record)?;
                    records.push_record(record)?;
                }
                None => return Ok((records_read, blocks.number() + 1)),
            },
            Err(fault) => return Err(BaseFault::Read(fault)),
        }
    }
}

/// Does what `read_records` does, and reads the reader to its end: after a fault of the bytes,
/// those that are left are fetched too. If the reader fails then, or more bytes come than the
/// limit, this is the fault, and it names the record after the invalid one.
pub(crate) fn read_whole<R: Source, L: RecordSink>(
    alloc: Global,
    records: &mut L,
    reader: &mut R,
    limit: u64,
) -> Result<(DataSetReader, u64), BaseFault>
    requires { L.has records.old [] }
    ensures ok { IfOk result (λ read.
        HasRead limit (R.state reader.old).left (L.has records.new) read.0 read.1) }
    ensures err { IfErr result (RefusesReading limit (R.state reader.old) (R.state reader.new)) }
    ensures no_failure { IfOk result (λ _. (R.state reader.new).failures
        ≡ (R.state reader.old).failures) }
{
    let mut blocks = Records::new(limit);
    match read_records(alloc, records, &mut blocks, reader) {
        Ok(read) => Ok(read),
        Err(fault) => {
            if !is_of_bytes(&fault) {
                return Err(fault);
            }
            match blocks.skip_rest(reader) {
                Ok(()) => Err(fault),
                Err(rest) => Err(BaseFault::Read(rest)),
            }
        }
    }
}

/// Whether a fault is of the bytes.
fn is_of_bytes(fault: &BaseFault) -> bool
    ensures { result ≡ is_of_bytes fault.now }
{
    match fault {
        BaseFault::Memory => false,
        BaseFault::Read(RecordFault::ReadFault { .. }) => false,
        BaseFault::Read(RecordFault::ReaderNeverEnds { .. }) => false,
        _ => true,
    }
}
