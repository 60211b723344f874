//! The records of a base as they are saved: each as it is written, followed by LF.

ghost use Rattle.std.specs.Prelude.{◌≡◌, ◌≤◌, ◌↔◌, ℕ, List, [], IfErr, IfNone, IfOk, IfSome, IsTrue, Ok, OnOk, false, length, take, true};
ghost use Rattle.ssim_records.specs.clauses.InputBuffer.{Gives, Stops, Uses, ahead};
ghost use Rattle.ssim_records.specs.declared.record.Record.{Record};
ghost use Rattle.ssim_base.specs.clauses.SavedBase.{IsAfterUsed, RefusesLines, StopsSaved};
ghost use Rattle.ssim_base.specs.SavedBase.{IsBare, IsBaseRecords, saved};
ghost use Rattle.ssim_base.specs.internal.SavedLines.{IsLine, IsLineOf};

use crate::data_set::DataSet;
use crate::data_set::acceptance::Acceptance;
use crate::data_set::record_sink::RecordSink;
use crate::fault::BaseFault;
use ssim_records::{InputBuffer, InputFault, Record, RecordReader, Source};
use ssim_values::Memory;
use std::alloc::{AllocError, Global};
use thiserror::Error;

/// Why lines are not the records of a base.
#[derive(Clone, Copy, Debug, Error, PartialEq, Eq)]
pub enum SavedFault {
    /// Out of memory.
    #[error("out of memory")]
    Memory,
    /// The next line was not read.
    #[error(transparent)]
    Read(InputFault),
    /// A line is invalid, or a record is missing after the last. This is the number of bytes before
    /// it.
    #[error("the line after {0} bytes is invalid, or a record is missing there")]
    Invalid(u64),
}

impl From<Memory> for SavedFault {
    ghost use Rattle.ssim_base.specs.declared.data_set.saved_lines.SavedFault.TheVariants.{Memory};

    ghost from_gives = { λ _ e. e ≡ Memory };

    fn from(_refused: Memory) -> SavedFault {
        SavedFault::Memory
    }
}

impl From<InputFault> for SavedFault {
    ghost use Rattle.ssim_base.specs.declared.data_set.saved_lines.SavedFault.TheVariants.{Read};

    ghost from_gives = { λ fault e. e ≡ Read fault };

    fn from(fault: InputFault) -> SavedFault {
        SavedFault::Read(fault)
    }
}

impl From<AllocError> for SavedFault {
    ghost use Rattle.ssim_base.specs.declared.data_set.saved_lines.SavedFault.TheVariants.{Memory};

    ghost from_gives = { λ _ e. e ≡ Memory };

    fn from(_refused: AllocError) -> SavedFault {
        SavedFault::Memory
    }
}

// The number of bytes of a record and its LF.
const RECORD_LINE: usize = 201;

// Whether a record is without serial, check reference, rate and overflow, and the end of a leg is a
// date.
fn is_bare(one: &Record) -> bool
    ensures { IsTrue result ↔ IsBare one.now }
{
    match one {
        Record::Header(header) => header.serial() == 0,
        Record::Carrier(carrier) => carrier.serial() == 0,
        Record::Leg(leg) => {
            leg.serial() == 0
                && leg.rate() == b' '
                && leg.overflow() == b' '
                && leg.last().is_some()
        }
        Record::Segment(segment) => segment.serial() == 0 && segment.overflow() == b' ',
        Record::Trailer(trailer) => trailer.serial() == 0 && trailer.check() == 0,
    }
}

// Puts the record of the first line into `into`, if a base can have it, and returns the bytes after
// the line.
fn read_line<'a>(
    reader: &mut RecordReader,
    bytes: &'a [u8],
    into: &mut Option<Record>,
) -> Option<&'a [u8]>
    ensures some { IfSome result (λ rest. IsLineOf into.new bytes.now rest.now) }
    ensures none { IfNone result ((r : Record) (rest : List ℕ) → IsLine r bytes.now rest → ⊥) }
{
    let (block, after) = bytes.split_first_chunk::<200>()?;
    let (end, rest) = after.split_first()?;
    if *end != b'\n' || reader.read_into(block, 0, into).is_err() {
        return None;
    }
    match into {
        Some(one) if is_bare(one) && one.is_written(block) => Some(rest),
        _ => None,
    }
}

// Brings the next line to the beginning of the input, and puts its record into `into`. Says whether
// a base can have it.
#[inline]
fn next_line<R: Source>(
    records: &mut RecordReader,
    input: &mut InputBuffer,
    reader: &mut R,
    into: &mut Option<Record>,
) -> Result<bool, InputFault>
    ensures limit { input.new.limit ≡ input.old.limit }
    ensures uses { OnOk result (Uses [] input.old (R.state reader.old).left input.new
        (R.state reader.new).left) }
    ensures some { result ≡ Ok true → (201 ≤ length input.new.held)
        × IsLineOf into.new (take 201 input.new.held) [] }
    ensures none { result ≡ Ok false
        → IfSome (ahead input.new (R.state reader.new).left) (λ bytes. (r : Record) (rest : List ℕ)
        → IsLine r bytes rest → ⊥) }
    ensures gives { OnOk result (Gives (R.state reader.old) (R.state reader.new) input.old.came
        input.new.came) }
    ensures stops { IfErr result (Stops input.old.limit (R.state reader.old) (R.state reader.new)
        input.old.came) }
{
    if !input.has(reader, RECORD_LINE)? {
        return Ok(false);
    }
    match read_line(records, input.first(RECORD_LINE), into) {
        Some(_) => Ok(true),
        None => Ok(false),
    }
}

/// The data set whose records the next `count` lines of the reader are. Each line is read once:
/// what it spells is compared with it as it is written, and kept. The lines are used, and what
/// comes after them is not.
///
/// The error names the first line that is no record as a base has it, or at which the base is
/// invalid: the lines before it are used. A base without header, carrier or trailer is invalid
/// after its lines.
pub fn read_saved<R: Source>(
    alloc: Global,
    count: usize,
    input: &mut InputBuffer,
    reader: &mut R,
) -> Result<DataSet, SavedFault>
    ensures ok { IfOk result (λ read. IsBaseRecords read × (length read ≡ count)
        × Uses (saved read) input.old (R.state reader.old).left input.new
        (R.state reader.new).left) }
    ensures err { IfErr result (RefusesLines count (ahead input.old (R.state reader.old).left)) }
    ensures offset { IfErr result (IsAfterUsed input.new) }
    ensures limit { input.new.limit ≡ input.old.limit }

    // What the reader gave, and whether it failed.
    ensures gives { OnOk result (Gives (R.state reader.old) (R.state reader.new) input.old.came
        input.new.came) }
    ensures stops { IfErr result (StopsSaved input.old.limit (R.state reader.old)
        (R.state reader.new) input.old.came input.new.came) }
{
    let mut kept = Acceptance::new(alloc);
    let mut records = Vec::new(alloc);
    let mut decoder = RecordReader::new();
    let mut next = None;
    let mut done = 0;
    while done < count {
        if !next_line(&mut decoder, input, reader, &mut next)? {
            return Err(SavedFault::Invalid(input.used()));
        }
        let Some(one) = &mut next else { unreachable!() };
        // A refusal has the number that is given here; the place is the number of bytes that were
        // used.
        match kept.put(0, one) {
            Ok(()) => {
                records.push_record(one)?;
                input.skip(RECORD_LINE);
                done += 1;
            }
            Err(BaseFault::Refused(_, _)) => return Err(SavedFault::Invalid(input.used())),
            Err(_) => return Err(SavedFault::Memory),
        }
    }
    if kept.missing().is_some() {
        return Err(SavedFault::Invalid(input.used()));
    }
    let flights = kept.flights()?;
    Ok(DataSet::of_base(alloc, records, flights))
}
