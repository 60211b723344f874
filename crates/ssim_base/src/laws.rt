//! Laws of exports, of bases, and of messages resolved against bases.
ghost use Rattle.ssim_base.specs.Base.{NamesTheEnd, NamesTheFirst};
ghost use Rattle.ssim_base.specs.Problems.{SameBytesSameProblems};
ghost use Rattle.ssim_base.specs.ReadBack.{BasesExport, BytesReadBack, ExportsAreOne};
ghost use Rattle.ssim_base.specs.Reading.{IsReadBack, SameBytesSameBase};
ghost use Rattle.ssim_base.specs.Resolve.{HasOneOutcome};
ghost use Rattle.ssim_base.specs.SavedBase.{SavedCanBeRead, SavedIsOne, SavedIsRead};
ghost use Rattle.ssim_base.specs.Stations.{SameBytesSameRows};
// The worked examples, which are computed: a false one is an error in this file.
ghost use Rattle.ssim_base.specs.examples.DataSets;
ghost use Rattle.ssim_base.specs.examples.StationTables;

use ssim_records::{frames_are_one, written_records_read_back};

/// The bytes of an export are read as records. None is refused, and there are no notes. The base
/// has the frame and, on each date, the itineraries that were exported, and its export is the same
/// bytes. The bytes of two exports are equal exactly if their timetables have the same itineraries
/// and a base keeps their frames alike.
pub fn export_bytes_read_back()
    ensures read { BytesReadBack }
    ensures one { ExportsAreOne }
{
    frames_are_one();
    written_records_read_back();
}

/// A data set is refused for its first invalid record: the least number n such that record n is not
/// allowed after records 1 to n - 1. If each record is valid, a missing record or the end of the
/// bytes decides.
pub fn first_invalid_record_is_named()
    ensures first { NamesTheFirst }
    ensures end { NamesTheEnd }
{}

/// Bytes that spell the records of a base, and nothing else, are read as this base with its notes,
/// unless the reader fails. So the bytes of an export are read as the base of
/// `export_bytes_read_back`, without notes.
pub fn written_bases_are_read()
    ensures { IsReadBack }
{
    frames_are_one();
}

/// The records of a base, each written and followed by LF, are read as the same records, unless the
/// reader fails. Two bases whose records are written as the same bytes have the same records.
pub fn saved_records_are_read()
    ensures can_be_read { SavedCanBeRead }
    ensures only { SavedIsRead }
    ensures one { SavedIsOne }
{
    frames_are_one();
    written_records_read_back();
}

/// The bytes of a data set are read as one base with one list of notes, whatever the limits are.
pub fn same_bytes_same_base()
    ensures { SameBytesSameBase }
{
    frames_are_one();
}

/// The bytes of a data set have one list of problems.
pub fn same_bytes_same_problems()
    ensures { SameBytesSameProblems }
{
    frames_are_one();
}

/// The bytes of a station table are read as one list of rows.
pub fn same_bytes_same_rows()
    ensures { SameBytesSameRows }
{}

/// A base and a message have at most one outcome: the message with full dates, or its first
/// refusal. So what `resolve` returns is determined by them, unless it is out of memory.
pub fn resolving_has_one_outcome()
    ensures { HasOneOutcome }
{}

/// A base that is read has a frame and a timetable that can be exported.
pub fn bases_can_be_exported()
    ensures { BasesExport }
{}
