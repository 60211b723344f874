//! Laws of records and of the frames of a stream.

ghost use Rattle.ssim_records.specs.Frames.{FramesAreOne, FramesExist};
ghost use Rattle.ssim_records.specs.Record.{WrittenIsFramed, WrittenSpells};
ghost use Rattle.ssim_records.specs.examples.DataSet.{WorkedRecords};

/// Any bytes have frames, with only one list of blocks and one rest. So what `Records::next`
/// promises of the frames of the bytes ahead is a promise of blocks that exist.
pub fn frames_are_one()
    ensures exist { FramesExist }
    ensures one { FramesAreOne }
{}

/// Records that are written one after another, each with LF and with fill between them, are read
/// back: their frames are these blocks, with their numbers, and each block spells its record.
pub fn written_records_read_back()
    ensures frames { WrittenIsFramed }
    ensures spells { WrittenSpells }
{}

/// A small data set worked out by hand has these records, fields, frames and faults, and its leg
/// these columns with other times and other equipment.
pub fn worked_records()
    ensures { WorkedRecords }
{}
