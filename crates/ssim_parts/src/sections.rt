//! The sections of a file of several carriers, one after another.

ghost use Rattle.std.specs.Prelude.{◌≡◌, ◌∷◌, ◌≤◌, ◌<◌, ◌^◌, [], IfErr, IfOk, IfSome, List, None};
ghost use Rattle.std.specs.Prelude.{Option, ℕ};
ghost use Rattle.ssim_base.specs.clauses.Building.{HasBuilt};
ghost use Rattle.ssim_parts.specs.clauses.Sections.{Begins, GivesSection, HasRest, Knows, RefusesFile};
ghost use Rattle.ssim_parts.specs.clauses.Sections.{RefusesNext, most_left};
ghost use Rattle.ssim_parts.specs.internal.SectionBlocks.{HasRead};
ghost use Rattle.ssim_parts.specs.internal.SectionSteps.{ReadsCarrier, ReadsHeader, ReadsOwn};
ghost use Rattle.ssim_parts.specs.internal.SectionSteps.{is_header};
ghost use Rattle.ssim_parts.specs.internal.SectionSteps.{RefusesCarrier, RefusesHeader, RefusesOwn};

use crate::section::Section;
use crate::section_builder::SectionBuilder;
use ssim_base::{BaseFault, BaseRefusal, DataSetBuilder};
use ssim_records::{Record, RecordFault, RecordReader, Records, Source, frames_are_one};
use ssim_values::Memory;
use std::alloc::Global;
use std::marker::Model;

/// A reading of the sections of a file: the file begins with a header, and then it is cut before
/// each block that begins with `2`. Each section is read after the header as a data set, its trailer
/// with `E` for the code `C`; its records are numbered as in the file. The same reader is passed at
/// each call.
#[derive(Drop)]
pub struct SectionReader {
    alloc: Global,
    blocks: Records,
    /// What reads the records.
    decoder: RecordReader,
    header: Record,
    /// The number of the header.
    number: u64,
    /// The block that begins the next section, with its number; none after the last section.
    next: Option<(u64, [u8; 200])>,
    /// Whether no section was read.
    is_first: bool,
    /// The serial of the latest record.
    serial: u32,
    /// The record that was read last: the next one is put in its place.
    record: Option<Record>,
}

impl Model for SectionReader {
    ghost use Rattle.std.specs.Prelude.{◌≡◌, [], ◌∷◌, IsTrue, if◌then◌else◌};
    ghost use Rattle.ssim_records.specs.Record.{serial_of};
    ghost use Rattle.ssim_base.specs.Base.{notes_of};
    ghost use Rattle.ssim_parts.specs.clauses.Sections.{IsOpen, SectionsState};

    ghost Value = { SectionsState };

    ghost view = { λ r. record {
      before = record {
        header = (r.number, r.header);
        notes = if r.is_first then notes_of 0 ((r.number, r.header) ∷ []) else [];
        serial = r.serial;
      };
      next = r.next;
      reading = r.blocks;
    } };

    ghost invariant = { λ r. IsOpen r.next r.blocks
        × (IsTrue r.is_first → r.serial ≡ serial_of r.header) };
}

/// What comes after the blocks of a section.
#[derive(Clone, Copy)]
pub(crate) enum After {
    /// A section that begins with this block.
    Section(u64, [u8; 200]),
    /// Nothing; a next block would have this number.
    End(u64),
    /// Too few bytes for the record with this number.
    Cut(u64),
}

impl SectionReader {
    /// Reads the header of a file, and the first block after it. The refusals are those of a data
    /// set: 10 to 14, 30 if the first record is no header, 31 if no block that begins with `2` comes
    /// after it.
    pub fn new<R: Source>(
        alloc: Global,
        reader: &mut R,
        limit: u64,
    ) -> Result<SectionReader, BaseFault>
        ensures ok { (known known' : Option (List ℕ))
            → Knows (R.state reader.old).left (R.state reader.new).left known known'
            → IfOk result (λ sections. Begins limit known sections known') }
        ensures err { (known known' : Option (List ℕ))
            → Knows (R.state reader.old).left (R.state reader.new).left known known'
            → IfErr result (RefusesFile limit known (R.state reader.old) (R.state reader.new)) }
    {
        frames_are_one();
        let mut blocks = Records::new(limit);
        let mut decoder = RecordReader::new();
        let (number, header) = read_header(&mut blocks, &mut decoder, reader)?;
        let next = read_carrier(&mut blocks, &mut decoder, reader)?;
        Ok(SectionReader {
            alloc,
            blocks,
            decoder,
            header,
            number,
            next: Some(next),
            is_first: true,
            serial: header.serial(),
            record: None,
        })
    }

    /// The next section. After the last one there is none. Only 13, 14 and 90 are refusals; after
    /// one of these there is no section.
    pub fn next_section<R: Source>(&mut self, reader: &mut R) -> Result<Option<Section>, BaseFault>
        ensures ok { (known known' : Option (List ℕ))
            → Knows (R.state reader.old).left (R.state reader.new).left known known'
            → IfOk result (GivesSection self.old known self.new known') }
        ensures err { (known known' : Option (List ℕ))
            → Knows (R.state reader.old).left (R.state reader.new).left known known'
            → IfErr result
            (RefusesNext self.old known (R.state reader.old) (R.state reader.new)) }
        ensures rest { (known known' : Option (List ℕ))
            → Knows (R.state reader.old).left (R.state reader.new).left known known'
            → IfOk result (λ section. IfSome section (λ _. HasRest self.new known')) }
        // So the calls come to an end.
        ensures fewer { IfOk result (λ section. IfSome section
            (λ _. most_left self.new < most_left self.old)) }
    {
        frames_are_one();
        let Some(first) = self.next.take() else {
            return Ok(None);
        };
        let number = first.0;
        let block = first.1;
        let heading = self.heading()?;
        let mut section = SectionBuilder::new(heading, self.serial);
        section.take(&mut self.decoder, number, &block, &mut self.record)?;
        let after = read_own(
            &mut self.blocks,
            &mut self.decoder,
            &mut self.record,
            &mut section,
            reader,
        )?;
        self.is_first = false;
        self.serial = section.serial;
        match after {
            After::Section(number, block) => {
                self.next = Some((number, block));
                let section = section.finish(number, true)?;
                Ok(Some(section))
            }
            After::End(number) => {
                let section = section.finish(number, false)?;
                Ok(Some(section))
            }
            After::Cut(number) => Ok(Some(section.cut_off(number))),
        }
    }

    // The header as the first record of a section.
    fn heading(&self) -> Result<DataSetBuilder, Memory>
        ensures built { IfOk result (λ b. HasBuilt b (self.now.before.header ∷ [])) }
        ensures notes { IfOk result (λ b. b.reader.notes.items ≡ self.now.before.notes) }
        ensures previous { IfOk result (λ b. b.reader.previous ≡ self.now.before.serial) }
    {
        let mut builder = DataSetBuilder::new(self.alloc);
        let mut header = self.header;
        match builder.add(self.number, &mut header) {
            Ok(()) => {}
            // A header that comes first is valid, so memory is out.
            Err(_) => return Err(Memory),
        }
        if self.is_first {
            return Ok(builder);
        }
        builder.follow(self.serial);
        Ok(builder)
    }
}

/// Reads the blocks of a section after the first one. Returns what comes after them.
fn read_own<R: Source>(
    blocks: &mut Records,
    decoder: &mut RecordReader,
    record: &mut Option<Record>,
    section: &mut SectionBuilder,
    reader: &mut R,
) -> Result<After, BaseFault>
    requires open { blocks.old.ended ≡ None }
    requires few { section.old.records ≤ blocks.old.number }
    requires limit { blocks.old.limit < 2 ^ 64 }
    ensures ok { IfOk result (ReadsOwn blocks.old (R.state reader.old).left section.old blocks.new
        (R.state reader.new).left section.new) }
    ensures err { (known known' : Option (List ℕ))
        → Knows (R.state reader.old).left (R.state reader.new).left known known'
        → IfErr result (RefusesOwn blocks.old known (R.state reader.old) (R.state reader.new)) }
{
    frames_are_one();
    loop {
        match blocks.next_block(reader) {
            Ok(Some(next)) => {
                let number = next.0;
                let block = next.1;
                if block[0] == b'2' {
                    return Ok(After::Section(number, block));
                }
                section.take(decoder, number, &block, record)?;
            }
            Ok(None) => return Ok(After::End(blocks.number() + 1)),
            Err(RecordFault::Short { record }) => return Ok(After::Cut(record)),
            Err(fault) => return Err(BaseFault::Read(fault)),
        }
    }
}

/// Whether a record is a header.
fn is_header(record: &Record) -> bool
    ensures { result ≡ is_header record.now }
{
    match record {
        Record::Header(_) => true,
        _ => false,
    }
}

/// Reads the header, with its number.
fn read_header<R: Source>(
    blocks: &mut Records,
    decoder: &mut RecordReader,
    reader: &mut R,
) -> Result<(u64, Record), BaseFault>
    requires open { blocks.old.ended ≡ None }
    requires limit { blocks.old.limit < 2 ^ 64 }
    ensures ok { IfOk result (ReadsHeader blocks.old (R.state reader.old) blocks.new
        (R.state reader.new)) }
    ensures err { (known known' : Option (List ℕ))
        → Knows (R.state reader.old).left (R.state reader.new).left known known'
        → IfErr result
        (RefusesHeader blocks.old known (R.state reader.old) (R.state reader.new)) }
{
    frames_are_one();
    match blocks.next_block(reader) {
        Ok(Some(first)) => {
            let number = first.0;
            let block = first.1;
            let mut record = None;
            match decoder.read_into(&block, number, &mut record) {
                Ok(()) => match record {
                    Some(header) => {
                        if is_header(&header) {
                            return Ok((number, header));
                        }
                        Err(BaseFault::Refused(number, BaseRefusal::NoHeader))
                    }
                    None => unreachable!(),
                },
                Err(fault) => Err(BaseFault::Read(fault)),
            }
        }
        Ok(None) => Err(BaseFault::Refused(blocks.number() + 1, BaseRefusal::NoHeader)),
        Err(fault) => Err(BaseFault::Read(fault)),
    }
}

/// Reads the block after the header, which begins with `2`, with its number.
fn read_carrier<R: Source>(
    blocks: &mut Records,
    decoder: &mut RecordReader,
    reader: &mut R,
) -> Result<(u64, [u8; 200]), BaseFault>
    requires open { blocks.old.ended ≡ None }
    requires limit { blocks.old.limit < 2 ^ 64 }
    ensures ok { IfOk result (ReadsCarrier blocks.old (R.state reader.old).left blocks.new
        (R.state reader.new).left) }
    ensures err { (known known' : Option (List ℕ))
        → Knows (R.state reader.old).left (R.state reader.new).left known known'
        → IfErr result
        (RefusesCarrier blocks.old known (R.state reader.old) (R.state reader.new)) }
{
    frames_are_one();
    match blocks.next_block(reader) {
        Ok(Some(next)) => {
            let number = next.0;
            let block = next.1;
            if block[0] == b'2' {
                return Ok((number, block));
            }
            let mut record = None;
            match decoder.read_into(&block, number, &mut record) {
                Ok(()) => Err(BaseFault::Refused(number, BaseRefusal::NoCarrier)),
                Err(fault) => Err(BaseFault::Read(fault)),
            }
        }
        Ok(None) => Err(BaseFault::Refused(blocks.number() + 1, BaseRefusal::NoCarrier)),
        Err(fault) => Err(BaseFault::Read(fault)),
    }
}
