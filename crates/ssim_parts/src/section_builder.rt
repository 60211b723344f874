//! A section that is read block by block.

ghost use Rattle.std.specs.Prelude.{◌≡◌, ◌<◌, ◌^◌, ◌-◌, ◌+◌, ◌∷◌, ◌++◌, [], Err, IfErr, IfOk, List};
ghost use Rattle.std.specs.Prelude.{Ok, OnOk, false};
ghost use Rattle.ssim_records.specs.Record.{fault_of};
ghost use Rattle.ssim_records.specs.clauses.Record.{HasSpelt};
ghost use Rattle.ssim_records.specs.declared.fault.RecordFault.TheVariants.{Short};
ghost use Rattle.ssim_base.specs.Base.{Broken, Done};
ghost use Rattle.ssim_base.specs.clauses.Building.{HasBuilt};
ghost use Rattle.ssim_parts.specs.Sections.{Before, Block, SectionBlocks, announces, code_note};
ghost use Rattle.ssim_parts.specs.Sections.{of_one_carrier};
ghost use Rattle.ssim_parts.specs.clauses.Sections.{IsSection};
ghost use Rattle.ssim_parts.specs.internal.SectionBlocks.{Adds, HasRead, NamesAirline};

use crate::section::{DataSetRead, Section};
use ssim_base::{BaseFault, DataSetBuilder};
use ssim_records::{Record, RecordFault, RecordReader};
use ssim_values::{Airline, Memory};
use std::alloc::Global;

/// The blocks of a section so far, after the header.
#[derive(Drop)]
pub(crate) struct SectionBuilder {
    /// The records before the first invalid one.
    pub builder: DataSetBuilder,
    /// The airline of the carrier record, if that is valid.
    pub airline: Option<Airline>,
    /// The number of blocks.
    pub records: u64,
    /// Why the section is refused, if it is.
    pub refusal: Option<BaseFault>,
    /// The serial of the latest record, of any section.
    pub serial: u32,
    /// The number of the latest block.
    pub last: u64,
    /// Whether the end code of the latest block announces another carrier.
    pub announces: bool,
}

/// Whether the end code of a block announces another carrier, if the block is a trailer.
fn announces(block: &[u8; 200]) -> bool
    ensures { result ≡ announces block.now }
{
    block[193] == b'C'
}

/// A block as it is in a file of one carrier: a trailer with `E` for the code `C`.
fn of_one_carrier(block: &[u8; 200]) -> [u8; 200]
    ensures { result ≡ of_one_carrier block.now }
{
    let mut bytes = *block;
    if bytes[0] == b'5' && announces(&bytes) {
        bytes[193] = b'E';
    }
    bytes
}

/// Reads a block as it is in a file of one carrier.
pub(crate) fn read_block(
    decoder: &mut RecordReader,
    number: u64,
    block: &[u8; 200],
    into: &mut Option<Record>,
) -> Result<(), RecordFault>
    ensures ok { OnOk result (HasSpelt into.new (of_one_carrier block.now)) }
    ensures err { IfErr result (λ e. fault_of number (of_one_carrier block.now) ≡ Some e) }
{
    if block[0] == b'5' {
        decoder.read_into(&of_one_carrier(block), number, into)
    } else {
        decoder.read_into(block, number, into)
    }
}

/// The note on an end code.
fn code_note(announced: bool, followed: bool, number: u64) -> Option<u64>
    ensures { result ≡ code_note announced followed number }
{
    match (announced, followed) {
        (true, true) | (false, false) => None,
        _ => Some(number),
    }
}

impl SectionBuilder {
    /// A section without a block. `serial` is the serial of the record before it.
    pub(crate) fn new(builder: DataSetBuilder, serial: u32) -> SectionBuilder
        ensures read { (before : Before) → HasBuilt builder (before.header ∷ [])
            → builder.reader.notes.items ≡ before.notes → builder.reader.previous ≡ serial
            → before.serial ≡ serial → HasRead before [] result }
        ensures records { result.records ≡ 0 }
    {
        SectionBuilder {
            builder,
            airline: None,
            records: 0,
            refusal: None,
            serial,
            last: 0,
            announces: false,
        }
    }

    /// One more block. `record` is overwritten.
    pub(crate) fn take(
        &mut self,
        decoder: &mut RecordReader,
        number: u64,
        block: &[u8; 200],
        record: &mut Option<Record>,
    ) -> Result<(), Memory>
        requires { self.old.records < 2 ^ 64 - 1 }
        ensures read { OnOk result ((before : Before) (blocks : List Block)
            → HasRead before blocks self.old
            → HasRead before (blocks ++ (number, block.now) ∷ []) self.new) }
        ensures records { OnOk result (self.new.records ≡ self.old.records + 1) }
    {
        self.records += 1;
        self.last = number;
        self.announces = announces(block);
        match read_block(decoder, number, block, record) {
            Ok(()) => match record {
                Some(record) => self.add(number, record),
                None => unreachable!(),
            },
            Err(fault) => {
                self.pass_invalid(number, fault);
                Ok(())
            }
        }
    }

    /// One more record.
    #[inline(always)]
    fn add(&mut self, number: u64, record: &mut Record) -> Result<(), Memory>
        ensures { OnOk result (Adds self.old self.new (number, Ok record.old)) }
    {
        self.serial = record.serial();
        self.name_airline(record);
        if let Some(_) = self.refusal {
            return Ok(());
        }
        match self.builder.add(number, record) {
            Ok(()) => Ok(()),
            Err(BaseFault::Refused(number, refusal)) => {
                self.refusal = Some(BaseFault::Refused(number, refusal));
                Ok(())
            }
            Err(_) => Err(Memory),
        }
    }

    /// Sets the airline by the first carrier record.
    #[inline(always)]
    fn name_airline(&mut self, record: &Record)
        ensures { NamesAirline self.old self.new record.now }
    {
        if let Record::Carrier(carrier) = record {
            match self.airline {
                None => self.airline = Some(carrier.airline()),
                Some(_) => {}
            }
        }
    }

    /// One more block, which spells no record.
    fn pass_invalid(&mut self, number: u64, fault: RecordFault)
        ensures { Adds self.old self.new (number, Err fault) }
    {
        if let None = self.refusal {
            self.refusal = Some(BaseFault::Read(fault));
        }
    }

    /// The section, if it ends before the block with this number. `followed` says whether a section
    /// follows.
    pub(crate) fn finish(self, number: u64, followed: bool) -> Result<Section, Memory>
        requires { (before : Before) × (blocks : List Block) × HasRead before blocks self }
        ensures { IfOk result (λ section. (before : Before) (blocks : SectionBlocks)
            (read : HasRead before (blocks.first ∷ blocks.later) self)
            → IsSection before blocks (Done number) followed read.items section) }
    {
        let SectionBuilder {
            builder,
            airline,
            records,
            refusal,
            serial: _,
            last,
            announces,
        } = self;
        if let Some(fault) = refusal {
            return Ok(Section {
                airline,
                records,
                outcome: Err(fault),
            });
        }
        match builder.finish(number) {
            Ok((data_set, notes)) => Ok(Section {
                airline,
                records,
                outcome: Ok(DataSetRead {
                    data_set,
                    notes,
                    end_note: code_note(announces, followed, last),
                }),
            }),
            Err(BaseFault::Refused(number, refusal)) => Ok(Section {
                airline,
                records,
                outcome: Err(BaseFault::Refused(number, refusal)),
            }),
            Err(_) => Err(Memory),
        }
    }

    /// The section, if the file ends within the record with this number.
    pub(crate) fn cut_off(self, number: u64) -> Section
        ensures { (before : Before) (blocks : SectionBlocks)
            (read : HasRead before (blocks.first ∷ blocks.later) self)
            → IsSection before blocks (Broken (Short number)) false read.items result }
    {
        let SectionBuilder {
            airline,
            records,
            refusal,
            ..
        } = self;
        match refusal {
            Some(fault) => Section {
                airline,
                records,
                outcome: Err(fault),
            },
            None => Section {
                airline,
                records,
                outcome: Err(BaseFault::Read(RecordFault::Short { record: number })),
            },
        }
    }
}
