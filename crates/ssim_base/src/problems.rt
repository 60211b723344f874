//! All problems of a data set, not only the first.

ghost use Rattle.std.specs.Prelude.{◌≡◌, ◌<◌, ◌+◌, ◌-◌, ◌^◌, ◌∷◌, ◌++◌, ◌||◌, [], false, IfErr, IfOk, OnOk};
ghost use Rattle.ssim_records.specs.declared.fault.RecordFault.{RecordFault};
ghost use Rattle.ssim_base.specs.Problems.{HasProblems, Standing};
ghost use Rattle.ssim_base.specs.clauses.Problems.{RefusesProblems};
ghost use Rattle.ssim_base.specs.Problems.{begins_as_trailer, missing_in, fault_at};
ghost use Rattle.ssim_base.specs.internal.Problems.{Finds, HasStanding, IsNew, Passes, Takes};

use crate::data_set::acceptance::{Acceptance, alone_refusal};
use crate::fault::{BaseFault, BaseRefusal};
use ssim_records::{Record, RecordFault, RecordReader, Records, Source, frames_are_one};
use ssim_values::Memory;
use std::alloc::Global;

/// All problems of a data set. Each invalid record has the refusal that it would have without the
/// invalid records before it. After an invalid header or carrier record, each record is read by
/// itself (11, 12, 36, 37, 38). The problem at the end is 10 for an incomplete record, 30 or 31 for
/// a header or carrier record that is missing, and 32 if no record begins with `5`.
#[derive(Drop)]
pub struct Problems {
    /// The number of complete records other than fill.
    pub records: u64,
    /// The problems, in order.
    pub faults: Vec<BaseFault>,
}

impl Problems {
    /// Reads all problems of a data set, and its reader to the end. At most `limit` bytes and one
    /// more are fetched. Only 13, 14 and 90 are refusals.
    pub fn read<R: Source>(alloc: Global, reader: &mut R, limit: u64) -> Result<Problems, BaseFault>
        ensures ok { IfOk result (HasProblems limit (R.state reader.old).left) }
        ensures err { IfErr result (RefusesProblems limit (R.state reader.old) (R.state reader.new)) }
        ensures no_failure { IfOk result (λ _. (R.state reader.new).failures
            ≡ (R.state reader.old).failures) }
    {
        frames_are_one();
        let mut blocks = Records::new(limit);
        let mut found = ProblemReader::new(alloc);
        loop {
            match blocks.next_block(reader) {
                Ok(Some(next)) => {
                    let number = next.0;
                    let block = next.1;
                    found.take(number, &block)?;
                }
                Ok(None) => {
                    let problems = found.finish(blocks.number() + 1)?;
                    return Ok(problems);
                }
                Err(RecordFault::Short { record }) => {
                    let problems = found.cut_off(record)?;
                    return Ok(problems);
                }
                Err(fault) => return Err(BaseFault::Read(fault)),
            }
        }
    }
}

/// The problems of the records so far.
#[derive(Drop)]
pub(crate) struct ProblemReader {
    pub checks: Checks,
    /// Whether a record began with `5`.
    pub trailer: bool,
    pub records: u64,
    pub faults: Vec<BaseFault>,
    decoder: RecordReader,
}

impl ProblemReader {
    /// No record.
    fn new(alloc: Global) -> ProblemReader
        ensures { IsNew result }
    {
        ProblemReader {
            checks: Checks {
                accepted: Acceptance::new(alloc),
                alone: false,
            },
            trailer: false,
            records: 0,
            faults: Vec::new(alloc),
            decoder: RecordReader::new(),
        }
    }

    /// One more record, of 200 bytes.
    fn take(&mut self, number: u64, block: &[u8; 200]) -> Result<(), Memory>
        requires { self.old.records < 2 ^ 64 - 1 }
        ensures takes { OnOk result (Takes self.old self.new number block.now) }
        ensures records { self.new.records ≡ self.old.records + 1 }
        ensures trailer { self.new.trailer
            ≡ (self.old.trailer || begins_as_trailer (number, block.now)) }
    {
        self.records += 1;
        self.trailer = self.trailer || block[0] == b'5';
        let mut record = None;
        let read = self.decoder.read_into(block, number, &mut record);
        let problem = match read {
            Ok(()) => match &mut record {
                Some(record) => self.checks.check(number, record)?,
                None => unreachable!(),
            },
            Err(fault) => {
                self.checks.pass_invalid();
                Some(BaseFault::Read(fault))
            }
        };
        if let Some(fault) = problem {
            self.faults.push(fault)?;
        }
        Ok(())
    }

    /// The problems if the bytes end before the record with this number.
    fn finish(self, number: u64) -> Result<Problems, Memory>
        ensures records { IfOk result (λ problems. problems.records ≡ self.records) }
        ensures faults { IfOk result (λ problems. (standing : Standing)
            → HasStanding self.checks standing
            → problems.faults.items ≡ self.faults.items
            ++ fault_at number (missing_in standing self.trailer)) }
    {
        let ProblemReader {
            checks,
            trailer,
            records,
            mut faults,
            ..
        } = self;
        if let Some(refusal) = checks.missing(trailer) {
            faults.push(BaseFault::Refused(number, refusal))?;
        }
        Ok(Problems { records, faults })
    }

    /// The problems if the bytes end within the record with this number.
    fn cut_off(self, number: u64) -> Result<Problems, Memory>
        ensures records { IfOk result (λ problems. problems.records ≡ self.records) }
        ensures faults { IfOk result (λ problems. problems.faults.items
            ≡ self.faults.items ++ BaseFault.Read (RecordFault.Short number) ∷ []) }
    {
        let ProblemReader {
            records,
            mut faults,
            ..
        } = self;
        faults.push(BaseFault::Read(RecordFault::Short { record: number }))?;
        Ok(Problems { records, faults })
    }
}

/// The check of each record: after the valid ones before it, or by itself.
#[derive(Drop)]
pub(crate) struct Checks {
    /// The check against the valid records so far.
    pub accepted: Acceptance,
    /// Whether the header or the carrier record is invalid.
    pub alone: bool,
}

impl Checks {
    /// The problem of one more record.
    fn check(&mut self, number: u64, one: &mut Record) -> Result<Option<BaseFault>, Memory>
        ensures { IfOk result (Finds self.old self.new number one.old) }
    {
        if self.alone {
            return Ok(match alone_refusal(one) {
                Some(refusal) => Some(BaseFault::Refused(number, refusal)),
                None => None,
            });
        }
        match self.accepted.offer(number, one) {
            Ok(()) => Ok(None),
            Err(BaseFault::Refused(number, refusal)) => {
                self.pass_invalid();
                Ok(Some(BaseFault::Refused(number, refusal)))
            }
            Err(_) => Err(Memory),
        }
    }

    /// Goes on after an invalid record.
    fn pass_invalid(&mut self)
        ensures { Passes self.old self.new }
    {
        self.alone = self.alone || self.accepted.is_at_heading();
    }

    /// What is missing if no record follows. `trailer` says whether a record began with `5`.
    fn missing(&self, trailer: bool) -> Option<BaseRefusal>
        ensures { (standing : Standing) → HasStanding self.now standing
            → result ≡ missing_in standing trailer }
    {
        if self.alone {
            return None;
        }
        match self.accepted.missing() {
            Some(BaseRefusal::NoHeader) => Some(BaseRefusal::NoHeader),
            Some(BaseRefusal::NoCarrier) => Some(BaseRefusal::NoCarrier),
            _ if trailer => None,
            _ => Some(BaseRefusal::NoTrailer),
        }
    }
}
