//! The desks of a case.

ghost use Rattle.std.specs.Prelude.{All, IsTrue};
ghost use Rattle.ssim_desk.specs.Steps.{IsInRange};

use crate::fault::Fault;
use crate::transcript::{number, push, push_line, push_named, push_refused, push_value};
use ssim_base::{Base, Stations};
use ssim_desk::{Answer, Desk, DeskFault, FindingLine, Step, Took, run_steps};
use ssim_program::Refusal;
use ssim_records::Bytes;
use std::alloc::Global;

/// The desks of a case, numbered from 1.
#[derive(Drop)]
pub struct Desks {
    alloc: Global,
    desks: Vec<Desk>,
}

impl Desks {
    pub fn new(alloc: Global) -> Desks {
        Desks {
            alloc,
            desks: Vec::new(alloc),
        }
    }

    /// Takes all desks away.
    pub fn clear(&mut self) {
        self.desks.clear();
    }

    /// Adds new desks over one base.
    pub fn add(&mut self, count: usize, data_set: &[u8], table: &[u8]) -> Result<(), Fault> {
        for _ in 0..count {
            let base = base_of(self.alloc, data_set, table)?;
            self.push(Desk::start(self.alloc, base)?)?;
        }
        Ok(())
    }

    fn push(&mut self, desk: Desk) -> Result<(), Fault> {
        Ok(self.desks.push(desk)?)
    }

    /// Adds a desk over the base of a data set, and prints the result.
    pub fn start(&mut self, data_set: &[u8], table: &[u8], out: &mut Vec<u8>) -> Result<(), Fault> {
        match Desk::start(self.alloc, base_of(self.alloc, data_set, table)?) {
            Ok(desk) => {
                self.push(desk)?;
                push_line(out, "started")
            }
            Err(_) => push_memory(out),
        }
    }

    /// Adds a desk over a copy of the base of another.
    pub fn copy(&mut self, place: &str) -> Result<(), Fault> {
        let base = self.desk(place)?.base().copy()?;
        self.push(Desk::start(self.alloc, base)?)
    }

    /// All desks, in order.
    pub fn all(&self) -> &[Desk] {
        &self.desks
    }

    pub fn desk(&self, text: &str) -> Result<&Desk, Fault> {
        self.desks.get(place_of(text)?).ok_or(Fault::Line)
    }

    /// Takes a text, and prints the result.
    pub fn take(&mut self, place: &str, text: &[u8], out: &mut Vec<u8>) -> Result<(), Fault> {
        let desk = self.desks.get_mut(place_of(place)?).ok_or(Fault::Line)?;
        match desk.take(text) {
            Ok((Took::Taken, _)) => push_line(out, "taken"),
            Ok((Took::Repeated, _)) => push_line(out, "repeated"),
            Err(fault) => push_refused(out, &Refusal::Desk(fault)),
        }
    }

    /// Merges a desk into another, and prints the result.
    pub fn merge(&mut self, into: &str, from: &str, out: &mut Vec<u8>) -> Result<(), Fault> {
        match self.merged(place_of(into)?, place_of(from)?)? {
            Ok(()) => push_line(out, "merged"),
            Err(fault) => push_refused(out, &Refusal::Desk(fault)),
        }
    }

    fn merged(&mut self, into: usize, from: usize) -> Result<Result<(), DeskFault>, Fault> {
        let later = into.max(from);
        if later >= self.desks.len() {
            return Err(Fault::Line);
        }
        let (front, back) = self.desks.split_at_mut(later);
        let (Some(first), Some(second)) = (front.get_mut(into.min(from)), back.first_mut()) else {
            return Err(Fault::Line);
        };
        Ok(if into < from {
            first.merge(second)
        } else {
            second.merge(first)
        })
    }

    /// Tries steps on all desks, and prints the result of each.
    pub fn run(&mut self, steps: &[Step], out: &mut Vec<u8>) -> Result<(), Fault> {
        if !are_in_range(self.desks.len(), steps) {
            return Err(Fault::Line);
        }
        match run_steps(self.alloc, &mut self.desks, steps) {
            Ok(answers) => print_answers(&answers, out),
            Err(_) => push_memory(out),
        }
    }

    /// Adds the desk of a file, and prints the result.
    pub fn open(&mut self, file: &[u8], limit: u64, out: &mut Vec<u8>) -> Result<(), Fault> {
        let mut left = file;
        match Desk::open(self.alloc, &mut left, limit) {
            Ok(desk) => {
                self.push(desk)?;
                push_line(out, "opened")
            }
            Err(fault) => push_refused(out, &Refusal::Desk(fault)),
        }
    }

    /// Prints whether all desks have equal exports.
    pub fn compare(&self, out: &mut Vec<u8>) -> Result<(), Fault> {
        let first = self.desk("1")?;
        let mut expected = Bytes::new(self.alloc);
        let refused = first.export(&mut expected);
        let mut same = true;
        for desk in &self.desks {
            let mut bytes = Bytes::new(self.alloc);
            let result = desk.export(&mut bytes);
            same = same && result == refused && bytes.bytes() == expected.bytes();
        }
        push_line(out, if same { "same" } else { "different" })
    }
}

/// The place in the list of the desk of this number.
pub fn place_of(text: &str) -> Result<usize, Fault> {
    number(text)?.checked_sub(1).ok_or(Fault::Line)
}

fn is_in_range(count: usize, step: &Step) -> bool
    ensures { IsTrue result → IsInRange count step.now }
{
    match step {
        Step::Take(desk, _) => *desk < count,
        Step::Merge(into, from) => *into < count && *from < count,
    }
}

fn are_in_range(count: usize, steps: &[Step]) -> bool
    ensures { IsTrue result → All (IsInRange count) steps.now }
{
    for step in steps {
        if !is_in_range(count, step) {
            return false;
        }
    }
    true
}

pub fn base_of(alloc: Global, data_set: &[u8], table: &[u8]) -> Result<Base, Fault> {
    let stations = match Stations::read(alloc, table) {
        Ok(stations) => stations,
        Err(fault) => return Err(Fault::of(fault.number())),
    };
    let mut left = data_set;
    match Base::read(alloc, &mut left, stations, 1_000_000) {
        Ok(read) => Ok(read.base),
        Err(fault) => Err(Fault::of(fault.number())),
    }
}

fn print_answers(answers: &[Answer], out: &mut Vec<u8>) -> Result<(), Fault> {
    for answer in answers {
        match answer {
            Answer::Taken(_) => push_line(out, "step taken")?,
            Answer::Repeated(_) => push_line(out, "step repeated")?,
            Answer::Merged => push_line(out, "step merged")?,
            Answer::Refused(fault) => {
                push(out, "step ")?;
                push_refused(out, &Refusal::Desk(*fault))?;
            }
        }
    }
    Ok(())
}

/// Prints that memory is out.
pub fn push_memory(out: &mut Vec<u8>) -> Result<(), Fault> {
    push_refused(out, &Refusal::Memory)
}

/// Prints what each sub-message found.
pub fn push_findings(out: &mut Vec<u8>, lines: &[FindingLine]) -> Result<(), Fault> {
    for line in lines {
        push_value(out, &line.reference)?;
        push_named(out, " ", &line.sub)?;
        push_named(out, " ", &line.action)?;
        push_named(out, " ", &line.designator)?;
        push_named(out, " acted ", &line.finding.acted)?;
        push_named(out, " absent ", &line.finding.absent)?;
        push_named(out, " present ", &line.finding.present)?;
        push_named(out, " leg ", &line.finding.leg)?;
        push_named(out, " station ", &line.finding.station)?;
        out.push(b'\n')?;
    }
    Ok(())
}
