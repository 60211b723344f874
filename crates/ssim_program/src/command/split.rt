//! The command `split`: a data set for each carrier of a data set of several carriers.

ghost use Rattle.std.specs.Prelude.{◌≡◌, ◌≤◌, ◌∷◌, [], ℕ, IfErr, IfOk, Ok, Option, length, string_bytes};
ghost use Rattle.std.specs.List.{count_by};
ghost use Rattle.ssim_parts.specs.clauses.Sections.{section_seen};
ghost use Rattle.ssim_program.specs.Acts.{Print};
ghost use Rattle.ssim_program.specs.Answer.{Gives};
ghost use Rattle.ssim_program.specs.Files.{Files};
ghost use Rattle.ssim_program.specs.Splitting.{RefusedAs, count_line, fate_of, is_kept};
ghost use Rattle.ssim_program.specs.Splitting.{is_of, name_of, refused_line, split};
ghost use Rattle.ssim_program.specs.World.{Does, world};
ghost use Rattle.ssim_program.specs.print.Refusal.{IsMemory};
ghost use Rattle.ssim_program.specs.internal.Splitting.{ActsAs, IsReadFault, PutsSection, fate_seen};
ghost use Rattle.ssim_program.specs.internal.Splitting.{read_seen};

use crate::content_kind::ContentKind;
use crate::data_set::open_file;
use crate::export::data_set_bytes;
use crate::hold::{hold, keep_content};
use crate::print::name::printed_name;
use crate::print::printer::{Printer, print_all};
use crate::print::section::{SetLine, count_line, kept_lines, refused_line};
use crate::refusal::Refusal;
use crate::store::Store;
use ssim_base::BaseFault;
use ssim_parts::{DataSetRead, Section, SectionReader};
use ssim_records::RecordFault;
use ssim_schedule::ExportFault;
use ssim_values::Airline;
use std::alloc::Global;
use std::io::Write;

/// The most bytes that a data set of several carriers may have: 2^40. It is read section by section.
const LIMIT: u64 = 1_099_511_627_776;

/// What becomes of a section.
#[derive(Drop)]
enum SectionFate {
    /// A file to be kept, and then lines to be printed.
    Kept {
        name: String,
        bytes: Vec<u8>,
        lines: Vec<u8>,
    },
    /// The line of a section that is refused.
    Refused(Vec<u8>),
}

/// A section that was split off: its airline, if its carrier record is valid, and whether its data
/// set is kept.
type Done = (Option<Airline>, bool);

/// Reads the sections of a data set one after another. Each is kept as a data set of its own, and its
/// line is printed, or the line says why it is refused. At last the numbers of sections are printed.
pub(crate) fn split_file<S: Store, W: Write>(
    alloc: Global,
    dataset: &str,
    prefix: &str,
    store: &mut S,
    out: &mut Printer<'_, W>,
) -> Result<(), Refusal>
    ensures { Does (split (S.files store.old) dataset.now prefix.now)
        (world (S.files store.old) (S.failures store.old) out.old)
        (world (S.files store.new) (S.failures store.new) out.new) result }
{
    let mut file = open_file(alloc, dataset, store)?;
    let mut sections = match SectionReader::new(alloc, &mut file, LIMIT) {
        Ok(sections) => sections,
        Err(fault) => return Err(refusal_of(alloc, dataset, fault)),
    };
    let mut done = Vec::new(alloc);
    loop {
        match sections.next_section(&mut file) {
            Ok(Some(section)) => put_section(alloc, prefix, section, &mut done, store, out)?,
            Ok(None) => return print_counts(alloc, &done, out),
            Err(fault) => return Err(refusal_of(alloc, dataset, fault)),
        }
    }
}

/// Why a file is not read: 91 with its name if its reader fails, or more bytes come than the limit.
fn refusal_of(alloc: Global, name: &str, fault: BaseFault) -> Refusal
    ensures { IsReadFault name.now fault result }
{
    match fault {
        BaseFault::Memory => Refusal::Memory,
        BaseFault::Read(RecordFault::ReadFault { .. }) => Refusal::of_file(alloc, name),
        BaseFault::Read(RecordFault::ReaderNeverEnds { .. }) => Refusal::of_file(alloc, name),
        _ => Refusal::DataSet(fault),
    }
}

/// Keeps the data set of a section and prints its lines, or prints why it is refused.
fn put_section<S: Store, W: Write>(
    alloc: Global,
    prefix: &str,
    section: Section,
    done: &mut Vec<Done>,
    store: &mut S,
    out: &mut Printer<'_, W>,
) -> Result<(), Refusal>
    ensures { PutsSection prefix.now done.old.items (section_seen section) done.new.items
        (world (S.files store.old) (S.failures store.old) out.old)
        (world (S.files store.new) (S.failures store.new) out.new) result }
{
    let airline = section.airline;
    let fate = fate_of(alloc, prefix, done, section)?;
    done.push((airline, is_kept(&fate)))?;
    act(alloc, &fate, store, out)
}

/// Whether a section is kept.
fn is_kept(fate: &SectionFate) -> bool
    ensures { result ≡ is_kept (fate_seen fate.now) }
{
    match fate {
        SectionFate::Kept { .. } => true,
        SectionFate::Refused(_) => false,
    }
}

/// What becomes of a section after those that are done.
fn fate_of(
    alloc: Global,
    prefix: &str,
    done: &[Done],
    section: Section,
) -> Result<SectionFate, Refusal>
    ensures ok { IfOk result (λ fate.
        fate_of prefix.now done.now (section_seen section) (Ok (fate_seen fate))) }
    ensures err { IfErr result IsMemory }
{
    let Section {
        airline,
        records,
        outcome,
    } = section;
    match outcome {
        Ok(read) => kept_set(alloc, prefix, done, airline, records, read),
        Err(fault) => refused(alloc, airline, &Refusal::DataSet(fault)),
    }
}

/// The line of a section that is refused.
fn refused(alloc: Global, airline: Option<Airline>, why: &Refusal) -> Result<SectionFate, Refusal>
    ensures ok { IfOk result (λ fate. fate_seen fate ≡ RefusedAs (refused_line airline why.now)) }
    ensures err { IfErr result IsMemory }
{
    let line = refused_line(alloc, airline, why)?;
    Ok(SectionFate::Refused(line))
}

/// The file of a section's data set and its lines, or the line of the export's refusal.
fn kept_set(
    alloc: Global,
    prefix: &str,
    done: &[Done],
    named: Option<Airline>,
    records: u64,
    read: DataSetRead,
) -> Result<SectionFate, Refusal>
    ensures ok { IfOk result (λ fate. fate_of prefix.now done.now
        (read_seen named records read) (Ok (fate_seen fate))) }
    ensures err { IfErr result IsMemory }
{
    let DataSetRead {
        data_set,
        notes,
        end_note,
    } = read;
    let airline = data_set.airline();
    let flights = data_set.flights().len();
    match data_set_bytes(alloc, data_set) {
        Ok(bytes) => {
            let name = name_of(alloc, prefix, airline, done)?;
            let printed = printed_name(alloc, name.as_str())?;
            let set = SetLine {
                airline,
                name: printed.as_str(),
                records,
                flights,
            };
            let lines = kept_lines(alloc, &set, &notes, end_note)?;
            Ok(SectionFate::Kept { name, bytes, lines })
        }
        Err(ExportFault::Memory) => Err(Refusal::Memory),
        Err(fault) => refused(alloc, named, &Refusal::Export { airline, fault }),
    }
}

/// The name of the file of a section of this airline. Only the first one has no number.
fn name_of(alloc: Global, prefix: &str, airline: Airline, done: &[Done]) -> Result<String, Refusal>
    ensures ok { IfOk result (λ name. string_bytes name ≡ name_of prefix.now airline done.now) }
    ensures err { IfErr result IsMemory }
{
    let before = times(airline, done);
    if before == 0 {
        Ok(format!(in alloc; "{prefix}{airline}.ssim")?)
    } else {
        let number = before + 1;
        Ok(format!(in alloc; "{prefix}{airline}-{number}.ssim")?)
    }
}

/// How many sections are of an airline.
fn times(airline: Airline, done: &[Done]) -> usize
    ensures value { result ≡ count_by (is_of airline) done.now }
    ensures few { result ≤ length done.now }
{
    done.iter()
        .filter(|section| is_of(airline, *section))
        .count()
}

/// Whether a section is of an airline.
fn is_of(airline: Airline, section: &Done) -> bool
    ensures { result ≡ is_of airline section.now }
{
    match section.0 {
        Some(other) => other == airline,
        None => false,
    }
}

/// How many sections are kept.
fn kept_in(done: &[Done]) -> usize
    ensures value { result ≡ count_by (λ s. s.1) done.now }
    ensures few { result ≤ length done.now }
{
    done.iter().filter(|section| section.1).count()
}

/// Keeps the file of a section and prints its lines, or prints the line of its refusal.
fn act<S: Store, W: Write>(
    alloc: Global,
    fate: &SectionFate,
    store: &mut S,
    out: &mut Printer<'_, W>,
) -> Result<(), Refusal>
    ensures { ActsAs (fate_seen fate.now)
        (world (S.files store.old) (S.failures store.old) out.old)
        (world (S.files store.new) (S.failures store.new) out.new) result }
{
    match fate {
        SectionFate::Kept { name, bytes, lines } => {
            // The file is held after a file was read. That is allowed here: what is kept is made
            // from the data set, and not from the file that was there.
            store.begin();
            let place = hold(alloc, name.as_str(), ContentKind::DataSet, store)?;
            keep_content(alloc, bytes, &place, store)?;
            print_all(out, lines)
        }
        SectionFate::Refused(line) => print_all(out, line),
    }
}

/// Prints the numbers of sections.
fn print_counts<W: Write>(
    alloc: Global,
    done: &[Done],
    out: &mut Printer<'_, W>,
) -> Result<(), Refusal>
    ensures { (files : Option Files) (failures : ℕ) → Does (Gives (Print (count_line done.now) ∷ []))
        (world files failures out.old) (world files failures out.new) result }
{
    let line = count_line(alloc, done.len(), kept_in(done))?;
    print_all(out, &line)
}
