//! The line of a refusal, displayed or printed piece by piece. Nothing here allocates.

ghost use Rattle.std.specs.Prelude.{◌++◌, ◌∷◌, Some, codes, decimal};
ghost use Rattle.ssim_values.specs.Designator.{designator_text};
ghost use Rattle.ssim_text.specs.Reference.{printed_originator, printed_reference};
ghost use Rattle.ssim_base.specs.Export.{line};
ghost use Rattle.ssim_program.specs.Receiving.{place_in_file, refused_at};
ghost use Rattle.ssim_program.specs.internal.Print.{Prints, PrintsPart, without_originator};
ghost use Rattle.ssim_program.specs.print.Refusal.{named_text, place_text, refusal_file};
ghost use Rattle.ssim_program.specs.print.Refusal.{refusal_head};
ghost use Rattle.ssim_program.specs.print.Refusal.{refusal_place, refusal_text};

use crate::print::fault_line::FaultLine;
use crate::print::printer::{Printer, print_all, put_parts};
use crate::refusal::Refusal;
use itoa::Buffer;
use ssim_base::Place;
use ssim_desk::DeskFault;
use ssim_text::{Originator, Reference};
use ssim_values::Designator;
use std::fmt;
use std::io::Write;

/// The line of a refusal on standard error, without its end: `refused`, the number, the name, and
/// what the refusal names, as: refused 12 BadColumn record 3 column 37.
#[derive(Clone, Copy, Debug)]
pub struct RefusalLine<'r> {
    pub refusal: &'r Refusal,
}

impl fmt::Display for RefusalLine<'_> {
    ghost output = { λ l. Some (refusal_text l.refusal.now) };

    fn fmt<W: fmt::Write>(&self, f: &mut fmt::Formatter<W>) -> fmt::Result {
        let number = self.refusal.number();
        let name = self.refusal.name();
        if let Some(file) = self.refusal.file() {
            return write!(f, "refused {number} {name} {file}");
        }
        let place = self.refusal.place();
        write!(
            f,
            "refused {}",
            FaultLine {
                number,
                name,
                place
            }
        )
    }
}

/// What the refusal of a text in a mailbox names, after a blank. Lines are counted from the first line
/// of the mailbox.
#[derive(Clone, Copy, Debug)]
pub(crate) struct PlaceInFile {
    /// The number of the text's first line, from 1.
    pub first: usize,
    /// The place in the text.
    pub place: Place,
}

impl fmt::Display for PlaceInFile {
    ghost output = { λ p. Some (place_text (place_in_file p.first p.place)) };

    fn fmt<W: fmt::Write>(&self, f: &mut fmt::Formatter<W>) -> fmt::Result {
        match self.place {
            Place::Nowhere => Ok(()),
            Place::Record(record) => write!(f, " record {record}"),
            Place::Column { record, column } => write!(f, " record {record} column {column}"),
            Place::Line(line) => {
                let line_in_file = (self.first as u128 + line as u128).saturating_sub(1);
                write!(f, " line {line_in_file}")
            }
            Place::SubMessage(sub) => write!(f, " sub {sub}"),
            Place::Offset(offset) => write!(f, " offset {offset}"),
            Place::Flight(flight) => write!(f, " flight {flight}"),
            Place::Message(reference) => write!(f, " {reference}"),
        }
    }
}

/// The line of the refusal of a text in a mailbox, without its end. Its place is counted from the
/// first line of the mailbox.
#[derive(Clone, Copy, Debug)]
pub(crate) struct RefusedAt {
    /// The number of this line, from 1.
    pub first: usize,
    /// Why the text is refused.
    pub fault: DeskFault,
}

impl fmt::Display for RefusedAt {
    ghost output = { λ r. Some (refused_at r.first r.fault) };

    fn fmt<W: fmt::Write>(&self, f: &mut fmt::Formatter<W>) -> fmt::Result {
        let refusal = Refusal::from(self.fault);
        let number = refusal.number();
        let name = refusal.name();
        let place = PlaceInFile {
            first: self.first,
            place: refusal.place(),
        };
        write!(f, "refused {number} {name}{place}")
    }
}

/// Prints the line of a refusal, and flushes it. Returns 52 if the writer failed, or took no byte
/// of some.
pub(crate) fn print_refusal<W: Write>(
    refusal: &Refusal,
    err: &mut Printer<'_, W>,
) -> Result<(), Refusal>
    ensures { Prints (line (refusal_text refusal.now)) err.old err.new result }
{
    put_head(refusal, err)?;
    put_named(refusal, err)?;
    print_all(err, b"\n")
}

/// Prints `refused`, the number and the name.
fn put_head<W: Write>(refusal: &Refusal, err: &mut Printer<'_, W>) -> Result<(), Refusal>
    ensures { PrintsPart (refusal_head refusal.now) err.old err.new result }
{
    let mut digits = Buffer::new();
    let number = digits.format(refusal.number()).as_bytes();
    let name = refusal.name().as_bytes();
    put_parts(err, &[b"refused ", number, b" ", name])
}

/// Prints what a refusal names: the file of 91, or its place.
fn put_named<W: Write>(refusal: &Refusal, err: &mut Printer<'_, W>) -> Result<(), Refusal>
    ensures { PrintsPart (named_text (refusal_file refusal.now) (refusal_place refusal.now))
        err.old err.new result }
{
    match refusal.file() {
        Some(file) => put_parts(err, &[b" ", file.as_bytes()]),
        None => put_place(refusal.place(), err),
    }
}

/// Prints a place, after a blank.
fn put_place<W: Write>(place: Place, err: &mut Printer<'_, W>) -> Result<(), Refusal>
    ensures { PrintsPart (place_text place) err.old err.new result }
{
    match place {
        Place::Nowhere => Ok(()),
        Place::Record(record) => put_number(b" record ", record, err),
        Place::Column { record, column } => put_column(record, column, err),
        Place::Line(line) => put_number(b" line ", line, err),
        Place::SubMessage(sub) => put_number(b" sub ", sub as u64, err),
        Place::Offset(offset) => put_number(b" offset ", offset, err),
        Place::Flight(flight) => put_flight(flight, err),
        Place::Message(reference) => put_message(&reference, err),
    }
}

/// Prints a number after its label.
fn put_number<W: Write>(label: &[u8], number: u64, err: &mut Printer<'_, W>) -> Result<(), Refusal>
    ensures { PrintsPart (label.now ++ decimal number) err.old err.new result }
{
    let mut digits = Buffer::new();
    put_parts(err, &[label, digits.format(number).as_bytes()])
}

/// Prints the number of a record and a column of it.
fn put_column<W: Write>(number: u64, column: usize, err: &mut Printer<'_, W>) -> Result<(), Refusal>
    ensures { PrintsPart (codes " record " ++ decimal number ++ codes " column " ++ decimal column)
        err.old err.new result }
{
    let mut of_record = Buffer::new();
    let mut of_column = Buffer::new();
    let number = of_record.format(number).as_bytes();
    let column = of_column.format(column).as_bytes();
    put_parts(err, &[b" record ", number, b" column ", column])
}

/// Prints a flight.
fn put_flight<W: Write>(flight: Designator, err: &mut Printer<'_, W>) -> Result<(), Refusal>
    ensures { PrintsPart (codes " flight " ++ designator_text flight) err.old err.new result }
{
    let designator = flight.write();
    put_parts(err, &[b" flight ", designator.as_slice()])
}

/// Prints the reference of a message, after a blank.
fn put_message<W: Write>(reference: &Reference, err: &mut Printer<'_, W>) -> Result<(), Refusal>
    ensures { PrintsPart (32 ∷ printed_reference reference.now) err.old err.new result }
{
    put_serials(reference, err)?;
    put_originator(reference.originator, err)
}

/// Prints the kind, the date and the serials of a reference, each after a blank.
fn put_serials<W: Write>(reference: &Reference, err: &mut Printer<'_, W>) -> Result<(), Refusal>
    ensures { PrintsPart (without_originator reference.now) err.old err.new result }
{
    let kind = reference.kind.name().as_bytes();
    let date = reference.date.write();
    let group = reference.group_digits();
    let serial = reference.serial_digits();
    put_parts(err, &[b" ", kind, b" ", &date, b" ", &group, b" ", &serial])
}

/// Prints an originator after a blank, or nothing if it is blank.
fn put_originator<W: Write>(originator: Originator, err: &mut Printer<'_, W>) -> Result<(), Refusal>
    ensures { PrintsPart (printed_originator originator) err.old err.new result }
{
    if originator.is_none() {
        return Ok(());
    }
    put_parts(err, &[b" ", &originator.bytes()])
}
