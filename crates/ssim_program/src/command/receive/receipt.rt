//! What became of the texts of mailbox files, the lines that say so, and the refused texts.

ghost use Rattle.std.specs.Prelude.{◌≡◌, ◌+◌, [], ◌++◌, IfOk, OnOk, Some};
ghost use Rattle.std.specs.Prelude.{if◌then◌else◌};
ghost use Rattle.ssim_base.specs.Export.{line};
ghost use Rattle.ssim_program.specs.Receiving.{beginning_text, is_refused, is_repeated, is_taken};
ghost use Rattle.ssim_program.specs.Receiving.{receipt_text, refused_text, total_text};
ghost use Rattle.ssim_program.specs.internal.Receive.{AddsOne, AreReceipts, HasRefused, HaveLines};
ghost use Rattle.ssim_program.specs.internal.Receive.{is_csv, printed_after, printed_before};
ghost use Rattle.ssim_program.specs.internal.Receive.{printed_receipt, receipt_of, text_of};

use crate::command::receive::receipt_rows::{push_names, push_receipt};
use crate::command::take::printed;
use crate::print::name::printed_name;
use crate::print::printed_line::add_line;
use crate::print::refusal_line::{RefusalLine, RefusedAt};
use crate::refusal::Refusal;
use itoa::Buffer;
use ssim_desk::{DeskFault, Took};
use ssim_listing::CsvRows;
use ssim_mailbox::Text;
use ssim_text::Reference;
use ssim_values::Memory;
use std::alloc::Global;
use std::fmt;

/// What became of a text of a mailbox file, or of a file.
#[derive(Drop)]
pub(crate) enum Receipt<'n> {
    /// The desk took the text that begins on this line of the file, or held its message already.
    Accepted {
        file: &'n str,
        line: usize,
        took: Took,
        reference: Reference,
    },
    /// The desk refused the text.
    Refused {
        file: &'n str,
        text: Text,
        fault: DeskFault,
    },
    /// There is no such file within the limit.
    Unread {
        file: &'n str,
    },
}

impl Receipt<'_> {
    /// Whether the message of a text was new.
    fn is_taken(&self) -> bool
        ensures { result ≡ is_taken (receipt_of self.now) }
    {
        matches!(
            self,
            Receipt::Accepted {
                took: Took::Taken,
                ..
            }
        )
    }

    /// Whether the message of a text was held already.
    fn is_repeated(&self) -> bool
        ensures { result ≡ is_repeated (receipt_of self.now) }
    {
        matches!(
            self,
            Receipt::Accepted {
                took: Took::Repeated,
                ..
            }
        )
    }

    /// Whether a text was refused, or a file was not read.
    fn is_refused(&self) -> bool
        ensures { result ≡ is_refused (receipt_of self.now) }
    {
        !matches!(self, Receipt::Accepted { .. })
    }
}

// ---- the lines

/// Adds the beginning of the line of a text: its file, and the line on which it begins.
fn push_beginning(
    alloc: Global,
    lines: &mut Vec<u8>,
    file: &str,
    first: usize,
) -> Result<(), Memory>
    ensures { OnOk result
        (lines.new.items ≡ lines.old.items ++ beginning_text file.now first) }
{
    let name = printed_name(alloc, file)?;
    let mut digits = Buffer::new();
    lines.extend_from_slice(name.as_bytes())?;
    lines.push(b':')?;
    lines.extend_from_slice(digits.format(first).as_bytes())?;
    lines.push(b' ')?;
    Ok(())
}

/// Adds the line of a receipt.
fn push_line(alloc: Global, lines: &mut Vec<u8>, receipt: &Receipt) -> Result<(), Memory>
    ensures { OnOk result
        (lines.new.items ≡ lines.old.items ++ line (receipt_text (receipt_of receipt.now))) }
{
    match receipt {
        Receipt::Accepted {
            file,
            line,
            took,
            reference,
        } => {
            push_beginning(alloc, lines, file, *line)?;
            add_line(lines, &printed(*took, *reference))
        }
        Receipt::Refused { file, text, fault } => {
            push_beginning(alloc, lines, file, text.line)?;
            let refused = RefusedAt {
                first: text.line,
                fault: *fault,
            };
            add_line(lines, &refused)
        }
        Receipt::Unread { file } => {
            let name = printed_name(alloc, file)?;
            let refusal = Refusal::File { name };
            add_line(lines, &RefusalLine { refusal: &refusal })
        }
    }
}

/// How many were taken, repeated and refused.
#[derive(Clone, Copy, Debug)]
struct Counts {
    taken: usize,
    repeated: usize,
    refused: usize,
}

impl fmt::Display for Counts {
    ghost output = { λ c. Some (total_text c.taken c.repeated c.refused) };

    fn fmt<W: fmt::Write>(&self, f: &mut fmt::Formatter<W>) -> fmt::Result {
        let Counts {
            taken,
            repeated,
            refused,
        } = self;
        write!(f, "taken {taken} repeated {repeated} refused {refused}")
    }
}

/// A count with one more, if there is one more. A count that is no `usize` is out of memory.
fn counted(count: usize, is: bool) -> Result<usize, Memory>
    ensures { IfOk result (λ sum. sum ≡ count + (if is then 1 else 0)) }
{
    match count.checked_add(is as usize) {
        Some(sum) => Ok(sum),
        None => Err(Memory),
    }
}

/// What is printed of receipts: rows of CSV, or lines.
#[derive(Drop)]
enum Printed {
    Rows(CsvRows),
    Lines(Vec<u8>),
}

impl Printed {
    /// What is printed before all receipts: the row of names of CSV, or nothing.
    fn new(alloc: Global, csv: bool) -> Result<Printed, Memory>
        ensures form { IfOk result (λ printed. is_csv printed ≡ csv) }
        ensures text { IfOk result (λ printed. text_of printed ≡ printed_before csv) }
    {
        if !csv {
            return Ok(Printed::Lines(Vec::new(alloc)));
        }
        let mut rows = CsvRows::new(alloc);
        push_names(&mut rows)?;
        Ok(Printed::Rows(rows))
    }

    /// Adds the row or the line of a receipt.
    fn push(&mut self, alloc: Global, receipt: &Receipt) -> Result<(), Memory>
        ensures form { is_csv self.new ≡ is_csv self.old }
        ensures text { OnOk result (text_of self.new
            ≡ text_of self.old ++ printed_receipt (is_csv self.old) (receipt_of receipt.now)) }
    {
        match self {
            Printed::Rows(rows) => push_receipt(alloc, rows, receipt),
            Printed::Lines(lines) => push_line(alloc, lines, receipt),
        }
    }

    /// The rows; or the lines, and the one that counts the receipts.
    fn finish(self, counts: &Counts) -> Result<Vec<u8>, Memory>
        ensures { IfOk result (λ lines. lines.items ≡ text_of self ++ printed_after (is_csv self)
            counts.now.taken counts.now.repeated counts.now.refused) }
    {
        match self {
            Printed::Rows(rows) => rows.into_bytes(),
            Printed::Lines(mut lines) => {
                add_line(&mut lines, counts)?;
                Ok(lines)
            }
        }
    }
}

// ---- the refused texts

/// Adds bytes. The first are moved, so that a large text is not in memory twice.
fn append(texts: &mut Vec<u8>, bytes: Vec<u8>) -> Result<(), Memory>
    ensures { OnOk result (texts.new.items ≡ texts.old.items ++ bytes.items) }
{
    if texts.is_empty() {
        *texts = bytes;
    } else {
        texts.extend_from_slice(&bytes)?;
    }
    Ok(())
}

/// Adds the text of a receipt, if it was refused, and a line `NNNN`.
fn push_refused(texts: &mut Vec<u8>, receipt: Receipt) -> Result<(), Memory>
    ensures { OnOk result
        (texts.new.items ≡ texts.old.items ++ refused_text (receipt_of receipt.entry)) }
{
    if let Receipt::Refused { text, .. } = receipt {
        append(texts, text.bytes)?;
        texts.extend_from_slice(b"NNNN\n")?;
    }
    Ok(())
}

// ---- all receipts

/// What is printed and kept of the receipts so far. The receipts themselves are not kept.
#[derive(Drop)]
pub(crate) struct Receipts {
    /// The row of names and the row of each; or the line of each.
    printed: Printed,
    /// The refused texts, each of which NNNN ends.
    texts: Vec<u8>,
    /// How many were taken, repeated and refused.
    counts: Counts,
}

impl Receipts {
    /// No receipts.
    pub(crate) fn new(alloc: Global, csv: bool) -> Result<Receipts, Memory>
        ensures { IfOk result (λ receipts. AreReceipts csv receipts []) }
    {
        let printed = Printed::new(alloc, csv)?;
        Ok(Receipts {
            printed,
            texts: Vec::new(alloc),
            counts: Counts {
                taken: 0,
                repeated: 0,
                refused: 0,
            },
        })
    }

    /// Adds a receipt.
    pub(crate) fn push(&mut self, alloc: Global, receipt: Receipt) -> Result<(), Memory>
        ensures { OnOk result (AddsOne (receipt_of receipt.entry) self.old self.new) }
    {
        let Counts {
            taken,
            repeated,
            refused,
        } = self.counts;
        self.counts = Counts {
            taken: counted(taken, receipt.is_taken())?,
            repeated: counted(repeated, receipt.is_repeated())?,
            refused: counted(refused, receipt.is_refused())?,
        };
        self.printed.push(alloc, &receipt)?;
        push_refused(&mut self.texts, receipt)
    }

    /// Whether a text was refused, or a file was not read.
    pub(crate) fn has_refused(&self) -> bool
        ensures { HasRefused self.now result }
    {
        self.counts.refused > 0
    }

    /// The rows of the receipts, or their lines and the line that counts them; and the refused texts.
    pub(crate) fn finish(self) -> Result<(Vec<u8>, Vec<u8>), Memory>
        ensures { IfOk result (λ r. HaveLines self r.0.items r.1.items) }
    {
        let lines = self.printed.finish(&self.counts)?;
        Ok((lines, self.texts))
    }
}
