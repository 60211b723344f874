//! What became of the texts of mailbox files, as rows of CSV.

ghost use Rattle.std.specs.Prelude.{◌≡◌, ◌++◌, ◌∷◌, [], OnOk, codes, decimal};
ghost use Rattle.ssim_listing.specs.Rows.{row};
ghost use Rattle.ssim_text.specs.Reference.{printed_reference};
ghost use Rattle.ssim_program.specs.Receiving.{place_in_file, receipt_names, receipt_row};
ghost use Rattle.ssim_program.specs.Receiving.{took_word};
ghost use Rattle.ssim_program.specs.internal.Receive.{receipt_of};
ghost use Rattle.ssim_program.specs.print.Names.{printed_name};
ghost use Rattle.ssim_program.specs.print.Refusal.{place_text, refusal_name, refusal_number};
ghost use Rattle.ssim_program.specs.print.Refusal.{refusal_place};
ghost use Rattle.ssim_program.specs.declared.refusal.Refusal.TheVariants as refused;

use crate::command::receive::receipt::Receipt;
use crate::print::name::printed_name;
use crate::print::printed_line::text_of;
use crate::print::refusal_line::PlaceInFile;
use crate::refusal::Refusal;
use itoa::Buffer;
use ssim_desk::{DeskFault, Took};
use ssim_listing::CsvRows;
use ssim_text::Reference;
use ssim_values::Memory;
use std::alloc::Global;

/// The names of the fields.
const NAMES: [&[u8]; 7] = [
    b"file",
    b"line",
    b"result",
    b"reference",
    b"number",
    b"name",
    b"place",
];

/// Adds the row of names.
pub(crate) fn push_names(rows: &mut CsvRows) -> Result<(), Memory>
    ensures { OnOk result (rows.new ≡ rows.old ++ row receipt_names) }
{
    rows.push(&NAMES, &[])
}

/// Adds the row of a receipt.
pub(crate) fn push_receipt(
    alloc: Global,
    rows: &mut CsvRows,
    receipt: &Receipt,
) -> Result<(), Memory>
    ensures { OnOk result
        (rows.new ≡ rows.old ++ receipt_row (receipt_of receipt.now)) }
{
    match receipt {
        Receipt::Accepted {
            file,
            line,
            took,
            reference,
        } => push_accepted(alloc, rows, file, *line, *took, reference),
        Receipt::Refused { file, text, fault } => {
            push_refused(alloc, rows, file, text.line, *fault)
        }
        Receipt::Unread { file } => push_unread(alloc, rows, file),
    }
}

/// The word of what became of a message.
fn word_of(took: Took) -> &'static str
    ensures { result.now ≡ took_word took }
{
    match took {
        Took::Taken => "taken",
        Took::Repeated => "repeated",
    }
}

/// Adds the row of a text that the desk took, or whose message it held already.
fn push_accepted(
    alloc: Global,
    rows: &mut CsvRows,
    file: &str,
    line: usize,
    took: Took,
    reference: &Reference,
) -> Result<(), Memory>
    ensures { OnOk result (rows.new ≡ rows.old ++ row (printed_name file.now
        ∷ decimal line ∷ took_word took ∷ printed_reference reference.now ∷ [] ∷ [] ∷ [] ∷ [])) }
{
    let name = printed_name(alloc, file)?;
    let reference = text_of(alloc, reference)?;
    let mut digits = Buffer::new();
    let line = digits.format(line).as_bytes();
    let word = word_of(took).as_bytes();
    let none = *b"";
    let fields: [&[u8]; 7] = [name.as_bytes(), line, word, &reference, &none, &none, &none];
    rows.push(&fields, &[])
}

/// Adds the row of a text that the desk refused.
fn push_refused(
    alloc: Global,
    rows: &mut CsvRows,
    file: &str,
    first: usize,
    fault: DeskFault,
) -> Result<(), Memory>
    ensures { OnOk result (let why = refused.Desk fault in
        rows.new ≡ rows.old ++ row (printed_name file.now ∷ decimal first
        ∷ codes "refused" ∷ [] ∷ decimal (refusal_number why) ∷ refusal_name why
        ∷ place_text (place_in_file first (refusal_place why)) ∷ [])) }
{
    let name = printed_name(alloc, file)?;
    let refusal = Refusal::Desk(fault);
    let place = PlaceInFile {
        first,
        place: refusal.place(),
    };
    let place = text_of(alloc, &place)?;
    let mut line = Buffer::new();
    let mut number = Buffer::new();
    let line = line.format(first).as_bytes();
    let number = number.format(refusal.number()).as_bytes();
    let word = *b"refused";
    let none = *b"";
    let fields: [&[u8]; 7] = [
        name.as_bytes(),
        line,
        &word,
        &none,
        number,
        refusal.name().as_bytes(),
        &place,
    ];
    rows.push(&fields, &[])
}

/// Adds the row of a file that cannot be read.
fn push_unread(alloc: Global, rows: &mut CsvRows, file: &str) -> Result<(), Memory>
    ensures { OnOk result (rows.new ≡ rows.old ++ row (printed_name file.now
        ∷ [] ∷ codes "refused" ∷ [] ∷ codes "91" ∷ codes "File" ∷ [] ∷ [])) }
{
    let name = printed_name(alloc, file)?;
    let none = *b"";
    let word = *b"refused";
    let number = *b"91";
    let fault = *b"File";
    let fields: [&[u8]; 7] = [name.as_bytes(), &none, &word, &none, &number, &fault, &none];
    rows.push(&fields, &[])
}
