//! The desk file, written from a base and the messages that are held.

ghost use Rattle.std.specs.Prelude.{◌≡◌, ◌++◌, ◌∷◌, [], decimal, OnOk};
ghost use Rattle.std.specs.List.{All};
ghost use Rattle.ssim_base.specs.BaseSeen.{base_with};
ghost use Rattle.ssim_base.specs.clauses.Sinks.{Puts, PutsUpTo};
ghost use Rattle.ssim_held.specs.File.{IsRow, IsSpelled, desk_file, records_part, rows_part};
ghost use Rattle.ssim_held.specs.File.{text_element, texts_part};
ghost use Rattle.ssim_held.specs.internal.DeskFileWriter.{base_part};

use crate::held::Held;
use crate::row_line::write_row;
use itoa::Buffer;
use ssim_base::{OutputBuffer, StationRow, WriteFault, flush, put_bytes, put_record};
use ssim_records::{Record, Sink};

/// Puts the desk file of the base with these records and these rows, and of the messages that are
/// held.
pub fn put_desk<W: Sink>(
    out: &mut W,
    records: &[Record],
    rows: &[StationRow],
    held: &[Held],
) -> Result<(), WriteFault>
    ensures puts { Puts (desk_file (base_with records.now rows.now) held.now) (W.state out.old)
        (W.state out.new) result }
    ensures rows { OnOk result (All IsRow rows.now) }
    ensures spelled { OnOk result (All IsSpelled held.now) }
{
    let mut block = OutputBuffer::new();
    put_base(out, &mut block, records, rows)?;
    put_texts(out, &mut block, held)?;
    put_bytes(out, &mut block, b"END\n")?;
    flush(out, &mut block)
}

// Puts the first line, the records of a base, and the rows of its station table.
fn put_base<W: Sink>(
    out: &mut W,
    block: &mut OutputBuffer,
    records: &[Record],
    rows: &[StationRow],
) -> Result<(), WriteFault>
    ensures puts { PutsUpTo (block.old ++ base_part records.now rows.now) block.new
        (W.state out.old) (W.state out.new) result }
    ensures rows { OnOk result (All IsRow rows.now) }
{
    put_counted(out, block, b"SSIMDESK ", 2)?;
    put_records(out, block, records)?;
    put_rows(out, block, rows)
}

// Puts a line: a word with a blank after it, and a number.
fn put_counted<W: Sink>(
    out: &mut W,
    block: &mut OutputBuffer,
    word: &[u8],
    number: usize,
) -> Result<(), WriteFault>
    ensures { PutsUpTo (block.old ++ (word.now ++ (decimal number ++ 10 ∷ []))) block.new
        (W.state out.old) (W.state out.new) result }
{
    let mut digits = Buffer::new();
    put_bytes(out, block, word)?;
    put_bytes(out, block, digits.format(number).as_bytes())?;
    put_bytes(out, block, b"\n")
}

// Puts the records of a base and their number.
fn put_records<W: Sink>(
    out: &mut W,
    block: &mut OutputBuffer,
    records: &[Record],
) -> Result<(), WriteFault>
    ensures { PutsUpTo (block.old ++ records_part records.now) block.new
        (W.state out.old) (W.state out.new) result }
{
    put_counted(out, block, b"RECORDS ", records.len())?;
    for record in records {
        put_record(out, block, record)?;
    }
    Ok(())
}

// Puts the rows of a station table and their number.
fn put_rows<W: Sink>(
    out: &mut W,
    block: &mut OutputBuffer,
    rows: &[StationRow],
) -> Result<(), WriteFault>
    ensures puts { PutsUpTo (block.old ++ rows_part rows.now) block.new
        (W.state out.old) (W.state out.new) result }
    ensures rows { OnOk result (All IsRow rows.now) }
{
    put_counted(out, block, b"STATIONS ", rows.len())?;
    for row in rows {
        put_bytes(out, block, &write_row(row))?;
    }
    Ok(())
}

// Puts the messages that are held and their number.
fn put_texts<W: Sink>(
    out: &mut W,
    block: &mut OutputBuffer,
    held: &[Held],
) -> Result<(), WriteFault>
    ensures puts { PutsUpTo (block.old ++ texts_part held.now) block.new
        (W.state out.old) (W.state out.new) result }
    ensures spelled { OnOk result (All IsSpelled held.now) }
{
    put_counted(out, block, b"TEXTS ", held.len())?;
    for message in held {
        put_text(out, block, message)?;
    }
    Ok(())
}

// Puts the canonical text of a message and its length.
fn put_text<W: Sink>(out: &mut W, block: &mut OutputBuffer, held: &Held) -> Result<(), WriteFault>
    ensures puts { PutsUpTo (block.old ++ text_element held.now) block.new
        (W.state out.old) (W.state out.new) result }
    ensures spelled { IsSpelled held.now }
{
    let text = held.message().text();
    put_counted(out, block, b"TEXT ", text.len())?;
    put_bytes(out, block, text)
}
