//! A desk file as it is read: its parts, one after another.

ghost use Rattle.std.specs.Prelude.{◌≡◌, ◌≢◌, ◌++◌, ◌≤◌, ◌<◌, ◌^◌, [], ℕ, List, All, length};
ghost use Rattle.std.specs.Prelude.{IfErr, IfOk, IfSome, OnErr, OnOk};
ghost use Rattle.std.specs.Io.KnownBytes.{IsAtEnd};
ghost use Rattle.ssim_records.specs.clauses.InputBuffer.{Gives, Uses, ahead};
ghost use Rattle.ssim_base.specs.BaseSeen.{BaseSeen, base_with};
ghost use Rattle.ssim_base.specs.clauses.SavedBase.{StopsSaved};
ghost use Rattle.ssim_base.specs.Stations.{Row};
ghost use Rattle.ssim_held.specs.File.{IsDeskFile, IsRow, end_line, rows_part, texts_part};
ghost use Rattle.ssim_held.specs.clauses.Opening.{Opens, RefusesOpening};
ghost use Rattle.ssim_held.specs.internal.DeskFileReader.{AreHeld, IfInvalid};
ghost use Rattle.ssim_held.specs.Entries.{Entry};

mod count_line;
mod fault;
mod rest;
mod saved_records;
mod saved_rows;
mod saved_texts;
mod version;

use crate::fault::DeskFault;
use crate::held::Held;
use count_line::after_prefix;
use fault::PartFault;
use rest::read_rest;
use saved_records::read_records;
use saved_rows::read_rows;
use saved_texts::read_texts;
use ssim_base::laws::saved_records_are_read;
use ssim_base::{DataSet, SavedFault, Stations};
use ssim_records::{InputBuffer, Source};
use ssim_text::laws::equal_where_written_equal;
use std::alloc::Global;
use version::{FileVersion, take_version};

/// What a desk file has: a base, which is a data set with a station table, and messages in order of
/// reference.
#[derive(Drop)]
pub struct Opened {
    pub data_set: DataSet,
    pub stations: Stations,
    pub held: Vec<Held>,
}

/// The last line, with nothing after it.
fn read_end(bytes: &[u8]) -> Result<(), PartFault>
    ensures ok { OnOk result (bytes.now ≡ end_line) }
    ensures err { OnErr result (bytes.now ≡ end_line → ⊥) }
{
    match after_prefix(b"END\n", bytes) {
        Some([]) => Ok(()),
        Some(more) => Err(PartFault::Invalid(more.len())),
        None => Err(PartFault::Invalid(bytes.len())),
    }
}

/// The rows of the station table and the messages, which are all that the bytes have.
///
/// The error names the first element that is invalid, by the number of the bytes from it on.
fn read_after(
    alloc: Global,
    data_set: &DataSet,
    version: FileVersion,
    bytes: &[u8],
) -> Result<(Stations, Vec<Held>), PartFault>
    ensures ok { IfOk result (λ read. All IsRow read.0 × AreHeld version data_set.now read.1.items
        × (bytes.now ≡ rows_part read.0 ++ (texts_part read.1.items ++ end_line))) }
    ensures err { IfErr result (λ e. e ≢ PartFault.Memory → (rows : List Row) (entries : List Entry)
        → length rows < 2 ^ 64 → All IsRow rows → length entries < 2 ^ 64
        → AreHeld version data_set.now entries
        → bytes.now ≡ rows_part rows ++ (texts_part entries ++ end_line) → ⊥) }
{
    saved_records_are_read();
    equal_where_written_equal();
    let (stations, rest) = read_rows(alloc, bytes)?;
    let (held, rest) = read_texts(alloc, data_set, version, rest)?;
    read_end(rest)?;
    Ok((stations, held))
}

/// The base and the messages whose desk file the bytes of the reader are.
///
/// The error names the first element that is invalid, by the number of the bytes before it. What
/// comes after it may not be read.
fn read_file<R: Source>(
    alloc: Global,
    input: &mut InputBuffer,
    reader: &mut R,
) -> Result<Opened, SavedFault>
    ensures limit { input.new.limit ≡ input.old.limit }
    ensures ok { IfOk result (λ desk. (bytes : List ℕ)
        × Uses bytes input.old (R.state reader.old).left input.new (R.state reader.new).left
        × IsDeskFile bytes (base_with desk.data_set desk.stations) desk.held.items) }
    ensures within { OnOk result (input.new.came ≤ input.new.limit) }
    ensures all { OnOk result ((input.new.held ≡ []) × IsAtEnd (R.state reader.new).left) }
    ensures err { IfErr result (λ e. IfInvalid e (IfSome (ahead input.old (R.state reader.old).left)
        (λ bytes. length bytes < 2 ^ 64 → (base : BaseSeen) (entries : List Entry)
        → IsDeskFile bytes base entries → ⊥))) }
    ensures gives { OnOk result (Gives (R.state reader.old) (R.state reader.new)
        input.old.came input.new.came) }
    ensures stops { IfErr result (StopsSaved input.old.limit (R.state reader.old)
        (R.state reader.new)
        input.old.came input.new.came) }
{
    saved_records_are_read();
    equal_where_written_equal();
    let Some(version) = take_version(input, reader)? else {
        return Err(SavedFault::Invalid(0));
    };
    let data_set = read_records(alloc, input, reader)?;
    let used = input.used();
    let rest = read_rest(alloc, input, reader)?;
    match read_after(alloc, &data_set, version, &rest) {
        Ok((stations, held)) => Ok(Opened {
            data_set,
            stations,
            held,
        }),
        Err(PartFault::Memory) => Err(SavedFault::Memory),
        Err(PartFault::Invalid(left)) => {
            let before = rest.len().saturating_sub(left) as u64;
            Err(SavedFault::Invalid(used.saturating_add(before)))
        }
    }
}

/// Reads the base and the messages whose desk file the bytes of a reader are. The records are read
/// as their bytes come.
///
/// The errors are 90; 13 and 14, also if the reader fails or more bytes come than the limit after
/// an element that is invalid; and 62 with the number of the bytes before the first such element.
pub fn read_desk<R: Source>(alloc: Global, reader: &mut R, limit: u64) -> Result<Opened, DeskFault>
    ensures ok { IfOk result (λ desk. Opens limit (R.state reader.old).left
        (base_with desk.data_set desk.stations) desk.held.items) }
    ensures err { IfErr result (RefusesOpening limit (R.state reader.old) (R.state reader.new)) }
    ensures no_failure { IfOk result (λ _. (R.state reader.new).failures
        ≡ (R.state reader.old).failures) }
{
    let mut input = InputBuffer::new(limit);
    match read_file(alloc, &mut input, reader) {
        Ok(desk) => Ok(desk),
        Err(SavedFault::Memory) => Err(DeskFault::Memory),
        Err(SavedFault::Read(stop)) => Err(DeskFault::from(stop)),
        Err(SavedFault::Invalid(offset)) => {
            input.skip_rest(reader)?;
            Err(DeskFault::File(offset))
        }
    }
}
