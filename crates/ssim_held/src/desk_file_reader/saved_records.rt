//! The records of a base as a desk file has them.

ghost use Rattle.std.specs.Prelude.{◌≡◌, ◌++◌, ◌∷◌, [], ◌<◌, ◌^◌, List, ℕ, codes, length};
ghost use Rattle.std.specs.Prelude.{IfErr, IfNone, IfOk, IfSome, OnOk, Some};
ghost use Rattle.ssim_records.specs.clauses.InputBuffer.{Gives, Uses, ahead};
ghost use Rattle.ssim_records.specs.declared.record.Record.{Record};
ghost use Rattle.ssim_base.specs.SavedBase.{IsBaseRecords, saved};
ghost use Rattle.ssim_base.specs.clauses.SavedBase.{StopsSaved};
ghost use Rattle.ssim_text.specs.Bytes.{from};
ghost use Rattle.ssim_held.specs.File.{counted, records_part};
ghost use Rattle.ssim_held.specs.internal.DeskFileReader.{IfInvalid, IsNotInvalid};

use crate::desk_file_reader::count_line::{Count, count_line};
use ssim_base::{DataSet, SavedFault, read_saved};
use ssim_records::{InputBuffer, Source};
use std::alloc::Global;

/// The next line with its LF, if an LF follows.
fn take_line<R: Source>(
    alloc: Global,
    input: &mut InputBuffer,
    reader: &mut R,
) -> Result<Option<Vec<u8>>, SavedFault>
    ensures limit { input.new.limit ≡ input.old.limit }
    ensures some { IfOk result (λ read. IfSome read (λ line. (text : List ℕ)
        × (from 10 text ≡ []) × (line.items ≡ text ++ 10 ∷ [])
        × Uses line.items input.old (R.state reader.old).left input.new
        (R.state reader.new).left)) }
    ensures none { IfOk result (λ read. IfNone read
        (IfSome (ahead input.old (R.state reader.old).left) (λ bytes. from 10 bytes ≡ []))) }
    ensures err { IfErr result IsNotInvalid }
    ensures gives { OnOk result (Gives (R.state reader.old) (R.state reader.new)
        input.old.came input.new.came) }
    ensures stops { IfErr result (StopsSaved input.old.limit (R.state reader.old)
        (R.state reader.new)
        input.old.came input.new.came) }
{
    let mut line = Vec::new(alloc);
    while input.has(reader, 1)? {
        let byte = input.first(1)[0];
        if line.push(byte).is_err() {
            return Err(SavedFault::Memory);
        }
        input.skip(1);
        if byte == b'\n' {
            return Ok(Some(line));
        }
    }
    Ok(None)
}

/// The number of records that a line says.
fn records_line(line: &[u8]) -> Option<Count>
    ensures some { IfSome result
        (λ count. IfSome count (λ n. line.now ≡ counted (codes "RECORDS") n)) }
    ensures only { (n : ℕ) → n < 2 ^ 64 → line.now ≡ counted (codes "RECORDS") n
        → result ≡ Some (Some n) }
{
    match count_line(b"RECORDS", line)? {
        (count, []) => Some(count),
        _ => None,
    }
}

/// The number of records that the next line says.
fn take_count<R: Source>(
    alloc: Global,
    input: &mut InputBuffer,
    reader: &mut R,
) -> Result<Option<Count>, SavedFault>
    ensures limit { input.new.limit ≡ input.old.limit }
    ensures some { IfOk result (λ read. IfSome read (λ count. IfSome count (λ n.
        Uses (counted (codes "RECORDS") n) input.old (R.state reader.old).left
        input.new (R.state reader.new).left))) }
    ensures only { IfOk result (λ read. IfSome (ahead input.old (R.state reader.old).left) (λ bytes.
        (n : ℕ) (later : List ℕ) → n < 2 ^ 64 → bytes ≡ counted (codes "RECORDS") n ++ later
        → read ≡ Some (Some n))) }
    ensures err { IfErr result IsNotInvalid }
    ensures gives { OnOk result (Gives (R.state reader.old) (R.state reader.new)
        input.old.came input.new.came) }
    ensures stops { IfErr result (StopsSaved input.old.limit (R.state reader.old)
        (R.state reader.new)
        input.old.came input.new.came) }
{
    match take_line(alloc, input, reader)? {
        Some(line) => Ok(records_line(&line)),
        None => Ok(None),
    }
}

/// The data set whose records the next lines are. If there are to be more than any memory can hold,
/// the error names the first line that is invalid.
fn read_lines<R: Source>(
    alloc: Global,
    count: Count,
    input: &mut InputBuffer,
    reader: &mut R,
) -> Result<DataSet, SavedFault>
    ensures limit { input.new.limit ≡ input.old.limit }
    ensures ok { IfOk result (λ read. IsBaseRecords read × (count ≡ Some (length read))
        × Uses (saved read) input.old (R.state reader.old).left input.new
        (R.state reader.new).left) }
    ensures err { IfErr result (λ e. IfInvalid e (IfSome (ahead input.old (R.state reader.old).left)
        (λ bytes. (records : List Record) (later : List ℕ) → IsBaseRecords records
        → count ≡ Some (length records) → bytes ≡ saved records ++ later → ⊥))) }
    ensures gives { OnOk result (Gives (R.state reader.old) (R.state reader.new)
        input.old.came input.new.came) }
    ensures stops { IfErr result (StopsSaved input.old.limit (R.state reader.old)
        (R.state reader.new)
        input.old.came input.new.came) }
{
    match count {
        Some(lines) => read_saved(alloc, lines, input, reader),
        None => read_saved(alloc, usize::MAX, input, reader),
    }
}

/// The data set whose records come next, with their number before them.
///
/// The error names the line of the number, or the first line that is no record as a base has it, or
/// at which the base is invalid. A base without header, carrier or trailer is invalid after its
/// lines.
pub(crate) fn read_records<R: Source>(
    alloc: Global,
    input: &mut InputBuffer,
    reader: &mut R,
) -> Result<DataSet, SavedFault>
    ensures limit { input.new.limit ≡ input.old.limit }
    ensures ok { IfOk result (λ read. IsBaseRecords read
        × Uses (records_part read) input.old (R.state reader.old).left input.new
        (R.state reader.new).left) }
    ensures err { IfErr result (λ e. IfInvalid e (IfSome (ahead input.old (R.state reader.old).left)
        (λ bytes. (records : List Record) (later : List ℕ) → length records < 2 ^ 64
        → IsBaseRecords records → bytes ≡ records_part records ++ later → ⊥))) }
    ensures gives { OnOk result (Gives (R.state reader.old) (R.state reader.new)
        input.old.came input.new.came) }
    ensures stops { IfErr result (StopsSaved input.old.limit (R.state reader.old)
        (R.state reader.new)
        input.old.came input.new.came) }
{
    let used = input.used();
    match take_count(alloc, input, reader)? {
        Some(count) => read_lines(alloc, count, input, reader),
        None => Err(SavedFault::Invalid(used)),
    }
}
