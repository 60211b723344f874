//! The rows of a station table as a desk file has them.

ghost use Rattle.std.specs.Prelude.{◌≡◌, ◌≢◌, ◌↔◌, ◌++◌, ◌<◌, ◌^◌, All, List, ℕ, length, IfErr};
ghost use Rattle.std.specs.Prelude.{IfNone, IfOk, IfSome, IsTrue};
ghost use Rattle.std.specs.List.{flat_map};
ghost use Rattle.ssim_base.specs.Stations.{Row};
ghost use Rattle.ssim_held.specs.File.{IsRow, row_line, rows_part};

use crate::desk_file_reader::count_line::{after_prefix, count_line, elements};
use crate::desk_file_reader::fault::PartFault;
use crate::row_line::write_row;
use ssim_base::{StationFault, StationRow, Stations};
use std::alloc::Global;

/// The number of bytes of a row and its LF.
const ROW_LINE: usize = 26;

/// Whether the lines are these rows.
fn are_saved(rows: &[StationRow], lines: &[u8]) -> bool
    ensures value { IsTrue result ↔ (lines.now ≡ flat_map row_line rows.now) }
    ensures rows { IsTrue result → All IsRow rows.now }
{
    let mut rest = lines;
    for row in rows {
        match after_prefix(&write_row(row), rest) {
            Some(after) => rest = after,
            None => return false,
        }
    }
    rest.is_empty()
}

/// The rows that lines are, or none if they are not rows as they are written.
fn read_lines(alloc: Global, lines: &[u8]) -> Result<Option<Stations>, PartFault>
    ensures some { IfOk result
        (λ read. IfSome read (λ rows. All IsRow rows × (lines.now ≡ flat_map row_line rows))) }
    ensures none { IfOk result (λ read. IfNone read
        ((rows : List Row) → All IsRow rows → lines.now ≡ flat_map row_line rows → ⊥)) }
    ensures err { IfErr result (λ e. e ≡ PartFault.Memory) }
{
    match Stations::read(alloc, lines) {
        Ok(stations) => {
            if are_saved(stations.rows(), lines) {
                Ok(Some(stations))
            } else {
                Ok(None)
            }
        }
        Err(StationFault::Memory) => Err(PartFault::Memory),
        Err(StationFault::Stations(_)) => Ok(None),
    }
}

/// The error that names the first line that is no row.
fn invalid_row(alloc: Global, bytes: &[u8]) -> PartFault {
    let mut rest = bytes;
    while let Some((line, after)) = rest.split_at_checked(ROW_LINE) {
        match read_lines(alloc, line) {
            Ok(Some(_)) => rest = after,
            Ok(None) => break,
            Err(fault) => return fault,
        }
    }
    PartFault::Invalid(rest.len())
}

/// The rows of a station table with their number before them, and the bytes after them.
pub(crate) fn read_rows(alloc: Global, bytes: &[u8]) -> Result<(Stations, &[u8]), PartFault>
    ensures ok { IfOk result
        (λ read. All IsRow read.0 × (bytes.now ≡ rows_part read.0 ++ read.1.now)) }
    ensures err { IfErr result (λ e. e ≢ PartFault.Memory → (rows : List Row) (later : List ℕ)
        → length rows < 2 ^ 64 → All IsRow rows → bytes.now ≡ rows_part rows ++ later → ⊥) }
{
    let Some((count, rest)) = count_line(b"STATIONS", bytes) else {
        return Err(PartFault::Invalid(bytes.len()));
    };
    let Some((lines, after)) = elements(count, ROW_LINE, rest) else {
        return Err(invalid_row(alloc, rest));
    };
    match read_lines(alloc, lines)? {
        Some(stations) => Ok((stations, after)),
        None => Err(invalid_row(alloc, rest)),
    }
}
