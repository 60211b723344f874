//! The command `stations`: the station table that the legs of a desk or a data set say.

ghost use Rattle.std.specs.Prelude.{◌≡◌, IfOk};
ghost use Rattle.std.specs.List.{flat_map};
ghost use Rattle.ssim_held.specs.File.{row_line};
ghost use Rattle.ssim_desk.specs.Desk.{timetable_of};
ghost use Rattle.ssim_overview.specs.SaidRows.{said_rows};
ghost use Rattle.ssim_program.specs.Answers.{stations};
ghost use Rattle.ssim_program.specs.internal.Program.{Answers};

use crate::refusal::Refusal;
use crate::store::Store;
use crate::timetable_file::open_timetable;
use ssim_desk::Holdings;
use ssim_overview::{SaidRow, said_rows};
use ssim_values::Memory;
use std::alloc::Global;

/// The station table that the legs of the desk, or of the data set, in a file say.
pub(crate) fn stations<S: Store>(
    alloc: Global,
    file: &str,
    store: &mut S,
) -> Result<Vec<u8>, Refusal>
    ensures answer { Answers (stations (S.files store.old) file.now) result }
    ensures same { S.files store.new ≡ S.files store.old }
    ensures counted { S.failures store.new ≡ S.failures store.old }
{
    let desk = open_timetable(alloc, file, store)?;
    let lines = table_of(alloc, desk)?;
    Ok(lines)
}

/// The table that the legs of a desk's timetable say.
fn table_of(alloc: Global, desk: Holdings) -> Result<Vec<u8>, Memory>
    ensures { IfOk result
        (λ lines. lines.items ≡ flat_map row_line (said_rows (timetable_of desk))) }
{
    let flights = desk.into_flights()?;
    let rows = said_rows(alloc, &flights)?;
    row_lines(alloc, &rows)
}

/// The lines of rows.
fn row_lines(alloc: Global, rows: &[SaidRow]) -> Result<Vec<u8>, Memory>
    ensures { IfOk result (λ lines. lines.items ≡ flat_map row_line rows.now) }
{
    let mut lines = Vec::new(alloc);
    for row in rows {
        lines.extend_from_slice(&row_line(row))?;
    }
    Ok(lines)
}

/// A row with single blanks, and LF.
fn row_line(row: &SaidRow) -> [u8; 26]
    ensures { result ≡ row_line row.now }
{
    let [s1, s2, s3] = row.station().write();
    let [a1, a2, a3, a4, a5, a6, a7] = row.first().write();
    let [b1, b2, b3, b4, b5, b6, b7] = row.last().write();
    let [v1, v2, v3, v4, v5] = row.variation().write();
    [
        s1, s2, s3, b' ', a1, a2, a3, a4, a5, a6, a7, b' ', b1, b2, b3, b4, b5, b6, b7, b' ', v1,
        v2, v3, v4, v5, b'\n',
    ]
}
