//! The rows of a station table as a desk file has them.

ghost use Rattle.std.specs.Prelude.{◌≡◌};
ghost use Rattle.ssim_held.specs.File.{IsRow, row_line};

use ssim_base::StationRow;

/// Writes a row with single blanks, and LF.
pub(crate) fn write_row(row: &StationRow) -> [u8; 26]
    ensures value { result ≡ row_line row.now }
    ensures is_row { IsRow row.now }
{
    let [s1, s2, s3] = row.station().write();
    let [a1, a2, a3, a4, a5, a6, a7] = row.first().write();
    let [b1, b2, b3, b4, b5, b6, b7] = row.last().write();
    let [v1, v2, v3, v4, v5] = row.variation().write();
    [
        s1, s2, s3, b' ', a1, a2, a3, a4, a5, a6, a7, b' ', b1, b2, b3, b4, b5, b6, b7, b' ', v1,
        v2, v3, v4, v5, b'\n',
    ]
}
