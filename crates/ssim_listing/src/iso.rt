//! Dates and times for spreadsheets.

ghost use Rattle.std.specs.Prelude.{◌≡◌, length};
ghost use Rattle.ssim_listing.specs.Rows.{colon, iso_date, iso_time};

use ssim_values::{Day, read_month, write_two_digits};

/// A date as in `2027-03-28`.
pub fn iso_date(day: Day) -> [u8; 10]
    ensures { result ≡ iso_date day }
{
    let [d1, d2, m1, m2, m3, y1, y2] = day.write();
    let Some(month) = read_month([m1, m2, m3]) else {
        unreachable!();
    };
    let [n1, n2] = write_two_digits(month);
    [b'2', b'0', y1, y2, b'-', n1, n2, b'-', d1, d2]
}

/// A time as in `17:30`, of four characters without the colon. A blank time stays blank.
pub fn iso_time(text: &[u8]) -> [u8; 5]
    requires { length text.now ≡ 4 }
    ensures { result ≡ iso_time text.now }
{
    let [h1, h2, m1, m2] = text else {
        unreachable!();
    };
    [*h1, *h2, colon(text), *m1, *m2]
}

// What is between the hours and the minutes of a time.
fn colon(text: &[u8]) -> u8
    ensures { result ≡ colon text.now }
{
    if text == b"    ".as_slice() {
        b' '
    } else {
        b':'
    }
}
