//! Hours and minutes in four digits, looked at as one number.

ghost use Rattle.std.specs.Prelude.{◌≡◌, ◌≤◌, ◌*◌, ◌^◌, ◌<◌, ℕ, IsTrue, length};
ghost use Rattle.ssim_values.specs.Clock.{clock_text};
ghost use Rattle.ssim_columns.specs.internal.Clocks.{HasClockDigits};

use crate::text::array::bytes_of;

/// The text `0000`.
const ZEROS: u32 = 0x3030_3030;

/// Added to each byte, it gives 128 or more if the byte is above 9, or above 5 for the tens of the
/// minutes.
const TO_TOP: u32 = 0x7676_7a76;

/// The highest bit of each byte.
const TOPS: u32 = 0x8080_8080;

// Whether four bytes are digits, each up to 9, and up to 5 for the tens of the minutes.
fn are_digits(digits: u32) -> bool
    requires { digits < 2 ^ 26 }
    ensures { IsTrue result → HasClockDigits digits }
{
    (digits | (digits + TO_TOP)) & TOPS == 0
}

/// Whether a text is a time, hours and minutes, up to this number of hours.
pub(crate) fn is_clock_to(text: &[u8], hours: u32) -> bool
    requires len { length text.now ≡ 4 }
    requires day { hours ≤ 24 }
    ensures { IsTrue result → (n : ℕ) × (n ≤ hours * 60) × (text.now ≡ clock_text n) }
{
    let digits = u32::from_be_bytes(bytes_of::<4>(text)).wrapping_sub(ZEROS);
    digits <= hours / 10 * 0x0100_0000 + hours % 10 * 0x0001_0000 && are_digits(digits)
}
