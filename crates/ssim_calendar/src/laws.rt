//! What the letters of a calendar tell.

ghost use Rattle.ssim_calendar.specs.Letters.{LettersTellValues};
// The worked examples, which are computed: a false one is an error in this file.
ghost use Rattle.ssim_calendar.specs.examples.Calendars;

use ssim_periods::Value;

/// Two days with a value have the same letter if and only if they have the same value, if the
/// letter is not #.
pub fn letters_tell_values<V: Value>()
    ensures { LettersTellValues V.alike V.nothing }
{}
