//! The column of a time mode.

ghost use Rattle.std.specs.Prelude.{◌≡◌};
ghost use Rattle.ssim_columns.specs.Columns.{time_mode_of, time_mode_text};

use ssim_values::TimeMode;

/// The mode in a column: `U` or `L`.
#[tactic(auto, unfolding(crate::specs::Columns::time_mode_of))]
pub fn time_mode_of(text: &[u8]) -> Option<TimeMode>
    ensures { result ≡ time_mode_of text.now }
{
    if text == b"U".as_slice() {
        return Some(TimeMode::Utc);
    }
    if text == b"L".as_slice() {
        return Some(TimeMode::Local);
    }
    None
}

/// The column of a mode.
pub fn time_mode_text(mode: TimeMode) -> [u8; 1]
    ensures { result ≡ time_mode_text mode }
{
    match mode {
        TimeMode::Utc => *b"U",
        TimeMode::Local => *b"L",
    }
}
