//! Bytes without the blanks around them.

ghost use Rattle.std.specs.Prelude.{◌≡◌};
ghost use Rattle.ssim_sql.specs.Blanks.{trimmed, without_start};

use ssim_text::without_end;

/// Bytes without the blanks at both ends.
pub(crate) fn trimmed(bytes: &[u8]) -> &[u8]
    ensures { result.now ≡ trimmed bytes.now }
{
    without_end(without_start(bytes))
}

// Bytes without the blanks at their beginning.
fn without_start(bytes: &[u8]) -> &[u8]
    ensures { result.now ≡ without_start bytes.now }
{
    let mut left = bytes;
    while let [first, rest @ ..] = left {
        if *first != b' ' {
            return left;
        }
        left = rest;
    }
    left
}
