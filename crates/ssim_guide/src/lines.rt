//! Lines of words.

ghost use Rattle.std.specs.Prelude.{◌≡◌, ◌++◌, OnOk};
ghost use Rattle.ssim_guide.specs.Words.{labelled};

use std::alloc::AllocError;
use std::io::Write;

/// The most bytes of a line that are shown.
const SHOWN: usize = 200;

/// Adds a line: a label and a text.
pub(crate) fn push_line(lines: &mut Vec<u8>, label: &str, text: &str) -> Result<(), AllocError>
    ensures { OnOk result (lines.new.items ≡ lines.old.items ++ labelled label.now text.now) }
{
    lines.extend_from_slice(label.as_bytes())?;
    lines.extend_from_slice(b": ")?;
    lines.extend_from_slice(text.as_bytes())?;
    lines.push(b'\n')?;
    Ok(())
}

/// Adds a line: a label and bytes of a file in brackets, at most 200, each that is no character of
/// ASCII as `?`.
pub(crate) fn push_shown(lines: &mut Vec<u8>, label: &str, bytes: &[u8]) -> Result<(), AllocError> {
    lines.extend_from_slice(label.as_bytes())?;
    lines.extend_from_slice(b": [")?;
    for byte in bytes.iter().take(SHOWN) {
        let shown = if is_shown(*byte) { *byte } else { b'?' };
        lines.push(shown)?;
    }
    lines.extend_from_slice(b"]\n")?;
    Ok(())
}

/// Whether the byte is a character of ASCII that can be printed.
fn is_shown(byte: u8) -> bool {
    byte >= 32 && byte < 127
}

/// Adds a number in decimal.
pub(crate) fn push_number(lines: &mut Vec<u8>, number: usize) -> Result<(), AllocError> {
    match write!(lines, "{number}") {
        Ok(()) => Ok(()),
        Err(_) => Err(AllocError),
    }
}
