//! Bytes as text of a page.

ghost use Rattle.std.specs.Prelude.{◌≡◌, ◌++◌, ◌∷◌, [], OnOk, codes, if◌then◌else◌, nat_lt};
ghost use Rattle.std.specs.List.{list_all};
ghost use Rattle.ssim_page.specs.Html.{escaped, escaped_byte};
ghost use Rattle.ssim_page.specs.internal.PlainBytes.{is_plain};

use ssim_lines::{Printed, push_each};
use ssim_values::Memory;

/// Bytes as text of a page.
#[derive(Clone, Copy)]
pub(crate) struct Html;

/// Adds bytes as text of a page. Most texts are copied, since nothing in them means something else in
/// HTML.
pub(crate) fn push_escaped(page: &mut Vec<u8>, bytes: &[u8]) -> Result<(), Memory>
    ensures { OnOk result (page.new.items ≡ page.old.items ++ escaped bytes.now) }
{
    if are_plain(bytes) {
        page.extend_from_slice(bytes)?;
        return Ok(());
    }
    push_each(page, &Html, bytes)
}

// Whether bytes are the same as text of a page. The loop has no early exit, so that several bytes are
// tested at once.
fn are_plain(bytes: &[u8]) -> bool
    ensures { result ≡ list_all is_plain bytes.now }
{
    let mut all = true;
    for byte in bytes {
        all &= is_plain(*byte);
    }
    all
}

// Whether a byte is the same as text of a page.
fn is_plain(byte: u8) -> bool
    ensures { result ≡ is_plain byte }
{
    byte != b'&' && byte != b'<' && byte != b'>' && byte < 127
}

impl Printed<Html> for u8 {
    ghost text = { λ _. escaped_byte };

    // Adds a byte: by name if it means something else in HTML.
    fn print(&self, _html: &Html, page: &mut Vec<u8>) -> Result<(), Memory> {
        match *self {
            b'&' => page.extend_from_slice(b"&amp;")?,
            b'<' => page.extend_from_slice(b"&lt;")?,
            b'>' => page.extend_from_slice(b"&gt;")?,
            byte => push_other(page, byte)?,
        }
        Ok(())
    }
}

// Adds a byte that has no name, or the replacement character if it is above 126.
fn push_other(page: &mut Vec<u8>, byte: u8) -> Result<(), Memory>
    ensures { OnOk result (page.new.items
        ≡ page.old.items ++ (if nat_lt byte 127 then byte ∷ [] else codes "&#65533;")) }
{
    if byte < 127 {
        page.push(byte)?;
    } else {
        page.extend_from_slice(b"&#65533;")?;
    }
    Ok(())
}
