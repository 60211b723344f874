//! Parts of a text that are written over its bytes.

ghost use Rattle.std.specs.Prelude.{◌≡◌, ◌≤◌, ◌+◌, ◌++◌, ℕ, List, length, take};
ghost use Rattle.std.specs.List.{flat_map};
ghost use Rattle.ssim_columns.specs.Columns.{carried, filled};
ghost use Rattle.ssim_columns.specs.clauses.Columns.{over};

/// Writes the parts one after another.
pub fn join(out: &mut [u8], parts: &[&[u8]])
    requires { length (flat_map (λ part. part.now) parts.now) ≡ length out.old }
    ensures { out.new ≡ flat_map (λ part. part.now) parts.now }
{
    let mut at = 0;
    for part in parts {
        out[at..at + part.len()].copy_from_slice(part);
        at += part.len();
    }
}

/// Writes a part from an index on, and returns the index after it. A record whose parts have known
/// lengths is written in less time than by `join`.
pub(crate) fn append(out: &mut [u8], at: usize, part: &[u8]) -> usize
    requires { at + length part.now ≤ length out.old }
    ensures place { result ≡ at + length part.now }
    ensures room { length out.new ≡ length out.old }
    ensures value { (rest : List ℕ)
        → take result out.new ++ rest ≡ take at out.old ++ (part.now ++ rest) }
{
    put(out, at, part);
    at + part.len()
}

/// Writes the text over the bytes from an index on.
pub(crate) fn put(bytes: &mut [u8], at: usize, text: &[u8])
    requires { at + length text.now ≤ length bytes.old }
    ensures { bytes.new ≡ over at text.now bytes.old }
{
    bytes[at..at + text.len()].copy_from_slice(text);
}

/// Writes the text, and blanks after it, over `width` bytes from an index on.
pub(crate) fn put_filled(bytes: &mut [u8], at: usize, width: usize, text: &[u8])
    requires { at + width ≤ length bytes.old }
    ensures { bytes.new ≡ over at (filled width text.now) bytes.old }
{
    fill(&mut bytes[at..at + width], text);
}

/// Writes the text, and blanks after it.
fn fill(out: &mut [u8], text: &[u8])
    ensures { out.new ≡ filled (length out.old) text.now }
{
    match out.split_first_mut() {
        None => {}
        Some((byte, rest)) => match text.split_first() {
            None => {
                *byte = b' ';
                fill(rest, &[])
            }
            Some((first, more)) => {
                *byte = carried(*first);
                fill(rest, more)
            }
        },
    }
}

fn carried(byte: u8) -> u8
    ensures { result ≡ carried byte }
{
    if byte >= 32 && byte != 127 {
        byte
    } else {
        b' '
    }
}
