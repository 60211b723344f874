//! Short texts that are compared as numbers, in place of a walk over slices.

ghost use Rattle.std.specs.Prelude.{◌≡◌, ◌≤◌, ◌↔◌, IsTrue, length};
ghost use Rattle.std.specs.Str.{bytes_eq};

use crate::text::array::bytes_of;

/// Whether two texts of four bytes are the same.
pub(crate) fn are_same_four(text: &[u8], other: &[u8]) -> bool
    requires text { length text.now ≡ 4 }
    requires other { length other.now ≡ 4 }
    ensures { IsTrue result ↔ (text.now ≡ other.now) }
{
    u32::from_le_bytes(bytes_of::<4>(text)) == u32::from_le_bytes(bytes_of::<4>(other))
}

/// Whether eight bytes are these.
pub(crate) fn are_same(text: &[u8], other: &[u8; 8]) -> bool
    requires { length text.now ≡ 8 }
    ensures { IsTrue result ↔ (text.now ≡ other.now) }
{
    u64::from_le_bytes(bytes_of::<8>(text)) == u64::from_le_bytes(*other)
}

/// Whether two texts of one length, of four to eight bytes, are the same: the first four bytes and
/// the last four, which overlap if there are fewer than eight.
#[inline(always)]
pub(crate) fn are_same_by_fours(text: &[u8], other: &[u8]) -> bool
    requires from { 4 ≤ length text.now }
    requires to { length text.now ≤ 8 }
    requires same_length { length other.now ≡ length text.now }
    ensures { result ≡ bytes_eq text.now other.now }
{
    let last = text.len() - 4;
    are_same_four(&text[0..4], &other[0..4])
        && are_same_four(&text[last..last + 4], &other[last..last + 4])
}

/// Whether seven bytes are these.
pub fn are_same_seven(text: [u8; 7], other: [u8; 7]) -> bool
    ensures { result ≡ bytes_eq text other }
{
    are_same_by_fours(&text, &other)
}

/// Whether `N` bytes are these. Four, and eight or more, are compared as numbers.
#[inline(always)]
pub(crate) fn are_same_columns<const N: usize>(text: &[u8], other: &[u8; N]) -> bool
    requires { length text.now ≡ N }
    ensures { IsTrue result → text.now ≡ other.now }
{
    if N >= 8 {
        are_same_texts(text, other)
    } else if N == 4 {
        are_same_four(text, other)
    } else {
        text == other.as_slice()
    }
}

/// Whether two texts of one length are the same: eight bytes at a time, and the last eight at the
/// end. It is inlined, so that texts of a known length are compared without a loop.
#[inline(always)]
pub(crate) fn are_same_texts(text: &[u8], other: &[u8]) -> bool
    requires some { 8 ≤ length text.now }
    requires same_length { length other.now ≡ length text.now }
    ensures { result ≡ bytes_eq text.now other.now }
{
    let last = text.len() - 8;
    let mut place = 0;
    while place < last {
        if !are_same(
            &text[place..place + 8],
            &bytes_of::<8>(&other[place..place + 8]),
        ) {
            return false;
        }
        place += 8;
    }
    are_same(
        &text[last..last + 8],
        &bytes_of::<8>(&other[last..last + 8]),
    )
}
