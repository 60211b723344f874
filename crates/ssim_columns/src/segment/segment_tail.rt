//! The columns of a segment record that are its own.

ghost use Rattle.std.specs.Prelude.{◌≡◌, ◌≤◌, ◌+◌, ◌↔◌, length, replicate, IsSome, IfSome};
ghost use Rattle.std.specs.Str.{bytes_eq};
ghost use Rattle.ssim_columns.specs.Columns.{EachIsValid};
ghost use Rattle.ssim_columns.specs.Segment.{IsTail, tail_of, new_tail, segment_table};
ghost use Rattle.ssim_columns.specs.clauses.Segment.{tail_columns};

use crate::field::are_carried;
use crate::text::array::bytes_of;
use crate::text::equality::are_same_texts;
use crate::text::number::three_digits;
use crate::text::overlay::{append, put, put_filled};
use ssim_values::Station;
use std::marker::Model;

/// A column from 29 to 194 is this number of bytes after its index in a tail.
const FRONT: usize = 16;

/// The tail of a segment record: the bytes of its columns 15 to 27 and 29 to 194, all carried. The
/// readers are named by the columns of the record.
#[derive(Clone, Copy, Debug, PartialEq, Eq, Hash)]
pub struct SegmentTail {
    bytes: [u8; 179],
}

impl Model for SegmentTail {
    ghost use Rattle.std.specs.Prelude.{List, ℕ};
    ghost use Rattle.ssim_columns.specs.Segment.{IsTail};

    ghost Value = { List ℕ };

    ghost view = { λ s. s.bytes };

    ghost invariant = { λ s. IsTail s.bytes };

    ghost inverse = { λ v. record { bytes = v } };
}

// Writes the tail in a record, in parts that are short enough to be copied in whole words.
fn put_tail(out: &mut [u8; 179], bytes: &[u8; 200])
    ensures { out.new ≡ tail_of bytes.now }
{
    let at = append(out, 0, &bytes_of::<13>(&bytes[14..27]));
    let at = append(out, at, &bytes_of::<83>(&bytes[28..111]));
    append(out, at, &bytes_of::<83>(&bytes[111..194]));
}

/// Columns from 29 to 194.
fn part(tail: &[u8; 179], first: usize, last: usize) -> &[u8]
    requires from { 29 ≤ first }
    requires some { first ≤ last }
    requires to { last ≤ 194 }
    ensures len { length result.now + first ≡ last + 1 }
    ensures value { result.now ≡ tail_columns first last tail.now }
{
    &tail[first - 16..last - 15]
}

impl SegmentTail {
    /// A tail with blanks in columns 15 to 27. Columns 29 and 30 have the letters of the board and
    /// off point, 31 to 33 the last three digits of the data element identifier, 34 to 39 the
    /// stations of the two points, and 40 to 194 the text with blanks after it. A longer text is
    /// cut, and a byte that a record cannot carry is written as a blank.
    pub fn new(
        points: [u8; 2],
        identifier: u16,
        board: Station,
        off: Station,
        text: &[u8],
    ) -> SegmentTail
        ensures { result ≡ new_tail points identifier board off text.now }
    {
        let mut bytes = [b' '; 179];
        put_filled(&mut bytes, 29 - FRONT, 2, &points);
        put(&mut bytes, 31 - FRONT, &three_digits(identifier as u32));
        put(&mut bytes, 34 - FRONT, &board.write());
        put(&mut bytes, 37 - FRONT, &off.write());
        put_filled(&mut bytes, 40 - FRONT, 155, text);
        SegmentTail { bytes }
    }

    /// A tail of blanks.
    pub fn blank() -> SegmentTail
        ensures { result ≡ replicate 179 32 }
    {
        SegmentTail { bytes: [b' '; 179] }
    }

    /// The tail, if a record can carry each of its bytes.
    pub fn of(bytes: &[u8; 179]) -> Option<SegmentTail>
        ensures some { IsSome result ↔ IsTail bytes.now }
        ensures value { IfSome result (λ tail. tail ≡ bytes.now) }
    {
        if are_carried(bytes) {
            Some(SegmentTail { bytes: *bytes })
        } else {
            None
        }
    }

    /// The bytes of columns 15 to 27 and 29 to 194.
    pub fn bytes(&self) -> [u8; 179]
        ensures value { result ≡ self.now }
        ensures is_tail { IsTail result }
    {
        self.bytes
    }

    /// The same bytes, by reference.
    pub(crate) fn bytes_held(&self) -> &[u8; 179]
        ensures value { result.now ≡ self.now }
        ensures is_tail { IsTail result.now }
    {
        &self.bytes
    }

    /// The tail in a record, over the one before.
    pub fn put(&mut self, bytes: &[u8; 200])
        requires { EachIsValid bytes.now segment_table }
        ensures value { tail_of bytes.now ≡ self.new }
        ensures is_tail { IsTail self.new }
    {
        put_tail(&mut self.bytes, bytes);
    }

    /// Whether the two are equal.
    pub fn same(&self, other: &SegmentTail) -> bool
        ensures { result ≡ bytes_eq self.now other.now }
    {
        are_same_texts(&self.bytes, &other.bytes)
    }

    /// Columns 15 to 27, carried.
    pub fn columns_15_to_27(&self) -> [u8; 13]
        ensures { result ≡ tail_columns 15 27 self.now }
    {
        bytes_of::<13>(&self.bytes[0..13])
    }

    /// Columns 29 and 30: the indicators of board and off point.
    pub fn point_indicators(&self) -> [u8; 2]
        ensures { result ≡ tail_columns 29 30 self.now }
    {
        bytes_of::<2>(part(&self.bytes, 29, 30))
    }

    /// Columns 31 to 33: the data element identifier.
    pub fn data_element_identifier(&self) -> [u8; 3]
        ensures { result ≡ tail_columns 31 33 self.now }
    {
        bytes_of::<3>(part(&self.bytes, 31, 33))
    }

    /// Columns 34 to 36: the board point.
    pub fn board_point(&self) -> [u8; 3]
        ensures { result ≡ tail_columns 34 36 self.now }
    {
        bytes_of::<3>(part(&self.bytes, 34, 36))
    }

    /// Columns 37 to 39: the off point.
    pub fn off_point(&self) -> [u8; 3]
        ensures { result ≡ tail_columns 37 39 self.now }
    {
        bytes_of::<3>(part(&self.bytes, 37, 39))
    }

    /// Columns 40 to 194: the data.
    pub fn data(&self) -> [u8; 155]
        ensures { result ≡ tail_columns 40 194 self.now }
    {
        bytes_of::<155>(part(&self.bytes, 40, 194))
    }
}
