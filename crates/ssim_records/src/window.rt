//! Bytes that came and are not used yet.

ghost use Rattle.std.specs.Prelude.{◌≡◌, ◌<◌, ◌≤◌, ◌+◌, [], length, take, drop, IfOk, IfSome, OnErr, Ok};
ghost use Rattle.std.specs.Io.KnownBytes.{IsAtEnd};
ghost use Rattle.ssim_records.specs.clauses.Device.{CountsBytes, CountsFailure};
ghost use Rattle.ssim_records.specs.Frames.{drop_line_ends, trim};
ghost use Rattle.ssim_records.specs.clauses.Blocks.{SameAhead};

use crate::device::{DeviceFault, Source};
use std::marker::Model;

/// The number of bytes that a window has room for. A fetch asks for this number, less a rest below
/// a block.
pub const ROOM: usize = 65536;

/// The bytes after the line ends at the beginning. It is not inlined, since there is mostly one
/// line end.
#[inline(never)]
fn after_line_ends(bytes: &[u8]) -> &[u8]
    ensures len { length result.now ≤ length bytes.now }
    ensures value { result.now ≡ drop_line_ends bytes.now }
{
    let mut rest = bytes;
    loop {
        rest = match rest {
            [b'\n', after @ ..] => after,
            [b'\r', b'\n', after @ ..] => after,
            _ => return rest,
        };
    }
}

// Does what `after_line_ends` does for one LF and then the type of a record.
#[tactic(auto, using(crate::proofs::LineEnds::one_line_end))]
fn after_one_line_end(bytes: &[u8]) -> Option<&[u8]>
    ensures { IfSome result (λ rest. rest.now ≡ drop_line_ends bytes.now) }
{
    match bytes {
        [b'\n', rest @ ..] => match rest {
            [byte, ..] if *byte > b'\r' => Some(rest),
            _ => None,
        },
        _ => None,
    }
}

/// The bytes after the line ends at the beginning.
#[inline(always)]
fn trimmed(bytes: &[u8]) -> &[u8]
    ensures { result.now ≡ drop_line_ends bytes.now }
{
    match after_one_line_end(bytes) {
        Some(rest) => rest,
        None => after_line_ends(bytes),
    }
}

/// Bytes that came and are not used yet, seen as their list. They are held inline, since reading
/// does not allocate.
#[derive(Drop)]
pub struct Window {
    bytes: [u8; ROOM],
    start: usize,
    end: usize,
}

impl Model for Window {
    ghost use Rattle.std.specs.Prelude.{List, ℕ, ◌≤◌, slice_range};

    ghost Value = { List ℕ };

    ghost view = { λ w. slice_range w.bytes w.start w.end };

    ghost invariant = { λ w. (w.start ≤ w.end) × (w.end ≤ 65536) };
}

impl Window {
    pub fn new() -> Window
        ensures { result ≡ [] }
    {
        Window {
            bytes: [0; ROOM],
            start: 0,
            end: 0,
        }
    }

    pub fn len(&self) -> usize
        ensures value { result ≡ length self.now }
        ensures small { result ≤ 65536 }
    {
        self.end - self.start
    }

    /// Skips the line ends at the beginning.
    fn drop_line_ends(&mut self)
        ensures less { length self.new ≤ length self.old }
        ensures value { self.new ≡ drop_line_ends self.old }
    {
        let rest = trimmed(&self.bytes[self.start..self.end]).len();
        self.start = self.end - rest;
    }

    /// Forgets all bytes.
    pub fn clear(&mut self)
        ensures { self.new ≡ [] }
    {
        self.start = 0;
        self.end = 0;
    }

    /// Skips the line ends at the beginning, if they follow a block.
    pub fn trim(&mut self, after_block: bool)
        ensures less { length self.new ≤ length self.old }
        ensures value { self.new ≡ trim after_block self.old }
    {
        if after_block {
            self.drop_line_ends();
        }
    }

    /// The block at the beginning, by reference.
    pub fn front(&self) -> &[u8; 200]
        requires { 200 ≤ length self.now }
        ensures { result.now ≡ take 200 self.now }
    {
        match self.bytes[self.start..self.end].first_chunk() {
            Some(block) => block,
            None => unreachable!(),
        }
    }

    /// The bytes at the beginning, this many, by reference.
    pub fn first(&self, count: usize) -> &[u8]
        requires { count ≤ length self.now }
        ensures { result.now ≡ take count self.now }
    {
        &self.bytes[self.start..self.start + count]
    }

    /// Skips the bytes at the beginning, this many.
    pub fn skip(&mut self, count: usize)
        requires { count ≤ length self.old }
        ensures { self.new ≡ drop count self.old }
    {
        self.start += count;
    }

    /// Fetches more bytes, at most that many.
    pub fn fetch<R: Source>(&mut self, reader: &mut R, most: usize) -> Result<usize, DeviceFault>
        requires len { length self.old < 65536 }
        requires some { 0 < most }
        ensures ok { IfOk result (λ n. (n ≤ most) × (length self.new ≡ length self.old + n)) }
        ensures err { OnErr result (length self.new ≡ length self.old) }
        ensures ahead { SameAhead self.old (R.state reader.old).left self.new
            (R.state reader.new).left }
        ensures end { result ≡ Ok 0 → IsAtEnd (R.state reader.new).left }
        ensures none { result ≡ Ok 0 → self.new ≡ self.old }
        ensures count { CountsBytes (R.state reader.old) (R.state reader.new) result }
        ensures failures { CountsFailure (R.state reader.old).failures (R.state reader.new).failures
            result }
    {
        self.bytes.copy_within(self.start..self.end, 0);
        self.end -= self.start;
        self.start = 0;
        let room = most.min(ROOM - self.end);
        let n = reader.fetch(&mut self.bytes[self.end..self.end + room])?;
        self.end += n;
        Ok(n)
    }
}
