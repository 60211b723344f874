//! A source of which the first bytes were looked at.

ghost use Rattle.std.specs.Prelude.{◌≡◌, ◌⊎◌, ◌<◌, ◌≤◌, ◌+◌, ◌%◌, ◌^◌, ◌++◌, ℕ, [], length, min, take};
ghost use Rattle.std.specs.Prelude.{IfOk, IfSome, OnErr, OnOk, Ok, nat_eq};
ghost use Rattle.std.specs.Io.KnownBytes.{IsAtEnd, prepend_known};
ghost use Rattle.std.specs.List.{starts_with};
ghost use Rattle.ssim_records.specs.clauses.Device.{CountsFailure};

use crate::device::{DeviceFault, Source};
use std::marker::Model;

/// How many bytes can be looked at.
const SEEN: usize = 9;

/// The bytes that were looked at and are not given yet, seen as their list. They are held inline.
#[derive(Drop)]
struct Beginning {
    bytes: [u8; SEEN],
    len: usize,
}

impl Model for Beginning {
    ghost use Rattle.std.specs.Prelude.{List, ℕ, ◌≤◌, take};

    ghost Value = { List ℕ };

    ghost view = { λ b. take b.len b.bytes };

    ghost invariant = { λ b. b.len ≤ 9 };
}

impl Beginning {
    /// No bytes.
    fn new() -> Beginning
        ensures { result ≡ [] }
    {
        Beginning {
            bytes: [0; SEEN],
            len: 0,
        }
    }

    fn bytes(&self) -> &[u8]
        ensures value { result.now ≡ self.now }
        ensures few { length result.now ≤ 9 }
    {
        &self.bytes[..self.len]
    }

    /// Fetches the next bytes of the reader, as many as there is room for.
    fn fetch<R: Source>(&mut self, reader: &mut R) -> Result<usize, DeviceFault>
        ensures left { prepend_known self.new (R.state reader.new).left
            ≡ prepend_known self.old (R.state reader.old).left }
        ensures ok { IfOk result (λ n. length self.new ≡ length self.old + n) }
        ensures end { result ≡ Ok 0 → length self.old < 9 → IsAtEnd (R.state reader.new).left }
        ensures failures { CountsFailure (R.state reader.old).failures (R.state reader.new).failures
            result }
    {
        let n = reader.fetch(&mut self.bytes[self.len..])?;
        self.len += n;
        Ok(n)
    }

    /// Writes the first bytes to the beginning of `into`, as many as there is room for, and forgets
    /// them. Returns their number.
    fn give(&mut self, into: &mut [u8]) -> usize
        ensures bytes { self.old ≡ take result into.new ++ self.new }
        ensures count { result ≡ min (length self.old) (length into.old) }
        ensures len { length into.new ≡ length into.old }
    {
        let n = self.len.min(into.len());
        into[..n].copy_from_slice(&self.bytes[..n]);
        self.bytes.copy_within(n..self.len, 0);
        self.len -= n;
        n
    }
}

/// A source over a reader of which the first bytes can be looked at. It gives them again, and then
/// the others. It holds at most nine bytes, inline.
#[derive(Drop)]
pub struct Peekable<R> {
    first: Beginning,
    reader: R,
    /// The number of bytes that were given. It wraps at 2^128.
    came: u128,
}

impl<R: Source> Peekable<R> {
    /// A source of the bytes that the reader has left, of which none were looked at yet.
    pub fn new(reader: R) -> Peekable<R>
        ensures first { result.first ≡ [] }
        ensures reader { result.reader ≡ reader }
        ensures came { result.came ≡ 0 }
    {
        Peekable {
            first: Beginning::new(),
            reader,
            came: 0,
        }
    }

    /// Whether the bytes that are left begin with these. None of them is given by this.
    pub fn begins_with(&mut self, bytes: &[u8; 9]) -> Result<bool, DeviceFault>
        ensures left { prepend_known self.new.first (R.state self.new.reader).left
            ≡ prepend_known self.old.first (R.state self.old.reader).left }
        ensures came { self.new.came ≡ self.old.came }

        // If the contract knows the bytes that are left, the result is about these.
        ensures begins { IfOk result (λ begins. IfSome
            (prepend_known self.old.first (R.state self.old.reader).left)
            (λ left. begins ≡ starts_with nat_eq left bytes.now)) }

        // An error is a failure of the reader.
        ensures no_failure { OnOk result
            ((R.state self.new.reader).failures ≡ (R.state self.old.reader).failures) }
        ensures failure { OnErr result
            ((R.state self.new.reader).failures
            ≡ ((R.state self.old.reader).failures + 1) % 2 ^ 64) }
    {
        self.look()?;
        Ok(self.first.bytes().starts_with(bytes))
    }

    // Fetches until nine bytes are held, or the reader ends.
    fn look(&mut self) -> Result<(), DeviceFault>
        ensures left { prepend_known self.new.first (R.state self.new.reader).left
            ≡ prepend_known self.old.first (R.state self.old.reader).left }
        ensures came { self.new.came ≡ self.old.came }
        ensures seen { OnOk result
            ((9 ≤ length self.new.first) ⊎ IsAtEnd (R.state self.new.reader).left) }
        ensures no_failure { OnOk result
            ((R.state self.new.reader).failures ≡ (R.state self.old.reader).failures) }
        ensures failure { OnErr result
            ((R.state self.new.reader).failures
            ≡ ((R.state self.old.reader).failures + 1) % 2 ^ 64) }
    {
        while self.first.bytes().len() < SEEN {
            let n = self.first.fetch(&mut self.reader)?;
            if n == 0 {
                return Ok(());
            }
        }
        Ok(())
    }
}

/// The bytes that were looked at come first, and then those that the reader has left. A failure is
/// one of the reader.
impl<R: Source> Source for Peekable<R> {
    ghost state = { λ s. record {
      left = prepend_known s.first (R.state s.reader).left;
      came = s.came;
      failures = (R.state s.reader).failures;
    } };

    fn fetch(&mut self, into: &mut [u8]) -> Result<usize, DeviceFault> {
        let n = if self.first.bytes().is_empty() {
            self.reader.fetch(into)?
        } else {
            self.first.give(into)
        };
        self.came = self.came.wrapping_add(n as u128);
        Ok(n)
    }
}
