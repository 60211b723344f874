//! Bytes that came from a source, a window of them at a time.

ghost use Rattle.std.specs.Prelude.{◌≡◌, ◌<◌, ◌≤◌, ◌+◌, ◌-◌, [], IfErr, IfOk, Ok, OnOk, drop, false, length, take, true};
ghost use Rattle.std.specs.Io.KnownBytes.{IsAtEnd};
ghost use Rattle.ssim_records.specs.clauses.InputBuffer.{Gives, Stops, Uses};

use crate::device::Source;
use crate::window::{ROOM, Window};
use std::marker::Model;
use thiserror::Error;

/// Why the next bytes of a source are not known.
#[derive(Clone, Copy, Debug, Error, PartialEq, Eq)]
pub enum InputFault {
    /// 13: the reader failed.
    #[error("the reader failed")]
    ReadFault,

    /// 14: more bytes came than the limit allows.
    #[error("more bytes came than the limit allows")]
    ReaderNeverEnds,
}

/// The bytes of a source that came and are not used yet. The same reader is passed at each call. It
/// does not allocate, and fetches at most one byte more than the limit. After a fault it is not to
/// be used.
#[derive(Drop)]
pub struct InputBuffer {
    /// The number of bytes that may come.
    limit: u64,
    /// The number of bytes that came.
    came: u64,
    /// The bytes that came and are not used.
    window: Window,
}

impl Model for InputBuffer {
    ghost use Rattle.std.specs.Prelude.{◌≤◌, length};
    ghost use Rattle.ssim_records.specs.clauses.InputBuffer.{Input};

    ghost Value = { Input };

    ghost view = { λ b. record { limit = b.limit; came = b.came; held = b.window } };

    ghost invariant = { λ b. (b.came ≤ b.limit) × (length b.window ≤ b.came) };
}

impl InputBuffer {
    /// A buffer of a reader of which no byte came.
    pub fn new(limit: u64) -> InputBuffer
        ensures { result ≡ record { limit = limit; came = 0; held = [] } }
    {
        InputBuffer {
            limit,
            came: 0,
            window: Window::new(),
        }
    }

    /// How many bytes were used.
    pub fn used(&self) -> u64
        ensures { result ≡ self.now.came - length self.now.held }
    {
        self.came - self.window.len() as u64
    }

    /// How many bytes are held.
    pub fn len(&self) -> usize
        ensures { result ≡ length self.now.held }
    {
        self.window.len()
    }

    /// The next bytes, this many, by reference.
    #[inline]
    pub fn first(&self, count: usize) -> &[u8]
        requires { count ≤ length self.now.held }
        ensures { result.now ≡ take count self.now.held }
    {
        self.window.first(count)
    }

    /// Uses the next bytes, this many.
    #[inline]
    pub fn skip(&mut self, count: usize)
        requires { count ≤ length self.old.held }
        ensures { self.new ≡ record {
          limit = self.old.limit;
          came = self.old.came;
          held = drop count self.old.held;
        } }
    {
        self.window.skip(count);
    }

    // Fetches more bytes. Returns their number, 0 at the end.
    fn fetch<R: Source>(&mut self, reader: &mut R) -> Result<usize, InputFault>
        requires { length self.old.held < 65536 }
        ensures limit { self.new.limit ≡ self.old.limit }
        ensures within { self.new.came ≤ self.new.limit }
        ensures uses { OnOk result (Uses [] self.old (R.state reader.old).left self.new
            (R.state reader.new).left) }
        ensures end { result ≡ Ok 0 → IsAtEnd (R.state reader.new).left }
        ensures more { IfOk result (λ n. self.new.came ≡ self.old.came + n) }
        ensures gives { OnOk result (Gives (R.state reader.old) (R.state reader.new) self.old.came
            self.new.came) }
        ensures stops { IfErr result (Stops self.old.limit (R.state reader.old) (R.state reader.new)
            self.old.came) }
    {
        let room = self.limit - self.came;
        let most = room.saturating_add(1).min(ROOM as u64) as usize;
        match self.window.fetch(reader, most) {
            Ok(n) => {
                if n as u64 > room {
                    self.window.clear();
                    return Err(InputFault::ReaderNeverEnds);
                }
                self.came += n as u64;
                Ok(n)
            }
            Err(_) => Err(InputFault::ReadFault),
        }
    }

    // Does what `has` does if fewer bytes are held.
    #[inline(never)]
    fn bring<R: Source>(&mut self, reader: &mut R, count: usize) -> Result<bool, InputFault>
        requires count { count ≤ 65536 }
        requires within { self.old.came ≤ self.old.limit }
        ensures limit { self.new.limit ≡ self.old.limit }
        ensures within { self.new.came ≤ self.new.limit }
        ensures uses { OnOk result (Uses [] self.old (R.state reader.old).left self.new
            (R.state reader.new).left) }
        ensures held { result ≡ Ok true → count ≤ length self.new.held }
        ensures end { result ≡ Ok false → (length self.new.held < count)
            × IsAtEnd (R.state reader.new).left }
        ensures gives { OnOk result (Gives (R.state reader.old) (R.state reader.new) self.old.came
            self.new.came) }
        ensures stops { IfErr result (Stops self.old.limit (R.state reader.old) (R.state reader.new)
            self.old.came) }
    {
        while self.len() < count {
            if self.fetch(reader)? == 0 {
                return Ok(false);
            }
        }
        Ok(true)
    }

    /// Fetches bytes until this many are held. Returns false if fewer are left: the reader is then
    /// at its end.
    ///
    /// The faults are 13 if the reader failed, and 14 if more bytes came than the limit.
    #[inline]
    pub fn has<R: Source>(&mut self, reader: &mut R, count: usize) -> Result<bool, InputFault>
        requires { count ≤ 65536 }
        ensures limit { self.new.limit ≡ self.old.limit }
        ensures within { self.new.came ≤ self.new.limit }
        ensures uses { OnOk result (Uses [] self.old (R.state reader.old).left self.new
            (R.state reader.new).left) }
        ensures held { result ≡ Ok true → count ≤ length self.new.held }
        ensures end { result ≡ Ok false → (length self.new.held < count)
            × IsAtEnd (R.state reader.new).left }
        ensures gives { OnOk result (Gives (R.state reader.old) (R.state reader.new) self.old.came
            self.new.came) }
        ensures stops { IfErr result (Stops self.old.limit (R.state reader.old) (R.state reader.new)
            self.old.came) }
    {
        if self.window.len() >= count {
            return Ok(true);
        }
        self.bring(reader, count)
    }

    /// Fetches the bytes that are left, and uses neither these nor those that are held.
    ///
    /// The faults are 13 if the reader failed, and 14 if more bytes came than the limit.
    pub fn skip_rest<R: Source>(&mut self, reader: &mut R) -> Result<(), InputFault>
        ensures limit { self.new.limit ≡ self.old.limit }
        ensures within { self.new.came ≤ self.new.limit }
        ensures end { OnOk result (IsAtEnd (R.state reader.new).left) }
        ensures gives { OnOk result (Gives (R.state reader.old) (R.state reader.new) self.old.came
            self.new.came) }
        ensures stops { IfErr result (Stops self.old.limit (R.state reader.old) (R.state reader.new)
            self.old.came) }
    {
        loop {
            self.window.clear();
            if self.fetch(reader)? == 0 {
                return Ok(());
            }
        }
    }
}
