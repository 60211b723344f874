//! The records of a stream, one after another.

ghost use Rattle.std.specs.Prelude.{◌≡◌, ◌≤◌, ◌+◌, ◌*◌, [], IfNone, IfSome, IfOk, None, OnOk, Ok, length, true};
ghost use Rattle.std.specs.Io.KnownBytes.{IsAtEnd};
ghost use Rattle.ssim_records.specs.clauses.Blocks.{BytesCame, StaysLeft};
ghost use Rattle.ssim_records.specs.clauses.Reading.{ReadsBlock, ReadsRecord, RestFails};
ghost use Rattle.ssim_records.specs.clauses.Reading.{ending_of, given};
ghost use Rattle.ssim_records.specs.internal.Blocks.{after_front, front_of};

use crate::blocks::{next_other, skip_rest};
use crate::device::Source;
use crate::fault::RecordFault;
use crate::record::{Record, RecordReader};
use crate::window::Window;
use std::marker::Model;

/// How a reading ended.
#[derive(Clone, Copy, Debug, PartialEq, Eq)]
pub enum Ending {
    End,
    Refused(RecordFault),
}

/// A reading of the records of a stream: blocks of 200 bytes, each followed by any number of line
/// ends, LF or CR LF. A block of 200 zero digits is fill: it is counted and skipped. The same
/// reader is passed at each call.
///
/// A refusal is 10 `Short`, 11 `BadType`, 12 `BadColumn`, 13 `ReadFault` or 14 `ReaderNeverEnds`,
/// with the record number from 1. At most one byte more than the limit is fetched.
#[derive(Drop)]
pub struct Records {
    /// The number of bytes that may come.
    limit: u64,
    /// The number of bytes that came, at most one more than the limit.
    came: u128,
    /// The number of blocks so far: records that were returned, and fill.
    number: u64,
    /// The bytes that came and are not used.
    window: Window,
    /// What reads the records.
    records: RecordReader,
    /// How the reading ended; the same result is returned again.
    ended: Option<Ending>,
}

impl Model for Records {
    ghost use Rattle.std.specs.Prelude.{◌≤◌, ◌+◌, ◌*◌, length};
    ghost use Rattle.ssim_records.specs.clauses.Reading.{Reading};

    ghost Value = { Reading };

    ghost view = { λ r. record {
      limit = r.limit;
      came = r.came;
      number = r.number;
      held = r.window;
      ended = r.ended;
    } };

    ghost invariant = { λ r. (r.came ≤ r.limit + 1) × (200 * r.number + length r.window ≤ r.came) };
}

impl Records {
    /// A reading that refuses a reader once more than `limit` bytes came.
    pub fn new(limit: u64) -> Records
        ensures { result ≡ record { limit = limit; came = 0; number = 0; held = []; ended = None } }
    {
        Records {
            limit,
            came: 0,
            number: 0,
            window: Window::new(),
            records: RecordReader::new(),
            ended: None,
        }
    }

    /// The number of blocks so far: records that were returned, and fill.
    pub fn number(&self) -> u64
        ensures value { result ≡ self.now.number }
        ensures small { 200 * result ≤ self.now.limit + 1 }
    {
        self.number
    }

    // Brings the next block that is not fill to the beginning of the window, and says whether there
    // is one. It is not counted yet. After an end nothing happens.
    fn advance<R: Source>(&mut self, reader: &mut R) -> Result<bool, RecordFault>
        ensures again { IfSome self.old.ended (λ _. (self.new ≡ self.old)
            × (reader.new ≡ reader.old)) }
        ensures ended { self.new.ended ≡ ending_of (front_of self.new result) }
        ensures limit { self.new.limit ≡ self.old.limit }
        ensures within { self.new.came ≤ self.new.limit + 1 }
        ensures found { result ≡ Ok true
            → (self.old.ended ≡ None) × (200 ≤ length self.new.held) }
        ensures reads { IfNone self.old.ended
            (ReadsBlock self.old (R.state reader.old) (after_front result self.new)
            (R.state reader.new) (front_of self.new result)) }
    {
        match self.ended {
            Some(Ending::End) => return Ok(false),
            Some(Ending::Refused(fault)) => return Err(fault),
            None => {}
        }
        match next_other(
            &mut self.window,
            &mut self.came,
            &mut self.number,
            self.limit,
            reader,
        ) {
            Ok(true) => Ok(true),
            Ok(false) => {
                self.ended = Some(Ending::End);
                Ok(false)
            }
            Err(stop) => {
                let fault = stop.refusal_of(self.number + 1);
                self.ended = Some(Ending::Refused(fault));
                Err(fault)
            }
        }
    }

    /// Puts the next record that is not fill into `into`, and returns its number. After the last
    /// record `into` is `None`, and the number is the number of the last block. After the end, and
    /// after a refusal, each call returns the same. After a refusal `into` may have any record or
    /// none.
    ///
    /// It is inlined into each loop over records.
    #[inline(always)]
    pub fn next_into<R: Source>(
        &mut self,
        reader: &mut R,
        into: &mut Option<Record>,
    ) -> Result<u64, RecordFault>
        // After an end nothing happens, so the result means the same end.
        ensures again { IfSome self.old.ended (λ _. (self.new ≡ self.old)
            × (reader.new ≡ reader.old)) }
        ensures ended { self.new.ended ≡ ending_of (given into.new result) }

        // At most one byte more than the limit is ever fetched.
        ensures limit { self.new.limit ≡ self.old.limit }
        ensures within { self.new.came ≤ self.new.limit + 1 }

        // Before an end the next block is fetched, and the result is what it is read as.
        ensures reads { IfNone self.old.ended
            (ReadsRecord self.old (R.state reader.old) self.new (R.state reader.new)
            (given into.new result)) }
        ensures returned { IfOk result (λ number. number ≡ self.new.number) }
    {
        if !self.advance(reader)? {
            *into = None;
            return Ok(self.number);
        }
        self.number += 1;
        let read = self
            .records
            .read_into(self.window.front(), self.number, into);
        self.window.skip(200);
        match read {
            Ok(()) => Ok(self.number),
            Err(fault) => {
                self.ended = Some(Ending::Refused(fault));
                Err(fault)
            }
        }
    }

    /// The next record that is not fill, and its number. After the end, and after a refusal, each
    /// call returns the same.
    pub fn next<R: Source>(&mut self, reader: &mut R) -> Result<Option<(u64, Record)>, RecordFault>
        // After an end nothing happens, so the result means the same end.
        ensures again { IfSome self.old.ended (λ _. (self.new ≡ self.old)
            × (reader.new ≡ reader.old)) }
        ensures ended { self.new.ended ≡ ending_of result }

        // At most one byte more than the limit is ever fetched.
        ensures limit { self.new.limit ≡ self.old.limit }
        ensures within { self.new.came ≤ self.new.limit + 1 }

        // Before an end the next block is fetched, and the result is what it is read as.
        ensures reads { IfNone self.old.ended
            (ReadsRecord self.old (R.state reader.old) self.new (R.state reader.new) result) }
    {
        let mut record = None;
        let number = self.next_into(reader, &mut record)?;
        match record {
            Some(record) => Ok(Some((number, record))),
            None => Ok(None),
        }
    }

    /// The next block that is not fill, and its number, whether it spells a record or not: an
    /// invalid block does not end the reading. After the end, and after a refusal, each call
    /// returns the same. A refusal is 10 `Short`, 13 `ReadFault` or 14 `ReaderNeverEnds`.
    pub fn next_block<R: Source>(
        &mut self,
        reader: &mut R,
    ) -> Result<Option<(u64, [u8; 200])>, RecordFault>
        // After an end nothing happens, so the result means the same end.
        ensures again { IfSome self.old.ended (λ _. (self.new ≡ self.old)
            × (reader.new ≡ reader.old)) }
        ensures ended { self.new.ended ≡ ending_of result }

        // At most one byte more than the limit is ever fetched.
        ensures limit { self.new.limit ≡ self.old.limit }
        ensures within { self.new.came ≤ self.new.limit + 1 }

        // Before an end the next block is fetched.
        ensures reads { IfNone self.old.ended
            (ReadsBlock self.old (R.state reader.old) self.new (R.state reader.new) result) }
    {
        if !self.advance(reader)? {
            return Ok(None);
        }
        let block = *self.window.front();
        self.window.skip(200);
        self.number += 1;
        Ok(Some((self.number, block)))
    }

    /// Fetches the bytes that are left, and uses neither these nor those that are held. 13 is
    /// returned if the reader failed, 14 if more bytes came than the limit; both name the record
    /// after those that were counted.
    pub fn skip_rest<R: Source>(&mut self, reader: &mut R) -> Result<(), RecordFault>
        ensures limit { self.new.limit ≡ self.old.limit }
        ensures number { self.new.number ≡ self.old.number }
        ensures end { OnOk result (IsAtEnd (R.state reader.new).left
            × (self.new.came ≤ self.new.limit)) }
        ensures fault { RestFails self.new (R.state reader.old) (R.state reader.new) result }

        // The bytes that came are those of the reader.
        ensures left { StaysLeft (R.state reader.old).left (R.state reader.new).left }
        ensures came { BytesCame (R.state reader.old) (R.state reader.new) self.old.came
            self.new.came }
    {
        match skip_rest(&mut self.window, &mut self.came, self.limit, reader) {
            Ok(()) => Ok(()),
            Err(stop) => Err(stop.refusal_of(self.number + 1)),
        }
    }
}
