//! The blocks of a stream of bytes, one after another.

ghost use Rattle.std.specs.Prelude.{◌≡◌, ◌<◌, ◌≤◌, ◌+◌, ◌*◌, OnOk, length, nat_lt, Ok, Err, true, false};
ghost use Rattle.std.specs.Io.KnownBytes.{IsAtEnd};
ghost use Rattle.ssim_records.specs.declared.blocks.BlockStop.TheVariants.{ReaderNeverEnds};
ghost use Rattle.ssim_records.specs.Frames.{is_fill};
ghost use Rattle.ssim_records.specs.clauses.Blocks.{BytesCame, Fetches, StaysLeft};
ghost use Rattle.ssim_records.specs.internal.Blocks.{behind_front, with_front, FailsAtRest};
ghost use Rattle.ssim_records.specs.internal.Blocks.{GivesBlock, GivesOther, FailsOnce, LeavesFew};
ghost use Rattle.ssim_records.specs.internal.Blocks.{block_count, refusal_of, with_block};

use crate::device::Source;
use crate::fault::RecordFault;
use crate::window::{ROOM, Window};
use std::marker::Model;

/// Why no block came.
#[derive(Clone, Copy, Debug, PartialEq, Eq)]
pub enum BlockStop {
    Short,
    ReadFault,
    ReaderNeverEnds,
}

impl BlockStop {
    /// The refusal of the record of this number, of which no block came.
    pub(crate) fn refusal_of(self, number: u64) -> RecordFault
        ensures { result ≡ refusal_of self number }
    {
        match self {
            BlockStop::Short => RecordFault::Short { record: number },
            BlockStop::ReadFault => RecordFault::ReadFault { record: number },
            BlockStop::ReaderNeverEnds => RecordFault::ReaderNeverEnds { record: number },
        }
    }
}

/// The number of bytes that must be held for a block: one more if the last came after the limit.
fn needed(came: u128, limit: u64) -> usize
    requires { came ≤ limit + 1 }
    ensures block { 200 ≤ result }
    ensures small { result ≤ 201 }
    ensures inside { came ≤ limit → result ≡ 200 }
    ensures within { came + 200 ≤ limit + result }
{
    if came > limit as u128 { 201 } else { 200 }
}

/// Brings the next block to the beginning of the window, of all that the window holds and the
/// reader has left. Says whether there is one.
fn next_block<R: Source>(
    window: &mut Window,
    came: &mut u128,
    limit: u64,
    after_block: bool,
    reader: &mut R,
) -> Result<bool, BlockStop>
    requires { came.old ≤ limit + 1 }
    ensures came { came.new ≤ limit + 1 }
    ensures held { length window.new + came.old ≤ length window.old + came.new }
    ensures long { result ≡ Ok true → 200 ≤ length window.new }
    ensures block { GivesBlock limit after_block came.old window.old (R.state reader.old).left
        came.new (behind_front result window.new) (R.state reader.new).left
        (with_front window.new result) }
    ensures never_ends { result ≡ Err ReaderNeverEnds
        → (limit < came.new) × (length window.new ≤ 200) }
    ensures fetched { Fetches after_block 0 window.old (R.state reader.old).left
        (block_count (with_front window.new result)) (behind_front result window.new)
        (R.state reader.new).left }
    ensures few_left { LeavesFew window.new (with_front window.new result) }
    ensures fault { FailsOnce (R.state reader.old).failures (R.state reader.new).failures
        (with_front window.new result) }
    ensures bytes { BytesCame (R.state reader.old) (R.state reader.new) came.old came.new }
{
    loop {
        window.trim(after_block);
        if window.len() >= needed(*came, limit) {
            return Ok(true);
        }
        if *came > limit as u128 {
            return Err(BlockStop::ReaderNeverEnds);
        }
        let room = (limit as u128 + 1 - *came).min(ROOM as u128) as usize;
        match window.fetch(reader, room) {
            Err(_) => return Err(BlockStop::ReadFault),
            Ok(0) => {
                if window.len() == 0 {
                    return Ok(false);
                }
                return Err(BlockStop::Short);
            }
            Ok(n) => *came += n as u128,
        }
    }
}

const FILL: [u8; 200] = [b'0'; 200];

// Mostly the first byte is the type of a record.
#[tactic(auto, unfolding(crate::specs::Frames::is_fill))]
fn is_fill(block: &[u8; 200]) -> bool
    ensures { result ≡ is_fill block.now }
{
    if block[0] != b'0' {
        return false;
    }
    block.as_slice() == FILL.as_slice()
}

/// Brings the next block that is not fill to the beginning of the window, of all that the window
/// holds and the reader has left. Says whether there is one. The blocks of fill before it are
/// counted.
pub fn next_other<R: Source>(
    window: &mut Window,
    came: &mut u128,
    number: &mut u64,
    limit: u64,
    reader: &mut R,
) -> Result<bool, BlockStop>
    requires came { came.old ≤ limit + 1 }
    requires counted { 200 * number.old + length window.old ≤ came.old }
    ensures came { came.new ≤ limit + 1 }
    ensures counted { 200 * number.new + length window.new ≤ came.new }
    ensures more { number.old ≤ number.new }
    ensures long { result ≡ Ok true → 200 ≤ length window.new }
    ensures block { GivesOther limit number.old came.old window.old (R.state reader.old).left
        (with_block result number.new) came.new (behind_front result window.new)
        (R.state reader.new).left (with_front window.new result) }
    ensures never_ends { result ≡ Err ReaderNeverEnds
        → (limit < came.new) × (length window.new ≤ 200) }
    ensures fetched { Fetches (nat_lt 0 number.old) number.old window.old (R.state reader.old).left
        (with_block result number.new) (behind_front result window.new)
        (R.state reader.new).left }
    ensures few_left { LeavesFew window.new (with_front window.new result) }
    ensures fault { FailsOnce (R.state reader.old).failures (R.state reader.new).failures
        (with_front window.new result) }
    ensures bytes { BytesCame (R.state reader.old) (R.state reader.new) came.old came.new }
{
    loop {
        let more = next_block(window, came, limit, *number > 0, reader)?;
        if !more {
            return Ok(false);
        }
        if !is_fill(window.front()) {
            return Ok(true);
        }
        window.skip(200);
        *number += 1;
    }
}

/// Fetches the bytes that the reader has left, and forgets them with those that the window holds.
pub fn skip_rest<R: Source>(
    window: &mut Window,
    came: &mut u128,
    limit: u64,
    reader: &mut R,
) -> Result<(), BlockStop>
    requires { came.old ≤ limit + 1 }
    ensures came { came.new ≤ limit + 1 }
    ensures more { came.old ≤ came.new }
    ensures held { length window.new ≡ 0 }
    ensures end { OnOk result (IsAtEnd (R.state reader.new).left × (came.new ≤ limit)) }
    ensures fault { FailsAtRest limit came.new (R.state reader.old).failures
        (R.state reader.new).failures result }
    ensures left { StaysLeft (R.state reader.old).left (R.state reader.new).left }
    ensures bytes { BytesCame (R.state reader.old) (R.state reader.new) came.old came.new }
{
    loop {
        window.clear();
        if *came > limit as u128 {
            return Err(BlockStop::ReaderNeverEnds);
        }
        let room = (limit as u128 + 1 - *came).min(ROOM as u128) as usize;
        match window.fetch(reader, room) {
            Err(_) => return Err(BlockStop::ReadFault),
            Ok(0) => return Ok(()),
            Ok(n) => *came += n as u128,
        }
    }
}
