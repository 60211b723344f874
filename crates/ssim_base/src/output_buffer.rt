//! A buffer of lines for a sink.

ghost use Rattle.std.specs.Prelude.{◌≡◌, ◌↔◌, ◌≤◌, ◌<◌, ◌+◌, ◌++◌, [], length, replicate, slice_index, IsTrue};
ghost use Rattle.std.specs.Prelude.{OnOk, OnErr};
ghost use Rattle.std.specs.List.{flat_map};
ghost use Rattle.ssim_records.specs.Frames.{fill};
ghost use Rattle.ssim_records.specs.Leg.{AreLegColumns, exported_leg, written_leg};
ghost use Rattle.ssim_records.specs.Record.{written};
ghost use Rattle.ssim_records.specs.Segment.{IsTail, exported_segment, written_segment};
ghost use Rattle.ssim_base.specs.Export.{line};
ghost use Rattle.ssim_base.specs.clauses.Sinks.{Puts, PutsUpTo};

use ssim_records::{LegColumns, NameText, PeriodText, Record, SegmentTail, Sink, write_over};
use std::marker::Model;
use thiserror::Error;

/// The size of a buffer: 320 lines.
const ROOM: usize = 64_320;

/// A record of fill.
const FILL: [u8; 200] = [b'0'; 200];

/// 52: the sink failed, or took none of the bytes it was given. It has taken a prefix of what was
/// to be written.
#[derive(Clone, Copy, Debug, Error, PartialEq, Eq)]
#[error("the sink failed, or took no byte")]
pub struct WriteFault;

impl WriteFault {
    ghost use Rattle.std.specs.Prelude.{codes};

    /// The number of the fault.
    pub fn number(self) -> u8
        ensures { result ≡ 52 }
    {
        52
    }

    /// The name of the fault, `WriteFault`.
    pub fn name(self) -> &'static str
        ensures { result.now ≡ codes "WriteFault" }
    {
        "WriteFault"
    }
}

/// Bytes for a sink, seen as their list; at most 64,320. The buffer is an array, so writing
/// allocates nothing.
#[derive(Drop)]
pub struct OutputBuffer {
    bytes: [u8; ROOM],
    end: usize,
}

impl Model for OutputBuffer {
    ghost use Rattle.std.specs.Prelude.{List, ℕ, ◌≤◌, take};

    ghost Value = { List ℕ };

    ghost view = { λ b. take b.end b.bytes };

    ghost invariant = { λ b. b.end ≤ 64320 };
}

impl OutputBuffer {
    /// A buffer without bytes.
    pub fn new() -> OutputBuffer
        ensures { result ≡ [] }
    {
        OutputBuffer {
            bytes: [0; ROOM],
            end: 0,
        }
    }

    fn has_room(&self, count: usize) -> bool
        ensures { IsTrue result ↔ (length self.now + count ≤ 64320) }
    {
        count <= ROOM - self.end
    }

    fn push(&mut self, bytes: &[u8])
        requires { length self.old + length bytes.now ≤ 64320 }
        ensures { self.new ≡ self.old ++ bytes.now }
    {
        let end = self.end + bytes.len();
        self.bytes[self.end..end].copy_from_slice(bytes);
        self.end = end;
    }

    fn push_line(&mut self, bytes: &[u8; 200])
        requires { length self.old + 201 ≤ 64320 }
        ensures { self.new ≡ self.old ++ line bytes.now }
    {
        let end = self.end + 200;
        self.bytes[self.end..end].copy_from_slice(bytes);
        self.bytes[end] = b'\n';
        self.end = end + 1;
    }

    fn push_record(&mut self, one: &Record)
        requires { length self.old + 201 ≤ 64320 }
        ensures { self.new ≡ self.old ++ line (written one.now) }
    {
        let end = self.end + 200;
        write_over(one, &mut self.bytes[self.end..end]);
        self.bytes[end] = b'\n';
        self.end = end + 1;
    }

    fn push_leg(&mut self, name: &NameText, period: &PeriodText, columns: &LegColumns, serial: u32)
        requires serial { serial < 1000000 }
        requires room { length self.old + 201 ≤ 64320 }
        ensures value { self.new ≡ self.old
            ++ line (written_leg (exported_leg name.now period.now columns.now serial)) }
        ensures columns { AreLegColumns columns.now }
    {
        let end = self.end + 200;
        name.write_leg(period, columns, serial, &mut self.bytes[self.end..end]);
        self.bytes[end] = b'\n';
        self.end = end + 1;
    }

    fn push_segment(
        &mut self,
        name: &NameText,
        columns: &LegColumns,
        tail: &SegmentTail,
        serial: u32,
    )
        requires serial { serial < 1000000 }
        requires room { length self.old + 201 ≤ 64320 }
        ensures value { self.new ≡ self.old
            ++ line (written_segment (exported_segment name.now (slice_index columns.now 0) tail.now
            serial)) }
        ensures tail { IsTail tail.now }
    {
        let end = self.end + 200;
        name.write_segment(columns, tail, serial, &mut self.bytes[self.end..end]);
        self.bytes[end] = b'\n';
        self.end = end + 1;
    }

    fn bytes(&self) -> &[u8]
        ensures { result.now ≡ self.now }
    {
        &self.bytes[..self.end]
    }

    fn clear(&mut self)
        ensures { self.new ≡ [] }
    {
        self.end = 0;
    }
}

/// Puts all of the bytes into the sink, however many it takes at a time.
pub fn put_all<W: Sink>(out: &mut W, bytes: &[u8]) -> Result<(), WriteFault>
    ensures { Puts bytes.now (W.state out.old) (W.state out.new) result }
{
    let mut rest = bytes;
    while !rest.is_empty() {
        match out.put(rest) {
            Ok(0) | Err(_) => return Err(WriteFault),
            Ok(n) => rest = rest.split_at(n).1,
        }
    }
    Ok(())
}

/// Puts the bytes of the buffer into the sink, and empties the buffer. After a 52 the buffer is
/// unchanged: it holds the bytes of which the sink took a prefix.
pub fn flush<W: Sink>(out: &mut W, block: &mut OutputBuffer) -> Result<(), WriteFault>
    ensures puts { Puts block.old (W.state out.old) (W.state out.new) result }
    ensures empty { OnOk result (block.new ≡ []) }
    ensures unchanged { OnErr result (block.new ≡ block.old) }
{
    put_all(out, block.bytes())?;
    block.clear();
    Ok(())
}

// Makes room in the buffer for a record and LF: if there is no room, the buffer's bytes are put
// into the sink. After a 52 the buffer is unchanged.
fn make_room<W: Sink>(out: &mut W, block: &mut OutputBuffer) -> Result<(), WriteFault>
    ensures puts { PutsUpTo block.old block.new (W.state out.old) (W.state out.new) result }
    ensures room { OnOk result (length block.new + 201 ≤ 64320) }
    ensures unchanged { OnErr result (block.new ≡ block.old) }
{
    if !block.has_room(201) {
        flush(out, block)?;
    }
    Ok(())
}

/// Appends a record as it is written, and LF, to the buffer. If there is no room for them, the
/// buffer's bytes are put into the sink first. After a 52 the buffer is unchanged.
pub fn put_record<W: Sink>(
    out: &mut W,
    block: &mut OutputBuffer,
    one: &Record,
) -> Result<(), WriteFault>
    ensures puts { PutsUpTo (block.old ++ line (written one.now)) block.new
        (W.state out.old) (W.state out.new) result }
    ensures unchanged { OnErr result (block.new ≡ block.old) }
{
    make_room(out, block)?;
    block.push_record(one);
    Ok(())
}

/// Puts the record of a leg in a period, with these columns.
pub fn put_leg<W: Sink>(
    out: &mut W,
    block: &mut OutputBuffer,
    name: &NameText,
    period: &PeriodText,
    columns: &LegColumns,
    serial: u32,
) -> Result<(), WriteFault>
    requires { serial < 1000000 }
    ensures puts { PutsUpTo
        (block.old
        ++ line (written_leg (exported_leg name.now period.now columns.now serial))) block.new
        (W.state out.old) (W.state out.new) result }
    ensures columns { OnOk result (AreLegColumns columns.now) }
{
    make_room(out, block)?;
    block.push_leg(name, period, columns, serial);
    Ok(())
}

/// Puts the record of a segment with this tail that begins with a leg, which has these columns.
pub fn put_segment<W: Sink>(
    out: &mut W,
    block: &mut OutputBuffer,
    name: &NameText,
    columns: &LegColumns,
    tail: &SegmentTail,
    serial: u32,
) -> Result<(), WriteFault>
    requires { serial < 1000000 }
    ensures puts { PutsUpTo
        (block.old
        ++ line (written_segment (exported_segment name.now (slice_index columns.now 0) tail.now
        serial))) block.new
        (W.state out.old) (W.state out.new) result }
    ensures tail { OnOk result (IsTail tail.now) }
{
    make_room(out, block)?;
    block.push_segment(name, columns, tail, serial);
    Ok(())
}

/// Appends bytes to the buffer. If the buffer has no room for them, its bytes are put into the sink
/// first. Bytes longer than a buffer go directly to the sink after them. After a 52 the buffer is
/// unchanged.
pub fn put_bytes<W: Sink>(
    out: &mut W,
    block: &mut OutputBuffer,
    bytes: &[u8],
) -> Result<(), WriteFault>
    ensures puts { PutsUpTo (block.old ++ bytes.now) block.new (W.state out.old) (W.state out.new)
        result }
    ensures unchanged { OnErr result (block.new ≡ block.old) }
{
    if block.has_room(bytes.len()) {
        block.push(bytes);
        return Ok(());
    }
    put_all(out, block.bytes())?;
    if bytes.len() > ROOM {
        put_all(out, bytes)?;
        block.clear();
        return Ok(());
    }
    block.clear();
    block.push(bytes);
    Ok(())
}

/// Puts `count` records of fill.
pub fn put_fill<W: Sink>(
    out: &mut W,
    block: &mut OutputBuffer,
    count: usize,
) -> Result<(), WriteFault>
    ensures { PutsUpTo (block.old ++ flat_map line (replicate count fill)) block.new
        (W.state out.old) (W.state out.new) result }
{
    let mut left = count;
    while left > 0 {
        make_room(out, block)?;
        block.push_line(&FILL);
        left -= 1;
    }
    Ok(())
}
