//! Calls of the library on readers and writers that fail after each number of bytes.

use crate::fault::Fault;
use crate::transcript::{push_line, push_named, push_refused};
use ssim_base::{Base, Stations};
use ssim_desk::{Desk, DeskFault};
use ssim_program::Refusal;
use ssim_records::{Bytes, Input, Output, Sink};
use ssim_vectors::{Extent, FailingReader, FailingWriter};
use std::alloc::Global;

/// The most bytes that are read.
const LIMIT: u64 = 268_435_456;

/// A call that reads or writes through a device.
#[derive(Clone, Copy)]
pub enum Call<'a> {
    /// The desk of a file is opened.
    Open(&'a [u8]),
    /// The base of a data set and a station table is read.
    Read(&'a [u8], &'a [u8]),
    /// A desk file is written.
    Save(&'a Desk),
    /// A desk is exported.
    Export(&'a Desk),
    /// Bytes are put in one call.
    Put(&'a [u8]),
}

impl<'a> Call<'a> {
    /// Makes the call with a device that moves a number of bytes, for each number from 0 on in
    /// steps, up to all of them. Prints what it returned; neighbouring numbers with the same result
    /// are printed together.
    pub fn print(
        &self,
        alloc: Global,
        step: usize,
        stops: bool,
        out: &mut Vec<u8>,
    ) -> Result<(), Fault> {
        let whole = self.whole(alloc)?;
        let mut first = 0;
        let mut room = 0;
        let mut last = self.answer(alloc, extent_of(0, stops), &whole)?;
        for turn in 1..=whole.len().div_ceil(step.max(1)) {
            let next_room = turn.saturating_mul(step).min(whole.len());
            let next = self.answer(alloc, extent_of(next_room, stops), &whole)?;
            if next.as_slice() != last.as_slice() {
                print_between(first, room, &last, out)?;
                first = next_room;
                last = next;
            }
            room = next_room;
        }
        print_between(first, room, &last, out)
    }

    /// The bytes that the call moves. Finding the end of what is read counts as a byte.
    fn whole(&self, alloc: Global) -> Result<Vec<u8>, Fault> {
        match self {
            Call::Open(bytes) | Call::Read(bytes, _) => {
                let mut whole = bytes.to_vec(alloc)?;
                whole.push(0)?;
                Ok(whole)
            }
            Call::Put(bytes) => Ok(bytes.to_vec(alloc)?),
            Call::Save(desk) => {
                let mut whole = Bytes::new(alloc);
                let saved = desk.save(&mut whole);
                written(alloc, saved.is_ok(), &whole)
            }
            Call::Export(desk) => {
                let mut whole = Bytes::new(alloc);
                let exported = desk.export(&mut whole);
                written(alloc, exported.is_ok(), &whole)
            }
        }
    }

    /// What the call returns, as a line.
    fn answer(&self, alloc: Global, extent: Extent, whole: &[u8]) -> Result<Vec<u8>, Fault> {
        match self {
            Call::Open(bytes) => opened(alloc, FailingReader::new(bytes, extent)),
            Call::Read(bytes, table) => read(alloc, FailingReader::new(bytes, extent), table),
            Call::Save(_) | Call::Export(_) | Call::Put(_) => {
                self.written(alloc, FailingWriter::new(alloc, extent, true), whole)
            }
        }
    }

    /// What a call that writes returns. What the writer took has to be a prefix of all.
    fn written(
        &self,
        alloc: Global,
        mut writer: FailingWriter,
        whole: &[u8],
    ) -> Result<Vec<u8>, Fault> {
        let mut line = Vec::new(alloc);
        let done = self.write(&mut writer);
        if !whole.starts_with(&writer.taken) {
            push_line(&mut line, "other bytes")?;
        }
        if done {
            push_line(&mut line, "written")?;
        } else {
            push_refused(&mut line, &Refusal::WriteFault)?;
        }
        Ok(line)
    }

    /// Whether all was written.
    fn write(&self, writer: &mut FailingWriter) -> bool {
        let mut output = Output::new(writer);
        match self {
            Call::Save(desk) => desk.save(&mut output).is_ok(),
            Call::Export(desk) => desk.export(&mut output).is_ok(),
            Call::Put(bytes) => output.put(bytes) == Ok(bytes.len()),
            Call::Open(_) | Call::Read(..) => false,
        }
    }
}

/// The extent of a device that moves this many bytes and then fails, or moves none.
fn extent_of(room: usize, stops: bool) -> Extent {
    Extent {
        room,
        stops,
        ..Extent::whole()
    }
}

/// The bytes that were written, if all were.
fn written(alloc: Global, done: bool, bytes: &Bytes) -> Result<Vec<u8>, Fault> {
    if done {
        Ok(bytes.bytes().to_vec(alloc)?)
    } else {
        Err(Fault::Memory)
    }
}

fn opened(alloc: Global, reader: FailingReader<'_>) -> Result<Vec<u8>, Fault> {
    let mut line = Vec::new(alloc);
    let mut source = Input::new(reader);
    match Desk::open(alloc, &mut source, LIMIT).err() {
        None => push_line(&mut line, "opened")?,
        Some(fault) => push_refused(&mut line, &Refusal::Desk(fault))?,
    }
    Ok(line)
}

fn read(alloc: Global, reader: FailingReader<'_>, table: &[u8]) -> Result<Vec<u8>, Fault> {
    let mut line = Vec::new(alloc);
    let mut source = Input::new(reader);
    let stations = match Stations::read(alloc, table) {
        Ok(stations) => stations,
        Err(fault) => return Err(Fault::of(fault.number())),
    };
    match Base::read(alloc, &mut source, stations, LIMIT).err() {
        None => push_line(&mut line, "read")?,
        Some(fault) => push_refused(&mut line, &Refusal::DataSet(fault))?,
    }
    Ok(line)
}

fn print_between(first: usize, last: usize, answer: &[u8], out: &mut Vec<u8>) -> Result<(), Fault> {
    push_named(out, "bytes ", &first)?;
    push_named(out, " to ", &last)?;
    push_line(out, "")?;
    Ok(out.extend_from_slice(answer)?)
}
