//! Calls that change no desk.

use crate::desks::{base_of, push_memory};
use crate::fault::Fault;
use crate::transcript::{push_named, push_refused, push_value, show};
use ssim_base::{Base, resolve};
use ssim_desk::DeskFault;
use ssim_program::Refusal;
use ssim_text::{Message, decode, encode};
use std::alloc::Global;

/// Reads a data set, and prints how many records its base has.
pub fn print_read(
    alloc: Global,
    data_set: &[u8],
    table: &[u8],
    out: &mut Vec<u8>,
) -> Result<(), Fault> {
    match base_of(alloc, data_set, table) {
        Ok(base) => {
            push_named(out, "records ", &base.records().len())?;
            Ok(out.push(b'\n')?)
        }
        Err(Fault::Memory) => push_memory(out),
        Err(fault) => Err(fault),
    }
}

/// Prints the canonical text of a message, which it keeps from its decoding.
pub fn print_decoded(alloc: Global, text: &[u8], out: &mut Vec<u8>) -> Result<(), Fault> {
    match decode(alloc, text) {
        Ok(message) => show(out, "text", message.text()),
        Err(fault) => push_refused(out, &Refusal::Desk(DeskFault::Text(fault))),
    }
}

/// Prints the canonical text of a message, which `encode` makes.
pub fn print_encoded(alloc: Global, text: &[u8], out: &mut Vec<u8>) -> Result<(), Fault> {
    match encode(alloc, &message_of(alloc, text)?) {
        Ok(bytes) => show(out, "text", &bytes),
        Err(_) => push_memory(out),
    }
}

/// Resolves a message against a base, and prints its reference, and the flight and the period of
/// each sub-message.
pub fn print_resolved(
    alloc: Global,
    base: &Base,
    text: &[u8],
    out: &mut Vec<u8>,
) -> Result<(), Fault> {
    let message = message_of(alloc, text)?;
    let resolved = match resolve(base, &message) {
        Ok(resolved) => resolved,
        Err(fault) => return push_refused(out, &Refusal::Desk(DeskFault::Resolve(fault))),
    };
    push_value(out, &resolved.reference)?;
    out.push(b'\n')?;
    for sub in &resolved.subs {
        push_value(out, &sub.flight)?;
        push_named(out, " ", &sub.period.first())?;
        push_named(out, " ", &sub.period.last())?;
        out.push(b'\n')?;
    }
    Ok(())
}

fn message_of(alloc: Global, text: &[u8]) -> Result<Message, Fault> {
    match decode(alloc, text) {
        Ok(message) => Ok(message),
        Err(fault) => Err(Fault::of(fault.number())),
    }
}
