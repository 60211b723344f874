//! Readers that are read to their end.

ghost use Rattle.std.specs.Prelude.{◌≤◌, IfOk, length};

use crate::draft::fault_of;
use ssim_program::StoreFault;
use std::alloc::Global;
use std::io::{ErrorKind, Read};

/// Reads bytes after those that are there, through `chunk`, until there are `most` of them or the
/// reader ends.
pub(crate) fn fill<R: Read>(
    reader: &mut R,
    chunk: &mut [u8],
    bytes: &mut Vec<u8>,
    most: usize,
) -> Result<(), StoreFault> {
    for _ in 0..u64::MAX {
        let room = most.saturating_sub(bytes.len()).min(chunk.len());
        if room == 0 {
            return Ok(());
        }
        match reader.read(&mut chunk[..room]) {
            Ok(0) => return Ok(()),
            Ok(n) => {
                if bytes.extend_from_slice(&chunk[..n]).is_err() {
                    return Err(StoreFault::Memory);
                }
            }
            Err(error) if error.kind() == ErrorKind::Interrupted => {}
            Err(error) => return Err(fault_of(&error)),
        }
    }
    Err(StoreFault::Fault)
}

/// All bytes of the reader, if they are at most `limit`. Memory for `expected` bytes is allocated
/// at once.
pub(crate) fn read_within<R: Read + Drop>(
    alloc: Global,
    mut reader: R,
    chunk: &mut [u8],
    expected: u64,
    limit: u64,
) -> Result<Vec<u8>, StoreFault>
    ensures { IfOk result (λ v. length v.items ≤ limit) }
{
    let room = expected.min(limit).saturating_add(1);
    let Ok(mut bytes) = Vec::with_capacity(alloc, room as usize) else {
        return Err(StoreFault::Memory);
    };
    fill(
        &mut reader,
        chunk,
        &mut bytes,
        limit.saturating_add(1) as usize,
    )?;
    if bytes.len() as u64 > limit {
        return Err(StoreFault::Fault);
    }
    Ok(bytes)
}
