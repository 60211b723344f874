//! What is written into memory.

ghost use Rattle.std.specs.Prelude.{◌≡◌, OnOk, IsOk};

use ssim_values::Memory;
use std::io;

/// The result of `write!` into memory. Its only error is that memory is out.
pub fn written(outcome: io::Result<()>) -> Result<(), Memory>
    ensures { OnOk result (IsOk outcome) }
{
    match outcome {
        Ok(()) => Ok(()),
        Err(_) => Err(Memory),
    }
}
