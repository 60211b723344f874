//! What a desk file has after its records, before anything of it is read.

ghost use Rattle.std.specs.Prelude.{◌≡◌, ◌≤◌, [], IfErr, IfOk, OnOk};
ghost use Rattle.std.specs.Io.KnownBytes.{IsAtEnd};
ghost use Rattle.ssim_records.specs.clauses.InputBuffer.{Gives, Uses};
ghost use Rattle.ssim_base.specs.clauses.SavedBase.{StopsSaved};
ghost use Rattle.ssim_held.specs.internal.DeskFileReader.{IsNotInvalid};

use ssim_base::SavedFault;
use ssim_records::{InputBuffer, Source};
use std::alloc::Global;

/// The bytes that are left, in one list.
pub(crate) fn read_rest<R: Source>(
    alloc: Global,
    input: &mut InputBuffer,
    reader: &mut R,
) -> Result<Vec<u8>, SavedFault>
    ensures limit { input.new.limit ≡ input.old.limit }
    ensures ok { IfOk result (λ bytes.
        Uses bytes.items input.old (R.state reader.old).left input.new (R.state reader.new).left) }
    ensures within { OnOk result (input.new.came ≤ input.new.limit) }
    ensures all { OnOk result ((input.new.held ≡ []) × IsAtEnd (R.state reader.new).left) }
    ensures err { IfErr result IsNotInvalid }
    ensures gives { OnOk result (Gives (R.state reader.old) (R.state reader.new)
        input.old.came input.new.came) }
    ensures stops { IfErr result (StopsSaved input.old.limit (R.state reader.old)
        (R.state reader.new)
        input.old.came input.new.came) }
{
    let mut bytes = Vec::new(alloc);
    while input.has(reader, 1)? {
        let count = input.len();
        bytes.extend_from_slice(input.first(count))?;
        input.skip(count);
    }
    Ok(bytes)
}
