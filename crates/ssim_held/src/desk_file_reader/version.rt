//! The versions of desk files.

ghost use Rattle.std.specs.Prelude.{◌≡◌, ◌↔◌, ◌++◌, List, ℕ, IfErr, IfNone, IfOk, IfSome, IsTrue};
ghost use Rattle.std.specs.Prelude.{OnOk};
ghost use Rattle.ssim_records.specs.clauses.InputBuffer.{Gives, Stops, Uses, ahead};
ghost use Rattle.ssim_text.specs.Values.{no_originator};
ghost use Rattle.ssim_held.specs.internal.DeskFileReader.{IsOf, first_line};
ghost use Rattle.ssim_held.specs.declared.desk_file_reader.version.FileVersion.{FileVersion};

use crate::desk_file_reader::count_line::after_prefix;
use crate::held::Held;
use ssim_records::{InputBuffer, InputFault, Source};

/// The number of bytes of the first line.
const FIRST_LINE: usize = 11;

/// The version of a desk file, which its first line says.
#[derive(Clone, Copy, Debug, PartialEq, Eq)]
pub(crate) enum FileVersion {
    /// No text has an originator.
    One,
    /// A text may have an originator. This version is written.
    Two,
}

impl FileVersion {
    /// Whether a file of this version may hold the message.
    pub(crate) fn allows(self, held: &Held) -> bool
        ensures { IsTrue result ↔ IsOf self held.now }
    {
        match self {
            FileVersion::One => held.message().originator().is_none(),
            FileVersion::Two => true,
        }
    }
}

/// The version that the first line says, and the bytes after the line.
fn read_version(bytes: &[u8]) -> Option<(FileVersion, &[u8])>
    ensures some { IfSome result (λ read. bytes.now ≡ first_line read.0 ++ read.1.now) }
    ensures none { IfNone result
        ((version : FileVersion) (rest : List ℕ) → bytes.now ≡ first_line version ++ rest → ⊥) }
{
    if let Some(rest) = after_prefix(b"SSIMDESK 2\n", bytes) {
        return Some((FileVersion::Two, rest));
    }
    let rest = after_prefix(b"SSIMDESK 1\n", bytes)?;
    Some((FileVersion::One, rest))
}

/// The version that the next 11 bytes say.
pub(crate) fn take_version<R: Source>(
    input: &mut InputBuffer,
    reader: &mut R,
) -> Result<Option<FileVersion>, InputFault>
    ensures limit { input.new.limit ≡ input.old.limit }
    ensures some { IfOk result (λ read. IfSome read (λ version.
        Uses (first_line version) input.old (R.state reader.old).left
        input.new (R.state reader.new).left)) }
    ensures none { IfOk result (λ read.
        IfNone read (IfSome (ahead input.old (R.state reader.old).left)
        (λ bytes. (version : FileVersion) (rest : List ℕ) → bytes ≡ first_line version ++ rest
        → ⊥))) }
    ensures gives { OnOk result (Gives (R.state reader.old) (R.state reader.new)
        input.old.came input.new.came) }
    ensures stops { IfErr result (Stops input.old.limit (R.state reader.old) (R.state reader.new)
        input.old.came) }
{
    if !input.has(reader, FIRST_LINE)? {
        return Ok(None);
    }
    match read_version(input.first(FIRST_LINE)) {
        Some((version, _)) => {
            input.skip(FIRST_LINE);
            Ok(Some(version))
        }
        None => Ok(None),
    }
}
