//! The command `sql`: a desk or a data set as a script of SQL.

ghost use Rattle.std.specs.Prelude.{◌≡◌};
ghost use Rattle.ssim_program.specs.Answers.{is_desk, sql};
ghost use Rattle.ssim_program.specs.internal.Program.{Answers};

use crate::explain::file_kind::FileKind;
use crate::refusal::Refusal;
use crate::store::Store;
use crate::timetable_file::{carrier_of, open_known};
use ssim_sql::script_of;
use std::alloc::Global;

/// The script of the desk, or of the data set, in a file.
pub(crate) fn sql<S: Store>(alloc: Global, file: &str, store: &mut S) -> Result<Vec<u8>, Refusal>
    ensures answer { Answers (sql (S.files store.old) file.now) result }
    ensures same { S.files store.new ≡ S.files store.old }
    ensures counted { S.failures store.new ≡ S.failures store.old }
{
    let (kind, desk) = open_known(alloc, file, store)?;
    let carrier = carrier_of(&desk);
    let script = script_of(alloc, &carrier, is_desk(kind), desk)?;
    Ok(script)
}

/// Whether a file is a desk file.
fn is_desk(kind: FileKind) -> bool
    ensures { result ≡ is_desk kind }
{
    match kind {
        FileKind::Desk => true,
        _ => false,
    }
}
