//! The command `check`: notes on a data set, and a summary.

ghost use Rattle.std.specs.Prelude.{◌≡◌};
ghost use Rattle.ssim_program.specs.Answers.{check};
ghost use Rattle.ssim_program.specs.internal.Program.{Answers};

use crate::data_set::load_summary;
use crate::print::note::lines_on;
use crate::refusal::Refusal;
use crate::store::Store;
use std::alloc::Global;

/// The notes on the data set in the file of this name, and a summary.
pub(crate) fn check<S: Store>(alloc: Global, name: &str, store: &mut S) -> Result<Vec<u8>, Refusal>
    ensures answer { Answers (check (S.files store.old) name.now) result }
    ensures same { S.files store.new ≡ S.files store.old }
    ensures counted { S.failures store.new ≡ S.failures store.old }
{
    let summary = load_summary(alloc, name, store)?;
    let lines = lines_on(alloc, &summary)?;
    Ok(lines)
}
