//! The command `tidy`: the canonical export of a data set.

ghost use Rattle.std.specs.Prelude.{◌≡◌, IfOk, List, Option, ℕ};
ghost use Rattle.ssim_program.specs.Again.{GrowsByItself};
ghost use Rattle.ssim_program.specs.Answers.{tidy};
ghost use Rattle.ssim_program.specs.internal.Program.{MadeItself, MakesOr};

use crate::data_set::load;
use crate::made::Made;
use crate::refusal::Refusal;
use crate::store::Store;
use std::alloc::Global;

/// The data set in the file of this name, to be exported.
pub(crate) fn tidy<'n, S: Store>(
    alloc: Global,
    name: &str,
    store: &mut S,
) -> Result<Made<'n, S::Hold>, Refusal>
    ensures answer { MakesOr S.Hold.file (S.files store.old) (tidy (S.files store.old) name.now) result }
    ensures same { S.files store.new ≡ S.files store.old }
    ensures counted { S.failures store.new ≡ S.failures store.old }
    ensures again { IfOk result (λ made. (before after : Option (List ℕ))
        → MadeItself made before after → GrowsByItself before after) }
{
    let data_set = load(alloc, name, store)?;
    Ok(Made::DataSet(data_set))
}
