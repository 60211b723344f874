//! The command `problems`: every invalid record of a data set.

ghost use Rattle.std.specs.Prelude.{◌≡◌};
ghost use Rattle.ssim_program.specs.Answers.{problems};
ghost use Rattle.ssim_program.specs.Made.{has_problem};
ghost use Rattle.ssim_program.specs.internal.Program.{Reports};

use crate::data_set::load_problems;
use crate::made::Report;
use crate::print::problem::printed;
use crate::refusal::Refusal;
use crate::store::Store;
use ssim_base::Problems;
use std::alloc::Global;

/// The problems of the data set in the file of this name, and their number, or the problems as CSV; and
/// whether there are any.
pub(crate) fn problems<S: Store>(
    alloc: Global,
    csv: bool,
    name: &str,
    store: &mut S,
) -> Result<Report, Refusal>
    ensures answer { Reports (problems (S.files store.old) csv name.now) result }
    ensures same { S.files store.new ≡ S.files store.old }
    ensures counted { S.failures store.new ≡ S.failures store.old }
{
    let problems = load_problems(alloc, name, store)?;
    let lines = printed(alloc, csv, &problems)?;
    let found = has_problem(&problems);
    Ok(Report { lines, found })
}

/// Whether there is a problem.
fn has_problem(problems: &Problems) -> bool
    ensures { result ≡ has_problem problems.now }
{
    !problems.faults.is_empty()
}
