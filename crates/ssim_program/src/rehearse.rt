//! The command `rehearse`: runs a desk script, and prints whether all desks end with the same
//! export.

mod line;
mod lines;
mod outcome;
pub(crate) mod script;
mod texts;

ghost use Rattle.std.specs.Prelude.{◌≡◌};
ghost use Rattle.ssim_program.specs.Answers.{rehearse};
ghost use Rattle.ssim_program.specs.internal.Program.{Answers};

use crate::data_set::load_base;
use crate::refusal::Refusal;
use crate::rehearse::line::bytes_of;
use crate::rehearse::lines::rehearsal_of;
use crate::rehearse::texts::load_steps;
use crate::store::Store;
use ssim_desk::Holdings;
use std::alloc::Global;

/// Runs the script in a file on desks over the base of a data set and a station table: a line for
/// each step, a line for each desk, and whether all exports are equal.
///
/// The data set is loaded first, then the station table; the table is read before the data set.
/// Then the script is loaded and read whole, and its texts are loaded, before the first step. A
/// refusal of a step, or of the export of a desk, is in the line of the step or the desk, 90 too.
/// If there is no memory for the bytes of an export or for the lines, the command is refused with
/// 90.
pub(crate) fn rehearse<S: Store>(
    alloc: Global,
    dataset: &str,
    stations: &str,
    script: &str,
    store: &mut S,
) -> Result<Vec<u8>, Refusal>
    ensures answer { Answers (rehearse (S.files store.old) dataset.now stations.now script.now) result }
    ensures same { S.files store.new ≡ S.files store.old }
    ensures counted { S.failures store.new ≡ S.failures store.old }
{
    let (data_set, stations) = load_base(alloc, dataset, stations, store)?;
    let (count, steps) = load_steps(alloc, script, store)?;
    let desk = Holdings::start(alloc, data_set, stations);
    // No effect at run time. The proof reads from this use what is always true of a base.
    let _ = desk.base().records();
    let lines = rehearsal_of(alloc, desk, count, &steps)?;
    let bytes = bytes_of(alloc, &lines)?;
    Ok(bytes)
}
