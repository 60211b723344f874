//! The desk in a file.

ghost use Rattle.std.specs.Prelude.{◌≡◌, Err, IfErr, IfOk, IfSome, Ok, Option};
ghost use Rattle.ssim_program.specs.Desks.{desk_in};
ghost use Rattle.ssim_program.specs.Files.{Files, IsOpened};

use crate::data_set::{LIMIT, open_file};
use crate::refusal::Refusal;
use crate::store::Store;
use ssim_desk::{DeskFault, Holdings};
use ssim_records::Source;
use std::alloc::Global;

/// What the desk in the file of this name holds. Returns 91 if there is no such file within the
/// limit.
pub(crate) fn open_holdings<S: Store>(
    alloc: Global,
    name: &str,
    store: &mut S,
) -> Result<Holdings, Refusal>
    ensures answer { desk_in (S.files store.old) name.now result }
    ensures same { S.files store.new ≡ S.files store.old }
    ensures counted { S.failures store.new ≡ S.failures store.old }
{
    let file = open_file(alloc, name, store)?;
    read_desk(alloc, name, file)
}

/// What the desk holds whose desk file was opened under this name. Returns 91 if the file has more
/// bytes than the limit, or fails.
pub(crate) fn read_desk<F: Source + Drop>(
    alloc: Global,
    name: &str,
    mut file: F,
) -> Result<Holdings, Refusal>
    ensures read { (files : Option Files) → IsOpened files name.now (F.state file).left
        → IfOk result (λ desk. desk_in files name.now (Ok desk)) }
    ensures refused { (files : Option Files) → IsOpened files name.now (F.state file).left
        → IfSome files (λ _. (other : F) → (F.state other).failures ≡ 0)
        → IfErr result (λ why. desk_in files name.now (Err why)) }
{
    match Holdings::open(alloc, &mut file, LIMIT) {
        Ok(holdings) => Ok(holdings),
        Err(fault) => match fault {
            DeskFault::Read(_) => Err(Refusal::of_file(alloc, name)),
            _ => Err(Refusal::from(fault)),
        },
    }
}
