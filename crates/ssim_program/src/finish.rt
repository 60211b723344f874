//! What a command has made is printed and kept, one act after another.

ghost use Rattle.std.specs.Prelude.{OnOk};
ghost use Rattle.ssim_program.specs.World.{Does, Performs, world};
ghost use Rattle.ssim_program.specs.internal.Program.{MadeItself, keeps, will};
ghost use Rattle.ssim_program.specs.print.Paper.{Paper};

use crate::command::split::split_file;
use crate::command::take::{Taking, take_texts};
use crate::export::{export_desk, export_part, export_set};
use crate::hold::keep_content;
use crate::made::{Kept, Made};
use crate::print::printer::{Printer, print_all};
use crate::refusal::Refusal;
use crate::store::Store;
use std::alloc::Global;
use std::io::Write;

/// Keeps the refused texts, if there is a place for them, and then the other file.
fn keep_files<S: Store>(
    alloc: Global,
    refused: &Option<Kept<S::Hold>>,
    last: &Kept<S::Hold>,
    store: &mut S,
) -> Result<(), Refusal>
    ensures { (out : Paper) → Performs (keeps S.Hold.file refused.now last.now)
        (world (S.files store.old) (S.failures store.old) out)
        (world (S.files store.new) (S.failures store.new) out) result }
{
    match refused {
        None => keep_content(alloc, &last.contents, &last.place, store),
        Some(kept) => {
            keep_content(alloc, &kept.contents, &kept.place, store)?;
            keep_content(alloc, &last.contents, &last.place, store)
        }
    }
}

/// Prints and keeps what a command has made.
pub(crate) fn finish<S: Store, W: Write>(
    alloc: Global,
    made: Made<'_, S::Hold>,
    store: &mut S,
    out: &mut Printer<'_, W>,
) -> Result<(), Refusal>
    ensures does { Does (will S.Hold.file (S.files store.old) made.entry)
        (world (S.files store.old) (S.failures store.old) out.old)
        (world (S.files store.new) (S.failures store.new) out.new) result }
    ensures again { OnOk result (MadeItself made.entry out.old.taken out.new.taken) }
{
    match made {
        Made::Lines(lines) => print_all(out, &lines),
        Made::Kept { kept, lines } => {
            keep_content(alloc, &kept.contents, &kept.place, store)?;
            print_all(out, &lines)
        }
        Made::Printed {
            lines,
            refused,
            kept,
            ..
        } => {
            print_all(out, &lines)?;
            keep_files(alloc, &refused, &kept, store)
        }
        Made::DataSet(data_set) => export_set(data_set, out),
        Made::Desk(desk) => export_desk(desk, out),
        Made::Part { desk, choice } => export_part(desk, &choice, out),
        Made::Texts {
            place,
            desk,
            names,
            effects,
        } => {
            let taking = Taking {
                names,
                effects,
                place: &place,
            };
            take_texts(alloc, &taking, desk, store, out)
        }
        Made::Sections { dataset, prefix } => split_file(alloc, dataset, prefix, store, out),
        Made::Reported { lines, .. } => print_all(out, &lines),
    }
}
