//! The command `select`: a data set with the chosen flight dates of a desk or a data set alone.

ghost use Rattle.std.specs.Prelude.{◌≡◌, IfOk, List, Option, map, ℕ};
ghost use Rattle.ssim_command_line.specs.Line.{choice_line};
ghost use Rattle.ssim_program.specs.Again.{GrowsByItself};
ghost use Rattle.ssim_program.specs.Answers.{select};
ghost use Rattle.ssim_program.specs.internal.Program.{MadeItself, MakesOr};

use crate::command::choice::choice_in;
use crate::made::Made;
use crate::refusal::Refusal;
use crate::store::Store;
use crate::timetable_file::open_timetable;
use ssim_command_line::ChoiceWords;
use std::alloc::Global;

/// The chosen part of the desk, or of the data set, in a file, to be exported.
pub(crate) fn select<'n, S: Store>(
    alloc: Global,
    words: &ChoiceWords<'_>,
    file: &str,
    flights: &[&str],
    store: &mut S,
) -> Result<Made<'n, S::Hold>, Refusal>
    ensures answer { MakesOr S.Hold.file (S.files store.old) (select (S.files store.old)
        (choice_line words.now) file.now (map (λ t. t.now) flights.now)) result }
    ensures same { S.files store.new ≡ S.files store.old }
    ensures counted { S.failures store.new ≡ S.failures store.old }
    ensures again { IfOk result (λ made. (before after : Option (List ℕ))
        → MadeItself made before after → GrowsByItself before after) }
{
    let desk = open_timetable(alloc, file, store)?;
    let choice = choice_in(alloc, desk.data_set().airline(), words, flights)?;
    Ok(Made::Part { desk, choice })
}
