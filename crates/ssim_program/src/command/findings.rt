//! The command `findings`: what each sub-message of a desk found.

ghost use Rattle.std.specs.Prelude.{◌≡◌, map};
ghost use Rattle.ssim_command_line.specs.Line.{span_line};
ghost use Rattle.ssim_program.specs.Answers.{findings};
ghost use Rattle.ssim_program.specs.internal.Program.{Answers};

use crate::command::span::{dates_alone, has_end};
use crate::desk_file::open_holdings;
use crate::print::finding::{FindingChoice, lines_of};
use crate::refusal::Refusal;
use crate::store::Store;
use ssim_command_line::{FindingsForm, SpanWords};
use std::alloc::Global;

/// What each sub-message of the desk in a file found on its dates, or on those of a span: of all
/// flights, or of those that are named; and all of them, or those that did not act on a date; as lines
/// or as CSV.
pub(crate) fn findings<S: Store>(
    alloc: Global,
    form: FindingsForm,
    span: SpanWords<'_>,
    file: &str,
    flights: &[&str],
    store: &mut S,
) -> Result<Vec<u8>, Refusal>
    ensures answer { Answers (findings (S.files store.old) form (span_line span.entry) file.now
        (map (λ t. t.now) flights.now)) result }
    ensures same { S.files store.new ≡ S.files store.old }
    ensures counted { S.failures store.new ≡ S.failures store.old }
{
    let desk = open_holdings(alloc, file, store)?;
    let choice = dates_alone(alloc, desk.data_set().airline(), span, flights)?;
    let printed = FindingChoice {
        form,
        has_span: has_end(span),
        choice: &choice,
    };
    let lines = lines_of(alloc, &desk, &printed)?;
    Ok(lines)
}
