//! How commands print, by the options without a value that are given.

ghost use Rattle.std.specs.Prelude.{◌≡◌, codes};
ghost use Rattle.clap.specs.Words.{found_of, rows_of};
ghost use Rattle.ssim_command_line.specs.Line.{diff_form_of, diff_form_with, findings_form_of, form_of};
ghost use Rattle.ssim_command_line.specs.Line.{is_given, problems_form_of, receive_form_of};
ghost use Rattle.ssim_command_line.specs.Line.{receive_form_with};

use crate::command_line::{DiffForm, FindingsForm, ListForm, ProblemsForm, ReceiveForm, is_given};
use clap::ArgMatches;

/// Which of the options of `list` are given.
pub(crate) fn form_of(inner: &ArgMatches<'_>) -> ListForm
    ensures { result ≡ form_of (rows_of (found_of inner.now)) }
{
    ListForm {
        csv: is_given(inner, "csv"),
        dates: is_given(inner, "dates"),
    }
}

/// How `diff` prints with `--csv`, `--summary` and `--status`: not with both of the first.
fn diff_form_with(csv: bool, summary: bool, status: bool) -> Option<DiffForm>
    ensures { result ≡ diff_form_with csv summary status }
{
    if csv && summary {
        None
    } else {
        Some(DiffForm {
            csv,
            summary,
            status,
        })
    }
}

/// How `diff` prints.
pub(crate) fn diff_form_of(inner: &ArgMatches<'_>) -> Option<DiffForm>
    ensures { result ≡ diff_form_of (rows_of (found_of inner.now)) }
{
    diff_form_with(
        is_given(inner, "csv"),
        is_given(inner, "summary"),
        is_given(inner, "status"),
    )
}

/// Which of the options of `findings` are given.
pub(crate) fn findings_form_of(inner: &ArgMatches<'_>) -> FindingsForm
    ensures { result ≡ findings_form_of (rows_of (found_of inner.now)) }
{
    FindingsForm {
        csv: is_given(inner, "csv"),
        not_acted: is_given(inner, "not-acted"),
    }
}

/// Which of the options of `problems` are given.
pub(crate) fn problems_form_of(inner: &ArgMatches<'_>) -> ProblemsForm
    ensures { result ≡ problems_form_of (rows_of (found_of inner.now)) }
{
    ProblemsForm {
        csv: is_given(inner, "csv"),
        status: is_given(inner, "status"),
    }
}

/// How `receive` prints with `--csv`, `--status` and `--effects`: not with the first and the last.
fn receive_form_with(csv: bool, status: bool, effects: bool) -> Option<ReceiveForm>
    ensures { result ≡ receive_form_with csv status effects }
{
    if csv && effects {
        None
    } else {
        Some(ReceiveForm {
            csv,
            status,
            effects,
        })
    }
}

/// How `receive` prints.
pub(crate) fn receive_form_of(inner: &ArgMatches<'_>) -> Option<ReceiveForm>
    ensures { result ≡ receive_form_of (rows_of (found_of inner.now)) }
{
    receive_form_with(
        is_given(inner, "csv"),
        is_given(inner, "status"),
        is_given(inner, "effects"),
    )
}

/// Whether rows of CSV are printed.
pub(crate) fn csv_of(inner: &ArgMatches<'_>) -> bool
    ensures { result ≡ is_given (codes "csv") (rows_of (found_of inner.now)) }
{
    is_given(inner, "csv")
}
