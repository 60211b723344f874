//! The commands, each in a module of its own: what it makes of the files. `explain` and `rehearse`
//! have their own folders.
ghost use Rattle.std.specs.Prelude.{◌≡◌, IfOk, IsTrue, List, Option, ℕ};
ghost use Rattle.ssim_command_line.specs.Line.{line_of};
ghost use Rattle.ssim_program.specs.Again.{PrintsItself};
ghost use Rattle.ssim_program.specs.Answers.{answers};
ghost use Rattle.ssim_program.specs.internal.Program.{AreLines, IsReport, MadeItself, MakesOr};

pub(crate) mod blame;
pub(crate) mod board;
pub(crate) mod calendar;
pub(crate) mod carry;
pub(crate) mod check;
pub(crate) mod choice;
pub(crate) mod chosen;
pub(crate) mod convert;
pub(crate) mod diff;
pub(crate) mod export;
pub(crate) mod findings;
pub(crate) mod flight_order;
pub(crate) mod history;
pub(crate) mod info;
pub(crate) mod list;
pub(crate) mod merge;
pub(crate) mod merge_since;
pub(crate) mod named_flights;
pub(crate) mod page;
pub(crate) mod problems;
pub(crate) mod publish;
pub(crate) mod receive;
pub(crate) mod select;
pub(crate) mod show;
pub(crate) mod span;
pub(crate) mod split;
pub(crate) mod sql;
pub(crate) mod start;
pub(crate) mod stations;
pub(crate) mod take;
pub(crate) mod texts;
pub(crate) mod tidy;
pub(crate) mod withdraw;

use crate::command::diff::DiffWords;
use crate::command::merge::MergeWords;
use crate::command::receive::ReceiveWords;
use crate::explain::explain;
use crate::made::{Made, Report};
use crate::refusal::Refusal;
use crate::rehearse::rehearse;
use crate::store::{Hold, Store};
use ssim_command_line::Request;
use std::alloc::Global;

/// Lines as what a command has made.
fn lines<'r, H: Hold + Drop>(made: Result<Vec<u8>, Refusal>) -> Result<Made<'r, H>, Refusal>
    ensures { AreLines made result }
{
    match made {
        Ok(lines) => Ok(Made::Lines(lines)),
        Err(refusal) => Err(refusal),
    }
}

/// A report as what a command has made, whose words ask for the status or not.
fn reported<'r, H: Hold + Drop>(
    asked: bool,
    report: Result<Report, Refusal>,
) -> Result<Made<'r, H>, Refusal>
    ensures { IsReport asked report result }
{
    match report {
        Ok(Report { lines, found }) => Ok(Made::Reported {
            found: asked && found,
            lines,
        }),
        Err(refusal) => Err(refusal),
    }
}

/// What a request makes. Nothing is printed or kept yet.
pub(crate) fn make<'r, S: Store>(
    alloc: Global,
    request: &'r Request<'r>,
    store: &mut S,
) -> Result<Made<'r, S::Hold>, Refusal>
    requires fresh { IsTrue (S.is_fresh store.now) }
    ensures answer { MakesOr S.Hold.file (S.files store.old)
        (answers (line_of request.entry.now) (S.files store.old)) result }
    ensures same { S.files store.new ≡ S.files store.old }
    ensures counted { S.failures store.new ≡ S.failures store.old }
    ensures again { IfOk result (λ made. (before after : Option (List ℕ))
        → MadeItself made before after → PrintsItself (line_of request.entry.now) before after) }
{
    match request {
        Request::Start {
            notes,
            dataset,
            stations,
            out,
        } => start::start(alloc, *notes, dataset, stations, out, store),
        Request::Take {
            effects,
            desk,
            out,
            texts,
        } => take::take(alloc, *effects, desk, out, texts, store),
        Request::Receive {
            refused,
            form,
            desk,
            out,
            texts,
        } => {
            let words = ReceiveWords {
                refused: *refused,
                form: *form,
                texts,
            };
            receive::receive(alloc, &words, desk, out, store)
        }
        Request::Merge {
            effects,
            since,
            desk,
            other,
            out,
        } => {
            let words = MergeWords {
                effects: *effects,
                desk,
                other,
            };
            merge_since::merge_either(alloc, *since, &words, out, store)
        }
        Request::Carry {
            effects,
            desk,
            other,
            out,
        } => carry::carry(alloc, *effects, desk, other, out, store),
        Request::Withdraw {
            effects,
            desk,
            out,
            references,
        } => withdraw::withdraw(alloc, *effects, desk, out, references, store),
        Request::Publish {
            from,
            to,
            reference,
            out,
        } => publish::publish(alloc, from, to, reference, out, store),
        Request::Tidy { dataset } => tidy::tidy(alloc, dataset, store),
        Request::Export { desk } => export::export(alloc, desk, store),
        Request::Check { dataset } => lines(check::check(alloc, dataset, store)),
        Request::Problems { form, dataset } => reported(
            form.status,
            problems::problems(alloc, form.csv, dataset, store),
        ),
        Request::Texts {
            csv,
            span,
            desk,
            flights,
        } => lines(texts::texts(alloc, *csv, *span, desk, flights, store)),
        Request::Show {
            file,
            flight,
            words,
        } => lines(show::show(alloc, file, flight, words, store)),
        Request::History {
            csv,
            file,
            flight,
            words,
        } => lines(history::history(alloc, *csv, file, flight, words, store)),
        Request::Blame { csv, file, flights } => {
            lines(blame::blame(alloc, *csv, file, flights, store))
        }
        Request::Board {
            form,
            file,
            station,
            date,
        } => lines(board::board(alloc, *form, file, station, date, store)),
        Request::List {
            form,
            choice,
            file,
            flights,
        } => lines(list::list(alloc, *form, choice, file, flights, store)),
        Request::Calendar {
            choice,
            file,
            flights,
        } => lines(calendar::calendar(alloc, choice, file, flights, store)),
        Request::Info { file } => lines(info::info(alloc, file, store)),
        Request::Stations { file } => lines(stations::stations(alloc, file, store)),
        Request::Sql { file } => lines(sql::sql(alloc, file, store)),
        Request::Page { from, file } => lines(page::page(alloc, *from, file, store)),
        Request::Diff {
            form,
            choice,
            from,
            to,
            flights,
        } => {
            let words = DiffWords {
                form: *form,
                choice,
                flights,
            };
            reported(form.status, diff::diff(alloc, &words, from, to, store))
        }
        Request::Findings {
            form,
            span,
            desk,
            flights,
        } => lines(findings::findings(alloc, *form, *span, desk, flights, store)),
        Request::Select {
            choice,
            file,
            flights,
        } => select::select(alloc, choice, file, flights, store),
        Request::Convert { mode, file, out } => convert::convert(alloc, *mode, file, out, store),
        Request::Split { dataset, prefix } => Ok(Made::Sections {
            dataset: *dataset,
            prefix: *prefix,
        }),
        Request::Rehearse {
            dataset,
            stations,
            script,
        } => lines(rehearse(alloc, dataset, stations, script, store)),
        Request::Explain { status, word } => reported(*status, explain(alloc, word, store)),
    }
}
