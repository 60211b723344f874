//! The command that the words name.
ghost use Rattle.std.specs.Prelude.{◌≡◌, ◌++◌, [], IfErr, IfOk, MatchResult, Option, codes, map};
ghost use Rattle.std.specs.Prelude.{option_map, unwrap_or};
ghost use Rattle.clap.specs.Words.{all_of, app_of, found_of, first_of, rows_of};
ghost use Rattle.ssim_command_line.specs.Line.{Line, Spells, is_given, line_from, values_in};
ghost use Rattle.ssim_command_line.specs.Line.{choice_line, choice_of, line_of, mode_of};
ghost use Rattle.ssim_command_line.specs.Line.{span_line, span_of};
ghost use Rattle.ssim_command_line.specs.Usage.{Names, line_at};
ghost use Rattle.ssim_command_line.specs.clauses.Usage.{IsFaultOf};

use crate::board_form::{BoardForm, board_form_of};
use crate::command_name::{CommandName, command_named};
use crate::forms::{
    csv_of, diff_form_of, findings_form_of, form_of, problems_form_of, receive_form_of,
};
use crate::program::program;
use crate::table::{PLACES, commands};
use clap::error::ErrorKind;
use clap::{ArgMatches, Error};
use std::alloc::{AllocError, Global};

/// How `list` prints its flights.
#[derive(Clone, Copy, Debug, PartialEq, Eq)]
pub struct ListForm {
    /// As CSV.
    pub csv: bool,
    /// Date by date.
    pub dates: bool,
}

/// How `diff` prints the changes.
#[derive(Clone, Copy, Debug, PartialEq, Eq)]
pub struct DiffForm {
    /// As CSV. Then there are no numbers.
    pub csv: bool,
    /// As numbers of each kind of change.
    pub summary: bool,
    /// With a status that says whether there are changes.
    pub status: bool,
}

/// How `problems` prints the invalid records.
#[derive(Clone, Copy, Debug, PartialEq, Eq)]
pub struct ProblemsForm {
    /// As CSV.
    pub csv: bool,
    /// With a status that says whether there are any.
    pub status: bool,
}

/// How `receive` prints what became of the texts.
#[derive(Clone, Copy, Debug, PartialEq, Eq)]
pub struct ReceiveForm {
    /// As CSV.
    pub csv: bool,
    /// With a status that says whether a text was refused, or a file was not read.
    pub status: bool,
    /// With the effects on the timetable. Then it is not CSV.
    pub effects: bool,
}

/// How `findings` prints the sub-messages, and which.
#[derive(Clone, Copy, Debug, PartialEq, Eq)]
pub struct FindingsForm {
    /// As CSV.
    pub csv: bool,
    /// Only those that did not act on a date.
    pub not_acted: bool,
}

/// The time mode of the data set that `convert` writes.
#[derive(Clone, Copy, Debug, PartialEq, Eq)]
pub enum ModeWord {
    /// UTC.
    Utc,
    /// Local time.
    Local,
}

/// Which flight dates are chosen, in the words of the command line.
#[derive(Debug, Drop)]
pub struct ChoiceWords<'a> {
    /// The first date of origin.
    pub from: Option<&'a str>,
    /// The last date of origin.
    pub to: Option<&'a str>,
    /// Stations, of which a leg touches one.
    pub stations: Vec<&'a str>,
    /// Aircraft types, of which a leg has one.
    pub aircraft: Vec<&'a str>,
}

/// Between which dates of origin a command looks, in the words of the command line.
#[derive(Clone, Copy, Debug)]
pub struct SpanWords<'a> {
    /// The first date of origin.
    pub from: Option<&'a str>,
    /// The last date of origin.
    pub to: Option<&'a str>,
}

/// A command with its values. Those named `dataset`, `stations`, `desk`, `other`, `file`, `from`,
/// `to`, `script`, `out`, `refused`, `since` and `texts` are names of files.
#[derive(Drop)]
pub enum Request<'a> {
    /// Print the notes on a data set and a summary.
    Check {
        dataset: &'a str,
    },
    /// Print every invalid record of a data set.
    Problems {
        form: ProblemsForm,
        dataset: &'a str,
    },
    /// Export a data set.
    Tidy {
        dataset: &'a str,
    },
    /// Write the desk file of a data set and a station table; with notes, print the stations whose
    /// variations the table lacks or contradicts.
    Start {
        notes: bool,
        dataset: &'a str,
        stations: &'a str,
        out: &'a str,
    },
    /// Take texts at a desk, and write its desk file. Here, and in the next commands, print the
    /// effects on the timetable, if that is asked for.
    Take {
        effects: bool,
        desk: &'a str,
        out: &'a str,
        texts: Vec<&'a str>,
    },
    /// Take each text of mailbox files that a desk takes, keep the refused ones, if a file for them
    /// is named, and write the desk file.
    Receive {
        refused: Option<&'a str>,
        form: ReceiveForm,
        desk: &'a str,
        out: &'a str,
        texts: Vec<&'a str>,
    },
    /// Merge two desks, and write the desk file; without what one of them has withdrawn since an older
    /// one, if that is named.
    Merge {
        effects: bool,
        since: Option<&'a str>,
        desk: &'a str,
        other: &'a str,
        out: &'a str,
    },
    /// Carry the messages of another desk that mean the same to a desk, and write the desk file.
    Carry {
        effects: bool,
        desk: &'a str,
        other: &'a str,
        out: &'a str,
    },
    /// Print the texts of the messages of a desk: of all, or of those that name one of the flights on
    /// one of the dates. As CSV print their sub-messages.
    Texts {
        csv: bool,
        span: SpanWords<'a>,
        desk: &'a str,
        flights: Vec<&'a str>,
    },
    /// Withdraw messages from a desk, and write its desk file.
    Withdraw {
        effects: bool,
        desk: &'a str,
        out: &'a str,
        references: Vec<&'a str>,
    },
    /// Print flights of a desk or a data set on a date: a flight, and the words after it, which are
    /// more flights and at last the date.
    Show {
        file: &'a str,
        flight: &'a str,
        words: Vec<&'a str>,
    },
    /// Print what the messages of a desk did with flights on a date; a data set has none. The words
    /// are those of `Show`.
    History {
        csv: bool,
        file: &'a str,
        flight: &'a str,
        words: Vec<&'a str>,
    },
    /// Print which message of a desk acted last on each date of flights, by periods; or the data set.
    Blame {
        csv: bool,
        file: &'a str,
        flights: Vec<&'a str>,
    },
    /// Print the departures and arrivals of a desk or a data set at a station on a local date, or on
    /// several dates.
    Board {
        form: BoardForm,
        file: &'a str,
        station: &'a str,
        date: &'a str,
    },
    /// Print the periods or the dates of the chosen flight dates of a desk or a data set: of all
    /// flights, or of these.
    List {
        form: ListForm,
        choice: ChoiceWords<'a>,
        file: &'a str,
        flights: Vec<&'a str>,
    },
    /// Print on which of the chosen dates flights of a desk or a data set operate.
    Calendar {
        choice: ChoiceWords<'a>,
        file: &'a str,
        flights: Vec<&'a str>,
    },
    /// Print what a desk or a data set is, and how much it has.
    Info {
        file: &'a str,
    },
    /// Print the station table that the legs of a desk or a data set say.
    Stations {
        file: &'a str,
    },
    /// Print a desk or a data set as an SQL script that fills a database.
    Sql {
        file: &'a str,
    },
    /// Print the timetable of a desk or a data set as a page of HTML, with its changes from another
    /// timetable, if one is named.
    Page {
        from: Option<&'a str>,
        file: &'a str,
    },
    /// Print on which of the chosen dates flights differ in two timetables, of desks or of data sets: all
    /// flights, or these.
    Diff {
        form: DiffForm,
        choice: ChoiceWords<'a>,
        from: &'a str,
        to: &'a str,
        flights: Vec<&'a str>,
    },
    /// Write the messages that lead one timetable to another, under references from this one on.
    Publish {
        from: &'a str,
        to: &'a str,
        reference: &'a str,
        out: &'a str,
    },
    /// Print what the sub-messages of a desk found on these dates: of all flights, or of these; and
    /// all of them, or those that did not act on a date.
    Findings {
        form: FindingsForm,
        span: SpanWords<'a>,
        desk: &'a str,
        flights: Vec<&'a str>,
    },
    /// Export a desk.
    Export {
        desk: &'a str,
    },
    /// Export the chosen flight dates of a desk or a data set: of all flights, or of these.
    Select {
        choice: ChoiceWords<'a>,
        file: &'a str,
        flights: Vec<&'a str>,
    },
    /// Write the data set of the timetable of a desk or a data set in a time mode.
    Convert {
        mode: ModeWord,
        file: &'a str,
        out: &'a str,
    },
    /// Write a data set for each carrier of a data set of several carriers.
    Split {
        dataset: &'a str,
        prefix: &'a str,
    },
    /// Run a script on desks.
    Rehearse {
        dataset: &'a str,
        stations: &'a str,
        script: &'a str,
    },
    /// Explain the refusals of a number, or what is invalid in a file.
    Explain {
        status: bool,
        word: &'a str,
    },
}

/// Why the words make no request. It has no number of its own: the program prints 90, or what is
/// wrong with the words.
#[derive(Debug, Drop, thiserror::Error)]
pub enum LineFault {
    /// Memory ran out: refusal 90, status 1.
    #[error("out of memory")]
    Memory,
    /// What `clap` has to say: help, status 0; or what is wrong with the words, status 2.
    #[error("help, or what is wrong with the words")]
    Shown(Error),
    /// The words name no command: status 2.
    #[error("the words name no command")]
    NoCommand,
}

/// The request with the values in its first fields, the texts after them in the next (one or more, if
/// a `+` says so), and what the options say in the last ones; after `=` that takes memory. The first of two
/// values may be missing, if a `?` says so. After a `:` is what reads the first value, and after `?:` what
/// reads the options. Nothing, if the values are too few or too many, or one of these reads nothing.
macro_rules! request {
    (($alloc:expr, $inner:expr, $values:expr) $name:ident($($field:ident),+)) => {
        match $values {
            [$($field),+] => Ok(Some(Request::$name { $($field: *$field),+ })),
            _ => Ok(None),
        }
    };
    (($alloc:expr, $inner:expr, $values:expr)
        $name:ident($first:ident: $of:ident, $($field:ident),+)) => {
        match $values {
            [$first, $($field),+] => match $of(*$first) {
                Some($first) => Ok(Some(Request::$name { $first, $($field: *$field),+ })),
                None => Ok(None),
            },
            _ => Ok(None),
        }
    };
    (($alloc:expr, $inner:expr, $values:expr)
        $name:ident($($field:ident),+; $form:ident?: $of:ident)) => {
        match $values {
            [$($field),+] => match $of($inner) {
                Some($form) => Ok(Some(Request::$name { $($field: *$field,)+ $form })),
                None => Ok(None),
            },
            _ => Ok(None),
        }
    };
    (($alloc:expr, $inner:expr, $values:expr)
        $name:ident($($field:ident),+; $($form:ident: $by:ident);+)) => {
        match $values {
            [$($field),+] => Ok(Some(Request::$name {
                $($form: $by($inner),)+
                $($field: *$field),+
            })),
            _ => Ok(None),
        }
    };
    (($alloc:expr, $inner:expr, $values:expr) $name:ident($first:ident?, $second:ident)) => {
        match $values {
            [$second] => Ok(Some(Request::$name { $first: None, $second: *$second })),
            [$first, $second] => Ok(Some(Request::$name {
                $first: Some(*$first),
                $second: *$second,
            })),
            _ => Ok(None),
        }
    };
    (($alloc:expr, $inner:expr, $values:expr)
        $name:ident($($field:ident),+; $texts:ident + $($options:tt)*)) => {
        match $values {
            [$($field),+, _, ..] => {
                request!(($alloc, $inner, $values) $name($($field),+; $texts $($options)*))
            }
            _ => Ok(None),
        }
    };
    (($alloc:expr, $inner:expr, $values:expr)
        $name:ident($($field:ident),+; $texts:ident; $form:ident?: $by:ident;
            $options:ident = $of:ident)) => {
        match $values {
            [$($field),+, $texts @ ..] => match $by($inner) {
                Some($form) => Ok(Some(Request::$name {
                    $($field: *$field,)+
                    $texts: $texts.to_vec($alloc)?,
                    $form,
                    $options: $of($alloc, $inner)?,
                })),
                None => Ok(None),
            },
            _ => Ok(None),
        }
    };
    (($alloc:expr, $inner:expr, $values:expr)
        $name:ident($($field:ident),+; $texts:ident; $option:ident: $of:ident;
            $form:ident?: $by:ident)) => {
        match $values {
            [$($field),+, $texts @ ..] => match $by($inner) {
                Some($form) => Ok(Some(Request::$name {
                    $($field: *$field,)+
                    $texts: $texts.to_vec($alloc)?,
                    $option: $of($inner),
                    $form,
                })),
                None => Ok(None),
            },
            _ => Ok(None),
        }
    };
    (($alloc:expr, $inner:expr, $values:expr)
        $name:ident($($field:ident),+; $texts:ident; $form:ident: $by:ident;
            $options:ident = $of:ident)) => {
        match $values {
            [$($field),+, $texts @ ..] => Ok(Some(Request::$name {
                $($field: *$field,)+
                $texts: $texts.to_vec($alloc)?,
                $form: $by($inner),
                $options: $of($alloc, $inner)?,
            })),
            _ => Ok(None),
        }
    };
    (($alloc:expr, $inner:expr, $values:expr)
        $name:ident($($field:ident),+; $texts:ident; $options:ident = $of:ident)) => {
        match $values {
            [$($field),+, $texts @ ..] => Ok(Some(Request::$name {
                $($field: *$field,)+
                $texts: $texts.to_vec($alloc)?,
                $options: $of($alloc, $inner)?,
            })),
            _ => Ok(None),
        }
    };
    (($alloc:expr, $inner:expr, $values:expr)
        $name:ident($($field:ident),+; $texts:ident $(; $options:ident: $of:ident)*)) => {
        match $values {
            [$($field),+, $texts @ ..] => Ok(Some(Request::$name {
                $($field: *$field,)+
                $texts: $texts.to_vec($alloc)?,
                $($options: $of($inner),)*
            })),
            _ => Ok(None),
        }
    };
}

/// The request of the row of a command.
macro_rules! request_of {
    (($of:expr, $given:tt)
        $($($name:literal $words:tt => $request:ident $fields:tt
        $about:literal $example:literal)+);+) => {
        match $of {
            $($(CommandName::$request => request!($given $request $fields),)+)+
        }
    };
}

/// The values of a place, if it has any.
#[tactic(auto, using(crate::proofs::Rows::all_rows))]
fn values_at<'m, 'a>(inner: &'m ArgMatches<'a>, place: &str) -> Option<&'m [&'a str]>
    ensures { option_map (λ s. map (λ v. v.now) s.now) result
        ≡ all_of place.now (rows_of (found_of inner.now)) }
{
    inner.get_raw(place)
}

/// Adds the values of a place, if it has any.
fn add_values<'a>(values: &mut Vec<&'a str>, given: Option<&[&'a str]>) -> Result<(), AllocError>
    ensures { IfOk result (λ _. map (λ v. v.now) values.new.items ≡ map (λ v. v.now) values.old.items
        ++ unwrap_or (option_map (λ s. map (λ v. v.now) s.now) given.entry) []) }
{
    match given {
        Some(more) => values.extend_from_slice(more),
        None => Ok(()),
    }
}

/// The values of a command, in the order in which they are written.
fn values_in<'a>(alloc: Global, inner: &ArgMatches<'a>) -> Result<Vec<&'a str>, AllocError>
    ensures { IfOk result
        (λ values. map (λ v. v.now) values.items ≡ values_in (rows_of (found_of inner.now))) }
{
    let mut values = Vec::new(alloc);
    for place in PLACES {
        add_values(&mut values, values_at(inner, place))?;
    }
    Ok(values)
}

/// The value of an option, if it is given.
#[tactic(auto, using(crate::proofs::Rows::first_rows))]
pub(crate) fn option_at<'a>(inner: &ArgMatches<'a>, name: &str) -> Option<&'a str>
    ensures { option_map (λ s. s.now) result ≡ first_of name.now (rows_of (found_of inner.now)) }
{
    inner.get_str(name)
}

/// The file of refused texts, if one is named.
fn refused_of<'a>(inner: &ArgMatches<'a>) -> Option<&'a str>
    ensures { option_map (λ s. s.now) result
        ≡ first_of (codes "refused") (rows_of (found_of inner.now)) }
{
    option_at(inner, "refused")
}

/// Whether the status is to say that something was found.
fn status_of(inner: &ArgMatches<'_>) -> bool
    ensures { result ≡ is_given (codes "status") (rows_of (found_of inner.now)) }
{
    is_given(inner, "status")
}

/// Whether notes are to be printed.
fn notes_of(inner: &ArgMatches<'_>) -> bool
    ensures { result ≡ is_given (codes "notes") (rows_of (found_of inner.now)) }
{
    is_given(inner, "notes")
}

/// Whether the effects on the timetable are to be printed.
fn effects_of(inner: &ArgMatches<'_>) -> bool
    ensures { result ≡ is_given (codes "effects") (rows_of (found_of inner.now)) }
{
    is_given(inner, "effects")
}

/// The older desk from which both desks came, if one is named.
fn since_of<'a>(inner: &ArgMatches<'a>) -> Option<&'a str>
    ensures { option_map (λ s. s.now) result
        ≡ first_of (codes "since") (rows_of (found_of inner.now)) }
{
    option_at(inner, "since")
}

/// Whether an option without a value is given.
pub(crate) fn is_given(inner: &ArgMatches<'_>, name: &str) -> bool
    ensures { result ≡ is_given name.now (rows_of (found_of inner.now)) }
{
    option_at(inner, name) == Some("true")
}

/// The span of dates that the options give.
fn span_of<'a>(inner: &ArgMatches<'a>) -> SpanWords<'a>
    ensures { span_line result ≡ span_of (rows_of (found_of inner.now)) }
{
    SpanWords {
        from: option_at(inner, "from"),
        to: option_at(inner, "to"),
    }
}

/// The time mode of a word.
fn mode_of(word: &str) -> Option<ModeWord>
    ensures { result ≡ mode_of word.now }
{
    match word {
        "utc" => Some(ModeWord::Utc),
        "local" => Some(ModeWord::Local),
        _ => None,
    }
}

/// The values of an option that may come several times.
fn all_at<'a>(alloc: Global, inner: &ArgMatches<'a>, name: &str) -> Result<Vec<&'a str>, AllocError>
    ensures { IfOk result (λ values. map (λ v. v.now) values.items
        ≡ unwrap_or (all_of name.now (rows_of (found_of inner.now))) []) }
{
    let mut values = Vec::new(alloc);
    add_values(&mut values, values_at(inner, name))?;
    Ok(values)
}

/// Which flight dates the options choose.
fn choice_of<'a>(alloc: Global, inner: &ArgMatches<'a>) -> Result<ChoiceWords<'a>, AllocError>
    ensures { IfOk result (λ choice. choice_line choice ≡ choice_of (rows_of (found_of inner.now))) }
{
    Ok(ChoiceWords {
        from: option_at(inner, "from"),
        to: option_at(inner, "to"),
        stations: all_at(alloc, inner, "station")?,
        aircraft: all_at(alloc, inner, "aircraft")?,
    })
}

/// The request of the command with this name that these values and options make.
fn make<'a>(
    alloc: Global,
    name: &str,
    inner: &ArgMatches<'a>,
    values: &[&'a str],
) -> Result<Option<Request<'a>>, AllocError>
    ensures { IfOk result (λ r. option_map line_of r
        ≡ line_from name.now (rows_of (found_of inner.now)) (map (λ v. v.now) values.now)) }
{
    let Some(command) = command_named(name) else {
        return Ok(None);
    };
    commands!(request_of of (command, (alloc, inner, values)))
}

/// The request that a subcommand's matches make.
fn read<'a>(
    alloc: Global,
    name: &str,
    inner: &ArgMatches<'a>,
) -> Result<Option<Request<'a>>, AllocError>
    ensures { IfOk result
        (λ r. option_map line_of r ≡ line_at name.now (rows_of (found_of inner.now))) }
{
    let values = values_in(alloc, inner)?;
    make(alloc, name, inner, &values)
}

/// The request that the words make, the first of which is the program's name.
///
/// A command's name and as many plain values as it takes are that command with these values; only
/// memory can be missing.
pub fn parse<'a>(alloc: Global, words: &'a [&'a str]) -> Result<Request<'a>, LineFault>
    ensures spelled { (line : Line) → Spells (map (λ w. w.now) words.entry.now) line
        → MatchResult result (λ r. line_of r ≡ line) (λ e. e ≡ LineFault.Memory) }

    // Nothing is wrong with the words of a request, and a fault is one of the words.
    ensures named { IfOk result (λ r. Names (map (λ w. w.now) words.entry.now) (line_of r)) }
    ensures fault { IfErr result (IsFaultOf (map (λ w. w.now) words.entry.now)) }
{
    let Ok(program) = program(alloc) else {
        return Err(LineFault::Memory);
    };
    let matches = match program.try_get_matches_from(words) {
        Ok(matches) => matches,
        Err(error) => {
            if error.kind() == ErrorKind::OutOfMemory {
                return Err(LineFault::Memory);
            }
            return Err(LineFault::Shown(error));
        }
    };
    let Some((name, inner)) = matches.subcommand() else {
        return Err(LineFault::NoCommand);
    };
    match read(alloc, name, inner) {
        Ok(Some(request)) => Ok(request),
        Ok(None) => Err(LineFault::NoCommand),
        Err(_) => Err(LineFault::Memory),
    }
}
