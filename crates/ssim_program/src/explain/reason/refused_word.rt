//! The word that a command refuses.

ghost use Rattle.std.specs.Prelude.{◌≡◌};

use crate::explain::example::designator;
use crate::refusal::Refusal;
use crate::store::Store;
use crate::timetable_file::open_timetable;
use ssim_base::ResolveFault;
use ssim_command_line::{ChoiceWords, Request, SpanWords};
use ssim_desk::DeskFault;
use ssim_outbox::OutboxFault;
use ssim_text::Reference;
use ssim_values::{Airline, Designator, Fault, Memory};
use ssim_words::{typed_aircraft, typed_day, typed_flight, typed_station};
use std::alloc::Global;

/// What a word of a command names.
#[derive(Clone, Copy, Debug, PartialEq, Eq)]
enum Named {
    Flight,
    Date,
    Station,
    Aircraft,
    Reference,
}

impl Named {
    /// Whether a word names one.
    fn is_named(self, alloc: Global, word: &str) -> Result<bool, Memory> {
        let word = word.as_bytes();
        match self {
            Named::Flight => is_flight(alloc, word),
            Named::Date => Ok(typed_day(alloc, word)?.is_some()),
            Named::Station => Ok(typed_station(alloc, word)?.is_some()),
            Named::Aircraft => Ok(typed_aircraft(alloc, word)?.is_some()),
            Named::Reference => Ok(Reference::parse(word).is_ok()),
        }
    }
}

/// Whether a word names a flight, of any airline.
fn is_flight(alloc: Global, word: &[u8]) -> Result<bool, Memory> {
    let Some(Designator { airline, .. }) = designator() else {
        return Ok(false);
    };
    Ok(typed_flight(alloc, airline, word)?.is_some())
}

/// The word that a refusal of a command is about, if it is about a word.
pub(super) fn refused_word<'a, S: Store>(
    alloc: Global,
    request: &Request<'a>,
    refusal: &Refusal,
    store: &mut S,
) -> Result<Option<&'a str>, Memory>
    ensures same { S.files store.new ≡ S.files store.old }
    ensures counted { S.failures store.new ≡ S.failures store.old }
{
    if let Some(named) = named_by(refusal) {
        let words = words_naming(alloc, request, named)?;
        return first_unnamed(alloc, named, &words);
    }
    match refusal {
        Refusal::Publication(
            OutboxFault::Reference
            | OutboxFault::Date
            | OutboxFault::Order(_)
            | OutboxFault::References,
        ) => Ok(published_reference(request)),
        Refusal::Desk(DeskFault::Resolve(ResolveFault::Period(0))) => Ok(first_date(request)),
        Refusal::Desk(DeskFault::Resolve(ResolveFault::Airline(0))) => {
            other_flight(alloc, request, store)
        }
        _ => Ok(None),
    }
}

/// What a word is to name that has this refusal.
fn named_by(refusal: &Refusal) -> Option<Named> {
    match refusal {
        Refusal::Value(Fault::BadDesignator) => Some(Named::Flight),
        Refusal::Value(Fault::BadDate) => Some(Named::Date),
        Refusal::Value(Fault::BadStation) => Some(Named::Station),
        Refusal::Aircraft => Some(Named::Aircraft),
        Refusal::Reference => Some(Named::Reference),
        _ => None,
    }
}

/// The first of the words that does not name what it is to name.
fn first_unnamed<'a>(
    alloc: Global,
    named: Named,
    words: &[&'a str],
) -> Result<Option<&'a str>, Memory> {
    for word in words {
        if !named.is_named(alloc, *word)? {
            return Ok(Some(*word));
        }
    }
    Ok(None)
}

/// The reference of `publish`.
fn published_reference<'a>(request: &Request<'a>) -> Option<&'a str> {
    match request {
        Request::Publish { reference, .. } => Some(*reference),
        _ => None,
    }
}

/// The date of `--from`.
fn first_date<'a>(request: &Request<'a>) -> Option<&'a str> {
    span_of(request).from
}

/// The first flight of another airline than that of the file, which is read again. The standard
/// input is not: then it is the only flight, or none is known.
fn other_flight<'a, S: Store>(
    alloc: Global,
    request: &Request<'a>,
    store: &mut S,
) -> Result<Option<&'a str>, Memory>
    ensures same { S.files store.new ≡ S.files store.old }
    ensures counted { S.failures store.new ≡ S.failures store.old }
{
    let words = words_naming(alloc, request, Named::Flight)?;
    if let [only] = words.as_slice() {
        return Ok(Some(*only));
    }
    let Some(name) = flights_file(request) else {
        return Ok(None);
    };
    if name == "-" {
        return Ok(None);
    }
    match open_timetable(alloc, name, store) {
        Ok(desk) => first_of_other(alloc, desk.data_set().airline(), &words),
        Err(_) => Ok(None),
    }
}

/// The first of the words that names a flight of another airline.
fn first_of_other<'a>(
    alloc: Global,
    airline: Airline,
    words: &[&'a str],
) -> Result<Option<&'a str>, Memory> {
    for word in words {
        match typed_flight(alloc, airline, word.as_bytes())? {
            Some(flight) if flight.airline != airline => return Ok(Some(*word)),
            _ => {}
        }
    }
    Ok(None)
}

// ---- the words of a command

/// The words of a command that are to name this, in the order in which they are read.
fn words_naming<'a>(
    alloc: Global,
    request: &Request<'a>,
    named: Named,
) -> Result<Vec<&'a str>, Memory> {
    let mut words = Vec::new(alloc);
    match named {
        Named::Flight => push_flights(&mut words, request)?,
        Named::Date => push_dates(&mut words, request)?,
        Named::Station => push_stations(&mut words, request)?,
        Named::Aircraft => {
            if let Some(choice) = choice_of(request) {
                words.extend_from_slice(&choice.aircraft)?;
            }
        }
        Named::Reference => {
            if let Request::Withdraw { references, .. } = request {
                words.extend_from_slice(references)?;
            }
        }
    }
    Ok(words)
}

/// Adds the flights of a command. The last word of `show` and `history` is the date.
fn push_flights<'a>(words: &mut Vec<&'a str>, request: &Request<'a>) -> Result<(), Memory> {
    match request {
        Request::Texts { flights, .. }
        | Request::Findings { flights, .. }
        | Request::Blame { flights, .. }
        | Request::List { flights, .. }
        | Request::Calendar { flights, .. }
        | Request::Diff { flights, .. }
        | Request::Select { flights, .. } => words.extend_from_slice(flights)?,
        Request::Show {
            flight,
            words: more,
            ..
        }
        | Request::History {
            flight,
            words: more,
            ..
        } => {
            words.push(*flight)?;
            if let [others @ .., _] = more.as_slice() {
                words.extend_from_slice(others)?;
            }
        }
        _ => {}
    }
    Ok(())
}

/// Adds the dates of a command.
fn push_dates<'a>(words: &mut Vec<&'a str>, request: &Request<'a>) -> Result<(), Memory> {
    match request {
        Request::Board { date, .. } => words.push(*date)?,
        Request::Show { words: more, .. } | Request::History { words: more, .. } => {
            if let [.., date] = more.as_slice() {
                words.push(*date)?;
            }
        }
        _ => {
            let SpanWords { from, to } = span_of(request);
            push_option(words, from)?;
            push_option(words, to)?;
        }
    }
    Ok(())
}

/// Adds a word, if there is one.
fn push_option<'a>(words: &mut Vec<&'a str>, word: Option<&'a str>) -> Result<(), Memory> {
    if let Some(word) = word {
        words.push(word)?;
    }
    Ok(())
}

/// Adds the stations of a command.
fn push_stations<'a>(words: &mut Vec<&'a str>, request: &Request<'a>) -> Result<(), Memory> {
    if let Request::Board { station, .. } = request {
        words.push(*station)?;
    }
    if let Some(choice) = choice_of(request) {
        words.extend_from_slice(&choice.stations)?;
    }
    Ok(())
}

/// The words that choose flight dates.
fn choice_of<'r, 'a>(request: &'r Request<'a>) -> Option<&'r ChoiceWords<'a>> {
    match request {
        Request::List { choice, .. }
        | Request::Calendar { choice, .. }
        | Request::Diff { choice, .. }
        | Request::Select { choice, .. } => Some(choice),
        _ => None,
    }
}

/// The words between which dates a command looks.
fn span_of<'a>(request: &Request<'a>) -> SpanWords<'a> {
    match request {
        Request::Texts { span, .. } | Request::Findings { span, .. } => *span,
        _ => match choice_of(request) {
            Some(choice) => SpanWords {
                from: choice.from,
                to: choice.to,
            },
            None => SpanWords {
                from: None,
                to: None,
            },
        },
    }
}

/// The file whose airline the flights of a command have.
fn flights_file<'a>(request: &Request<'a>) -> Option<&'a str> {
    match request {
        Request::Texts { desk: file, .. }
        | Request::Findings { desk: file, .. }
        | Request::List { file, .. }
        | Request::Calendar { file, .. }
        | Request::Diff { from: file, .. }
        | Request::Select { file, .. }
        | Request::Show { file, .. }
        | Request::Blame { file, .. }
        | Request::History { file, .. } => Some(*file),
        _ => None,
    }
}
