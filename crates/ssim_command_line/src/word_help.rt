//! What help says of the words of a command.

/// Which words are told by a row: those with an id, those that are shown as a name, or both.
enum Told {
    Id(&'static str),
    Name(&'static str),
    Both(&'static str, &'static str),
}

use Told::{Both, Id, Name};

impl Told {
    /// Whether the row tells of a word.
    fn has(&self, id: &str, shown: &str) -> bool {
        match *self {
            Id(other) => other == id,
            Name(other) => other == shown,
            Both(word, name) => word == id && name == shown,
        }
    }
}

// The first row that has a word says what it is.
const WORDS: &[(Told, &str)] = &[
    (Id("csv"), "Print CSV: a row of names, and then the rows"),
    (Id("dates"), "Print each date by itself, and no periods"),
    (Id("not-acted"), "Print only what did not act on a date"),
    (
        Id("summary"),
        "Print how many changes of each kind there are",
    ),
    (Id("status"), "End with exit status 3 if something is found"),
    (
        Id("notes"),
        "Print the stations that the table lacks or contradicts",
    ),
    (
        Id("effects"),
        "Print what does not act, and how many dates changed",
    ),
    (Id("days"), "Print N dates, each under a heading"),
    (Id("departures"), "Print the departures alone"),
    (Id("arrivals"), "Print the arrivals alone"),
    (Id("from"), "The first date of origin"),
    (Id("to"), "The last date of origin"),
    (Id("station"), "A station of a leg, such as ZRH"),
    (Id("aircraft"), "An aircraft type of a leg, such as 320"),
    (
        Id("since"),
        "An older desk file, from which both came; it may be empty",
    ),
    (
        Id("refused"),
        "A new or empty file, in which to keep the refused texts",
    ),
    (
        Both("third", "REFERENCE"),
        "Of the first text: 05JUN00001E001 or .ZRHRMLX/05JUN00001E001",
    ),
    (Both("fourth", "OUT"), "The file of texts to write"),
    (Name("MODE"), "The time mode of OUT: utc or local"),
    (
        Name("PREFIX"),
        "What the names of the files begin with, before the airline",
    ),
    (
        Name("DATASET"),
        "The data set's file, 200 bytes a record; - is standard input",
    ),
    (
        Name("STATIONS"),
        "The station table's file; - is standard input",
    ),
    (
        Name("FILE"),
        "A desk file, or a data set's file; - is standard input",
    ),
    (
        Name("FROM"),
        "A desk file, or a data set's file; - is standard input",
    ),
    (
        Name("TO"),
        "A desk file, or a data set's file; - is standard input",
    ),
    (Name("DESK"), "A desk file; - is standard input"),
    (Name("OTHER"), "A desk file; - is standard input"),
    (Name("OUT"), "The desk file to write"),
    (
        Name("TEXT"),
        "The files of one or more SSM and ASM texts; - is standard input",
    ),
    (
        Name("REFERENCE"),
        "References of messages, each one word, as 'take' prints it",
    ),
    (Name("STATION"), "A station such as ZRH"),
    (
        Name("FLIGHT"),
        "A flight such as LX544, or 544 for one of the file's airline",
    ),
    (
        Name("FLIGHT/DATE"),
        "More flights, if any, and then the date, such as 07JUL25",
    ),
    (
        Name("DATE"),
        "A date such as 07JUL25, 7jul2025 or 2025-07-07",
    ),
    (
        Name("WORD"),
        "The number of a refusal, such as 12, or a file; - is standard input",
    ),
    (Name("SCRIPT"), "The script; - is standard input"),
];

/// What a word is, by its id and its name.
pub fn about_word(id: &str, shown: &str) -> &'static str {
    for (told, about) in WORDS {
        if told.has(id, shown) {
            return *about;
        }
    }
    ""
}
