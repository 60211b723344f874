//! What help says of each command.

use crate::table::commands;

/// What help says of a command.
struct CommandHelp {
    name: &'static str,
    about: &'static str,
    example: &'static str,
}

/// The help of the first group of rows.
macro_rules! first_help {
    (() $($name:literal $words:tt => $request:ident $fields:tt
        $about:literal $example:literal)+; $($others:tt)+) => {
        &[$(CommandHelp { name: $name, about: $about, example: $example }),+]
    };
}

/// The help of the second group of rows.
macro_rules! second_help {
    (() $($first:literal $values:tt => $made:ident $of:tt $does:literal $shown:literal)+;
        $($name:literal $words:tt => $request:ident $fields:tt
        $about:literal $example:literal)+) => {
        &[$(CommandHelp { name: $name, about: $about, example: $example }),+]
    };
}

// Help is looked up in tables: a `match` over as many strings takes a proof of minutes.
const FIRST_HELP: &[CommandHelp] = commands!(first_help of ());

const SECOND_HELP: &[CommandHelp] = commands!(second_help of ());

/// What a command of a table does, and its example.
fn help_in(table: &'static [CommandHelp], name: &str) -> Option<(&'static str, &'static str)> {
    for row in table {
        if row.name == name {
            return Some((row.about, row.example));
        }
    }
    None
}

/// What a command does, and its example.
pub fn help_of(name: &str) -> (&'static str, &'static str) {
    match help_in(FIRST_HELP, name) {
        Some(help) => help,
        None => help_in(SECOND_HELP, name).unwrap_or(("", "")),
    }
}
