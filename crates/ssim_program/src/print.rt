//! What is printed: lines, names of files, the line of a refusal, and the printer that takes them.

pub(crate) mod blocks;
pub(crate) mod fault_line;
pub(crate) mod finding;
pub(crate) mod history_rows;
pub(crate) mod legs;
pub(crate) mod message_articles;
pub(crate) mod name;
pub(crate) mod note;
pub(crate) mod printed_line;
pub(crate) mod printer;
pub(crate) mod problem;
pub(crate) mod refusal_line;
pub(crate) mod section;
pub(crate) mod station_note;
pub(crate) mod step;
pub(crate) mod sub_rows;

/// Values are printed each in a line of its own.
#[derive(Clone, Copy)]
pub(crate) struct AsLine;
