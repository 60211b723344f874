//! The program as a function of its command line, its store of named files and its two writers.
//!
//! - [`run`]: from the words, a [`Store`] and two writers of std to a status; [`run_on`]: the same
//!   over two [`Printer`]s, which count the failures of their writers. [`parse`] of
//!   `ssim_command_line` gives the [`Request`] that the words name.
//! - [`Content`]: what a store keeps, as the desk file of [`ssim_desk::Holdings`]; [`ContentKind`]:
//!   which files it may replace.
//! - [`Refusal`]: why a command was refused; [`RefusalLine`]: its line; [`PrintedLine`]: the lines
//!   that commands print.
//! - [`laws`]: offices to whose desks the same messages were brought have the same desk file;
//!   commands that run at once lose no message that one of them took; a rehearsal of such desks ends
//!   with `same`; what `tidy` wrote is tidied to itself; the refusal of a data set is its first
//!   problem.
//!
//! **Promise.** The words of a command are no fault of the command line. With status 0 or 3 a
//! command has written exactly what its definition makes of the files that it names, and kept exactly the
//! files that it writes. With status 1 the whole line of one refusal was written to `err`, unless
//! `err` failed. If the refusal is 52, `out` failed and has a prefix, and a file that `start`,
//! `merge`, `carry`, `withdraw` or `publish` kept stays. If it is another, no file has changed and
//! nothing was written to `out`, but `take` has printed what became of the texts before the one that
//! is refused, and `receive` what became of all texts if a file is not kept: its refused texts, or
//! its desk after them. A command holds the files that it keeps before it reads any, and replaces
//! none of another kind. Help goes to `out`, and what is wrong with the words to `err`.
#![tactic(auto)]

mod chosen_findings;
mod command;
mod content;
mod content_kind;
mod data_set;
mod desk_file;
mod effects;
mod explain;
mod export;
mod finish;
mod hold;
pub mod laws;
mod made;
mod print;
mod program;
mod refusal;
mod rehearse;
mod some_flights;
mod store;
mod timetable_file;
mod word;

pub use content::Content;
pub use content_kind::ContentKind;
pub use print::printed_line::PrintedLine;
pub use print::printer::Printer;
pub use print::refusal_line::RefusalLine;
pub use program::{run, run_each, run_on};
pub use refusal::Refusal;
pub use ssim_command_line::{LineFault, ListForm, Request, parse};
pub use store::{Hold, HoldFault, KeepFault, Store, StoreFault};
