//! The command line: which command the words name, help, and what is wrong with the words.
//!
//! - [`parse`]: the [`Request`] that the words name, or a [`LineFault`].
//!
//! **Promise.** The words of a command are no fault of the command line: only memory can be
//! missing. Nothing is wrong with the words of a request, and a fault is one of the words.
#![tactic(auto)]

mod board_form;
mod command_help;
mod command_line;
mod command_name;
mod forms;
mod program;
mod table;
mod word_help;

pub use board_form::{BoardForm, Direction};
pub use command_line::{
    ChoiceWords, DiffForm, FindingsForm, LineFault, ListForm, ModeWord, ProblemsForm, ReceiveForm,
    Request, SpanWords, parse,
};
