//! The texts of a mailbox file: SSM and ASM texts as they come by mail or by teletype, with their
//! envelopes, any number in one file.
//!
//! - [`Texts`]: the texts in order, one at a time, each a [`Text`] with its bytes and the line on
//!   which it begins.
//!
//! Control characters at both ends of a line, and blanks and CR bytes at its end are dropped first.
//! A line `SSM` or `ASM` begins a text, or the origin line above it. `NNNN` ends one, and so does
//! an empty line in its free text. Address lines and a line `ZCZC` directly above a text are part
//! of none. Any other lines are part of the text above, or a text of their own. Empty lines at both
//! ends of a text are no part of it.
//!
//! **Promise.** The texts are exactly those that the definitions name, or memory is missing. Put into
//! one mailbox, each with a line `NNNN` below it, they are read again as the same texts.
#![tactic(auto)]

mod address;
mod draft;
mod free_text;
mod laws;
mod line;
mod role;
mod text;

pub use laws::{texts_read_again, worked_mailboxes};
pub use text::{Text, Texts};
