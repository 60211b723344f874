//! Messages held over a base, in order of reference, and the desk file that keeps them.
//!
//! - [`Held`]: a message that is held, with its reference, its canonical text and the full dates of
//!   its sub-messages.
//! - [`look`]: looks a message up in a list in order of reference; [`LookUp`]: what is held under
//!   its reference. [`search`]: the position of a reference.
//! - [`first_conflict`], [`first_new`], [`merged`]: two such lists, compared and put together.
//! - [`Pages`]: such a list on pages, to which messages come in any order; [`PagePlace`]: where one
//!   is.
//! - [`put_desk`]: writes the desk file of a base and the messages that are held over it; or
//!   [`WriteFault`], 52.
//! - [`read_desk`]: reads a desk file from a reader, and returns its base and messages ([`Opened`])
//!   or a [`DeskFault`].
//! - [`laws`]: no two desks have one file, and what was opened is saved as it was.
//!
//! The definitions that the contracts cite are in `specs/`: `Held` (messages by reference, and what
//! a desk is), `Entries` (the entries of a list), `File` (the bytes of a desk file) and `Fault`. No
//! law reaches those in `specs/clauses/`: `Ordered` (the position of a message in a list, and two
//! lists merged), `Pages` (the position of a message on pages), `Opening` (what reading the bytes of
//! a desk file returns), and a part of `Fault`. Computed examples are in `proofs/Examples`.
//!
//! The promise: the list says exactly which message is held under which reference; and bytes are
//! the file of at most one base and one list, which are read from them, and written as them again.
#![tactic(auto)]

mod desk_file_reader;
mod desk_file_writer;
mod fault;
mod held;
pub mod laws;
mod lookup;
mod pages;
mod row_line;
mod union;

pub use desk_file_reader::{Opened, read_desk};
pub use desk_file_writer::put_desk;
pub use fault::DeskFault;
pub use held::Held;
pub use lookup::{LookUp, look, search};
pub use pages::{PagePlace, Pages};
pub use ssim_base::WriteFault;
pub use union::{first_conflict, first_new, merged};
