//! A timetable as a script of SQL, which makes tables of it in a database.
//!
//! - [`script_of`]: the script of a desk, or of a data set. Within one transaction it makes the
//!   tables that are not there, deletes the rows of this timetable, and inserts them.
//!
//! The rows of legs are the canonical periods that `ssim_schedule` gives, and those of changes the
//! periods that `ssim_difference` gives from the data set of a desk. All bytes of a data set
//! or of a message are texts of SQL; a byte above 127 is the character of its number in UTF-8.
//! The only error is [`Memory`].
//!
//! The tables and the views are constant texts, the files of `schema/`. `make/schema.py` writes
//! them into the modules of `constant`.
//!
//! **Promise.** The bytes of the script are exact. By the [`laws`] a text is read back as its bytes,
//! whatever they are, the rows of legs are the timetable, and no two rows of a table have one key.
#![tactic(auto)]

mod blanks;
mod changes;
mod constant;
mod days;
mod flights;
mod held;
pub mod laws;
mod leg_rows;
mod script;
mod segment_rows;
mod table;
mod timetable;
mod value;

pub use script::script_of;
pub use ssim_values::Memory;
