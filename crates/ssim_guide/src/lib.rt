//! Words for people: what each refusal means and what to do about it, and what is at an invalid
//! place of a file.
//!
//! - [`explanation_of`]: the [`Explanation`] of a refusal by its number; [`words_on`]: its lines.
//! - [`words_on_record`]: the lines on a record of a data set, and on the field that is refused at a
//!   column; [`words_on_overflow`]: on the overflow of its itinerary variation; [`words_on_type`] and
//!   [`words_on_continuation`]: on a record of another carrier, and the trailer before it;
//!   [`words_on_overlap`]: on two records with a common date.
//! - [`words_on_line`]: those on a line of a text, a station table or a script;
//!   [`words_on_offset`]: on an element of a desk file; [`words_on_word`]: on a word of a command line.
//!
//! **Promise.** A number has an explanation exactly if a command may have a refusal of it. The lines
//! on a refusal are its name with a meaning, the lines on its place, and what to do. What these texts
//! say is not specified: a test compares those on refusals with the tables of the documents.
#![tactic(auto)]

mod explanation;
mod fields;
mod known;
mod line_words;
mod lines;
mod overlap;
mod record_words;
mod texts;

pub use explanation::{Explanation, explanation_of, words_on};
pub use line_words::{words_on_line, words_on_offset, words_on_word};
pub use overlap::words_on_overlap;
pub use record_words::{words_on_continuation, words_on_overflow, words_on_record, words_on_type};
