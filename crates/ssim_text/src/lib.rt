//! Schedule messages of IATA SSIM, chapters 4 (SSM) and 5 (ASM), and their texts.
//!
//! [`decode`] reads a text and returns its [`Message`], which keeps its canonical text
//! ([`Message::text`], [`encode`]). A text is divided into lines. CR bytes and blanks at the end of
//! a line are dropped, then empty lines; line numbers count all lines. A message has, in this
//! order: an optional [`Originator`], its [`Kind`], its [`TimeMode`] (UTC unless given), its
//! [`GivenReference`], one to 250 [`Sub`]s divided by `//`, and free text if a line after a `//`
//! begins with `SI`. A sub-message has an action, a flight, its [`Dates`] (the period of an SSM,
//! the one date of an ASM), and the lines of its action: `NEW` and `RPL` an [`Equipment`], up to 20
//! [`LegLine`]s and up to 99 [`SegmentLine`]s, `EQT` an equipment, `TIM` leg lines, `CNL` nothing.
//!
//! **Promise.** `decode` returns a message exactly if the bytes spell one, and that one; no text
//! spells two messages. Otherwise it returns a [`TextFault`] with its number, 20 to 29, and its
//! line: the first line after which no valid message is possible, or the line after the last if the
//! text ends too early. The canonical text of a message spells it, so `decode` returns that message
//! again. Dates, times and designators are kept as values, so other spellings of a value are the
//! same message. Two messages are equal exactly if their canonical texts are ([`Message::same`]);
//! [`Message::copy`] returns an equal one.
//!
//! Values are also made of their parts: [`Equipment::new`], [`LegLine::new`], [`SegmentLine::new`],
//! [`NewLegs::new`]. Each gives exactly those that a text can have. [`Message::new`] makes a message
//! of such parts.
#![tactic(auto)]

mod action;
mod bytes;
mod dates;
mod decoder;
mod decoder_state;
mod encoder;
mod equipment;
mod fault;
mod kind;
pub mod laws;
mod leg;
mod lines;
mod message;
mod originator;
mod reference;
mod segment;

pub use action::{Action, NewLegs, Sub};
pub use bytes::{cut, first_word};
pub use dates::{Dates, GivenDate, GivenEnd, GivenPeriod};
pub use decoder::decode;
pub use encoder::{push_kind, push_line, push_mode, push_originator};
pub use equipment::Equipment;
pub use fault::{Fault, TextFault};
pub use kind::{ActionIdentifier, Kind};
pub use leg::{LegEnd, LegLine, Legs, leg_pair, read_station};
pub use lines::{Line, is_text_line, lines_left, without_end};
pub use message::{FreeLine, Message, encode};
pub use originator::Originator;
pub use reference::{CreatorReference, GivenReference, GroupCode, Reference};
pub use segment::{SegmentLine, SegmentText, Segments};
pub use ssim_values::TimeMode;
