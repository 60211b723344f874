//! A timetable as one page of HTML, complete in itself: it names no other file.
//!
//! - [`page_of`]: the page of an airline's flights. Each flight is an article with a line for each
//!   leg of its different itineraries, and a line for each of its periods.
//! - [`PageHeading`]: the airline, the season and the time mode, which are the page's title.
//!
//! The flights are those that `ssim_schedule` gives, each with its pieces: the periods of the
//! export. All text of the data set is escaped, so the page is ASCII. The only error is [`Memory`].
//!
//! How the page looks and what it does are constant texts, the files of `look/`. `make/look.py` writes
//! them into the modules of `look`.
//!
//! **Promise.** The bytes of the page are exact: each different itinerary of each flight and each
//! piece is there once, in order, and nothing else but the heading and the constant texts.
#![tactic(auto)]

mod change;
mod flight;
mod heading;
mod html;
mod key;
mod leg_row;
mod link;
mod look;
mod message;
mod page;
mod timetable;

pub use heading::PageHeading;
pub use message::{push_message, push_sub_begin};
pub use page::page_of;
pub use ssim_values::Memory;
