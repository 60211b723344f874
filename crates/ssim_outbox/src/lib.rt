//! The messages that lead the timetable of one desk towards another desk's, their texts, and what a
//! desk makes of them.
//!
//! - [`publish`]: the file of these messages, and the lines that say which they are and what they
//!   leave unsaid, as [`Published`]; or an [`OutboxFault`].
//! - [`compare`]: whether two data sets are of one airline and one time mode.
//! - [`make_plan`]: the [`PlannedSub`]s that lead a timetable towards another, in the order in which
//!   they act; what they leave of it; and on which dates no messages can make the new itinerary, as a
//!   [`Plan`].
//! - [`unsaid_lines`]: these dates as lines, in periods, each with the reason: `sequence`, or for each
//!   leg that messages cannot make its leg sequence and the columns that they do not give, then
//!   `segments` for its segment data, and `second` for other times of a second leg between the same
//!   stations.
//! - [`say`]: the actions of sub-messages that make the new itinerary of a flight on a date of the
//!   old one: none, `CNL`, `NEW`, `TIM`, `EQT`, `RPL`, or `EQT` and then `TIM`.
//! - [`dated_sub`]: a sub-message with full dates, which a text can have under a heading.
//! - [`messages_of`]: the messages with a heading that have given sub-messages, in order, as many
//!   in each as a text can have; or why there are none, a [`SendFault`].
//! - [`mail_file_of`]: the texts of messages, with a line `NNNN` after each.
//! - [`follows`]: whether a reference comes after those of all messages that a desk holds.
//! - [`deliver`]: the messages taken by a desk, one after another.
//! - [`laws`]: whatever list of sub-messages comes, the itinerary of a date is then none, a whole new
//!   one, or the old one with other equipment and other times; the messages have each sub-message
//!   once, a mailbox reads the texts of their file, full dates resolve as they are, and nothing is
//!   unsaid on the way to a desk that holds all that another desk over the same base holds.
//!
//! **Promise.** A desk that holds what the first desk holds takes each published message as new. It
//! then has on each date what the second desk has, if messages can make it, and else what the first
//! one has. No sub-message names a date on which its flight does not differ, and each acts on every
//! date that it names. The lines name each message, and exactly the dates on which the two desks
//! still differ.
//!
//! The messages have exactly the given sub-messages, in order. Each is one that a text
//! can have: at most 250 sub-messages, and at most 65,536 bytes in its canonical text. A message
//! ends where the next sub-message would pass one of these limits. The group serial counts up by
//! one from message to message. No other messages are so; if none are, since the group serial would
//! pass 99999, the error is 65.
//!
//! If the first reference follows all that a desk holds, the desk takes each message as new, and
//! each flight then has on each date what the sub-messages make, one after another, of what it had.
//!
//! Each action that `say` returns is one that a text can have, and acts on the date, on what those
//! before it leave; one after another they make exactly the new itinerary. It returns none exactly
//! if no list of sub-messages makes it. The actions act by the rows of a station table, which gives
//! the UTC variations of the new legs of `NEW` and `RPL`. Other than for equal itineraries and a
//! cancelled flight, they are also tried at run time by the effect of sub-messages itself.
//!
//! One sub-message of a plan serves all dates of a period of which the same is said. It is tried on
//! a copy of the timetable, and kept only if it acts on each date of its period, and makes it;
//! whatever is left then is said date by date. So nothing rests on how the periods are found. The
//! sub-messages come by flight, and those of one flight by first day. It is not promised that they
//! are the fewest.
//!
//! The lines of the unsaid dates are exactly those of a definition: of each flight the canonical
//! division of its dates by their reasons.
#![tactic(auto)]

mod address;
mod candidates;
mod column_lines;
mod date_actions;
mod delivery;
mod draft;
mod fault;
mod flight_change;
mod flight_periods;
mod full_dates;
mod heading;
mod heading_lines;
mod held_days;
pub mod laws;
mod leg_change;
mod made_dates;
mod mail_file;
mod mark;
mod messages;
mod new_lines;
mod order;
mod period_actions;
mod period_parts;
mod plan;
mod plan_order;
mod plan_subs;
mod planned_sub;
mod publication;
mod publication_lines;
mod reason;
mod reason_pieces;
mod retimed_legs;
mod said_days;
mod same_actions;
mod segment_tails;
mod send_fault;
mod single_dates;
mod single_period;
mod trial;
mod unsaid_dates;
mod wanted_leg;

pub use address::compare;
pub use date_actions::say;
pub use delivery::deliver;
pub use fault::OutboxFault;
pub use full_dates::dated_sub;
pub use mail_file::mail_file_of;
pub use messages::messages_of;
pub use order::follows;
pub use plan::{Plan, make_plan};
pub use planned_sub::PlannedSub;
pub use publication::{Published, publish};
pub use send_fault::SendFault;
pub use ssim_values::Memory;
pub use unsaid_dates::unsaid_lines;
