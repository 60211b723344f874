//! Desks, which hold messages over a base, and the laws of any number of desks.
//!
//! - [`Desk`]: a base and the messages that it holds in order of reference. `take` takes a text,
//!   `merge` what another desk holds; `itinerary`, `cuts` and `export` read the schedule that the
//!   messages leave, and `findings` what each of them found. [`Took`] and [`DeskFault`]: the results.
//! - [`Holdings`]: the base and the messages of a desk without its timetable, for callers that ask
//!   for none, or once for few flights or for the export.
//! - [`Intake`]: the holdings while many messages come and go, in any order of reference.
//! - [`Held`]: a message that a desk holds, with its reference and its canonical text.
//! - [`FindingLine`]: what a sub-message found on the dates of its period.
//! - [`Outcomes`]: what messages found and left before a change of what a desk holds, and after it,
//!   of the flights that they name.
//! - [`DateHistory`]: what each sub-message did with a flight on one date, one [`DateStep`] each.
//! - [`run_steps`]: tries [`Step`]s on several desks, each a text or a merge, and returns an
//!   [`Answer`] for each. A [`Holder`] is what it runs on: desks, or holdings.
//! - `Desk::save`: writes the desk file, which has the base and the messages that are held; or
//!   [`WriteFault`], 52.
//! - [`laws`]: any two desks that began from the same bytes and that the same messages reached
//!   agree, whatever the order, the grouping and the repeats; and merging is associative,
//!   commutative and idempotent.
//!
//! What a desk holds, the position of a message in it, and the desk file are in the crate
//! `ssim_held`, whose definitions these contracts cite, too. The other definitions are in `specs/`:
//! `Meaning` (what each flight has on each date), `Steps` (what texts and merges do), `Deliveries`
//! (which messages reach which desks), `Agreement` and `Merging` (the laws) and `Desk` (what the
//! calls of a desk return). Those in `specs/clauses/` are cited by contracts alone, and no law reaches
//! them; those in `specs/internal/` are cited by private functions alone. Computed examples are in
//! `specs/examples/`.
#![tactic(auto)]

mod date_step;
mod desk;
mod finding_line;
mod flights;
mod holder;
mod holdings;
mod intake;
pub mod laws;
mod message_effect;
mod offer;
mod outcome;
mod replay;
mod schedules;
mod steps;

pub use date_step::{DateHistory, DateStep};
pub use desk::{Desk, Took};
pub use finding_line::FindingLine;
pub use holder::Holder;
pub use holdings::{Holdings, copies};
pub use intake::Intake;
pub use outcome::{Outcome, Outcomes};
pub use ssim_held::{DeskFault, Held, WriteFault};
pub use steps::{Answer, Step, run_steps};
