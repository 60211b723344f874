//! The lines that say what is published.

ghost use Rattle.std.specs.Prelude.{◌≡◌, ◌++◌, IfOk, OnOk, length};
ghost use Rattle.ssim_values.specs.Flight.{FlightNumber};
ghost use Rattle.ssim_base.specs.Timetable.{Days};
ghost use Rattle.ssim_difference.specs.Differences.{differences};
ghost use Rattle.ssim_outbox.specs.Publication.{last_line, publication_lines, text_line};

use crate::unsaid_dates::unsaid_lines;
use ssim_base::StationRow;
use ssim_difference::{FlightDifference, date_count};
use ssim_lines::{Printed, push_each, written};
use ssim_text::{Message, Reference};
use ssim_values::{Airline, Memory};
use std::alloc::Global;
use std::io::Write;

/// The texts of messages, the first of which has this reference.
#[derive(Clone, Copy)]
struct TextLines<'a> {
    reference: &'a Reference,
}

/// The lines of messages, and of the dates that they leave unsaid. The first message has this
/// reference, and `subs` is the number of the sub-messages of all.
pub(crate) fn publication_lines(
    alloc: Global,
    airline: Airline,
    rows: &[StationRow],
    reference: &Reference,
    messages: &[Message],
    subs: usize,
    unsaid: &[FlightDifference],
) -> Result<Vec<u8>, Memory>
    ensures { (after new : FlightNumber → Days) → unsaid.now ≡ differences after new
        → IfOk result (λ lines. lines.items
        ≡ publication_lines airline rows.now reference.now messages.now subs after new) }
{
    let mut lines = Vec::new(alloc);
    push_each(&mut lines, &TextLines { reference }, messages)?;
    let unsaid_text = unsaid_lines(alloc, airline, rows, unsaid)?;
    lines.extend_from_slice(&unsaid_text)?;
    let dates = date_count(alloc, unsaid)?;
    push_last(&mut lines, messages.len(), subs, dates)?;
    Ok(lines)
}

impl Printed<TextLines<'_>> for Message {
    ghost text = { λ texts message. text_line texts.reference.now message };

    fn print(&self, texts: &TextLines<'_>, lines: &mut Vec<u8>) -> Result<(), Memory> {
        let reference = texts.reference;
        let own = Reference {
            date: reference.date,
            group: self.reference().group,
            serial: reference.serial,
            kind: reference.kind,
            originator: reference.originator,
        };
        let count = self.subs().len();
        written(writeln!(lines, "text {own} subs {count}"))
    }
}

// Adds the last line.
fn push_last(lines: &mut Vec<u8>, texts: usize, subs: usize, dates: u64) -> Result<(), Memory>
    ensures { OnOk result (lines.new.items ≡ lines.old.items ++ last_line texts subs dates) }
{
    written(writeln!(lines, "texts {texts} subs {subs} unsaid dates {dates}"))
}
