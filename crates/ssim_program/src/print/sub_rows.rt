//! The sub-messages of a desk as rows of CSV.

ghost use Rattle.std.specs.Prelude.{◌≡◌, ◌<◌, ◌+◌, ◌^◌, ◌++◌, ◌∷◌, IfOk, OnOk};
ghost use Rattle.ssim_values.specs.DayMask.{digits_of};
ghost use Rattle.ssim_base.specs.Export.{line};
ghost use Rattle.ssim_listing.specs.Rows.{iso_date};
ghost use Rattle.ssim_program.specs.Messages.{chosen_row, chosen_rows, message_rows, sub_row};
ghost use Rattle.ssim_program.specs.print.PrintedLine.{sub_fields};

use crate::command::texts::is_sub_chosen;
use ssim_base::ResolvedSub;
use ssim_desk::Held;
use ssim_lines::{Printed, push_each, written};
use ssim_listing::iso_date;
use ssim_parts::Choice;
use ssim_text::{ActionIdentifier, Reference, Sub};
use ssim_values::{Designator, Memory, Period};
use std::alloc::Global;
use std::io::Write;

/// The names of the fields.
const NAMES: &[u8] = b"reference,sub,action,flight,first,last,days\n";

/// Which sub-messages have a row.
#[derive(Clone, Copy)]
struct Chosen<'a> {
    has_span: bool,
    choice: &'a Choice,
}

/// A row of names, and a row for each chosen sub-message of the messages, in order.
pub(crate) fn rows_of(
    alloc: Global,
    held: &[Held],
    has_span: bool,
    choice: &Choice,
) -> Result<Vec<u8>, Memory>
    ensures { IfOk result (λ rows. rows.items ≡ chosen_rows has_span choice.now held.now) }
{
    let mut rows = Vec::from_slice(alloc, NAMES)?;
    push_each(&mut rows, &Chosen { has_span, choice }, held)?;
    Ok(rows)
}

impl Printed<Chosen<'_>> for Held {
    ghost text = { λ chosen e. message_rows chosen.has_span chosen.choice.now e };

    fn print(&self, chosen: &Chosen<'_>, rows: &mut Vec<u8>) -> Result<(), Memory> {
        push_subs(rows, chosen, self)
    }
}

/// Adds the rows of the chosen sub-messages of a message.
fn push_subs(rows: &mut Vec<u8>, chosen: &Chosen<'_>, held: &Held) -> Result<(), Memory>
    ensures { OnOk result (rows.new.items ≡ rows.old.items
        ++ message_rows chosen.now.has_span chosen.now.choice.now held.now) }
{
    let reference = held.reference();
    for (place, sub) in held.message().subs().iter().enumerate() {
        push_if_chosen(rows, chosen, &reference, place, sub, &held.dates()[place])?;
    }
    Ok(())
}

/// Adds the row of a sub-message with so many before it in its message, if it is chosen.
fn push_if_chosen(
    rows: &mut Vec<u8>,
    chosen: &Chosen<'_>,
    reference: &Reference,
    before: usize,
    sub: &Sub,
    dated: &ResolvedSub,
) -> Result<(), Memory>
    requires { before + 1 < 2 ^ 64 }
    ensures { OnOk result (rows.new.items ≡ rows.old.items ++ chosen_row chosen.now.has_span
        chosen.now.choice.now reference.now (before + 1) sub.now dated.now) }
{
    if is_sub_chosen(dated, chosen.has_span, chosen.choice) {
        push_sub(rows, reference, before + 1, sub, &dated.period)?;
    }
    Ok(())
}

/// Adds the row of a sub-message.
fn push_sub(
    rows: &mut Vec<u8>,
    reference: &Reference,
    number: usize,
    sub: &Sub,
    period: &Period,
) -> Result<(), Memory>
    ensures { OnOk result
        (rows.new.items ≡ rows.old.items ++ sub_row reference.now number sub.now period.now) }
{
    let action = sub.action.identifier();
    push_sub_fields(rows, reference, number, action, &sub.designator)?;
    push_period_fields(rows, period)
}

/// Adds the first fields of a row: which sub-message it is.
pub(crate) fn push_sub_fields(
    rows: &mut Vec<u8>,
    reference: &Reference,
    number: usize,
    action: ActionIdentifier,
    designator: &Designator,
) -> Result<(), Memory>
    ensures { OnOk result (rows.new.items
        ≡ rows.old.items ++ sub_fields reference.now number action designator.now) }
{
    written(write!(rows, "{reference},{number},{action},{designator}"))
}

/// Adds the last fields of a row: the first day, the last day and the days of a period.
fn push_period_fields(rows: &mut Vec<u8>, period: &Period) -> Result<(), Memory>
    ensures { OnOk result (rows.new.items ≡ rows.old.items
        ++ line (44 ∷ iso_date period.now.first ++ 44 ∷ iso_date period.now.last
        ++ 44 ∷ digits_of period.now.days)) }
{
    rows.push(b',')?;
    rows.extend_from_slice(&iso_date(period.first()))?;
    rows.push(b',')?;
    rows.extend_from_slice(&iso_date(period.last()))?;
    rows.push(b',')?;
    rows.extend_from_slice(period.mask().digits().as_slice())?;
    rows.push(b'\n')?;
    Ok(())
}
