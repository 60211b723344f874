//! What each sub-message of a desk found.

ghost use Rattle.std.specs.Prelude.{◌≡◌, ◌++◌, [], IfOk, OnOk, if◌then◌else◌};
ghost use Rattle.ssim_base.specs.Export.{line};
ghost use Rattle.ssim_program.specs.Spans.{lines_found};
ghost use Rattle.ssim_program.specs.print.PrintedLine.{count_fields, counts_text, finding_names};
ghost use Rattle.ssim_program.specs.print.PrintedLine.{finding_row, finding_text, sub_text};
ghost use Rattle.ssim_program.specs.print.Shown.{chosen_line, fails, findings_lines, has_dates};
ghost use Rattle.ssim_program.specs.print.Shown.{is_shown};

use crate::chosen_findings::findings_on;
use crate::command::span::has_flight;
use crate::print::sub_rows::push_sub_fields;
use ssim_command_line::FindingsForm;
use ssim_desk::{FindingLine, Holdings};
use ssim_lines::{Printed, push_each, written};
use ssim_parts::Choice;
use ssim_schedule::Finding;
use ssim_values::Memory;
use std::alloc::Global;
use std::io::Write;

/// The names of the fields of CSV.
const FINDING_NAMES: &[u8] =
    b"reference,sub,action,flight,acted,absent,present,no_leg,no_station\n";

/// How sub-messages are printed, and which.
#[derive(Clone, Copy)]
pub(crate) struct FindingChoice<'a> {
    /// As lines or as CSV; all, or only those that did not act on a date.
    pub(crate) form: FindingsForm,
    /// Only those with a chosen date, and these dates alone are counted.
    pub(crate) has_span: bool,
    /// The flights and the dates that are chosen.
    pub(crate) choice: &'a Choice,
}

/// A line for each chosen sub-message that the desk holds, in order; or a row of names, and a row for
/// each.
pub(crate) fn lines_of(
    alloc: Global,
    desk: &Holdings,
    choice: &FindingChoice<'_>,
) -> Result<Vec<u8>, Memory>
    ensures { IfOk result (λ lines. lines.items
        ≡ findings_lines choice.now.form choice.now.has_span choice.now.choice.now
        (lines_found choice.now.has_span choice.now.choice.now desk.now)) }
{
    let findings = lines_found(alloc, desk, choice.has_span, choice.choice)?;
    let mut lines = names_of(alloc, choice.form.csv)?;
    push_each(&mut lines, choice, &findings)?;
    Ok(lines)
}

/// The row of names of CSV, or nothing.
fn names_of(alloc: Global, csv: bool) -> Result<Vec<u8>, Memory>
    ensures { IfOk result (λ names. names.items ≡ (if csv then line finding_names else [])) }
{
    let mut names = Vec::new(alloc);
    if csv {
        names.extend_from_slice(FINDING_NAMES)?;
    }
    Ok(names)
}

/// What each sub-message found on all its dates or, if a span is given, on the chosen ones.
fn lines_found(
    alloc: Global,
    desk: &Holdings,
    has_span: bool,
    choice: &Choice,
) -> Result<Vec<FindingLine>, Memory>
    ensures { IfOk result (λ lines. lines.items ≡ lines_found has_span choice.now desk.now) }
{
    if has_span {
        findings_on(alloc, desk, choice)
    } else {
        desk.findings()
    }
}

impl Printed<FindingChoice<'_>> for FindingLine {
    ghost text = { λ choice found.
        chosen_line choice.form choice.has_span choice.choice.now found };

    fn print(&self, choice: &FindingChoice<'_>, lines: &mut Vec<u8>) -> Result<(), Memory> {
        if !is_shown(self, choice) {
            return Ok(());
        }
        if choice.form.csv {
            push_row(lines, self)
        } else {
            push_finding(lines, self)
        }
    }
}

/// Whether a sub-message is printed.
fn is_shown(found: &FindingLine, choice: &FindingChoice<'_>) -> bool
    ensures { result ≡ is_shown choice.now.form.not_acted choice.now.has_span
        choice.now.choice.now found.now }
{
    has_flight(choice.choice, found.designator.flight)
        && (!choice.has_span || has_dates(&found.finding))
        && (!choice.form.not_acted || fails(&found.finding))
}

/// Whether a date is counted.
fn has_dates(finding: &Finding) -> bool
    ensures { result ≡ has_dates finding.now }
{
    let Finding {
        acted,
        absent,
        present,
        leg,
        station,
    } = *finding;
    acted != 0 || absent != 0 || present != 0 || leg != 0 || station != 0
}

/// Whether a sub-message acted on no date, or did not act on one of its dates.
pub(crate) fn fails(finding: &Finding) -> bool
    ensures { result ≡ fails finding.now }
{
    finding.acted == 0
        || finding.absent != 0
        || finding.present != 0
        || finding.leg != 0
        || finding.station != 0
}

/// Adds the line of a sub-message.
pub(crate) fn push_finding(lines: &mut Vec<u8>, found: &FindingLine) -> Result<(), Memory>
    ensures { OnOk result (lines.new.items ≡ lines.old.items ++ line (finding_text found.now)) }
{
    push_sub(lines, found)?;
    push_counts(lines, &found.finding)
}

/// Adds the row of CSV of a sub-message.
fn push_row(lines: &mut Vec<u8>, found: &FindingLine) -> Result<(), Memory>
    ensures { OnOk result (lines.new.items ≡ lines.old.items ++ line (finding_row found.now)) }
{
    push_sub_fields(
        lines,
        &found.reference,
        found.sub,
        found.action,
        &found.designator,
    )?;
    push_count_fields(lines, &found.finding)
}

/// Adds the last fields of a row: how many dates got each reason.
fn push_count_fields(lines: &mut Vec<u8>, finding: &Finding) -> Result<(), Memory>
    ensures { OnOk result (lines.new.items ≡ lines.old.items ++ line (count_fields finding.now)) }
{
    let Finding {
        acted,
        absent,
        present,
        leg,
        station,
    } = *finding;
    written(writeln!(lines, ",{acted},{absent},{present},{leg},{station}"))
}

/// Adds the reference, the number of the sub-message, its action and its flight.
fn push_sub(lines: &mut Vec<u8>, found: &FindingLine) -> Result<(), Memory>
    ensures { OnOk result (lines.new.items ≡ lines.old.items ++ sub_text found.now) }
{
    let FindingLine {
        reference,
        sub,
        action,
        designator,
        finding: _,
    } = *found;
    written(write!(lines, "{reference} {sub} {action} {designator}"))
}

/// Adds how many dates got each reason, and ends the line.
pub(crate) fn push_counts(lines: &mut Vec<u8>, finding: &Finding) -> Result<(), Memory>
    ensures { OnOk result (lines.new.items ≡ lines.old.items ++ line (counts_text finding.now)) }
{
    let Finding {
        acted,
        absent,
        present,
        leg,
        station,
    } = *finding;
    written(writeln!(
        lines,
        " acted {acted} absent {absent} present {present} leg {leg} station {station}"
    ))
}
