//! What the sub-messages of a desk found on chosen dates.

ghost use Rattle.std.specs.Prelude.{◌≡◌, ◌<◌, ◌+◌, ◌^◌, ◌++◌, length, map, IfOk, OnOk};
ghost use Rattle.ssim_periods.specs.Days.{each_day};
ghost use Rattle.ssim_schedule.specs.Acts.{finding_of};
ghost use Rattle.ssim_desk.specs.Desk.{entry_lines, sub_lines};
ghost use Rattle.ssim_desk.specs.Meaning.{Timetable, after_entry, after_one, after_subs};
ghost use Rattle.ssim_desk.specs.Meaning.{entries_findings, subs_findings};
ghost use Rattle.ssim_program.specs.Spans.{chosen_by};
ghost use Rattle.ssim_program.specs.internal.SomeFlights.{Shows};
ghost use Rattle.ssim_program.specs.internal.Spans.{flights_named, part_entry, part_of, part_sub};

use crate::command::span::part_of;
use crate::some_flights::act_one;
use ssim_base::{ResolvedSub, StationRow};
use ssim_desk::{FindingLine, Held, Holdings};
use ssim_parts::Choice;
use ssim_schedule::{Finding, Schedule};
use ssim_text::{Reference, Sub};
use ssim_values::{Flight, Memory};
use std::alloc::Global;

/// The finding of a sub-message without dates.
const NO_DATES: Finding = Finding {
    acted: 0,
    absent: 0,
    present: 0,
    leg: 0,
    station: 0,
};

/// A line for each sub-message that is held, in order: what it found on the chosen dates of its
/// period. Sub-messages act on these dates alone, since each date is changed by itself.
pub(crate) fn findings_on(
    alloc: Global,
    desk: &Holdings,
    choice: &Choice,
) -> Result<Vec<FindingLine>, Memory>
    ensures { IfOk result (λ lines. lines.items
        ≡ entry_lines desk.now.held (chosen_by choice.now desk.now.base desk.now.held)) }
{
    let flights = flights_of(alloc, desk.held())?;
    let mut schedule = Schedule::of_flights(desk.data_set(), &flights)?;
    act_all(
        alloc,
        desk.base().rows(),
        &mut schedule,
        choice,
        desk.held(),
    )
}

/// The flights of the sub-messages, in their order.
fn flights_of(alloc: Global, messages: &[Held]) -> Result<Vec<Flight>, Memory>
    ensures { IfOk result (λ flights. flights.items ≡ flights_named messages.now) }
{
    let mut flights = Vec::new(alloc);
    for held in messages {
        push_flights(&mut flights, held.dates())?;
    }
    Ok(flights)
}

fn push_flights(flights: &mut Vec<Flight>, subs: &[ResolvedSub]) -> Result<(), Memory>
    ensures { OnOk result (flights.new.items ≡ flights.old.items ++ map
        (λ sub. sub.flight) subs.now) }
{
    for sub in subs {
        flights.push(sub.flight)?;
    }
    Ok(())
}

/// The messages act in their order on chosen dates. Returns a line for what each sub-message found.
fn act_all(
    alloc: Global,
    rows: &[StationRow],
    schedule: &mut Schedule,
    choice: &Choice,
    messages: &[Held],
) -> Result<Vec<FindingLine>, Memory>
    ensures { IfOk result (λ lines. (before : Timetable) → Shows schedule.old before → lines.items
        ≡ entry_lines messages.now
        (entries_findings rows.now (map (part_entry choice.now) messages.now) before)) }
{
    let mut lines = Vec::new(alloc);
    for held in messages {
        let found = act(alloc, rows, schedule, choice, held)?;
        push_subs(
            &mut lines,
            &held.reference(),
            1,
            held.message().subs(),
            &found,
        )?;
    }
    Ok(lines)
}

/// The sub-messages of a message act in their order on chosen dates. Returns what each found.
fn act(
    alloc: Global,
    rows: &[StationRow],
    schedule: &mut Schedule,
    choice: &Choice,
    held: &Held,
) -> Result<Vec<Finding>, Memory>
    ensures shows { OnOk result ((before : Timetable) → Shows schedule.old before
        → Shows schedule.new (after_entry rows.now (part_entry choice.now held.now) before)) }
    ensures found { IfOk result (λ found. (before : Timetable) → Shows schedule.old before
        → found.items ≡ subs_findings rows.now held.now.message.subs
        (map (part_sub choice.now) held.now.dates) before) }
{
    let mut found = Vec::new(alloc);
    let subs = held.message().subs();
    act_each(&mut found, rows, schedule, choice, subs, held.dates())?;
    Ok(found)
}

/// Sub-messages act in their order on chosen dates. Adds what each finds.
fn act_each(
    found: &mut Vec<Finding>,
    rows: &[StationRow],
    schedule: &mut Schedule,
    choice: &Choice,
    subs: &[Sub],
    dates: &[ResolvedSub],
) -> Result<(), Memory>
    ensures shows { OnOk result ((before : Timetable) → Shows schedule.old before
        → Shows schedule.new
        (after_subs rows.now subs.now (map (part_sub choice.now) dates.now) before)) }
    ensures found { OnOk result ((before : Timetable) → Shows schedule.old before
        → found.new.items ≡ found.old.items
        ++ subs_findings rows.now subs.now (map (part_sub choice.now) dates.now) before) }
{
    match (subs.split_first(), dates.split_first()) {
        (Some((sub, subs)), Some((dated, dates))) => {
            let finding = act_on(rows, schedule, choice, sub, dated)?;
            found.push(finding)?;
            act_each(found, rows, schedule, choice, subs, dates)
        }
        _ => Ok(()),
    }
}

/// A sub-message acts on its chosen dates.
fn act_on(
    rows: &[StationRow],
    schedule: &mut Schedule,
    choice: &Choice,
    sub: &Sub,
    dated: &ResolvedSub,
) -> Result<Finding, Memory>
    ensures shows { OnOk result ((before : Timetable) → Shows schedule.old before
        → Shows schedule.new
        (after_one rows.now sub.now.action (part_sub choice.now dated.now) before)) }
    ensures found { IfOk result (λ found. (before : Timetable) → Shows schedule.old before
        → found ≡ finding_of rows.now sub.now.action (part_of choice.now dated.now.period)
        (each_day (before dated.now.flight))) }
{
    match part_of(&dated.period, choice) {
        Some(period) => {
            let part = ResolvedSub {
                flight: dated.flight,
                period,
            };
            act_one(rows, schedule, sub, part)
        }
        None => Ok(NO_DATES),
    }
}

/// Adds the lines of the sub-messages of one message, the first of which has this number.
fn push_subs(
    lines: &mut Vec<FindingLine>,
    reference: &Reference,
    number: usize,
    subs: &[Sub],
    findings: &[Finding],
) -> Result<(), Memory>
    requires { number + length subs.now < 2 ^ 64 }
    ensures { OnOk result (lines.new.items
        ≡ lines.old.items ++ sub_lines reference.now number subs.now findings.now) }
{
    match (subs.split_first(), findings.split_first()) {
        (Some((sub, subs)), Some((finding, findings))) => {
            lines.push(FindingLine {
                reference: *reference,
                sub: number,
                action: sub.action.identifier(),
                designator: sub.designator,
                finding: *finding,
            })?;
            push_subs(lines, reference, number + 1, subs, findings)
        }
        _ => Ok(()),
    }
}
