//! The command `info`: what a desk file or a data set is.

ghost use Rattle.std.specs.Prelude.{◌≡◌, ◌++◌, IfOk, OnOk, codes};
ghost use Rattle.ssim_text.specs.Reference.{printed_reference};
ghost use Rattle.ssim_base.specs.Export.{line};
ghost use Rattle.ssim_desk.specs.Desk.{timetable_of};
ghost use Rattle.ssim_overview.specs.Totals.{totals};
ghost use Rattle.ssim_program.specs.Answers.{info};
ghost use Rattle.ssim_program.specs.internal.Program.{Answers};
ghost use Rattle.ssim_program.specs.print.Info.{carrier_lines, desk_lines, ends_lines};
ghost use Rattle.ssim_program.specs.print.Info.{held_lines, info_lines, kind_line};
ghost use Rattle.ssim_program.specs.print.Info.{mode_text, number_line, open_text, total_lines};

use crate::explain::file_kind::FileKind;
use crate::refusal::Refusal;
use crate::store::Store;
use crate::timetable_file::{carrier_of, open_known};
use ssim_base::validity_end;
use ssim_desk::Holdings;
use ssim_lines::written;
use ssim_listing::push_shown;
use ssim_overview::Totals;
use ssim_records::Carrier;
use ssim_text::Reference;
use ssim_values::{Day, Memory, TimeMode};
use std::alloc::Global;
use std::io::Write;

/// What the file of this name is: its carrier record, and how much it has.
pub(crate) fn info<S: Store>(alloc: Global, file: &str, store: &mut S) -> Result<Vec<u8>, Refusal>
    ensures answer { Answers (info (S.files store.old) file.now) result }
    ensures same { S.files store.new ≡ S.files store.old }
    ensures counted { S.failures store.new ≡ S.failures store.old }
{
    let (kind, desk) = open_known(alloc, file, store)?;
    let carrier = carrier_of(&desk);
    let lines = info_lines(alloc, kind, &carrier, desk)?;
    Ok(lines)
}

/// The lines of a file of a kind. The records of the desk are freed while its timetable is made.
fn info_lines(
    alloc: Global,
    kind: FileKind,
    carrier: &Carrier,
    desk: Holdings,
) -> Result<Vec<u8>, Memory>
    ensures { IfOk result (λ lines. lines.items ≡ info_lines kind carrier.now desk) }
{
    let mut lines = Vec::new(alloc);
    lines.extend_from_slice(kind_line(kind))?;
    push_carrier(&mut lines, carrier)?;
    push_number(
        &mut lines,
        "records ",
        desk.data_set().records().len() as u64,
    )?;
    let held = held_lines(alloc, kind, &desk)?;
    push_totals(&mut lines, &totals_of(alloc, desk)?)?;
    lines.extend_from_slice(&held)?;
    Ok(lines)
}

/// The line of a kind of file.
fn kind_line(kind: FileKind) -> &'static [u8]
    ensures { result.now ≡ kind_line kind }
{
    match kind {
        FileKind::Desk => b"kind desk\n",
        _ => b"kind data set\n",
    }
}

/// Adds a key and a number.
fn push_number(lines: &mut Vec<u8>, key: &str, number: u64) -> Result<(), Memory>
    ensures { OnOk result (lines.new.items ≡ lines.old.items ++ number_line key.now number) }
{
    written(writeln!(lines, "{key}{number}"))
}

/// Adds the lines of a carrier record.
fn push_carrier(lines: &mut Vec<u8>, carrier: &Carrier) -> Result<(), Memory>
    ensures { OnOk result (lines.new.items ≡ lines.old.items ++ carrier_lines carrier.now) }
{
    let airline = carrier.airline();
    written(write!(lines, "airline {airline}\nseason"))?;
    push_shown(lines, &carrier.season())?;
    let first = carrier.first();
    let last = validity_end(carrier);
    let open = open_text(carrier.last());
    written(write!(lines, "\nvalidity {first} {last}{open}\n"))?;
    let mode = mode_text(carrier.time_mode());
    let created = carrier.created();
    written(write!(lines, "mode {mode}\ncreated {created}\n"))
}

/// What is printed after the end of a validity.
fn open_text(last: Option<Day>) -> &'static str
    ensures { result.now ≡ open_text last }
{
    match last {
        None => " open",
        Some(_) => "",
    }
}

/// The word of a time mode.
fn mode_text(mode: TimeMode) -> &'static str
    ensures { result.now ≡ mode_text mode }
{
    match mode {
        TimeMode::Utc => "utc",
        TimeMode::Local => "local",
    }
}

/// How much the timetable of a desk has.
fn totals_of(alloc: Global, desk: Holdings) -> Result<Totals, Memory>
    ensures { IfOk result (λ found. found ≡ totals (timetable_of desk)) }
{
    let flights = desk.into_flights()?;
    Totals::of(alloc, &flights)
}

/// Adds the lines of totals.
fn push_totals(lines: &mut Vec<u8>, found: &Totals) -> Result<(), Memory>
    ensures { OnOk result (lines.new.items ≡ lines.old.items ++ total_lines found.now) }
{
    push_number(lines, "flights ", found.flights as u64)?;
    push_number(lines, "stations ", found.stations as u64)?;
    push_number(lines, "dates ", found.dates)?;
    push_ends(lines, found.first_and_last)
}

/// Adds the lines of the first and the last date.
fn push_ends(lines: &mut Vec<u8>, ends: Option<(Day, Day)>) -> Result<(), Memory>
    ensures { OnOk result (lines.new.items ≡ lines.old.items ++ ends_lines ends) }
{
    let Some((first, last)) = ends else {
        return Ok(());
    };
    written(write!(lines, "first {first}\nlast {last}\n"))
}

/// The lines on what a desk file holds; none of a data set.
fn held_lines(alloc: Global, kind: FileKind, desk: &Holdings) -> Result<Vec<u8>, Memory>
    ensures { IfOk result (λ lines. lines.items ≡ held_lines kind desk.now) }
{
    let mut lines = Vec::new(alloc);
    if let FileKind::Desk = kind {
        push_desk(&mut lines, desk)?;
    }
    Ok(lines)
}

/// Adds the lines on what a desk holds.
fn push_desk(lines: &mut Vec<u8>, desk: &Holdings) -> Result<(), Memory>
    ensures { OnOk result (lines.new.items ≡ lines.old.items ++ desk_lines desk.now) }
{
    let held = desk.held();
    push_number(lines, "rows ", desk.base().rows().len() as u64)?;
    push_number(lines, "messages ", held.len() as u64)?;
    match held.last() {
        None => Ok(()),
        Some(last) => push_latest(lines, last.reference()),
    }
}

/// Adds the line of the last reference.
fn push_latest(lines: &mut Vec<u8>, reference: Reference) -> Result<(), Memory>
    ensures { OnOk result (lines.new.items
        ≡ lines.old.items ++ line (codes "latest " ++ printed_reference reference)) }
{
    written(writeln!(lines, "latest {reference}"))
}
