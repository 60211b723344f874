//! The ends of leg records that may give a note on a station table, by station.

ghost use Rattle.std.specs.Prelude.{◌≡◌, ℕ, ◌<◌, ◌∷◌, [], IfOk, IfSome, IfNone, IsTrue, OnOk};
ghost use Rattle.std.specs.Prelude.{length, map, slice_index_or};
ghost use Rattle.ssim_base.specs.Timetable.{period_of};
ghost use Rattle.ssim_overview.specs.StationNotes.{leg_end, says_other};
ghost use Rattle.ssim_overview.specs.internal.StationNotes.{AddsEnds, AreByStation, AreEnds};
ghost use Rattle.ssim_overview.specs.internal.StationNotes.{AreQuiet, IsQuietText};
ghost use Rattle.ssim_overview.specs.internal.StationNotes.{dated_ends, is_around, is_beside};
ghost use Rattle.ssim_overview.specs.internal.StationNotes.{is_quiet, record_ends, records_ends};

use crate::said_variation::is_same;
use crate::spelled_row::SpelledRow;
use crate::station_marks::number_of;
use ssim_base::StationRow;
use ssim_columns::leg_fields::{ARRIVAL_VARIATION, DEPARTURE_VARIATION};
use ssim_records::{LegColumns, LegRecord, Record};
use ssim_values::{Day, Memory, Period, Station, Variation};
use std::alloc::Global;

/// The number of stations: three letters each.
const STATIONS: usize = 17_576;

/// An end of a leg record.
#[derive(Clone, Copy, Debug, PartialEq, Eq)]
pub(crate) struct LegEnd {
    /// The station.
    pub(crate) station: Station,
    /// Its UTC variation, none if it is blank.
    pub(crate) variation: Option<Variation>,
    /// Whether the end is on the date of origin.
    pub(crate) is_own: bool,
}

/// The rows of each station, by its rank.
pub(crate) fn rows_by_station(
    alloc: Global,
    rows: &[StationRow],
) -> Result<Vec<Vec<SpelledRow>>, Memory>
    ensures { IfOk result (λ table. AreByStation rows.now (map (λ list. list.items) table.items)) }
{
    let mut table = no_rows(alloc)?;
    for row in rows {
        table[number_of(row.station())].push(SpelledRow::of(*row))?;
    }
    Ok(table)
}

// No row at each rank.
fn no_rows(alloc: Global) -> Result<Vec<Vec<SpelledRow>>, Memory>
    ensures len { IfOk result (λ table. length table.items ≡ 17576) }
    ensures none { IfOk result (λ table. (k : ℕ)
        → slice_index_or (map (λ list. list.items) table.items) k [] ≡ []) }
{
    let mut table = Vec::with_capacity(alloc, STATIONS)?;
    for _ in 0..STATIONS {
        table.push(Vec::new(alloc))?;
    }
    Ok(table)
}

/// The ends of leg records that may give a note, each with the period of its record, by the rank of
/// the station. Mostly there are few: an end is left out if the first row of its station that has a
/// day of the period has all of them, and the end does not say another variation.
pub(crate) fn ends_by_station(
    alloc: Global,
    table: &[Vec<SpelledRow>],
    records: &[Record],
) -> Result<Vec<Vec<(Period, LegEnd)>>, Memory>
    requires { length table.now ≡ 17576 }
    ensures { IfOk result (λ ends. AreEnds (map (λ list. list.items) table.now)
        (records_ends records.now) (map (λ list. list.items) ends.items)) }
{
    let mut ends = no_ends(alloc)?;
    for record in records {
        add_record(&mut ends, table, record)?;
    }
    Ok(ends)
}

// No end at each rank.
fn no_ends(alloc: Global) -> Result<Vec<Vec<(Period, LegEnd)>>, Memory>
    ensures len { IfOk result (λ ends. length ends.items ≡ 17576) }
    ensures none { IfOk result (λ ends. (k : ℕ)
        → slice_index_or (map (λ list. list.items) ends.items) k [] ≡ []) }
{
    let mut ends = Vec::with_capacity(alloc, STATIONS)?;
    for _ in 0..STATIONS {
        ends.push(Vec::new(alloc))?;
    }
    Ok(ends)
}

// Adds the ends of a record, if it is a leg record.
fn add_record(
    ends: &mut Vec<Vec<(Period, LegEnd)>>,
    table: &[Vec<SpelledRow>],
    record: &Record,
) -> Result<(), Memory>
    requires table { length table.now ≡ 17576 }
    requires ends { length ends.old.items ≡ 17576 }
    ensures { OnOk result (AddsEnds (map (λ list. list.items) table.now) (record_ends record.now)
        (map (λ list. list.items) ends.old.items) (map (λ list. list.items) ends.new.items)) }
{
    match record {
        Record::Leg(leg) => add_leg(ends, table, leg),
        _ => Ok(()),
    }
}

// Adds the ends of a leg record.
fn add_leg(
    ends: &mut Vec<Vec<(Period, LegEnd)>>,
    table: &[Vec<SpelledRow>],
    leg: &LegRecord,
) -> Result<(), Memory>
    requires table { length table.now ≡ 17576 }
    requires ends { length ends.old.items ≡ 17576 }
    ensures { OnOk result (AddsEnds (map (λ list. list.items) table.now) (dated_ends leg.now)
        (map (λ list. list.items) ends.old.items) (map (λ list. list.items) ends.new.items)) }
{
    match leg_period(leg) {
        Some(period) => add_ends(ends, table, period, leg),
        None => Ok(()),
    }
}

// Adds the ends of a leg record with this period.
fn add_ends(
    ends: &mut Vec<Vec<(Period, LegEnd)>>,
    table: &[Vec<SpelledRow>],
    period: Period,
    leg: &LegRecord,
) -> Result<(), Memory>
    requires table { length table.now ≡ 17576 }
    requires ends { length ends.old.items ≡ 17576 }
    requires period { period ≡ period_of leg.now }
    ensures { OnOk result (AddsEnds (map (λ list. list.items) table.now) (dated_ends leg.now)
        (map (λ list. list.items) ends.old.items) (map (λ list. list.items) ends.new.items)) }
{
    let columns = leg.columns();
    if are_quiet(table, &period, &columns) {
        return Ok(());
    }
    let [departure, arrival] = columns.date_variations();
    let from = columns.departure_variation();
    let to = columns.arrival_variation();
    add_end(
        ends,
        table,
        period,
        columns.departure_station(),
        from,
        departure,
    )?;
    add_end(ends, table, period, columns.arrival_station(), to, arrival)
}

// Whether neither end of a leg with these columns can give a note in a period, as their texts show.
// Mostly it is so, and the columns are not parsed.
fn are_quiet(table: &[Vec<SpelledRow>], period: &Period, columns: &LegColumns) -> bool
    requires { length table.now ≡ 17576 }
    ensures { IsTrue result → AreQuiet (map (λ list. list.items) table.now) period.now columns.now }
{
    let from = columns.text(DEPARTURE_VARIATION);
    let to = columns.text(ARRIVAL_VARIATION);
    is_quiet_text(&table[number_of(columns.departure_station())], period, from)
        && is_quiet_text(&table[number_of(columns.arrival_station())], period, to)
}

// Whether the first of these rows with a day of a period has all of them, and a text is that of its
// variation.
fn is_quiet_text(rows: &[SpelledRow], period: &Period, text: &[u8]) -> bool
    requires { length text.now ≡ 5 }
    ensures { IsTrue result → IsQuietText rows.now period.now text.now }
{
    for row in rows {
        if !is_beside(&row.row(), period) {
            return is_around(&row.row(), period) && row.is_spelled(text);
        }
    }
    false
}

// The period of a leg record, if its first day is not after its last. The leg records of a base have
// a last day.
fn leg_period(leg: &LegRecord) -> Option<Period>
    ensures some { IfSome result (λ period. period ≡ period_of leg.now) }
    ensures none { IfNone result ((period_of leg.now).last < (period_of leg.now).first) }
{
    let last = match leg.last() {
        Some(last) => last,
        None => Day::from_number(0)?,
    };
    match Period::new(leg.first(), last, leg.days()) {
        Ok(period) => Some(period),
        Err(_) => None,
    }
}

// An end of a leg record.
fn leg_end(station: Station, variation: Option<Variation>, date_variation: u8) -> LegEnd
    ensures { result ≡ leg_end station variation date_variation }
{
    LegEnd {
        station,
        variation,
        is_own: date_variation == b'0' || date_variation == b' ',
    }
}

// Adds an end, if it may give a note.
fn add_end(
    ends: &mut Vec<Vec<(Period, LegEnd)>>,
    table: &[Vec<SpelledRow>],
    period: Period,
    station: Station,
    variation: Option<Variation>,
    date_variation: u8,
) -> Result<(), Memory>
    requires table { length table.now ≡ 17576 }
    requires ends { length ends.old.items ≡ 17576 }
    ensures len { OnOk result (length ends.new.items ≡ 17576) }
    ensures adds { OnOk result (AddsEnds (map (λ list. list.items) table.now)
        ((period, leg_end station variation date_variation) ∷ [])
        (map (λ list. list.items) ends.old.items) (map (λ list. list.items) ends.new.items)) }
{
    // No effect at run time. The proof reads from this use that the period is one.
    let _ = period.first();
    let end = (period, leg_end(station, variation, date_variation));
    let rank = number_of(station);
    if is_quiet(&table[rank], &end) {
        return Ok(());
    }
    ends[rank].push(end)?;
    Ok(())
}

// Whether the first of these rows with a day of a period has all of them, and an end does not say
// another variation.
fn is_quiet(rows: &[SpelledRow], end: &(Period, LegEnd)) -> bool
    ensures { result ≡ is_quiet rows.now end.now.0 end.now.1 }
{
    for row in rows {
        let row = row.row();
        if !is_beside(&row, &end.0) {
            return is_around(&row, &end.0) && !says_other(row.variation(), &end.1);
        }
    }
    false
}

// Whether a row has no day of a period.
fn is_beside(row: &StationRow, period: &Period) -> bool
    ensures { result ≡ is_beside row.now period.now }
{
    row.last() < period.first() || period.last() < row.first()
}

// Whether a row has each day of a period.
fn is_around(row: &StationRow, period: &Period) -> bool
    ensures { result ≡ is_around row.now period.now }
{
    row.first() <= period.first() && period.last() <= row.last()
}

/// Whether an end says, on its date of origin, another variation.
pub(crate) fn says_other(variation: Variation, end: &LegEnd) -> bool
    ensures { result ≡ says_other variation end.now }
{
    match end.variation {
        Some(own) => end.is_own && !is_same(own, variation),
        None => false,
    }
}
