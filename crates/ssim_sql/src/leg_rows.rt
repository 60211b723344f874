//! The rows of legs.

ghost use Rattle.std.specs.Prelude.{◌≡◌, ◌++◌, ◌∷◌, [], ℕ, List, IsTrue, OnOk, map};
ghost use Rattle.ssim_records.specs.clauses.Leg.{is_own};
ghost use Rattle.ssim_board.specs.Movements.{time_of, utc_time_of};
ghost use Rattle.ssim_sql.specs.ChangeRows.{side_row};
ghost use Rattle.ssim_sql.specs.LegRows.{clock, clock_or_null, days_after, flag, leg_row};
ghost use Rattle.ssim_sql.specs.LegRows.{leg_values, period_values, text, text_in_place};
ghost use Rattle.ssim_sql.specs.Literal.{quote};
ghost use Rattle.ssim_sql.specs.internal.Tables.{script_with};
ghost use Rattle.ssim_sql.specs.internal.Values.{value_text};

use crate::blanks::trimmed;
use crate::flights::PeriodOf;
use crate::table::{Table, put_long_row};
use crate::value::Value;
use ssim_board::MovementKind::{Arrival, Departure};
use ssim_board::{MovementKind, is_uncertain, time_of, utc_time_of};
use ssim_records::leg_fields::{
    AIRCRAFT_TYPE, ARRIVAL_STATION, ARRIVAL_TERMINAL, BOOKING_DESIGNATORS, COLUMNS_96_TO_127,
    COLUMNS_129_TO_172, CONFIGURATION, DEPARTURE_STATION, DEPARTURE_TERMINAL, SERVICE_TYPE,
};
use ssim_records::{Field, LegColumns};
use ssim_schedule::PlacedLeg;
use ssim_text::without_end;
use ssim_values::{Clock, Day, Memory, Period, TimeMode};

/// Adds the row of a leg of a flight on a period.
#[tactic(auto, unfolding(crate::specs::LegRows::leg_row))]
pub(crate) fn put_leg(table: &mut Table, of: &PeriodOf<'_>, leg: &PlacedLeg) -> Result<(), Memory>
    ensures { OnOk result ((later : List (List ℕ)) → script_with table.new later ≡ script_with
        table.old (leg_row of.now.name.now of.now.mode of.now.flight.now of.now.period leg.now
        ∷ later)) }
{
    let period = period_values(of.flight, of.period);
    let columns = leg.columns();
    let values = leg_values(of.mode, leg.sequence(), &columns);
    put_long_row(table, of.name, &period, &values)
}

/// Adds the row of a leg of a side on a period on which its flight differs.
#[tactic(auto, unfolding(crate::specs::ChangeRows::side_row))]
pub(crate) fn put_side(
    table: &mut Table,
    of: &PeriodOf<'_>,
    side: &[u8],
    leg: &PlacedLeg,
) -> Result<(), Memory>
    ensures { OnOk result ((later : List (List ℕ)) → script_with table.new later ≡ script_with
        table.old (side_row side.now of.now.name.now of.now.mode of.now.flight.now of.now.period
        leg.now ∷ later)) }
{
    let period = side_values(of.flight, of.period, side);
    let columns = leg.columns();
    let values = leg_values(of.mode, leg.sequence(), &columns);
    put_long_row(table, of.name, &period, &values)
}

// The values of a flight on a period, in the order of the columns of the tables.
fn period_values<'a>(flight: &'a [u8], period: Period) -> [Value<'a>; 4]
    ensures { map value_text result ≡ period_values flight.now period }
{
    [
        Value::Text(flight),
        Value::Date(period.first()),
        Value::Date(period.last()),
        Value::Weekdays(period.mask()),
    ]
}

// The values of a flight on a period, and a side.
fn side_values<'a>(flight: &'a [u8], period: Period, side: &'a [u8]) -> [Value<'a>; 5]
    ensures { map value_text result ≡ period_values flight.now period ++ quote side.now ∷ [] }
{
    [
        Value::Text(flight),
        Value::Date(period.first()),
        Value::Date(period.last()),
        Value::Weekdays(period.mask()),
        Value::Text(side),
    ]
}

// The values of a leg, in the order of the columns of the tables.
fn leg_values<'a>(mode: TimeMode, sequence: u8, columns: &'a LegColumns) -> [Value<'a>; 22]
    ensures { map value_text result ≡ leg_values mode sequence columns.now }
{
    [
        Value::Number(sequence as u64),
        text(columns, DEPARTURE_STATION),
        local_clock(mode, columns, Departure),
        local_day(mode, columns, Departure),
        utc_clock(mode, columns, Departure),
        utc_day(mode, columns, Departure),
        passenger(columns.passenger_departure_time()),
        text(columns, DEPARTURE_TERMINAL),
        text(columns, ARRIVAL_STATION),
        local_clock(mode, columns, Arrival),
        local_day(mode, columns, Arrival),
        utc_clock(mode, columns, Arrival),
        utc_day(mode, columns, Arrival),
        passenger(columns.passenger_arrival_time()),
        text(columns, ARRIVAL_TERMINAL),
        text(columns, SERVICE_TYPE),
        text(columns, AIRCRAFT_TYPE),
        text(columns, BOOKING_DESIGNATORS),
        text(columns, CONFIGURATION),
        text_in_place(columns, COLUMNS_96_TO_127),
        text_in_place(columns, COLUMNS_129_TO_172),
        flag(is_uncertain(mode, columns)),
    ]
}

// The bytes of a field without the blanks around them.
fn text(columns: &LegColumns, field: Field) -> Value<'_>
    requires { IsTrue (is_own field) }
    ensures { value_text result ≡ text field.first field.last columns.now }
{
    Value::Text(trimmed(columns.text(field)))
}

// The same with the blanks at the beginning.
fn text_in_place(columns: &LegColumns, field: Field) -> Value<'_>
    requires { IsTrue (is_own field) }
    ensures { value_text result ≡ text_in_place field.first field.last columns.now }
{
    Value::Text(without_end(columns.text(field)))
}

// The first day of the calendar, from which the days of a leg's times count.
fn day_zero() -> Day
    ensures { result ≡ 0 }
{
    match Day::from_number(0) {
        Some(day) => day,
        None => unreachable!(),
    }
}

// The local time of an end of a leg.
fn local_clock<'a>(mode: TimeMode, columns: &LegColumns, kind: MovementKind) -> Value<'a>
    ensures { value_text result ≡ clock (time_of mode 0 columns.now kind).minutes }
{
    Value::Moment(time_of(mode, day_zero(), columns, kind))
}

// How many days after the date of origin its local date is.
fn local_day<'a>(mode: TimeMode, columns: &LegColumns, kind: MovementKind) -> Value<'a>
    ensures { value_text result ≡ days_after (time_of mode 0 columns.now kind).days }
{
    Value::DayCount(time_of(mode, day_zero(), columns, kind).days())
}

// The UTC time of an end of a leg.
fn utc_clock<'a>(mode: TimeMode, columns: &LegColumns, kind: MovementKind) -> Value<'a>
    ensures { value_text result ≡ clock (utc_time_of mode 0 columns.now kind).minutes }
{
    Value::Moment(utc_time_of(mode, day_zero(), columns, kind))
}

// How many days after the date of origin its UTC date is.
fn utc_day<'a>(mode: TimeMode, columns: &LegColumns, kind: MovementKind) -> Value<'a>
    ensures { value_text result ≡ days_after (utc_time_of mode 0 columns.now kind).days }
{
    Value::DayCount(utc_time_of(mode, day_zero(), columns, kind).days())
}

// A passenger time.
fn passenger<'a>(time: Option<Clock>) -> Value<'a>
    ensures { value_text result ≡ clock_or_null time }
{
    match time {
        None => Value::Null,
        Some(time) => Value::Time(time),
    }
}

// 1 if it holds, or else 0.
fn flag<'a>(test: bool) -> Value<'a>
    ensures { value_text result ≡ flag test }
{
    Value::Number(if test { 1 } else { 0 })
}
