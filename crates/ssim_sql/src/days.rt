//! The days of a script, and those around them.

ghost use Rattle.std.specs.Prelude.{◌≡◌, ◌++◌, ◌<◌, ◌≤◌, OnOk, fold};
ghost use Rattle.ssim_values.specs.Calendar.{day_limit};
ghost use Rattle.ssim_sql.specs.DayRows.{date_of, day_row, day_statement};
ghost use Rattle.ssim_base.specs.Base.{end_of};
ghost use Rattle.ssim_sql.specs.DayRows.{later_row, widened, with_flights};
ghost use Rattle.ssim_sql.specs.DayRows.{with_messages};
ghost use Rattle.ssim_listing.specs.Rows.{iso_date};

use crate::constant::heads::DAY_HEAD;
use crate::value::{Value, push_row};
use ssim_base::{ResolvedSub, validity_end};
use ssim_desk::Held;
use ssim_lines::{PrintedAt, push_range};
use ssim_listing::iso_date;
use ssim_records::Carrier;
use ssim_schedule::{FlightPieces, Itinerary};
use ssim_values::{Day, Memory, Period, write_two_digits};

/// The number of the days of the calendar.
const DAYS: u16 = 36_525;

/// The rows of days after the first of them, by days from 31 December 1999, which is 0.
#[derive(Clone, Copy)]
struct LaterDays;

/// The first and the last day of a validity and of the periods of messages.
pub(crate) fn days_with(carrier: &Carrier, held: &[Held]) -> (Day, Day)
    ensures { result ≡ with_messages (carrier.now.first, end_of carrier.now) held.now }
{
    with_messages((carrier.first(), validity_end(carrier)), held)
}

// The first and the last day after the periods of messages, too.
fn with_messages(days: (Day, Day), held: &[Held]) -> (Day, Day)
    ensures { result ≡ with_messages days held.now }
{
    let mut days = days;
    for message in held {
        days = with_subs(days, message.dates());
    }
    days
}

// The first and the last day after the periods of sub-messages, too.
fn with_subs(days: (Day, Day), subs: &[ResolvedSub]) -> (Day, Day)
    ensures { result ≡ fold (λ within sub. widened within sub.period) days subs.now }
{
    let mut days = days;
    for sub in subs {
        days = widened(days, sub.period);
    }
    days
}

/// The first and the last day after the periods of flights, too.
pub(crate) fn with_flights(days: (Day, Day), flights: &[FlightPieces]) -> (Day, Day)
    ensures { result ≡ with_flights days flights.now }
{
    let mut days = days;
    for flight in flights {
        days = with_pieces(days, flight.pieces());
    }
    days
}

// The first and the last day after the periods of pieces, too.
fn with_pieces(days: (Day, Day), pieces: &[(Period, Itinerary)]) -> (Day, Day)
    ensures { result ≡ fold (λ within piece. widened within piece.0) days pieces.now }
{
    let mut days = days;
    for piece in pieces {
        days = widened(days, piece.0);
    }
    days
}

// A first and a last day after one more period.
fn widened(days: (Day, Day), period: Period) -> (Day, Day)
    ensures { result ≡ widened days period }
{
    (days.0.min(period.first()), days.1.max(period.last()))
}

/// Adds the statement of each day from one before the first to ten after the last.
#[tactic(auto, unfolding(crate::specs::DayRows::day_statement))]
pub(crate) fn push_days(script: &mut Vec<u8>, days: (Day, Day)) -> Result<(), Memory>
    ensures { OnOk result (script.new.items ≡ script.old.items ++ day_statement days) }
{
    let first = days.0.number() as usize;
    let end = days.1.number() as usize + 12;
    script.extend_from_slice(DAY_HEAD)?;
    push_day(script, first)?;
    push_range(script, &LaterDays, first + 1, end)?;
    script.extend_from_slice(b"\nON CONFLICT DO NOTHING;\n")?;
    Ok(())
}

impl PrintedAt for LaterDays {
    ghost has = { λ _ n. n < 36537 };

    ghost text = { λ _. later_row };

    // Adds the row of a day after another one.
    fn print_at(&self, number: usize, script: &mut Vec<u8>) -> Result<(), Memory> {
        script.extend_from_slice(b",\n")?;
        push_day(script, number)
    }
}

// Adds the row of a day.
#[tactic(auto, unfolding(crate::specs::DayRows::day_row))]
fn push_day(script: &mut Vec<u8>, number: usize) -> Result<(), Memory>
    requires { number < 36537 }
    ensures { OnOk result (script.new.items ≡ script.old.items ++ day_row number) }
{
    let number = number as u16;
    let date = date_of(number);
    let weekday = [b'1' + ((number + 4) % 7) as u8];
    let values = [Value::Text(&date), Value::Text(&weekday)];
    push_row(script, &Value::DayCount(number), &values, &[])
}

// The date that is a number of days after 31 December 1999.
fn date_of(number: u16) -> [u8; 10]
    requires { number < 36537 }
    ensures { result ≡ date_of number }
{
    if number == 0 {
        return *b"1999-12-31";
    }
    if number <= DAYS {
        return date_in_calendar(number - 1);
    }
    let [d1, d2] = write_two_digits((number - DAYS) as u8);
    [b'2', b'1', b'0', b'0', b'-', b'0', b'1', b'-', d1, d2]
}

// The date with this number.
fn date_in_calendar(number: u16) -> [u8; 10]
    requires { number < day_limit }
    ensures { result ≡ iso_date number }
{
    match Day::from_number(number) {
        Some(day) => iso_date(day),
        None => unreachable!(),
    }
}
