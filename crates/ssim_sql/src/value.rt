//! Values of a row.

ghost use Rattle.std.specs.Prelude.{◌≡◌, ◌++◌, ◌∷◌, [], OnOk, map};
ghost use Rattle.std.specs.Fmt.{decimal};
ghost use Rattle.std.specs.List.{flat_map, list_all};
ghost use Rattle.ssim_sql.specs.LegRows.{days_after};
ghost use Rattle.ssim_sql.specs.Literal.{character, quote, quoted_byte};
ghost use Rattle.ssim_sql.specs.Statements.{row};
ghost use Rattle.ssim_sql.specs.internal.Values.{is_plain, value_text};

use itoa::Buffer;
use ssim_board::LocalTime;
use ssim_lines::{Printed, push_each};
use ssim_listing::{iso_date, iso_time};
use ssim_values::{Clock, Day, DayMask, Memory};

/// A value of a row.
#[derive(Clone, Copy)]
pub(crate) enum Value<'a> {
    /// There is none.
    Null,
    /// A number.
    Number(u64),
    /// A number of days, counted so that the first of them is 1: it is written as 0, and the day
    /// before as -1.
    DayCount(u16),
    /// A text.
    Text(&'a [u8]),
    /// Days of operation, as digits.
    Weekdays(DayMask),
    /// A date.
    Date(Day),
    /// A time of day.
    Time(Clock),
    /// The time of day of a moment.
    Moment(LocalTime),
}

/// Values within a row, each after a comma.
#[derive(Clone, Copy)]
struct AfterComma;

/// Bytes within a text of SQL.
#[derive(Clone, Copy)]
struct Quoted;

/// Adds a row of a value, and others in two parts.
pub(crate) fn push_row(
    script: &mut Vec<u8>,
    first: &Value<'_>,
    others: &[Value<'_>],
    last: &[Value<'_>],
) -> Result<(), Memory>
    ensures { OnOk result (script.new.items ≡ script.old.items
        ++ row (value_text first.now) (map value_text others.now ++ map value_text last.now)) }
{
    script.push(b'(')?;
    push_value(script, first)?;
    push_each(script, &AfterComma, others)?;
    push_each(script, &AfterComma, last)?;
    script.push(b')')?;
    Ok(())
}

impl Printed<AfterComma> for Value<'_> {
    ghost text = { λ _ value. 44 ∷ value_text value };

    // Adds a comma and the value.
    fn print(&self, _row: &AfterComma, script: &mut Vec<u8>) -> Result<(), Memory> {
        script.push(b',')?;
        push_value(script, self)
    }
}

// Adds a value.
fn push_value(script: &mut Vec<u8>, value: &Value<'_>) -> Result<(), Memory>
    ensures { OnOk result (script.new.items ≡ script.old.items ++ value_text value.now) }
{
    match *value {
        Value::Null => {
            script.extend_from_slice(b"NULL")?;
            Ok(())
        }
        Value::Number(number) => push_number(script, number),
        Value::DayCount(days) => push_days(script, days),
        Value::Text(bytes) => push_text(script, bytes),
        Value::Weekdays(days) => push_text(script, days.digits().as_slice()),
        Value::Date(day) => push_text(script, &iso_date(day)),
        Value::Time(time) => push_text(script, &iso_time(&time.write())),
        Value::Moment(time) => push_text(script, &iso_time(&time.write())),
    }
}

// Adds a number.
fn push_number(script: &mut Vec<u8>, number: u64) -> Result<(), Memory>
    ensures { OnOk result (script.new.items ≡ script.old.items ++ decimal number) }
{
    let mut digits = Buffer::new();
    script.extend_from_slice(digits.format(number).as_bytes())?;
    Ok(())
}

// Adds a number of days, one less.
fn push_days(script: &mut Vec<u8>, days: u16) -> Result<(), Memory>
    ensures { OnOk result (script.new.items ≡ script.old.items ++ days_after days) }
{
    if days == 0 {
        script.extend_from_slice(b"-1")?;
        return Ok(());
    }
    push_number(script, (days - 1) as u64)
}

/// Adds bytes as a text of SQL. Most texts are copied, since no byte of them is written in another
/// way.
#[tactic(auto, unfolding(crate::specs::Literal::quote))]
pub(crate) fn push_text(script: &mut Vec<u8>, bytes: &[u8]) -> Result<(), Memory>
    ensures { OnOk result (script.new.items ≡ script.old.items ++ quote bytes.now) }
{
    script.push(b'\'')?;
    push_quoted(script, bytes)?;
    script.push(b'\'')?;
    Ok(())
}

// Adds the characters of a text.
fn push_quoted(script: &mut Vec<u8>, bytes: &[u8]) -> Result<(), Memory>
    ensures { OnOk result (script.new.items ≡ script.old.items ++ flat_map quoted_byte bytes.now) }
{
    if are_plain(bytes) {
        script.extend_from_slice(bytes)?;
        return Ok(());
    }
    push_each(script, &Quoted, bytes)
}

// Whether bytes are their own characters in a text. The loop has no early exit, so that several
// bytes are tested at once.
fn are_plain(bytes: &[u8]) -> bool
    ensures { result ≡ list_all is_plain bytes.now }
{
    let mut all = true;
    for byte in bytes {
        all &= is_plain(*byte);
    }
    all
}

// Whether a byte is its own character in a text.
fn is_plain(byte: u8) -> bool
    ensures { result ≡ is_plain byte }
{
    byte != b'\'' && byte < 128
}

impl Printed<Quoted> for u8 {
    ghost text = { λ _. quoted_byte };

    // Adds a byte: an apostrophe twice, another one as its character.
    fn print(&self, _text: &Quoted, script: &mut Vec<u8>) -> Result<(), Memory> {
        if *self == b'\'' {
            script.extend_from_slice(b"''")?;
            return Ok(());
        }
        push_character(script, *self)
    }
}

// Adds the character of a number in UTF-8.
fn push_character(script: &mut Vec<u8>, byte: u8) -> Result<(), Memory>
    ensures { OnOk result (script.new.items ≡ script.old.items ++ character byte) }
{
    if byte < 128 {
        script.push(byte)?;
    } else {
        script.extend_from_slice(&[192 + byte / 64, 128 + byte % 64])?;
    }
    Ok(())
}
