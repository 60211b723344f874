//! Dates and periods as a message gives them.
ghost use Rattle.std.specs.Prelude.{◌≡◌, IfSome, IfNone};
ghost use Rattle.ssim_text.specs.Lines.{month_day_in, day_in, date_of, last_date_of, compact_days_of};
ghost use Rattle.ssim_text.specs.Lines.{period_of};

use crate::bytes::first_word;
use ssim_values::{Day, DayMask, DayMonth, are_digits};

/// A date with its year, or without (`01JUL25`, `01JUL`).
#[derive(Clone, Copy, Debug, PartialEq, Eq)]
pub enum GivenDate {
    Full(Day),
    Yearless(DayMonth),
}

/// The last date of a period, or `00XXX00`, which leaves its end open.
#[derive(Clone, Copy, Debug, PartialEq, Eq)]
pub enum GivenEnd {
    Until(GivenDate),
    Open,
}

/// The period of a sub-message of an SSM.
#[derive(Clone, Copy, Debug, PartialEq, Eq)]
pub struct GivenPeriod {
    pub first: GivenDate,
    pub last: GivenEnd,
    pub days: DayMask,
}

/// The dates of a sub-message: the period of an SSM, or the one date of an ASM.
#[derive(Clone, Copy, Debug, PartialEq, Eq)]
pub enum Dates {
    Period(GivenPeriod),
    Date(GivenDate),
}

pub(crate) fn month_day(text: &[u8]) -> Option<DayMonth>
    ensures some { IfSome result (λ date. month_day_in text.now ≡ Some date) }
    ensures none { IfNone result (month_day_in text.now ≡ None) }
{
    DayMonth::parse(text.as_array()?).ok()
}

pub(crate) fn day(text: &[u8]) -> Option<Day>
    ensures some { IfSome result (λ day. day_in text.now ≡ Some day) }
    ensures none { IfNone result (day_in text.now ≡ None) }
{
    Day::parse(text.as_array()?).ok()
}

pub(crate) fn date(text: &[u8]) -> Option<GivenDate>
    ensures some { IfSome result (λ date. date_of text.now ≡ Some date) }
    ensures none { IfNone result (date_of text.now ≡ None) }
{
    match text.as_array() {
        Some(text) => match Day::parse(text) {
            Ok(day) => Some(GivenDate::Full(day)),
            Err(_) => None,
        },
        None => match month_day(text) {
            Some(day) => Some(GivenDate::Yearless(day)),
            None => None,
        },
    }
}

fn last_date(text: &[u8]) -> Option<GivenEnd>
    ensures some { IfSome result (λ end. last_date_of text.now ≡ Some end) }
    ensures none { IfNone result (last_date_of text.now ≡ None) }
{
    if text == b"00XXX00".as_slice() {
        return Some(GivenEnd::Open);
    }
    match date(text) {
        Some(date) => Some(GivenEnd::Until(date)),
        None => None,
    }
}

fn compact_days(text: &[u8]) -> Option<DayMask>
    ensures some { IfSome result (λ days. compact_days_of text.now ≡ Some days) }
    ensures none { IfNone result (compact_days_of text.now ≡ None) }
{
    if !are_digits(text) {
        return None;
    }
    DayMask::parse(text).ok()
}

#[tactic(auto, unfolding(crate::specs::Lines::period_of))]
impl GivenPeriod {
    /// Reads a first date, a last date and days without blanks.
    pub(crate) fn parse(line: &[u8]) -> Option<GivenPeriod>
        ensures some { IfSome result (λ period. period_of line.now ≡ Some period) }
        ensures none { IfNone result (period_of line.now ≡ None) }
    {
        let (first, rest) = first_word(line);
        let (last, days) = first_word(rest);
        Some(GivenPeriod {
            first: date(first)?,
            last: last_date(last)?,
            days: compact_days(days)?,
        })
    }
}
