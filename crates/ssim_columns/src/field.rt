//! The fields of a record: their columns, their valid texts, and the first column of the first
//! invalid field.

ghost use Rattle.std.specs.Prelude.{◌≡◌, ◌≤◌, ◌<◌, ◌+◌, length, Some, None, IsTrue, IfSome, is_some};
ghost use Rattle.std.specs.List.{flat_map, list_all};
ghost use Rattle.ssim_values.specs.Day.{day_of};
ghost use Rattle.ssim_values.specs.DayMask.{days_of};
ghost use Rattle.ssim_values.specs.Clock.{clock_of};
ghost use Rattle.ssim_values.specs.Variation.{variation_of};
ghost use Rattle.ssim_values.specs.Station.{is_station};
ghost use Rattle.ssim_values.specs.Airline.{is_airline};
ghost use Rattle.ssim_values.specs.Flight.{is_suffix};
ghost use Rattle.ssim_values.specs.Calendar.{day_limit};
ghost use Rattle.ssim_columns.specs.Numbers.{is_blank};
ghost use Rattle.ssim_columns.specs.Columns.{columns, is_carried, is_title, end_from};
ghost use Rattle.ssim_columns.specs.Columns.{passenger_time_of, utc_variation_of, time_mode_of};
ghost use Rattle.ssim_columns.specs.Columns.{end_code_of, unless, dates_fault, place_of_other};
ghost use Rattle.ssim_columns.specs.Columns.{fault_in, first_fault};
ghost use Rattle.ssim_columns.specs.clauses.Columns.{is_printed, fits_kind, are_fields, AreColumns};

pub(crate) mod columns;
pub(crate) mod end_code;
pub(crate) mod time_mode;

use crate::field::end_code::end_code_of;
use crate::field::time_mode::time_mode_of;
use crate::text::array::{bytes_of, seven};
use crate::text::equality::are_same_by_fours;
use crate::text::number::{digits_of, number_of, sequence_of};
use ssim_values::{Airline, Clock, Day, DayMask, Station, Variation};

/// The kind of a field: the texts that are valid in its columns.
#[derive(Clone, Copy, Debug, PartialEq, Eq)]
pub enum FieldKind {
    Suffix,
    AirlineCode,
    Number,
    Sequence,
    Carried,
    Dates,
    Date,
    Days,
    StationCode,
    Time,
    PassengerTime,
    UtcVariation,
    Digits,
    Mode,
    Code,
    Title,
}

/// A field of a record: its columns, counted from 1, and its kind.
#[derive(Clone, Copy, Debug, PartialEq, Eq)]
pub struct Field {
    pub first: usize,
    pub last: usize,
    pub kind: FieldKind,
}

impl Field {
    /// The columns of the field in a record.
    #[inline(always)]
    pub fn text(self, bytes: &[u8; 200]) -> &[u8]
        requires { AreColumns self.first self.last }
        ensures len { length result.now + self.first ≡ self.last + 1 }
        ensures value { result.now ≡ columns self.first self.last bytes.now }
    {
        &bytes[self.first - 1..self.last]
    }
}

// ---- bytes

fn is_carried(byte: u8) -> bool
    ensures { result ≡ is_carried byte }
{
    byte >= 32 && byte != 127
}

fn is_blank(byte: u8) -> bool
    ensures { result ≡ is_blank byte }
{
    byte == b' '
}

fn are_blank(text: &[u8]) -> bool
    ensures { result ≡ list_all is_blank text.now }
{
    text.iter().all(|b| is_blank(*b))
}

/// Whether each byte can be carried. The loop has no early exit, so that several bytes are tested
/// at once.
pub(crate) fn are_carried(text: &[u8]) -> bool
    ensures { result ≡ list_all is_carried text.now }
{
    let mut all = true;
    for byte in text {
        all &= is_carried(*byte);
    }
    all
}

fn is_suffix(byte: u8) -> bool
    ensures { result ≡ is_suffix byte }
{
    byte == b' ' || byte.is_ascii_uppercase()
}

fn are_suffixes(text: &[u8]) -> bool
    ensures { result ≡ list_all is_suffix text.now }
{
    text.iter().all(|b| is_suffix(*b))
}

fn place_of_other(text: &[u8]) -> Option<usize>
    ensures within { IfSome result (λ place. place ≤ length text.now) }
    ensures value { result ≡ place_of_other is_carried 0 text.now }
{
    for (i, byte) in text.iter().enumerate() {
        if !is_carried(*byte) {
            return Some(i);
        }
    }
    None
}

// The index of the first byte that cannot be carried. Mostly there is none.
#[tactic(auto, using(crate::proofs::lemmas::Rows::none_other))]
fn carried_fault(text: &[u8]) -> Option<usize>
    requires { length text.now ≤ 200 }
    ensures small { IfSome result (λ place. place ≤ 200) }
    ensures value { result ≡ place_of_other is_carried 0 text.now }
{
    if are_carried(text) {
        None
    } else {
        place_of_other(text)
    }
}

// ---- values

pub(crate) fn is_station(text: &[u8]) -> bool
    requires { length text.now ≡ 3 }
    ensures { result ≡ is_station text.now }
{
    match Station::parse(&bytes_of::<3>(text)) {
        Ok(_) => true,
        Err(_) => false,
    }
}

pub(crate) fn is_airline(text: &[u8]) -> bool
    requires { length text.now ≡ 3 }
    ensures { result ≡ is_airline text.now }
{
    match Airline::parse(&bytes_of::<3>(text)) {
        Ok(_) => true,
        Err(_) => false,
    }
}

pub(crate) fn day_of(text: &[u8]) -> Option<Day>
    requires { length text.now ≡ 7 }
    ensures { result ≡ day_of text.now }
{
    match Day::parse(&seven(text)) {
        Ok(day) => Some(day),
        Err(_) => None,
    }
}

pub(crate) fn days_of(text: &[u8]) -> Option<DayMask>
    ensures { result ≡ days_of text.now }
{
    match DayMask::parse(text) {
        Ok(days) => Some(days),
        Err(_) => None,
    }
}

pub(crate) fn clock_of(text: &[u8]) -> Option<Clock>
    requires { length text.now ≡ 4 }
    ensures { result ≡ clock_of text.now }
{
    match Clock::parse(&bytes_of::<4>(text)) {
        Ok(clock) => Some(clock),
        Err(_) => None,
    }
}

fn variation_of(text: &[u8]) -> Option<Variation>
    requires { length text.now ≡ 5 }
    ensures { result ≡ variation_of text.now }
{
    match Variation::parse(&bytes_of::<5>(text)) {
        Ok(variation) => Some(variation),
        Err(_) => None,
    }
}

/// A time, or none in blank columns.
#[tactic(auto, unfolding(crate::specs::Columns::passenger_time_of))]
pub(crate) fn passenger_time_of(text: &[u8]) -> Option<Option<Clock>>
    requires { length text.now ≡ 4 }
    ensures { result ≡ passenger_time_of text.now }
{
    if are_blank(text) {
        return Some(None);
    }
    match clock_of(text) {
        Some(clock) => Some(Some(clock)),
        None => None,
    }
}

/// A UTC variation, or none in blank columns.
#[tactic(auto, unfolding(crate::specs::Columns::utc_variation_of))]
pub(crate) fn utc_variation_of(text: &[u8]) -> Option<Option<Variation>>
    requires { length text.now ≡ 5 }
    ensures { result ≡ utc_variation_of text.now }
{
    if are_blank(text) {
        return Some(None);
    }
    match variation_of(text) {
        Some(variation) => Some(Some(variation)),
        None => None,
    }
}

/// The day of an end that is not before the start, or the open end. `day` is the day that the text
/// spells.
#[tactic(auto, unfolding(crate::specs::Columns::end_from))]
pub(crate) fn end_from(start: Day, text: &[u8], day: Option<Day>) -> Option<Option<Day>>
    requires len { length text.now ≡ 7 }
    requires day { day ≡ day_of text.now }
    ensures { result ≡ end_from (Some start) text.now }
{
    if are_same_by_fours(text, b"00XXX00") {
        return Some(None);
    }
    match day {
        Some(end) if end.number() >= start.number() => Some(Some(end)),
        _ => None,
    }
}

#[tactic(auto, unfolding(crate::specs::Columns::is_title))]
fn is_title(text: &[u8]) -> bool
    ensures { result ≡ is_title text.now }
{
    text == b"AIRLINE STANDARD SCHEDULE DATA SET".as_slice()
}

// ---- faults

fn unless(valid: bool) -> Option<usize>
    ensures { result ≡ unless valid }
{
    if valid { None } else { Some(0) }
}

#[tactic(auto, unfolding(crate::specs::Columns::dates_fault))]
fn dates_fault(text: &[u8]) -> Option<usize>
    requires { length text.now ≡ 14 }
    ensures small { IfSome result (λ place. place ≤ 7) }
    ensures value { result ≡ dates_fault text.now }
{
    let (first, last) = text.split_at(7);
    let Some(start) = day_of(first) else {
        return Some(0);
    };
    match end_from(start, last, day_of(last)) {
        Some(_) => None,
        None => Some(7),
    }
}

/// The index of the first fault in the columns of a field, from 0.
fn fault_in(kind: FieldKind, text: &[u8]) -> Option<usize>
    requires fits { IsTrue (fits_kind kind (length text.now)) }
    requires len { length text.now ≤ 200 }
    ensures small { IfSome result (λ place. place ≤ 200) }
    ensures value { result ≡ fault_in kind text.now }
{
    match kind {
        FieldKind::Suffix => unless(are_suffixes(text)),
        FieldKind::AirlineCode => unless(is_airline(text)),
        FieldKind::Number => unless(number_of(text).is_some()),
        FieldKind::Sequence => unless(sequence_of(text).is_some()),
        FieldKind::Carried => carried_fault(text),
        FieldKind::Dates => dates_fault(text),
        FieldKind::Date => unless(day_of(text).is_some()),
        FieldKind::Days => unless(days_of(text).is_some()),
        FieldKind::StationCode => unless(is_station(text)),
        FieldKind::Time => unless(clock_of(text).is_some()),
        FieldKind::PassengerTime => unless(passenger_time_of(text).is_some()),
        FieldKind::UtcVariation => unless(utc_variation_of(text).is_some()),
        FieldKind::Digits => unless(digits_of(text).is_some()),
        FieldKind::Mode => unless(time_mode_of(text).is_some()),
        FieldKind::Code => unless(end_code_of(text).is_some()),
        FieldKind::Title => unless(is_title(text)),
    }
}

// Whether each byte is from 32 to 126. The loop has no early exit, so that several bytes are tested
// at once.
fn are_printed(text: &[u8]) -> bool
    ensures { result ≡ list_all is_printed text.now }
{
    let mut most = 0;
    for byte in text {
        most = most.max(byte.wrapping_sub(b' '));
    }
    most < 95
}

/// Whether each byte of columns 3 to 194 can be carried. Mostly each is from 32 to 126.
#[tactic(auto, using(crate::proofs::lemmas::Rows::all_printed))]
pub(crate) fn middle_is_carried(bytes: &[u8; 200]) -> bool
    ensures { result ≡ list_all is_carried (columns 3 194 bytes.now) }
{
    let middle = &bytes[2..194];
    are_printed(middle) || are_carried(middle)
}

/// The first column of the first invalid field.
pub fn first_fault(fields: &[Field], bytes: &[u8; 200]) -> Option<usize>
    requires { IsTrue (are_fields fields.now) }
    ensures { result ≡ first_fault bytes.now fields.now }
{
    for field in fields {
        let text = &bytes[field.first - 1..field.last];
        if let Some(place) = fault_in(field.kind, text) {
            return Some(field.first + place);
        }
    }
    None
}

/// The first column of the first invalid field of the tables, one after another.
pub(crate) fn first_fault_of(tables: &[&[Field]], bytes: &[u8; 200]) -> Option<usize>
    requires { IsTrue (list_all (λ table. are_fields table.now) tables.now) }
    ensures { result ≡ first_fault bytes.now (flat_map (λ table. table.now) tables.now) }
{
    for table in tables {
        match first_fault(table, bytes) {
            Some(column) => return Some(column),
            None => {}
        }
    }
    None
}
