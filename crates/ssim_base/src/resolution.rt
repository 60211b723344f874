//! Messages resolved against a base: references with their year, sub-messages with full dates.

ghost use Rattle.std.specs.Prelude.{◌≡◌, ◌⊎◌, ℕ, IsOk, IfOk, IfErr, IfSome, IfNone, Some};
ghost use Rattle.ssim_base.specs.Fault.{resolve_fault_name, resolve_fault_place};
ghost use Rattle.ssim_base.specs.Resolve.{AreDates, AreResolved, IsFirstRefused, IsRefused, IsRefusedIn, IsResolved, IsSubRefused, Means, MeansEnd, MeansNoEnd, MeansNone, Resolves, ResolvesIn, every_day, resolve_fault_number, same_mode};
ghost use Rattle.ssim_base.specs.internal.Reading.{AreFaulty};

use crate::base::Base;
use crate::data_set::acceptance::validity_end;
use crate::place::Place;
use crate::sub_message::ResolvedSub;
use ssim_records::Carrier;
use ssim_text::{Dates, GivenDate, GivenEnd, GivenPeriod, Message, Reference, Sub};
use ssim_values::{Day, DayMask, Period, TimeMode, next_on_or_after};
use std::alloc::{AllocError, AllocFailed, Global};
use thiserror::Error;

/// A message with full dates: its reference, and flight and dates of its sub-messages in order.
#[derive(Drop)]
pub struct ResolvedText {
    pub reference: Reference,
    pub subs: Vec<ResolvedSub>,
}

/// Why a message does not resolve. Sub-messages are numbered from 1; the number 0 is the message as
/// a whole.
#[derive(Clone, Copy, Debug, Error, PartialEq, Eq)]
pub enum ResolveFault {
    /// 90: out of memory.
    #[error("out of memory")]
    Memory,
    /// 40: the message and the data set have different time modes.
    #[error("the message has the other time mode than the data set")]
    TimeMode,
    /// 41: the sub-message names another airline than the data set's.
    #[error("sub-message {0}: another airline than the data set's")]
    Airline(usize),
    /// 42: there is no such date up to 2099. The number 0 is the date of the reference.
    #[error("sub-message {0} (0 is the reference): there is no such date up to 2099")]
    NoSuchDate(usize),
    /// 43: the period's last day is before its first.
    #[error("sub-message {0}: the period's last day is before its first")]
    Period(usize),
}

impl ResolveFault {
    /// The number by which the fault is known.
    pub fn number(self) -> u8
        ensures { result ≡ resolve_fault_number self }
    {
        match self {
            ResolveFault::Memory => 90,
            ResolveFault::TimeMode => 40,
            ResolveFault::Airline(_) => 41,
            ResolveFault::NoSuchDate(_) => 42,
            ResolveFault::Period(_) => 43,
        }
    }

    /// The name by which the fault is known.
    pub fn name(self) -> &'static str
        ensures { result.now ≡ resolve_fault_name self }
    {
        match self {
            ResolveFault::Memory => "Memory",
            ResolveFault::TimeMode => "TimeMode",
            ResolveFault::Airline(_) => "Airline",
            ResolveFault::NoSuchDate(_) => "NoSuchDate",
            ResolveFault::Period(_) => "Period",
        }
    }

    /// The sub-message that the fault names.
    pub fn place(self) -> Place
        ensures { result ≡ resolve_fault_place self }
    {
        match self {
            ResolveFault::Memory => Place::Nowhere,
            ResolveFault::TimeMode => Place::SubMessage(0),
            ResolveFault::Airline(sub)
            | ResolveFault::NoSuchDate(sub)
            | ResolveFault::Period(sub) => Place::SubMessage(sub),
        }
    }
}

impl From<AllocError> for ResolveFault {
    ghost use Rattle.ssim_base.specs.declared.resolution.ResolveFault.TheVariants.{Memory};

    ghost from_gives = { λ _ e. e ≡ Memory };

    fn from(_refused: AllocError) -> ResolveFault {
        ResolveFault::Memory
    }
}

impl<T: Drop> From<AllocFailed<T>> for ResolveFault {
    ghost use Rattle.ssim_base.specs.declared.resolution.ResolveFault.TheVariants.{Memory};

    ghost from_gives = { λ _ e. e ≡ Memory };

    fn from(_refused: AllocFailed<T>) -> ResolveFault {
        ResolveFault::Memory
    }
}

// The day that a date means. A date without a year is the next on or after `from`.
fn day_meant(from: Day, date: GivenDate) -> Option<Day>
    ensures some { IfSome result (λ day. Means from date day) }
    ensures none { IfNone result (MeansNone from date) }
{
    match date {
        GivenDate::Full(day) => Some(day),
        GivenDate::Yearless(date) => next_on_or_after(from, date),
    }
}

// The day that the end of a period means.
fn end_meant(carrier: &Carrier, first: Day, end: GivenEnd) -> Option<Day>
    ensures some { IfSome result (λ day. MeansEnd carrier.now first end day) }
    ensures none { IfNone result (MeansNoEnd first end) }
{
    match end {
        GivenEnd::Until(date) => day_meant(first, date),
        GivenEnd::Open => Some(validity_end(carrier)),
    }
}

// All weekdays.
fn every_day() -> DayMask
    ensures { result ≡ every_day }
{
    match DayMask::parse(b"1234567") {
        Ok(days) => days,
        Err(_) => unreachable!(),
    }
}

// Why dates have no period.
#[derive(Clone, Copy, Debug, PartialEq, Eq)]
enum DatesFault {
    NoSuchDate,
    Turned,
}

// The full period of dates: the period of an SSM, or the one date of an ASM.
fn period_meant(carrier: &Carrier, dates: Dates) -> Result<Period, DatesFault>
    ensures ok { IfOk result (AreDates carrier.now dates) }
    ensures err { IfErr result (AreFaulty carrier.now dates) }
{
    match dates {
        Dates::Period(given) => period_given(carrier, given),
        Dates::Date(date) => match day_meant(carrier.first(), date) {
            Some(day) => one_day(day),
            None => Err(DatesFault::NoSuchDate),
        },
    }
}

// The period of one day, with all weekdays.
fn one_day(day: Day) -> Result<Period, DatesFault>
    ensures ok { IfOk result (λ period. (period.first ≡ day) × (period.last ≡ day)
        × (period.days ≡ every_day)) }
    ensures is_ok { IsOk result }
{
    match Period::new(day, day, every_day()) {
        Ok(period) => Ok(period),
        Err(_) => Err(DatesFault::Turned),
    }
}

fn period_given(carrier: &Carrier, given: GivenPeriod) -> Result<Period, DatesFault>
    ensures ok { IfOk result (AreDates carrier.now (Dates.Period given)) }
    ensures err { IfErr result (AreFaulty carrier.now (Dates.Period given)) }
{
    let Some(first) = day_meant(carrier.first(), given.first) else {
        return Err(DatesFault::NoSuchDate);
    };
    let Some(last) = end_meant(carrier, first, given.last) else {
        return Err(DatesFault::NoSuchDate);
    };
    match Period::new(first, last, given.days) {
        Ok(period) => Ok(period),
        Err(_) => Err(DatesFault::Turned),
    }
}

// The sub-message with this number, with full dates.
fn resolve_sub(carrier: &Carrier, number: usize, sub: &Sub) -> Result<ResolvedSub, ResolveFault>
    ensures ok { IfOk result (IsResolved carrier.now sub.now) }
    ensures err { IfErr result (IsSubRefused carrier.now number sub.now) }
{
    if sub.designator.airline != carrier.airline() {
        return Err(ResolveFault::Airline(number));
    }
    match period_meant(carrier, sub.dates) {
        Ok(period) => Ok(ResolvedSub {
            flight: sub.designator.flight,
            period,
        }),
        Err(DatesFault::NoSuchDate) => Err(ResolveFault::NoSuchDate(number)),
        Err(DatesFault::Turned) => Err(ResolveFault::Period(number)),
    }
}

// Whether data set and message have the same time mode.
fn same_mode(carrier: TimeMode, message: TimeMode) -> bool
    ensures { result ≡ same_mode carrier message }
{
    carrier == message
}

// The sub-messages with full dates, or the refusal of the first that has none.
fn resolve_subs(
    alloc: Global,
    carrier: &Carrier,
    subs: &[Sub],
) -> Result<Vec<ResolvedSub>, ResolveFault>
    ensures ok { IfOk result (λ resolved. AreResolved carrier.now subs.now resolved.items) }
    ensures err { IfErr result (λ e. (e ≡ ResolveFault.Memory)
        ⊎ IsFirstRefused carrier.now 1 subs.now e) }
{
    let mut resolved = Vec::with_capacity(alloc, subs.len())?;
    for (place, sub) in subs.iter().enumerate() {
        resolved.push(resolve_sub(carrier, place + 1, sub)?)?;
    }
    Ok(resolved)
}

/// Resolves a message against a base: its reference gets its year, and each sub-message its full
/// dates. A date without a year is the next such date. It is looked for from the start of the
/// carrier's validity, the end of a period from the period's start, and the date of a reference
/// from the day on which the data set was made.
///
/// The error is the first of these: 40 `TimeMode` for another time mode; 42 `NoSuchDate` with
/// sub-message 0 if the reference has no date up to 2099; then the error of the first invalid
/// sub-message: 41 `Airline` for another airline, 42 for a date that does not exist up to 2099, or
/// 43 `Period` for a last day before the first.
pub fn resolve(base: &Base, message: &Message) -> Result<ResolvedText, ResolveFault>
    ensures ok { IfOk result (ResolvesIn base.now.records message.now) }
    ensures err { IfErr result (IsRefusedIn base.now.records message.now) }
{
    base.frame().resolve(message)
}

/// Resolves a message by the carrier record of a base.
pub(crate) fn resolve_by(
    alloc: Global,
    carrier: &Carrier,
    message: &Message,
) -> Result<ResolvedText, ResolveFault>
    ensures ok { IfOk result (Resolves carrier.now message.now) }
    ensures err { IfErr result (IsRefused carrier.now message.now) }
{
    if !same_mode(carrier.time_mode(), message.mode()) {
        return Err(ResolveFault::TimeMode);
    }
    let given = message.reference();
    let Some(date) = next_on_or_after(carrier.created(), given.date) else {
        return Err(ResolveFault::NoSuchDate(0));
    };
    let reference = Reference {
        date,
        group: given.group,
        serial: given.serial,
        kind: message.kind(),
        originator: message.originator(),
    };
    let subs = resolve_subs(alloc, carrier, message.subs())?;
    Ok(ResolvedText { reference, subs })
}
