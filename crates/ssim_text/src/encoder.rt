//! From a message to its canonical text.
ghost use Rattle.std.specs.Prelude.{◌≡◌, ◌++◌, ◌∷◌, [], ◌+◌, ◌%◌, OnOk, map};
ghost use Rattle.ssim_text.specs.Canonical.{three_digits, five_digits, short_digits};
ghost use Rattle.ssim_text.specs.Canonical.{reference_text, given_date_text, given_end_text};
ghost use Rattle.ssim_text.specs.Canonical.{period_text, unless_empty, equipment_text};
ghost use Rattle.ssim_text.specs.Canonical.{variation_text, passenger_text, leg_end_text, leg_text};
ghost use Rattle.ssim_text.specs.Canonical.{segment_line_text, written, creator_text};
ghost use Rattle.ssim_text.specs.Canonical.{group_code_text, originator_parts};
ghost use Rattle.ssim_text.specs.Grammar.{LegPart, SegmentPart, FreePart, ActionPart, flight_parts};
ghost use Rattle.ssim_text.specs.Grammar.{new_parts, body_parts, sub_parts, identifier_of};
ghost use Rattle.ssim_text.specs.Grammar.{later_parts, subs_parts, free_parts};
ghost use Rattle.ssim_text.specs.Values.{no_originator};
ghost use Rattle.std.specs.Str.{bytes_eq};
ghost use Rattle.ssim_values.specs.Clock.{clock_text};
ghost use Rattle.ssim_text.specs.Lines.{identifier_text, kind_text, mode_text};

use crate::action::{Action, NewLegs, Sub};
use crate::dates::{Dates, GivenDate, GivenEnd, GivenPeriod};
use crate::equipment::Equipment;
use crate::kind::Kind;
use crate::leg::{LegEnd, LegLine};
use crate::message::FreeLine;
use crate::originator::Originator;
use crate::reference::{GivenReference, GroupCode};
use crate::segment::SegmentLine;
use ssim_values::{Clock, Designator, Station, TimeMode, last_digit};
use std::alloc::AllocError;

/// Adds a line.
pub fn push_line(out: &mut Vec<u8>, line: &[u8]) -> Result<(), AllocError>
    ensures { OnOk result (out.new.items ≡ out.old.items ++ (line.now ++ 10 ∷ [])) }
{
    out.extend_from_slice(line)?;
    out.push(b'\n')?;
    Ok(())
}

fn push_short(out: &mut Vec<u8>, n: u16) -> Result<(), AllocError>
    ensures { OnOk result (out.new.items ≡ out.old.items ++ short_digits n) }
{
    let [hundreds, tens, ones] = three_digits(n);
    if n < 10 {
        return out.extend_from_slice(&[ones]);
    }
    if n < 100 {
        return out.extend_from_slice(&[tens, ones]);
    }
    out.extend_from_slice(&[hundreds, tens, ones])
}

pub(crate) fn three_digits(n: u16) -> [u8; 3]
    ensures { result ≡ three_digits n }
{
    let n = n as u32;
    [last_digit(n / 100), last_digit(n / 10), last_digit(n)]
}

pub(crate) fn five_digits(n: u32) -> [u8; 5]
    ensures { result ≡ five_digits n }
{
    [
        last_digit(n / 10000),
        last_digit(n / 1000),
        last_digit(n / 100),
        last_digit(n / 10),
        last_digit(n),
    ]
}

impl GroupCode {
    fn letter(self) -> u8
        ensures { group_code_text self ≡ result ∷ [] }
    {
        match self {
            GroupCode::Continuation => b'C',
            GroupCode::End => b'E',
        }
    }
}

impl GivenReference {
    /// Adds its line.
    pub fn push(&self, out: &mut Vec<u8>) -> Result<(), AllocError>
        ensures { OnOk result
            (out.new.items ≡ out.old.items ++ (reference_text self.now ++ 10 ∷ [])) }
    {
        self.push_with_group(out, self.group)
    }

    /// Adds its line, but with this group serial.
    pub fn push_with_group(&self, out: &mut Vec<u8>, group: u32) -> Result<(), AllocError>
        ensures { OnOk result (out.new.items ≡ out.old.items
            ++ (reference_text (record self.now { group = group }) ++ 10 ∷ [])) }
    {
        out.extend_from_slice(&self.date.write())?;
        out.extend_from_slice(&five_digits(group))?;
        out.push(self.code.letter())?;
        out.extend_from_slice(&three_digits(self.serial))?;
        self.push_creator(out)?;
        out.push(b'\n')?;
        Ok(())
    }

    fn push_creator(&self, out: &mut Vec<u8>) -> Result<(), AllocError>
        ensures { OnOk result (out.new.items ≡ out.old.items ++ creator_text self.now.creator) }
    {
        match &self.creator {
            None => Ok(()),
            Some(creator) => {
                out.push(b'/')?;
                out.extend_from_slice(creator.bytes())
            }
        }
    }
}

impl GivenDate {
    fn push(self, out: &mut Vec<u8>) -> Result<(), AllocError>
        ensures { OnOk result (out.new.items ≡ out.old.items ++ given_date_text self) }
    {
        match self {
            GivenDate::Full(day) => out.extend_from_slice(&day.write()),
            GivenDate::Yearless(day) => out.extend_from_slice(&day.write()),
        }
    }
}

impl GivenEnd {
    fn push(self, out: &mut Vec<u8>) -> Result<(), AllocError>
        ensures { OnOk result (out.new.items ≡ out.old.items ++ given_end_text self) }
    {
        match self {
            GivenEnd::Until(date) => date.push(out),
            GivenEnd::Open => out.extend_from_slice(b"00XXX00"),
        }
    }
}

impl GivenPeriod {
    fn push(self, out: &mut Vec<u8>) -> Result<(), AllocError>
        ensures { OnOk result (out.new.items ≡ out.old.items ++ (period_text self ++ 10 ∷ [])) }
    {
        self.first.push(out)?;
        out.push(b' ')?;
        self.last.push(out)?;
        out.push(b' ')?;
        out.extend_from_slice(&self.days.digits())?;
        out.push(b'\n')?;
        Ok(())
    }
}

fn push_flight(designator: Designator, dates: Dates, out: &mut Vec<u8>) -> Result<(), AllocError>
    ensures { OnOk result
        (out.new.items ≡ out.old.items ++ written (flight_parts designator dates)) }
{
    out.extend_from_slice(&designator.write())?;
    match dates {
        Dates::Period(period) => {
            out.push(b'\n')?;
            period.push(out)
        }
        Dates::Date(date) => {
            out.push(b'/')?;
            date.push(out)?;
            out.push(b'\n')?;
            Ok(())
        }
    }
}

/// A text with a byte before it, and nothing if it is empty.
fn push_unless_empty(out: &mut Vec<u8>, mark: u8, text: &[u8]) -> Result<(), AllocError>
    ensures { OnOk result (out.new.items ≡ out.old.items ++ unless_empty mark text.now) }
{
    if text.is_empty() {
        return Ok(());
    }
    out.push(mark)?;
    out.extend_from_slice(text)
}

impl Equipment {
    fn push(&self, out: &mut Vec<u8>) -> Result<(), AllocError>
        ensures { OnOk result
            (out.new.items ≡ out.old.items ++ (equipment_text self.now ++ 10 ∷ [])) }
    {
        out.push(self.service())?;
        out.push(b' ')?;
        out.extend_from_slice(&self.aircraft())?;
        if self.designators().is_empty() && self.configuration().is_empty() {
            out.push(b'\n')?;
            return Ok(());
        }
        out.push(b' ')?;
        out.extend_from_slice(self.designators())?;
        push_unless_empty(out, b'.', self.configuration())?;
        out.push(b'\n')?;
        Ok(())
    }
}

impl LegEnd {
    fn push(self, out: &mut Vec<u8>) -> Result<(), AllocError>
        ensures { OnOk result (out.new.items ≡ out.old.items ++ leg_end_text self) }
    {
        push_station(out, self.station)?;
        push_clock(out, self.time)?;
        push_variation(out, self.variation)?;
        push_passenger(out, self.time, self.passenger)
    }
}

fn push_station(out: &mut Vec<u8>, station: Station) -> Result<(), AllocError>
    ensures { OnOk result (out.new.items ≡ out.old.items ++ station) }
{
    out.extend_from_slice(&station.write())
}

fn push_clock(out: &mut Vec<u8>, time: Clock) -> Result<(), AllocError>
    ensures { OnOk result (out.new.items ≡ out.old.items ++ clock_text time) }
{
    out.extend_from_slice(&time.write())
}

fn push_variation(out: &mut Vec<u8>, variation: u8) -> Result<(), AllocError>
    ensures { OnOk result (out.new.items ≡ out.old.items ++ variation_text variation) }
{
    if variation == 0 {
        return Ok(());
    }
    out.push(b'/')?;
    out.push(last_digit(variation as u32))?;
    Ok(())
}

fn push_passenger(out: &mut Vec<u8>, time: Clock, passenger: Clock) -> Result<(), AllocError>
    ensures { OnOk result (out.new.items ≡ out.old.items ++ passenger_text time passenger) }
{
    if passenger.minutes() == time.minutes() {
        return Ok(());
    }
    out.push(b'/')?;
    push_clock(out, passenger)
}

impl LegLine {
    fn push(self, out: &mut Vec<u8>) -> Result<(), AllocError>
        ensures { OnOk result (out.new.items ≡ out.old.items ++ (leg_text self ++ 10 ∷ [])) }
    {
        self.departure.push(out)?;
        out.push(b' ')?;
        self.arrival.push(out)?;
        out.push(b'\n')?;
        Ok(())
    }
}

impl SegmentLine {
    fn push(&self, out: &mut Vec<u8>) -> Result<(), AllocError>
        ensures { OnOk result
            (out.new.items ≡ out.old.items ++ (segment_line_text self.now ++ 10 ∷ [])) }
    {
        push_station(out, self.board)?;
        push_station(out, self.off)?;
        out.push(b' ')?;
        push_short(out, self.identifier)?;
        out.push(b'/')?;
        push_line(out, self.text.bytes())
    }
}

fn push_legs(out: &mut Vec<u8>, legs: &[LegLine]) -> Result<(), AllocError>
    ensures { OnOk result (out.new.items ≡ out.old.items ++ written (map LegPart legs.now)) }
{
    for leg in legs {
        leg.push(out)?;
    }
    Ok(())
}

fn push_segments(out: &mut Vec<u8>, segments: &[SegmentLine]) -> Result<(), AllocError>
    ensures { OnOk result
        (out.new.items ≡ out.old.items ++ written (map SegmentPart segments.now)) }
{
    for segment in segments {
        segment.push(out)?;
    }
    Ok(())
}

fn push_free_lines(out: &mut Vec<u8>, lines: &[FreeLine]) -> Result<(), AllocError>
    ensures { OnOk result (out.new.items ≡ out.old.items ++ written (map FreePart lines.now)) }
{
    for line in lines {
        push_line(out, line.bytes())?;
    }
    Ok(())
}

impl NewLegs {
    fn push(&self, out: &mut Vec<u8>) -> Result<(), AllocError>
        ensures { OnOk result (out.new.items ≡ out.old.items ++ written (new_parts self.now)) }
    {
        self.equipment.push(out)?;
        push_legs(out, self.legs.lines())?;
        push_segments(out, self.segments.lines())
    }
}

impl Action {
    fn push_identifier(&self, out: &mut Vec<u8>) -> Result<(), AllocError>
        ensures { OnOk result (out.new.items
            ≡ out.old.items ++ (identifier_text (identifier_of self.now) ++ 10 ∷ [])) }
    {
        push_line(out, self.identifier().name().as_bytes())
    }

    fn push_body(&self, out: &mut Vec<u8>) -> Result<(), AllocError>
        ensures { OnOk result (out.new.items ≡ out.old.items ++ written (body_parts self.now)) }
    {
        match self {
            Action::New(new) | Action::Rpl(new) => new.push(out),
            Action::Cnl => Ok(()),
            Action::Eqt(equipment) => equipment.push(out),
            Action::Tim(legs) => push_legs(out, legs.lines()),
        }
    }
}

impl Sub {
    /// Adds its lines, as the canonical text of a message has them: the action identifier, the
    /// flight with its dates, and what the action has.
    pub fn push(&self, out: &mut Vec<u8>) -> Result<(), AllocError>
        ensures { OnOk result (out.new.items ≡ out.old.items ++ written (sub_parts self.now)) }
    {
        self.action.push_identifier(out)?;
        push_flight(self.designator, self.dates, out)?;
        self.action.push_body(out)
    }
}

/// The sub-messages after the first, each after a divider.
fn push_later(out: &mut Vec<u8>, subs: &[Sub]) -> Result<(), AllocError>
    ensures { OnOk result (out.new.items ≡ out.old.items ++ written (later_parts subs.now)) }
{
    for sub in subs {
        push_line(out, b"//")?;
        sub.push(out)?;
    }
    Ok(())
}

pub(crate) fn push_subs(out: &mut Vec<u8>, subs: &[Sub]) -> Result<(), AllocError>
    ensures { OnOk result (out.new.items ≡ out.old.items ++ written (subs_parts subs.now)) }
{
    match subs {
        [] => Ok(()),
        [first, later @ ..] => {
            first.push(out)?;
            push_later(out, later)
        }
    }
}

pub(crate) fn push_free(out: &mut Vec<u8>, lines: &[FreeLine]) -> Result<(), AllocError>
    ensures { OnOk result (out.new.items ≡ out.old.items ++ written (free_parts lines.now)) }
{
    if lines.is_empty() {
        return Ok(());
    }
    push_line(out, b"//")?;
    push_free_lines(out, lines)
}

/// Adds the line of an originator, if there is one.
pub fn push_originator(out: &mut Vec<u8>, originator: Originator) -> Result<(), AllocError>
    ensures { OnOk result (out.new.items ≡ out.old.items ++ written (originator_parts originator)) }
{
    if originator.is_none() {
        return Ok(());
    }
    out.push(b'.')?;
    push_line(out, &originator.bytes())
}

/// Adds the line of a kind.
pub fn push_kind(out: &mut Vec<u8>, kind: Kind) -> Result<(), AllocError>
    ensures { OnOk result (out.new.items ≡ out.old.items ++ (kind_text kind ++ 10 ∷ [])) }
{
    push_line(out, kind.name().as_bytes())
}

/// Adds the line of a time mode.
pub fn push_mode(out: &mut Vec<u8>, mode: TimeMode) -> Result<(), AllocError>
    ensures { OnOk result (out.new.items ≡ out.old.items ++ (mode_text mode ++ 10 ∷ [])) }
{
    match mode {
        TimeMode::Utc => push_line(out, b"UTC"),
        TimeMode::Local => push_line(out, b"LT"),
    }
}
