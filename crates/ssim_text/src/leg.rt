//! Leg lines.
ghost use Rattle.std.specs.Prelude.{◌≡◌, ◌<◌, ◌≤◌, ◌++◌, ◌∷◌, [], length, position, codes, IfSome};
ghost use Rattle.std.specs.Prelude.{IfNone, IfOk, true};
ghost use Rattle.std.specs.List.{list_all};
ghost use Rattle.std.specs.Str.{bytes_eq};
ghost use Rattle.ssim_text.specs.Grammar.{IsLegLine, leg_pair, flies};
ghost use Rattle.ssim_text.specs.Lines.{station_in, clock_in, variation_of, passenger_of};
ghost use Rattle.ssim_text.specs.Lines.{variations_of, end_of, leg_of};
ghost use Rattle.ssim_text.specs.internal.Made.{IsEndBounded};

use crate::bytes::{first_bytes, first_word};
use crate::segment::SegmentLine;
use arrayvec::ArrayVec;
use ssim_values::{Clock, Station};
use std::alloc::{AllocError, Global};
use std::marker::Model;

/// One end of a flight leg: where and when it departs or arrives.
#[derive(Clone, Copy, Debug, PartialEq, Eq)]
pub struct LegEnd {
    pub station: Station,
    /// The aircraft's time, in the message's time mode.
    pub time: Clock,
    /// Days after the flight's date of origin, 0 to 7.
    pub variation: u8,
    /// The passengers' time; the aircraft's time if none was given.
    pub passenger: Clock,
}

/// Midnight at `AAA`. An `ArrayVec` has a default leg line in each place that it does not use.
impl Default for LegEnd {
    ghost is_default = { λ e. (e.station ≡ codes "AAA") × (e.time ≡ 0) × (e.variation ≡ 0)
        × (e.passenger ≡ 0) };

    fn default() -> LegEnd {
        LegEnd {
            station: Station::parse(b"AAA").unwrap(),
            time: midnight(),
            variation: 0,
            passenger: midnight(),
        }
    }
}

fn midnight() -> Clock
    ensures { result ≡ 0 }
{
    Clock::parse(b"0000").unwrap()
}

/// The departure and the arrival of a flight leg.
#[derive(Clone, Copy, Debug, Default, PartialEq, Eq)]
pub struct LegLine {
    pub departure: LegEnd,
    pub arrival: LegEnd,
}

impl LegEnd {
    // Whether the date variation is at most 7.
    fn is_bounded(&self) -> bool
        ensures yes { result ≡ true → IsEndBounded self.now }
        ensures only { self.now.variation ≤ 7 → result ≡ true }
    {
        // No effect at run time. The proof reads from these what stations and times are.
        let _ = self.station.write();
        let _ = (self.time.minutes(), self.passenger.minutes());
        self.variation <= 7
    }
}

impl LegLine {
    /// The leg line with a departure and an arrival, if a line of a text can spell it: if no date
    /// variation is more than 7.
    pub fn new(departure: LegEnd, arrival: LegEnd) -> Option<LegLine>
        ensures value { IfSome result
            (λ line. line ≡ record { departure = departure; arrival = arrival }) }
        ensures some { IfSome result IsLegLine }
        ensures none { IfNone result
            (IsLegLine (record { departure = departure; arrival = arrival }) → ⊥) }
    {
        let line = LegLine { departure, arrival };
        if line.is_bounded() { Some(line) } else { None }
    }

    // Whether both ends are.
    fn is_bounded(&self) -> bool
        ensures yes { result ≡ true
            → IsEndBounded self.now.departure × IsEndBounded self.now.arrival }
        ensures only { self.now.departure.variation ≤ 7 → self.now.arrival.variation ≤ 7
            → result ≡ true }
    {
        self.departure.is_bounded() && self.arrival.is_bounded()
    }
}

#[tactic(auto, unfolding(crate::specs::Lines::end_of))]
impl LegEnd {
    /// Reads a station, a time, and perhaps a date variation and a passenger time.
    fn parse(text: &[u8]) -> Option<LegEnd>
        ensures some { IfSome result (λ e. end_of text.now ≡ Some e) }
        ensures none { IfNone result (end_of text.now ≡ None) }
    {
        let (station, rest) = first_bytes(text, 3);
        let (time, rest) = first_bytes(rest, 4);
        let station = read_station(station)?;
        let time = read_clock(time)?;
        let (variation, passenger) = variations(time, rest)?;
        Some(LegEnd {
            station,
            time,
            variation,
            passenger,
        })
    }
}

#[tactic(auto, unfolding(crate::specs::Lines::leg_of))]
impl LegLine {
    /// Reads a departure and an arrival.
    pub(crate) fn parse(line: &[u8]) -> Option<LegLine>
        ensures some { IfSome result (λ leg. leg_of line.now ≡ Some leg) }
        ensures none { IfNone result (leg_of line.now ≡ None) }
    {
        let (departure, arrival) = first_word(line);
        Some(LegLine {
            departure: LegEnd::parse(departure)?,
            arrival: LegEnd::parse(arrival)?,
        })
    }
}

/// Reads a station.
pub fn read_station(text: &[u8]) -> Option<Station>
    ensures some { IfSome result (λ s. station_in text.now ≡ Some s) }
    ensures none { IfNone result (station_in text.now ≡ None) }
{
    Station::parse(text.as_array()?).ok()
}

fn read_clock(text: &[u8]) -> Option<Clock>
    ensures some { IfSome result (λ t. clock_in text.now ≡ Some t) }
    ensures none { IfNone result (clock_in text.now ≡ None) }
{
    Clock::parse(text.as_array()?).ok()
}

fn variation(text: &[u8]) -> Option<u8>
    ensures some { IfSome result (λ v. variation_of text.now ≡ Some v) }
    ensures none { IfNone result (variation_of text.now ≡ None) }
{
    match text {
        [b'/', digit @ b'0'..=b'7'] => Some(*digit - b'0'),
        _ => None,
    }
}

fn passenger(text: &[u8]) -> Option<Clock>
    ensures some { IfSome result (λ t. passenger_of text.now ≡ Some t) }
    ensures none { IfNone result (passenger_of text.now ≡ None) }
{
    match text {
        [b'/', time @ ..] => read_clock(time),
        _ => None,
    }
}

#[tactic(auto, unfolding(crate::specs::Lines::variations_of))]
fn variations(time: Clock, text: &[u8]) -> Option<(u8, Clock)>
    ensures some { IfSome result (λ v. variations_of time text.now ≡ Some (v.0, v.1)) }
    ensures none { IfNone result (variations_of time text.now ≡ None) }
{
    if text.len() == 0 {
        return Some((0, time));
    }
    if text.len() == 2 {
        return Some((variation(text)?, time));
    }
    if text.len() == 5 {
        return Some((0, passenger(text)?));
    }
    let (first, second) = first_bytes(text, 2);
    Some((variation(first)?, passenger(second)?))
}

/// One to twenty leg lines. They are on the heap, so that an action without legs keeps no room for
/// twenty.
#[derive(Clone, Debug, Drop)]
pub struct Legs {
    lines: Box<ArrayVec<LegLine, 20>>,
}

impl Model for Legs {
    ghost use Rattle.std.specs.Prelude.{List};
    ghost use Rattle.ssim_text.specs.declared.leg.LegLine.{LegLine};

    ghost Value = { List LegLine };

    ghost view = { λ l. l.lines.value.items };
}

impl Legs {
    pub(crate) fn new(alloc: Global) -> Result<Legs, AllocError>
        ensures { IfOk result (λ legs. legs ≡ []) }
    {
        Ok(Legs {
            lines: Box::new(alloc, ArrayVec::new())?,
        })
    }

    /// These lines, 1 to 20 of them.
    pub fn of(alloc: Global, lines: &[LegLine]) -> Result<Legs, AllocError>
        requires some { 1 ≤ length lines.now }
        requires few { length lines.now ≤ 20 }
        ensures { IfOk result (λ legs. legs ≡ lines.now) }
    {
        let mut legs = Legs::new(alloc)?;
        for line in lines {
            legs.push(*line);
        }
        Ok(legs)
    }

    /// The lines, in their order.
    pub fn lines(&self) -> &[LegLine]
        ensures value { result.now ≡ self.now }
        ensures few { length self.now ≤ 20 }
    {
        self.lines.as_slice()
    }

    /// A further line.
    pub(crate) fn push(&mut self, leg: LegLine)
        requires { length self.old < 20 }
        ensures { self.new ≡ self.old ++ leg ∷ [] }
    {
        self.lines.push(leg);
    }
}

fn arrives_at(leg: &LegLine, station: Station) -> bool
    ensures { result ≡ bytes_eq leg.now.arrival.station station }
{
    leg.arrival.station == station
}

fn departs_from(leg: &LegLine, station: Station) -> bool
    ensures { result ≡ bytes_eq leg.now.departure.station station }
{
    leg.departure.station == station
}

/// The index of the first leg line that arrives at a station.
fn arrival_in(legs: &[LegLine], station: Station) -> Option<usize>
    ensures { result ≡ position (λ l. bytes_eq l.arrival.station station) legs.now }
{
    legs.iter().position(|leg| arrives_at(leg, station))
}

/// The pair of leg lines that a segment flies: the first that departs from the board point and has,
/// from it on, one that arrives at the off point, and the first such arrival. Both are counted from
/// 0.
pub fn leg_pair(legs: &[LegLine], board: Station, off: Station) -> Option<(usize, usize)>
    ensures { result ≡ leg_pair board off 0 legs.now }
{
    for (at, leg) in legs.iter().enumerate() {
        if departs_from(leg, board) {
            if let Some(count) = arrival_in(&legs[at..], off) {
                return Some((at, at + count));
            }
        }
    }
    None
}

/// Whether leg lines fly the pair of points of each of the segment lines.
pub(crate) fn fly_all(legs: &[LegLine], segments: &[SegmentLine]) -> bool
    ensures { result ≡ list_all (flies legs.now) segments.now }
{
    segments.iter().all(|segment| flies(legs, segment))
}

/// Whether leg lines fly the pair of points of a segment line.
pub(crate) fn flies(legs: &[LegLine], segment: &SegmentLine) -> bool
    ensures { result ≡ flies legs.now segment.now }
{
    leg_pair(legs, segment.board, segment.off).is_some()
}
