//! The part of a text that has been read, and the line that is expected next.
ghost use Rattle.std.specs.Prelude.{◌≡◌, ◌↔◌, ◌<◌, length, codes, IsTrue, IfOk, IfErr};
ghost use Rattle.ssim_text.specs.Lines.{begins_free, leg_of};
ghost use Rattle.ssim_text.specs.Machine.{flight_expected, body_expected, after_equipment, no_legs};
ghost use Rattle.ssim_text.specs.Machine.{action_of, sub_of, with_body, with_leg, with_segment};
ghost use Rattle.ssim_text.specs.Machine.{is_none_yet, is_whole, fits_segment, has_segments};
ghost use Rattle.ssim_text.specs.Machine.{takes_leg};
ghost use Rattle.ssim_text.specs.internal.DecoderState.{Takes, StopsAt, Finishes, EndsShort};

use crate::action::{Action, NewLegs, Sub, dated_flight, flight};
use crate::dates::{Dates, GivenPeriod};
use crate::equipment::Equipment;
use crate::fault::Fault;
use crate::kind::{ActionIdentifier, Kind, mode_of};
use crate::leg::{LegLine, Legs, flies};
use crate::message::Draft;
use crate::originator::Originator;
use crate::reference::GivenReference;
use crate::segment::{SegmentLine, Segments};
use ssim_values::{Designator, TimeMode};
use std::alloc::{AllocError, Global};
use std::marker::Model;

/// Why reading stops.
#[derive(Drop)]
pub(crate) enum Stop {
    OutOfMemory,
    Refused(Fault),
}

impl From<AllocError> for Stop {
    ghost use Rattle.ssim_text.specs.declared.decoder_state.Stop.TheVariants.{OutOfMemory};

    ghost from_gives = { λ _ e. e ≡ OutOfMemory };

    fn from(_error: AllocError) -> Stop {
        Stop::OutOfMemory
    }
}

/// The actions with an equipment line.
#[derive(Clone, Copy)]
pub(crate) enum Equipped {
    New,
    Rpl,
    Eqt,
}

/// The actions with leg lines, and what was read of them before these.
#[derive(Drop)]
pub(crate) enum LegChange {
    New(Equipment),
    Rpl(Equipment),
    Tim,
}

/// A sub-message whose leg lines are read.
#[derive(Drop)]
pub(crate) struct Body {
    designator: Designator,
    dates: Dates,
    change: LegChange,
    legs: Legs,
    segments: Segments,
}

/// A body on the heap, so that passing it on moves only a pointer.
#[derive(Drop)]
pub(crate) struct BoxedBody {
    body: Box<Body>,
}

impl Model for BoxedBody {
    ghost use Rattle.ssim_text.specs.declared.decoder_state.Body.{Body};

    ghost Value = { Body };

    ghost view = { λ b. b.body.value };
}

impl BoxedBody {
    fn new(
        alloc: Global,
        designator: Designator,
        dates: Dates,
        change: LegChange,
    ) -> Result<BoxedBody, AllocError>
        ensures { IfOk result (λ b. b ≡ no_legs designator dates change) }
    {
        let body = Body {
            designator,
            dates,
            change,
            legs: Legs::new(alloc)?,
            segments: Segments::new(alloc),
        };
        Ok(BoxedBody {
            body: Box::new(alloc, body)?,
        })
    }

    fn leg_count(&self) -> usize
        ensures { result ≡ length self.now.legs }
    {
        self.body.legs.lines().len()
    }

    fn segment_count(&self) -> usize
        ensures { result ≡ length self.now.segments }
    {
        self.body.segments.lines().len()
    }

    fn is_whole(&self) -> bool
        ensures { result ≡ is_whole self.now }
    {
        self.leg_count() > 0
    }

    fn has_no_segment(&self) -> bool
        ensures { result ≡ is_none_yet self.now.segments }
    {
        self.body.segments.lines().is_empty()
    }

    fn fits(&self, segment: &SegmentLine) -> bool
        ensures { result ≡ fits_segment self.now segment.now }
    {
        match &self.body.change {
            LegChange::Tim => false,
            LegChange::New(_) | LegChange::Rpl(_) => flies(self.body.legs.lines(), segment),
        }
    }

    fn with_leg(self, leg: LegLine) -> BoxedBody
        requires { length self.legs < 20 }
        ensures { result ≡ with_leg self leg }
    {
        let mut longer = self;
        longer.body.legs.push(leg);
        longer
    }

    fn with_segment(self, segment: SegmentLine) -> Result<BoxedBody, AllocError>
        requires { length self.segments < 99 }
        ensures { IfOk result (λ b. b ≡ with_segment self segment) }
    {
        let mut longer = self;
        longer.body.segments.push(segment)?;
        Ok(longer)
    }

    fn sub(self) -> Sub
        ensures { result ≡ sub_of self.designator self.dates
            (action_of self.change self.legs self.segments) }
    {
        let Body {
            designator,
            dates,
            change,
            legs,
            segments,
        } = Box::into_inner(self.body);
        let action = match change {
            LegChange::Tim => Action::Tim(legs),
            LegChange::New(equipment) => Action::New(NewLegs {
                equipment,
                legs,
                segments,
            }),
            LegChange::Rpl(equipment) => Action::Rpl(NewLegs {
                equipment,
                legs,
                segments,
            }),
        };
        Sub {
            designator,
            dates,
            action,
        }
    }
}

/// The part that has been read, and the line that is expected next.
#[derive(Drop)]
pub(crate) enum State {
    AtStart,
    AtKind(Originator),
    AtMode(Originator, Kind),
    AtReference(Originator, Kind, TimeMode),
    AtAction(Draft),
    AtFlight(Draft, ActionIdentifier),
    AtDatedFlight(Draft, ActionIdentifier),
    AtPeriod(Draft, ActionIdentifier, Designator),
    AtEquipment(Draft, Equipped, Designator, Dates),
    AtLegs(Draft, BoxedBody),
    AtEnd(Draft),
    AtNext(Draft),
    AtFree(Draft),
}

/// After the action an SSM has a flight, an ASM a flight with its date.
fn flight_expected(message: Draft, action: ActionIdentifier) -> State
    ensures { result ≡ flight_expected message.kind message action }
{
    match message.kind() {
        Kind::Ssm => State::AtFlight(message, action),
        Kind::Asm => State::AtDatedFlight(message, action),
    }
}

/// What is expected after flight and period.
fn body_expected(
    alloc: Global,
    action: ActionIdentifier,
    message: Draft,
    designator: Designator,
    dates: Dates,
) -> Result<State, AllocError>
    ensures { IfOk result (λ s. s ≡ body_expected action message designator dates) }
{
    match action {
        ActionIdentifier::New => Ok(State::AtEquipment(message, Equipped::New, designator, dates)),
        ActionIdentifier::Rpl => Ok(State::AtEquipment(message, Equipped::Rpl, designator, dates)),
        ActionIdentifier::Eqt => Ok(State::AtEquipment(message, Equipped::Eqt, designator, dates)),
        ActionIdentifier::Tim => Ok(State::AtLegs(
            message,
            BoxedBody::new(alloc, designator, dates, LegChange::Tim)?,
        )),
        ActionIdentifier::Cnl => {
            let sub = Sub {
                designator,
                dates,
                action: Action::Cnl,
            };
            Ok(State::AtEnd(message.with_sub(sub)?))
        }
    }
}

/// What is expected after the equipment line.
fn after_equipment(
    alloc: Global,
    equipped: Equipped,
    message: Draft,
    designator: Designator,
    dates: Dates,
    equipment: Equipment,
) -> Result<State, AllocError>
    ensures { IfOk result (λ s. s ≡ after_equipment equipped message designator dates equipment) }
{
    match equipped {
        Equipped::New => Ok(State::AtLegs(
            message,
            BoxedBody::new(alloc, designator, dates, LegChange::New(equipment))?,
        )),
        Equipped::Rpl => Ok(State::AtLegs(
            message,
            BoxedBody::new(alloc, designator, dates, LegChange::Rpl(equipment))?,
        )),
        Equipped::Eqt => {
            let sub = Sub {
                designator,
                dates,
                action: Action::Eqt(equipment),
            };
            Ok(State::AtEnd(message.with_sub(sub)?))
        }
    }
}

fn is_divider(line: &[u8]) -> bool
    ensures { IsTrue result ↔ (line.now ≡ codes "//") }
{
    line == b"//".as_slice()
}

fn begins_free(line: &[u8]) -> bool
    ensures { result ≡ begins_free line.now }
{
    matches!(line, [b'S', b'I', ..])
}

#[tactic(auto, using(crate::proofs::Arms::arms))]
impl State {
    /// What has been read after a further line.
    pub(crate) fn after(self, alloc: Global, line: &[u8]) -> Result<State, Stop>
        ensures ok { IfOk result (λ next. Takes self line.now next) }
        ensures err { IfErr result (λ stop. StopsAt self line.now stop) }
    {
        match self {
            State::AtStart => State::after_start(line),
            State::AtKind(originator) => match Kind::parse(line) {
                Some(kind) => Ok(State::AtMode(originator, kind)),
                None => Err(Stop::Refused(Fault::BadKind)),
            },
            State::AtMode(originator, kind) => State::after_kind(alloc, originator, kind, line),
            State::AtReference(originator, kind, mode) => {
                State::after_mode(alloc, originator, kind, mode, line)
            }
            State::AtAction(message) => match ActionIdentifier::parse(line) {
                Some(action) => Ok(flight_expected(message, action)),
                None => Err(Stop::Refused(Fault::BadAction)),
            },
            State::AtFlight(message, action) => match flight(line) {
                Some(designator) => Ok(State::AtPeriod(message, action, designator)),
                None => Err(Stop::Refused(Fault::BadFlight)),
            },
            State::AtDatedFlight(message, action) => {
                State::after_dated_flight(alloc, message, action, line)
            }
            State::AtPeriod(message, action, designator) => {
                State::after_flight(alloc, message, action, designator, line)
            }
            State::AtEquipment(message, equipped, designator, dates) => {
                State::after_dates(alloc, message, equipped, designator, dates, line)
            }
            State::AtLegs(message, body) => State::after_leg(alloc, message, body, line),
            State::AtEnd(message) => {
                if is_divider(line) {
                    Ok(State::AtNext(message))
                } else {
                    Err(Stop::Refused(Fault::Extra))
                }
            }
            State::AtNext(message) => State::after_divider(alloc, message, line),
            State::AtFree(message) => Ok(State::AtFree(message.with_free(alloc, line)?)),
        }
    }

    fn after_start(line: &[u8]) -> Result<State, Stop>
        ensures ok { IfOk result (λ next. Takes State.AtStart line.now next) }
        ensures err { IfErr result (λ stop. StopsAt State.AtStart line.now stop) }
    {
        match Originator::parse(line) {
            Some(originator) => Ok(State::AtKind(originator)),
            None => match Kind::parse(line) {
                Some(kind) => Ok(State::AtMode(Originator::none(), kind)),
                None => Err(Stop::Refused(Fault::BadKind)),
            },
        }
    }

    fn after_kind(
        alloc: Global,
        originator: Originator,
        kind: Kind,
        line: &[u8],
    ) -> Result<State, Stop>
        ensures ok { IfOk result (λ next. Takes (State.AtMode originator kind) line.now next) }
        ensures err { IfErr result (λ stop. StopsAt (State.AtMode originator kind) line.now stop) }
    {
        match mode_of(line) {
            Some(mode) => Ok(State::AtReference(originator, kind, mode)),
            None => State::after_mode(alloc, originator, kind, TimeMode::Utc, line),
        }
    }

    fn after_mode(
        alloc: Global,
        originator: Originator,
        kind: Kind,
        mode: TimeMode,
        line: &[u8],
    ) -> Result<State, Stop>
        ensures ok { IfOk result
            (λ next. Takes (State.AtReference originator kind mode) line.now next) }
        ensures err { IfErr result
            (λ stop. StopsAt (State.AtReference originator kind mode) line.now stop) }
    {
        match GivenReference::parse(line) {
            Some(reference) => {
                let draft = Draft::begin(alloc, originator, kind, mode, reference)?;
                Ok(State::AtAction(draft))
            }
            None => Err(Stop::Refused(Fault::BadReference)),
        }
    }

    fn after_dated_flight(
        alloc: Global,
        message: Draft,
        action: ActionIdentifier,
        line: &[u8],
    ) -> Result<State, Stop>
        ensures ok { IfOk result
            (λ next. Takes (State.AtDatedFlight message action) line.now next) }
        ensures err { IfErr result
            (λ stop. StopsAt (State.AtDatedFlight message action) line.now stop) }
    {
        match dated_flight(line) {
            Some((designator, date)) => {
                let next = body_expected(alloc, action, message, designator, Dates::Date(date))?;
                Ok(next)
            }
            None => Err(Stop::Refused(Fault::BadFlight)),
        }
    }

    fn after_flight(
        alloc: Global,
        message: Draft,
        action: ActionIdentifier,
        designator: Designator,
        line: &[u8],
    ) -> Result<State, Stop>
        ensures ok { IfOk result
            (λ next. Takes (State.AtPeriod message action designator) line.now next) }
        ensures err { IfErr result
            (λ stop. StopsAt (State.AtPeriod message action designator) line.now stop) }
    {
        match GivenPeriod::parse(line) {
            Some(period) => {
                let next = body_expected(
                    alloc,
                    action,
                    message,
                    designator,
                    Dates::Period(period),
                )?;
                Ok(next)
            }
            None => Err(Stop::Refused(Fault::BadPeriod)),
        }
    }

    fn after_dates(
        alloc: Global,
        message: Draft,
        equipped: Equipped,
        designator: Designator,
        dates: Dates,
        line: &[u8],
    ) -> Result<State, Stop>
        ensures ok { IfOk result
            (λ next. Takes (State.AtEquipment message equipped designator dates) line.now next) }
        ensures err { IfErr result
            (λ stop. StopsAt (State.AtEquipment message equipped designator dates) line.now stop) }
    {
        match Equipment::parse(line) {
            Some(equipment) => {
                let next = after_equipment(alloc, equipped, message, designator, dates, equipment)?;
                Ok(next)
            }
            None => Err(Stop::Refused(Fault::BadEquipment)),
        }
    }

    fn after_leg(alloc: Global, message: Draft, body: BoxedBody, line: &[u8]) -> Result<State, Stop>
        ensures ok { IfOk result (λ next. Takes (State.AtLegs message body) line.now next) }
        ensures err { IfErr result (λ stop. StopsAt (State.AtLegs message body) line.now stop) }
    {
        match LegLine::parse(line) {
            Some(leg) => {
                if !body.has_no_segment() {
                    return Err(Stop::Refused(Fault::BadLeg));
                }
                if body.leg_count() >= 20 {
                    return Err(Stop::Refused(Fault::TooMany));
                }
                Ok(State::AtLegs(message, body.with_leg(leg)))
            }
            None => State::after_legs(alloc, message, body, line),
        }
    }

    fn after_legs(
        alloc: Global,
        message: Draft,
        body: BoxedBody,
        line: &[u8],
    ) -> Result<State, Stop>
        requires { leg_of line.now ≡ None }
        ensures ok { IfOk result (λ next. Takes (State.AtLegs message body) line.now next) }
        ensures err { IfErr result (λ stop. StopsAt (State.AtLegs message body) line.now stop) }
    {
        if is_divider(line) {
            if !body.is_whole() {
                return Err(Stop::Refused(Fault::BadLeg));
            }
            let longer = message.with_sub(body.sub())?;
            return Ok(State::AtNext(longer));
        }
        let read = SegmentLine::parse(alloc, line)?;
        match read {
            Some(segment) => {
                if !body.fits(&segment) {
                    return Err(Stop::Refused(Fault::BadLeg));
                }
                if body.segment_count() >= 99 {
                    return Err(Stop::Refused(Fault::TooMany));
                }
                let longer = body.with_segment(segment)?;
                Ok(State::AtLegs(message, longer))
            }
            None => Err(Stop::Refused(Fault::BadLeg)),
        }
    }

    fn after_divider(alloc: Global, message: Draft, line: &[u8]) -> Result<State, Stop>
        ensures ok { IfOk result (λ next. Takes (State.AtNext message) line.now next) }
        ensures err { IfErr result (λ stop. StopsAt (State.AtNext message) line.now stop) }
    {
        match ActionIdentifier::parse(line) {
            Some(action) => {
                if message.sub_count() < 250 {
                    Ok(flight_expected(message, action))
                } else {
                    Err(Stop::Refused(Fault::TooMany))
                }
            }
            None => {
                if begins_free(line) {
                    let longer = message.with_free(alloc, line)?;
                    Ok(State::AtFree(longer))
                } else {
                    Err(Stop::Refused(Fault::BadAction))
                }
            }
        }
    }

    /// The message, if the text may end here.
    pub(crate) fn finish(self) -> Result<Draft, Stop>
        ensures ok { IfOk result (λ m. Finishes self m) }
        ensures err { IfErr result (λ stop. EndsShort self stop) }
    {
        match self {
            State::AtLegs(message, body) => {
                if !body.is_whole() {
                    return Err(Stop::Refused(Fault::BadLeg));
                }
                let longer = message.with_sub(body.sub())?;
                Ok(longer)
            }
            State::AtEnd(message) | State::AtFree(message) => Ok(message),
            State::AtStart | State::AtKind(_) => Err(Stop::Refused(Fault::BadKind)),
            State::AtMode(_, _) | State::AtReference(_, _, _) => {
                Err(Stop::Refused(Fault::BadReference))
            }
            State::AtAction(_) | State::AtNext(_) => Err(Stop::Refused(Fault::BadAction)),
            State::AtFlight(_, _) | State::AtDatedFlight(_, _) => {
                Err(Stop::Refused(Fault::BadFlight))
            }
            State::AtPeriod(_, _, _) => Err(Stop::Refused(Fault::BadPeriod)),
            State::AtEquipment(_, _, _, _) => Err(Stop::Refused(Fault::BadEquipment)),
        }
    }
}
