//! The check of each record against those accepted before it.

ghost use Rattle.std.specs.Prelude.{◌≡◌, [], false, List, None, IfErr, IfOk, OnOk, reverse};
ghost use Rattle.std.specs.Str.{bytes_eq};
ghost use Rattle.ssim_records.specs.declared.record.Record.{Record};
ghost use Rattle.ssim_base.specs.Base.{end_of, is_overflow, is_rate, missing, refusal_at};
ghost use Rattle.ssim_base.specs.BaseSeen.{AreFlights};
ghost use Rattle.ssim_base.specs.Problems.{alone_refusal, is_at_heading};
ghost use Rattle.ssim_base.specs.internal.Acceptance.{Accepts, AcceptsLeg, HasAccepted};
ghost use Rattle.ssim_base.specs.internal.Acceptance.{IsExpectedAfter, IsLeft, IsRecordRefused};
ghost use Rattle.ssim_base.specs.internal.Acceptance.{Stays, is_next_leg};
ghost use Rattle.ssim_base.specs.declared.data_set.acceptance.Expected.TheVariants as expected;

use crate::fault::{BaseFault, BaseRefusal};
use crate::leg_table::LegTable;
use ssim_records::{Carrier, EndCode, LegRecord, Record, SegmentRecord, Trailer};
use ssim_values::{Airline, Day, Flight, Memory, Period};
use std::alloc::Global;

/// What the carrier record says about the records after it.
#[derive(Clone, Copy, Debug, PartialEq, Eq)]
pub(crate) struct CarrierTerms {
    /// The airline of the flights.
    airline: Airline,
    /// The day that replaces an open end.
    end: Day,
}

/// Which record is expected next.
#[derive(Clone, Copy, Debug, PartialEq, Eq)]
pub(crate) enum Expected {
    /// A header.
    Header,
    /// A carrier.
    Carrier,
    /// Legs and segments, or the trailer.
    Legs(CarrierTerms),
    /// Nothing.
    End,
}

/// The state for checking the next record. The records accepted so far are not stored in it.
#[derive(Drop)]
pub(crate) struct Acceptance {
    expected: Expected,
    /// What the leg records name, and the dates that they have.
    legs: LegTable,
}

impl Acceptance {
    /// No record.
    pub(crate) fn new(alloc: Global) -> Acceptance
        ensures { HasAccepted result [] }
    {
        Acceptance {
            expected: Expected::Header,
            legs: LegTable::new(alloc),
        }
    }

    /// Accepts one more record with its number, or refuses it. An accepted record becomes the
    /// record as the base has it.
    #[inline(always)]
    pub(crate) fn put(&mut self, number: u64, one: &mut Record) -> Result<(), BaseFault>
        ensures accepts { OnOk result (Accepts self.old self.new one.old one.new) }
        ensures err { IfErr result (λ e. (earlier : List Record) → HasAccepted self.old earlier
            → IsRecordRefused number earlier one.old e) }
        ensures stays { IfErr result (Stays (is_next_leg self.old.expected one.old) self.old
            self.new) }
    {
        match self.expected {
            Expected::Header => self.put_header(number, one),
            Expected::Carrier => self.put_carrier(number, one),
            Expected::Legs(heading) => self.put_next(number, heading, one),
            Expected::End => Err(BaseFault::Refused(number, BaseRefusal::BadType)),
        }
    }

    // Accepts a record after the carrier, or refuses it.
    #[inline(always)]
    fn put_next(
        &mut self,
        number: u64,
        heading: CarrierTerms,
        one: &mut Record,
    ) -> Result<(), BaseFault>
        requires { self.old.expected ≡ expected.Legs heading }
        ensures accepts { OnOk result (Accepts self.old self.new one.old one.new) }
        ensures err { IfErr result (λ e. (earlier : List Record) → HasAccepted self.old earlier
            → IsRecordRefused number earlier one.old e) }
        ensures stays { IfErr result (Stays (is_next_leg self.old.expected one.old) self.old
            self.new) }
    {
        match one {
            Record::Leg(leg) => self.put_leg(number, heading, leg),
            Record::Segment(segment) => self.put_segment(number, heading, segment),
            Record::Trailer(trailer) => self.put_trailer(number, heading, trailer),
            Record::Header(_) | Record::Carrier(_) => {
                Err(BaseFault::Refused(number, BaseRefusal::BadType))
            }
        }
    }

    /// Does what `put` does, and stays as it was if the record is refused. An overlap is looked for
    /// before the leg is added.
    pub(crate) fn offer(&mut self, number: u64, one: &mut Record) -> Result<(), BaseFault>
        ensures accepts { OnOk result (Accepts self.old self.new one.old one.new) }
        ensures err { IfErr result (λ e. (earlier : List Record) → HasAccepted self.old earlier
            → IsLeft self.new number earlier one.old e) }
    {
        if let Expected::Legs(heading) = self.expected {
            if let Record::Leg(leg) = &*one {
                self.refuse_overlap(number, heading, leg)?;
            }
        }
        self.put(number, one)
    }

    // Refuses a leg that is invalid after the records so far.
    fn refuse_overlap(
        &self,
        number: u64,
        heading: CarrierTerms,
        leg: &LegRecord,
    ) -> Result<(), BaseFault>
        requires { self.now.expected ≡ expected.Legs heading }
        ensures ok { OnOk result ((earlier : List Record) → HasAccepted self.now earlier
            → refusal_at earlier (Record.Leg leg.now) ≡ None) }
        ensures err { IfErr result (λ e. (earlier : List Record) → HasAccepted self.now earlier
            → IsLeft self.now number earlier (Record.Leg leg.now) e) }
    {
        let period = leg_period(number, heading, leg)?;
        if self.legs.meets(leg.name(), &period) {
            return Err(BaseFault::Refused(number, BaseRefusal::Overlap));
        }
        Ok(())
    }

    /// Whether the next record is expected to be the header or the carrier.
    pub(crate) fn is_at_heading(&self) -> bool
        ensures { (earlier : List Record) → HasAccepted self.now earlier
            → result ≡ is_at_heading earlier }
    {
        match self.expected {
            Expected::Header | Expected::Carrier => true,
            Expected::Legs(_) | Expected::End => false,
        }
    }

    /// What is missing if no record follows.
    pub(crate) fn missing(&self) -> Option<BaseRefusal>
        ensures { (earlier : List Record) → HasAccepted self.now earlier
            → result ≡ missing earlier }
    {
        match self.expected {
            Expected::Header => Some(BaseRefusal::NoHeader),
            Expected::Carrier => Some(BaseRefusal::NoCarrier),
            Expected::Legs(_) => Some(BaseRefusal::NoTrailer),
            Expected::End => None,
        }
    }

    /// The flights of the leg records so far, each once, by number and suffix.
    pub(crate) fn flights(&self) -> Result<Vec<Flight>, Memory>
        ensures { (earlier : List Record) → HasAccepted self.now earlier
            → IfOk result (λ flights. AreFlights (reverse earlier) flights.items) }
    {
        self.legs.flights()
    }

    fn put_header(&mut self, number: u64, one: &mut Record) -> Result<(), BaseFault>
        requires { self.old.expected ≡ expected.Header }
        ensures accepts { OnOk result (Accepts self.old self.new one.old one.new) }
        ensures err { IfErr result (λ e. (earlier : List Record) → HasAccepted self.old earlier
            → IsRecordRefused number earlier one.old e) }
        ensures stays { IfErr result (Stays false self.old self.new) }
    {
        match one {
            Record::Header(header) => {
                *header = header.with_serial(0);
                self.expected = Expected::Carrier;
                Ok(())
            }
            _ => Err(BaseFault::Refused(number, BaseRefusal::NoHeader)),
        }
    }

    fn put_carrier(&mut self, number: u64, one: &mut Record) -> Result<(), BaseFault>
        requires { self.old.expected ≡ expected.Carrier }
        ensures accepts { OnOk result (Accepts self.old self.new one.old one.new) }
        ensures err { IfErr result (λ e. (earlier : List Record) → HasAccepted self.old earlier
            → IsRecordRefused number earlier one.old e) }
        ensures stays { IfErr result (Stays false self.old self.new) }
    {
        match one {
            Record::Carrier(carrier) => {
                let heading = CarrierTerms {
                    airline: carrier.airline(),
                    end: validity_end(carrier),
                };
                *carrier = carrier.with_serial(0);
                self.expected = Expected::Legs(heading);
                Ok(())
            }
            _ => Err(BaseFault::Refused(number, BaseRefusal::NoCarrier)),
        }
    }

    // Accepts a leg, and adds it to the table of legs; or refuses it.
    #[inline(always)]
    fn put_leg(
        &mut self,
        number: u64,
        heading: CarrierTerms,
        leg: &mut LegRecord,
    ) -> Result<(), BaseFault>
        requires { self.old.expected ≡ expected.Legs heading }
        ensures accepts { OnOk result (Accepts self.old self.new (Record.Leg leg.old)
            (Record.Leg leg.new)) }
        ensures err { IfErr result (λ e. (earlier : List Record) → HasAccepted self.old earlier
            → IsRecordRefused number earlier (Record.Leg leg.old) e) }
    {
        let period = leg_period(number, heading, leg)?;
        if self.legs.add(leg.name(), &period)? {
            return Err(BaseFault::Refused(number, BaseRefusal::Overlap));
        }
        leg.close(period.last());
        Ok(())
    }

    #[inline(always)]
    fn put_segment(
        &self,
        number: u64,
        heading: CarrierTerms,
        segment: &mut SegmentRecord,
    ) -> Result<(), BaseFault>
        requires { self.now.expected ≡ expected.Legs heading }
        ensures accepts { OnOk result (Accepts self.now self.now (Record.Segment segment.old)
            (Record.Segment segment.new)) }
        ensures err { IfErr result (λ e. (earlier : List Record) → HasAccepted self.now earlier
            → IsRecordRefused number earlier (Record.Segment segment.old) e) }
    {
        if !same_airline(segment.name().airline(), heading.airline) {
            return Err(BaseFault::Refused(number, BaseRefusal::OtherAirline));
        }
        if is_overflow(segment.overflow()) {
            return Err(BaseFault::Refused(number, BaseRefusal::Overflow));
        }
        if !self.legs.has(segment.name()) {
            return Err(BaseFault::Refused(number, BaseRefusal::Segment));
        }
        segment.close();
        Ok(())
    }

    fn put_trailer(
        &mut self,
        number: u64,
        heading: CarrierTerms,
        trailer: &mut Trailer,
    ) -> Result<(), BaseFault>
        requires { self.old.expected ≡ expected.Legs heading }
        ensures accepts { OnOk result
            (Accepts self.old self.new (Record.Trailer trailer.old) (Record.Trailer trailer.new)) }
        ensures err { IfErr result (λ e. (earlier : List Record) → HasAccepted self.old earlier
            → IsRecordRefused number earlier (Record.Trailer trailer.old) e) }
        ensures stays { IfErr result (Stays false self.old self.new) }
    {
        if !same_airline(trailer.airline(), heading.airline) {
            return Err(BaseFault::Refused(number, BaseRefusal::OtherAirline));
        }
        match trailer.code() {
            EndCode::Continuation => Err(BaseFault::Refused(number, BaseRefusal::Continuation)),
            EndCode::End => {
                *trailer = trailer.with_serials(0, 0);
                self.expected = Expected::End;
                Ok(())
            }
        }
    }
}

// The period of a leg record, if its airline, overflow, rate and end are valid.
fn leg_period(number: u64, heading: CarrierTerms, leg: &LegRecord) -> Result<Period, BaseFault>
    ensures ok { IfOk result (AcceptsLeg heading leg.now) }
    ensures err { IfErr result (λ e. (earlier : List Record)
        → IsExpectedAfter (expected.Legs heading) earlier
        → IsRecordRefused number earlier (Record.Leg leg.now) e) }
{
    if !same_airline(leg.airline(), heading.airline) {
        return Err(BaseFault::Refused(number, BaseRefusal::OtherAirline));
    }
    if is_overflow(leg.overflow()) {
        return Err(BaseFault::Refused(number, BaseRefusal::Overflow));
    }
    if !is_rate(leg.rate()) {
        return Err(BaseFault::Refused(number, BaseRefusal::Frequency));
    }
    let last = leg.last().unwrap_or(heading.end);
    match Period::new(leg.first(), last, leg.days()) {
        Ok(period) => Ok(period),
        Err(_) => Err(BaseFault::Refused(number, BaseRefusal::OpenEnd)),
    }
}

/// Why a record is invalid after any others, by its own columns alone.
pub(crate) fn alone_refusal(one: &Record) -> Option<BaseRefusal>
    ensures { result ≡ alone_refusal one.now }
{
    match one {
        Record::Header(_) | Record::Carrier(_) => None,
        Record::Leg(leg) if is_overflow(leg.overflow()) => Some(BaseRefusal::Overflow),
        Record::Leg(leg) if !is_rate(leg.rate()) => Some(BaseRefusal::Frequency),
        Record::Leg(_) => None,
        Record::Segment(segment) if is_overflow(segment.overflow()) => Some(BaseRefusal::Overflow),
        Record::Segment(_) => None,
        Record::Trailer(trailer) => match trailer.code() {
            EndCode::Continuation => Some(BaseRefusal::Continuation),
            EndCode::End => None,
        },
    }
}

// Whether the byte means an overflow of the itinerary variation.
fn is_overflow(byte: u8) -> bool
    ensures { result ≡ is_overflow byte }
{
    !(byte == b' ' || byte == b'0')
}

// Whether the frequency rate means that the leg operates each week.
fn is_rate(byte: u8) -> bool
    ensures { result ≡ is_rate byte }
{
    byte == b' ' || byte == b'1'
}

// Whether two airlines are the same.
fn same_airline(one: Airline, other: Airline) -> bool
    ensures { result ≡ bytes_eq one other }
{
    one.write().as_slice() == other.write().as_slice()
}

/// The last day of a carrier's validity. An open end is 730 days after the start, or 31DEC99 if the
/// calendar ends before.
pub fn validity_end(carrier: &Carrier) -> Day
    ensures { result ≡ end_of carrier.now }
{
    match carrier.last() {
        Some(last) => last,
        None => {
            let end = (carrier.first().number() + 730).min(36_524);
            match Day::from_number(end) {
                Some(day) => day,
                None => unreachable!(),
            }
        }
    }
}
