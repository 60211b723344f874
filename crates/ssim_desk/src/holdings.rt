//! What a desk holds, without the timetable that it leaves.

ghost use Rattle.std.specs.Prelude.{◌≡◌, ◌≤◌, ◌++◌, [], ◌∷◌, length, take, drop, Ok, IfErr, IfOk};
ghost use Rattle.std.specs.Prelude.{OnErr, OnOk};
ghost use Rattle.ssim_base.specs.BaseSeen.{base_with};
ghost use Rattle.ssim_schedule.specs.clauses.Dates.{AgreeBetween};
ghost use Rattle.ssim_schedule.specs.FlightPieces.{divided_among, divided_flights};
ghost use Rattle.ssim_schedule.specs.clauses.ExportResult.{ReadsBackBase, RefusesBase, WritesBase};
ghost use Rattle.ssim_base.specs.clauses.Sinks.{Puts};
ghost use Rattle.ssim_held.specs.File.{CanBeSaved, desk_file};
ghost use Rattle.ssim_text.specs.declared.reference.Reference.{Reference};
ghost use Rattle.ssim_held.specs.Held.{Agree};
ghost use Rattle.ssim_held.specs.Entries.{AreEntries, AreRising, IsEntry, map_of, state_of};
ghost use Rattle.ssim_held.specs.clauses.Opening.{Opens, RefusesOpening};
ghost use Rattle.ssim_held.specs.clauses.Ordered.{Belongs};
ghost use Rattle.ssim_base.specs.Timetable.{Days, itinerary};
ghost use Rattle.ssim_schedule.specs.clauses.Schedule.{days_in};
ghost use Rattle.ssim_values.specs.Flight.{FlightNumber, IsFlight};
ghost use Rattle.ssim_desk.specs.DateSteps.{legs_left, steps_on};
ghost use Rattle.ssim_desk.specs.clauses.Desk.{WritesDesk, merge_answer};
ghost use Rattle.ssim_desk.specs.Desk.{days_of_desk, finding_lines};
ghost use Rattle.ssim_desk.specs.Desk.{take_answer, timetable_of};
ghost use Rattle.ssim_desk.specs.clauses.Meaning.{Finds};
ghost use Rattle.ssim_desk.specs.clauses.Outcomes.{AreOutcomes};
ghost use Rattle.ssim_desk.specs.Meaning.{Means, Timetable, found_by};
ghost use Rattle.ssim_desk.specs.internal.Changes.{IsChange, IsOffer};
ghost use Rattle.ssim_desk.specs.Steps.{Merges, RefusesDesk, RefusesText, Takes};

use crate::date_step::{DateHistory, history_of};
use crate::desk::Took;
use crate::finding_line::FindingLine;
use crate::flights::{act_between, days_after, legs_after, lines_found, pieces_after};
use crate::message_effect::act_in_order;
use crate::offer::{Offer, offer_over};
use crate::outcome::{Outcomes, outcomes_of};
use ssim_base::{Base, DataSet, Stations, WriteFault};
use ssim_held::{DeskFault, Held, Opened, first_conflict, first_new, merged, put_desk, read_desk};
use ssim_periods::Periods;
use ssim_records::{Sink, Source};
use ssim_schedule::{ExportFault, FlightPieces, Itinerary, PlacedLeg, Schedule};
use ssim_text::Reference;
use ssim_values::{Day, Flight, Memory};
use std::alloc::Global;
use std::marker::Model;

/// What a desk holds: a base, and messages in order of reference. It takes texts and merges as a
/// desk does, but keeps no timetable. It takes less time and memory than a desk if the caller never
/// asks for a timetable, or asks once for few flights: each call makes the timetable of the flights
/// that it needs. The export makes the whole timetable, and consumes what is held.
///
/// Contracts see it as a desk whose latest change applied no message.
#[derive(Drop)]
pub struct Holdings {
    base: Base,
    /// In order of reference.
    held: Vec<Held>,
    alloc: Global,
}

impl Model for Holdings {
    ghost use Rattle.ssim_held.specs.Entries.{AreEntries, DeskSeen};

    ghost Value = { DeskSeen };

    ghost view = { λ h. record { base = h.base; held = h.held.items; applied = 0 } };

    ghost invariant = { λ h. AreEntries h.base.records h.held.items };
}

impl Holdings {
    /// The base of a data set with a station table, and no message. It does not allocate.
    pub fn start(alloc: Global, data_set: DataSet, stations: Stations) -> Holdings
        ensures { result ≡ record { base = base_with data_set stations; held = []; applied = 0 } }
    {
        Holdings::over(alloc, Base::of(data_set, stations))
    }

    /// A base, and no message.
    pub(crate) fn over(alloc: Global, base: Base) -> Holdings
        ensures { result ≡ record { base = base; held = []; applied = 0 } }
    {
        Holdings::with(alloc, base, Vec::new(alloc))
    }

    /// A base, and messages.
    pub(crate) fn with(alloc: Global, base: Base, held: Vec<Held>) -> Holdings
        requires { AreEntries base.records held.items }
        ensures { result ≡ record { base = base; held = held.items; applied = 0 } }
    {
        Holdings { base, held, alloc }
    }

    /// The base, the messages and the allocator.
    pub(crate) fn into_parts(self) -> (Base, Vec<Held>, Global)
        ensures parts { self ≡ record { base = result.0; held = result.1.items; applied = 0 } }
        ensures kept { AreEntries result.0.records result.1.items }
    {
        let Holdings { base, held, alloc } = self;
        (base, held, alloc)
    }

    /// Opens a desk file: reads all bytes of the reader, at most `limit`, and what the desk whose
    /// file they are holds. The file is of version 2, or of version 1 without originators.
    ///
    /// The errors are 90, 13 `ReadFault` if the reader failed, 14 `ReaderNeverEnds` if more bytes
    /// came than the limit, both with record number 0, and 62 if the bytes are no desk file, with
    /// the number of bytes before the first invalid element.
    pub fn open<R: Source>(alloc: Global, reader: &mut R, limit: u64) -> Result<Holdings, DeskFault>
        ensures ok { IfOk result
            (λ holdings. Opens limit (R.state reader.old).left holdings.base holdings.held) }
        ensures applied { IfOk result (λ holdings. holdings.applied ≡ 0) }
        ensures err { IfErr result (RefusesOpening limit (R.state reader.old) (R.state reader.new)) }
        ensures no_failure { IfOk result (λ _. (R.state reader.new).failures
            ≡ (R.state reader.old).failures) }
    {
        let opened = read_desk(alloc, reader, limit)?;
        Ok(Holdings::of(alloc, opened))
    }

    /// The base. No call changes it.
    pub fn base(&self) -> &Base
        ensures { result.now ≡ self.now.base }
    {
        &self.base
    }

    /// The data set of the base.
    pub fn data_set(&self) -> &DataSet
        ensures { result.now ≡ self.now.base.records }
    {
        self.base.data_set()
    }

    /// The messages that are held, in order of reference.
    pub fn held(&self) -> &[Held]
        ensures value { result.now ≡ self.now.held }
        ensures kept { AreEntries self.now.base.records self.now.held }
        ensures rising { AreRising result.now }
    {
        &self.held
    }

    /// Takes a text: holds its message if it is new. Returns the message's reference, too. The
    /// errors are those of `Desk::take`.
    ///
    /// It moves all messages of greater references. [`crate::Intake`] takes many texts in any order.
    pub fn take(&mut self, text: &[u8]) -> Result<(Took, Reference), DeskFault>
        ensures takes { Takes (state_of self.old) text.now (take_answer result)
            (map_of self.new.held) }
        ensures base { self.new.base ≡ self.old.base }
        ensures repeated { (reference : Reference) → result ≡ Ok (Took.Repeated, reference)
            → self.new ≡ self.old }
        ensures err { OnErr result (self.new ≡ self.old) }
    {
        let offered = self.offer(text)?;
        match offered {
            Offer::Known(reference) => Ok((Took::Repeated, reference)),
            Offer::New(at, new) => {
                let reference = new.reference();
                self.insert(at, new)?;
                Ok((Took::Taken, reference))
            }
        }
    }

    /// Holds what the other holds, too. The errors are those of `Desk::merge`.
    pub fn merge(&mut self, other: &Holdings) -> Result<(), DeskFault>
        ensures merges { Merges (state_of self.old) (state_of other.now) (merge_answer result)
            (map_of self.new.held) }
        ensures base { self.new.base ≡ self.old.base }
        ensures err { OnErr result (self.new ≡ self.old) }
    {
        if let Some((at, rest)) = self.change_by(other)? {
            self.replace_from(at, rest)?;
        }
        Ok(())
    }

    /// Writes the desk file, as `Desk::save` does. Allocates nothing.
    ///
    /// Fails only if the sink fails, with 52. The sink has then taken a prefix of the file.
    pub fn save<W: Sink>(&self, out: &mut W) -> Result<(), WriteFault>
        ensures puts { Puts (desk_file self.now.base self.now.held) (W.state out.old)
            (W.state out.new) result }
        ensures can_be_saved { OnOk result (CanBeSaved self.now.base self.now.held) }
    {
        put_desk(out, self.base.records(), self.base.rows(), &self.held)
    }

    /// The legs of a flight on a date of origin, by leg sequence; none if it does not fly. Reads
    /// all records of the base.
    pub fn itinerary(&self, flight: &Flight, day: Day) -> Result<Vec<PlacedLeg>, Memory>
        ensures value { IfOk result (λ legs. legs.items ≡ timetable_of self.now flight.now day) }
        ensures means { Means (state_of self.now) (timetable_of self.now) }
        ensures only { IfOk result (λ legs. (timetable : Timetable)
            → Means (state_of self.now) timetable → legs.items ≡ timetable flight.now day) }
    {
        legs_after(self.alloc, &self.base, &self.held, flight, day)
    }

    /// The itinerary of a flight on each day. Reads all records of the base.
    pub fn days(&self, flight: &Flight) -> Result<Periods<Itinerary>, Memory>
        ensures { IfOk result (λ itineraries. itineraries.days ≡ days_of_desk self.now flight.now) }
    {
        days_after(self.alloc, &self.base, &self.held, flight)
    }

    /// The timetable: the itinerary of each flight on each day. Reads all records of the base.
    pub fn schedule(&self) -> Result<Schedule, Memory>
        ensures { IfOk result (λ schedule. (flight : FlightNumber) → IsFlight flight
            → days_in schedule flight ≡ days_of_desk self.now flight) }
    {
        let mut schedule = Schedule::of(&self.base)?;
        act_in_order(self.alloc, self.base.rows(), &mut schedule, &self.held)?;
        Ok(schedule)
    }

    /// The flights of a list, by number and suffix, each once with its pieces: those that an export
    /// has, without its limits. A flight that flies on no date has none. Reads all records of the
    /// base.
    pub fn pieces_of(&self, flights: &[Flight]) -> Result<Vec<FlightPieces>, Memory>
        ensures { IfOk result (λ divided. divided.items
            ≡ divided_among flights.now (days_of_desk self.now)) }
    {
        pieces_after(self.alloc, &self.base, &self.held, flights)
    }

    /// The flights that fly on some date, by number and suffix, each with its pieces: those that
    /// `export` writes, without its limits. The records are freed while the timetable is made, so
    /// it takes the memory of one of the two.
    pub fn into_flights(self) -> Result<Vec<FlightPieces>, Memory>
        ensures { IfOk result (λ flights. flights.items ≡ divided_flights (days_of_desk self)) }
    {
        let Holdings { base, held, alloc } = self;
        let (data_set, stations) = base.into_parts();
        let (mut schedule, _) = Schedule::of_data_set(data_set)?;
        act_in_order(alloc, stations.rows(), &mut schedule, &held)?;
        schedule.into_flights()
    }

    /// As `into_flights`, of a timetable that agrees with the desk's from a first date of origin to
    /// a last. Nothing is said of other dates. It takes less time and memory than `into_flights` if
    /// the dates are few.
    pub fn into_flights_between(self, first: Day, last: Day) -> Result<Vec<FlightPieces>, Memory>
        ensures { IfOk result (λ flights. (days : FlightNumber → Days)
            × (flights.items ≡ divided_flights days)
            × AgreeBetween first last days (days_of_desk self)) }
    {
        // No effect at run time. The proof reads from this use that the date is in the calendar.
        let _ = last.number();
        let Holdings { base, held, alloc } = self;
        let (data_set, stations) = base.into_parts();
        let mut schedule = Schedule::of_dates(data_set, first, last)?;
        act_between(alloc, stations.rows(), &mut schedule, first, last, &held)?;
        schedule.into_flights()
    }

    /// A line for each sub-message that is held, in order: what it found on the dates of its
    /// period. Reads all records of the base.
    pub fn findings(&self) -> Result<Vec<FindingLine>, Memory>
        ensures lines { IfOk result (λ lines. lines.items ≡ finding_lines self.now) }
        ensures finds { IfOk result
            (λ lines. Finds (state_of self.now) (found_by self.now.base self.now.held)) }
    {
        lines_found(self.alloc, &self.base, &self.held)
    }

    /// What other messages find and leave over the same base, and what those that are held do. The
    /// others are those that were held before a change. Only the flights are made that a message
    /// names: no other flight is changed. Reads all records of the base.
    pub fn outcomes_since(&self, before: &[Held]) -> Result<Outcomes, Memory>
        ensures { IfOk result (AreOutcomes self.now.base before.now self.now.held) }
    {
        outcomes_of(self.alloc, &self.base, before, &self.held)
    }

    /// What the data set has for a flight on a date of origin, and what each sub-message that is
    /// held did with it. Reads all records of the base.
    pub fn history(&self, flight: &Flight, day: Day) -> Result<DateHistory, Memory>
        ensures first { IfOk result
            (λ history. history.first ≡ itinerary self.now.base.records flight.now day) }
        ensures steps { IfOk result
            (λ history. history.steps.items ≡ steps_on self.now flight.now day) }

        // The last legs are those of `itinerary`.
        ensures last { IfOk result (λ history. legs_left history.first history.steps.items
            ≡ timetable_of self.now flight.now day) }
    {
        history_of(self.alloc, &self.base, &self.held, flight, day)
    }

    /// Writes the desk's timetable as a data set, as `Desk::export` does. The records are freed
    /// while the timetable is made, so it takes the memory of one of the two. Nothing is kept for
    /// later messages. 90 can also mean that there is no memory for the timetable.
    pub fn export<W: Sink>(self, out: &mut W) -> Result<(), ExportFault>
        ensures ok { OnOk result
            (WritesBase self.base.records (days_of_desk self) (W.state out.old) (W.state out.new)) }
        ensures err { IfErr result (λ fault. RefusesBase W.state self.base.records
            (days_of_desk self) out.old out.new fault) }
        ensures reads_back { OnOk result
            (ReadsBackBase self.base.records (days_of_desk self) (W.state out.old)
            (W.state out.new)) }
        ensures exports { WritesDesk (state_of self) (W.state out.old) (W.state out.new) result }
    {
        let Holdings { base, held, alloc } = self;
        let (data_set, stations) = base.into_parts();
        let (mut schedule, frame) = Schedule::of_data_set(data_set)?;
        act_in_order(alloc, stations.rows(), &mut schedule, &held)?;
        schedule.export_in(&frame, out)
    }

    /// An equal one. The messages share their contents.
    pub fn copy(&self) -> Result<Holdings, Memory>
        ensures { IfOk result (λ copy. copy ≡ self.now) }
    {
        Ok(Holdings {
            base: self.base.copy()?,
            held: copies(self.alloc, &self.held)?,
            alloc: self.alloc,
        })
    }

    /// What a desk file has.
    pub(crate) fn of(alloc: Global, opened: Opened) -> Holdings
        requires { AreEntries opened.data_set opened.held.items }
        ensures { result ≡ record {
          base = base_with opened.data_set opened.stations;
          held = opened.held.items;
          applied = 0;
        } }
    {
        let Opened {
            data_set,
            stations,
            held,
        } = opened;
        Holdings::with(alloc, Base::of(data_set, stations), held)
    }

    /// The allocator of what is held.
    pub(crate) fn allocator(&self) -> Global {
        self.alloc
    }

    /// What a text is to the messages that are held. The errors are those of `Desk::take`.
    pub(crate) fn offer(&self, text: &[u8]) -> Result<Offer, DeskFault>
        ensures ok { IfOk result (IsOffer (state_of self.now) self.now.held text.now) }
        ensures err { IfErr result (RefusesText (state_of self.now) text.now) }
        ensures rising { AreRising self.now.held }
    {
        offer_over(self.alloc, self.base.frame(), &self.held, text)
    }

    /// Puts a new message where it belongs.
    pub(crate) fn insert(&mut self, at: usize, new: Held) -> Result<(), Memory>
        requires gap { Belongs self.old.held new.reference at at }
        requires entry { IsEntry self.old.base.records new }
        ensures ok { OnOk result
            (self.new.held ≡ take at self.old.held ++ (new ∷ drop at self.old.held)) }
        ensures base { self.new.base ≡ self.old.base }
        ensures err { OnErr result (self.new ≡ self.old) }
    {
        self.held.insert(at, new)?;
        Ok(())
    }

    /// What a merge with the other changes: the first position where a message is new, and the
    /// messages from there on; nothing if each of its messages is held. The errors are those of
    /// `Desk::merge`.
    pub(crate) fn change_by(
        &self,
        other: &Holdings,
    ) -> Result<Option<(usize, Vec<Held>)>, DeskFault>
        ensures ok { IfOk result (IsChange self.now other.now) }
        ensures err { IfErr result (RefusesDesk (state_of self.now) (state_of other.now)) }
    {
        if !self.base.same(&other.base) {
            return Err(DeskFault::OtherBase);
        }
        if let Some(reference) = first_conflict(&self.held, &other.held) {
            return Err(DeskFault::Conflict(reference));
        }
        Ok(self.news_of(other)?)
    }

    // What a merge with the other changes, if the two agree.
    fn news_of(&self, other: &Holdings) -> Result<Option<(usize, Vec<Held>)>, Memory>
        requires base { self.now.base ≡ other.now.base }
        requires agree { Agree (map_of self.now.held) (map_of other.now.held) }
        ensures { IfOk result (IsChange self.now other.now) }
    {
        match first_new(&self.held, &other.held) {
            None => Ok(None),
            Some((place, at)) => {
                let rest = merged(self.alloc, &self.held[at..], &other.held[place..])?;
                Ok(Some((at, rest)))
            }
        }
    }

    /// Replaces the messages from position `at` on.
    pub(crate) fn replace_from(&mut self, at: usize, mut rest: Vec<Held>) -> Result<(), Memory>
        requires within { at ≤ length self.old.held }
        requires entries { AreEntries self.old.base.records (take at self.old.held ++ rest.items) }
        ensures ok { OnOk result (self.new.held ≡ take at self.old.held ++ rest.items) }
        ensures base { self.new.base ≡ self.old.base }
        ensures err { OnErr result (self.new ≡ self.old) }
    {
        self.held.reserve(rest.len())?;
        self.held.truncate(at);
        self.held.append(&mut rest).unwrap();
        Ok(())
    }
}

/// Equal messages, which share their contents.
pub fn copies(alloc: Global, messages: &[Held]) -> Result<Vec<Held>, Memory>
    ensures { IfOk result (λ copies. copies.items ≡ messages.now) }
{
    let mut copies = Vec::with_capacity(alloc, messages.len())?;
    for held in messages {
        copies.push(held.copy()?)?;
    }
    Ok(copies)
}
