//! A desk: a base and messages by reference.

ghost use Rattle.std.specs.Prelude.{◌≡◌, ◌⊎◌, ◌++◌, ◌<◌, ◌≤◌, ℕ, All, Contains, [], ◌∷◌, false};
ghost use Rattle.std.specs.Prelude.{length, take, drop, Ok, IfOk, IfErr, OnErr, OnOk};
ghost use Rattle.std.specs.List.Sorted.{IsStrictlyIncreasing};
ghost use Rattle.ssim_values.specs.Calendar.{weekday};
ghost use Rattle.ssim_schedule.specs.clauses.ExportResult.{ReadsBackBase, RefusesBase, WritesBase};
ghost use Rattle.ssim_schedule.specs.clauses.Schedule.{cuts_in};
ghost use Rattle.ssim_base.specs.clauses.Sinks.{Puts};
ghost use Rattle.ssim_text.specs.declared.reference.Reference.{Reference};
ghost use Rattle.ssim_held.specs.File.{CanBeSaved, desk_file};
ghost use Rattle.ssim_held.specs.clauses.Opening.{Opens, RefusesOpening};
ghost use Rattle.ssim_held.specs.Entries.{AreEntries, AreRising, IsEntry, map_of, state_of};
ghost use Rattle.ssim_held.specs.clauses.Ordered.{Belongs};
ghost use Rattle.ssim_desk.specs.clauses.Desk.{AreDeskPoints, IsReplayed, WritesDesk, at_rest};
ghost use Rattle.ssim_desk.specs.Desk.{days_of_desk, finding_lines};
ghost use Rattle.ssim_desk.specs.clauses.Desk.{is_flight_named, merge_answer};
ghost use Rattle.ssim_desk.specs.clauses.Desk.{point_bound};
ghost use Rattle.ssim_desk.specs.Desk.{take_answer, timetable_of};
ghost use Rattle.ssim_desk.specs.internal.Changes.{IsReplaced};
ghost use Rattle.ssim_desk.specs.clauses.Meaning.{Finds};
ghost use Rattle.ssim_desk.specs.Meaning.{Means, Timetable, found_by};
ghost use Rattle.ssim_desk.specs.Steps.{Merges, Takes};

use crate::finding_line::FindingLine;
use crate::holdings::{Holdings, copies};
use crate::offer::Offer;
use crate::schedules::Schedules;
use ssim_base::{Base, WriteFault};
use ssim_held::{DeskFault, Held};
use ssim_records::{Sink, Source};
use ssim_schedule::{ExportFault, PlacedLeg};
use ssim_text::Reference;
use ssim_values::{Day, Flight, Memory};
use std::alloc::Global;
use std::marker::Model;

/// What a desk did with a text that it accepts.
#[derive(Clone, Copy, Debug, PartialEq, Eq)]
pub enum Took {
    /// The message was new, and is held.
    Taken,
    /// The message was held already. Nothing has changed.
    Repeated,
}

/// A desk: a base, and the messages that it holds in order of reference.
///
/// Its timetable is what these messages, in order of reference, leave of the base's timetable, in
/// whatever order they came. It keeps the schedule after every 32 messages, so that a late message
/// is applied from there on.
#[derive(Drop)]
pub struct Desk {
    holdings: Holdings,
    schedules: Schedules,
}

impl Model for Desk {
    ghost use Rattle.std.specs.Coded.{codes};
    ghost use Rattle.ssim_schedule.specs.clauses.Schedule.{flown_code};
    ghost use Rattle.ssim_desk.specs.clauses.Desk.{ScheduledDesk};
    ghost use Rattle.ssim_desk.specs.internal.Changes.{AreSchedules};

    ghost Value = { ScheduledDesk };

    ghost coded = { Prim.hlevel (codes, flown_code) };

    ghost view = { λ d. let h = d.holdings in record {
      seen = record { base = h.base; held = h.held; applied = d.schedules.applied };
      schedule = d.schedules.latest;
    } };

    ghost invariant = { λ d. let h = d.holdings in AreSchedules h.base h.held d.schedules };
}

impl Desk {
    /// A desk that holds nothing. The base is freed if there is no memory.
    pub fn start(alloc: Global, base: Base) -> Result<Desk, Memory>
        ensures { IfOk result (λ desk. desk.seen ≡ record { base = base; held = []; applied = 0 }) }
    {
        Desk::over(Holdings::over(alloc, base))
    }

    /// Opens a desk file: reads all bytes of the reader, at most `limit`, and then the desk whose
    /// file they are, of version 2, or of version 1 without originators. `applied` is then the
    /// number of messages.
    ///
    /// The errors are 90, 13 `ReadFault` if the reader failed, 14 `ReaderNeverEnds` if more bytes
    /// came than the limit, both with record number 0, and 62 if the bytes are no desk file, with
    /// the number of bytes before the first invalid element.
    pub fn open<R: Source>(alloc: Global, reader: &mut R, limit: u64) -> Result<Desk, DeskFault>
        ensures ok { IfOk result
            (λ desk. Opens limit (R.state reader.old).left desk.seen.base desk.seen.held) }
        ensures applied { IfOk result (λ desk. desk.seen.applied ≡ length desk.seen.held) }
        ensures err { IfErr result (RefusesOpening limit (R.state reader.old) (R.state reader.new)) }
        ensures no_failure { IfOk result (λ _. (R.state reader.new).failures
            ≡ (R.state reader.old).failures) }
    {
        let holdings = Holdings::open(alloc, reader, limit)?;
        let desk = Desk::over(holdings)?;
        Ok(desk)
    }

    /// The base from which the desk began. No call changes it.
    pub fn base(&self) -> &Base
        ensures { result.now ≡ self.now.seen.base }
    {
        self.holdings.base()
    }

    /// The messages that are held, in order of reference.
    pub fn held(&self) -> &[Held]
        ensures value { result.now ≡ self.now.seen.held }
        ensures kept { AreEntries self.now.seen.base.records self.now.seen.held }
        ensures rising { AreRising result.now }
    {
        self.holdings.held()
    }

    /// How many messages the latest `take` that returned `Taken`, or the latest successful `merge`,
    /// applied to a schedule; 0 at the start.
    pub fn applied(&self) -> u64
        ensures { result ≡ self.now.seen.applied }
    {
        self.schedules.applied
    }

    /// Takes a text: holds its message if it is new. Returns the message's reference, too.
    ///
    /// The error is the first of: 20 to 29 if the text is no message, 40 to 43 if the message does
    /// not resolve, 60 if another message is held under its reference. The desk changes only if the
    /// message was new.
    pub fn take(&mut self, text: &[u8]) -> Result<(Took, Reference), DeskFault>
        ensures takes { Takes (state_of self.old.seen) text.now (take_answer result)
            (map_of self.new.seen.held) }
        ensures base { self.new.seen.base ≡ self.old.seen.base }
        ensures taken { (reference : Reference) → result ≡ Ok (Took.Taken, reference)
            → IsReplayed self.old.seen self.new.seen }
        ensures repeated { (reference : Reference) → result ≡ Ok (Took.Repeated, reference)
            → self.new ≡ self.old }
        ensures err { OnErr result (self.new ≡ self.old) }
    {
        let offered = self.holdings.offer(text)?;
        match offered {
            Offer::Known(reference) => Ok((Took::Repeated, reference)),
            Offer::New(at, new) => {
                let reference = new.reference();
                let mut rest = copies(self.holdings.allocator(), &self.holdings.held()[at..])?;
                rest.insert(0, new)?;
                self.replace_from(at, rest)?;
                Ok((Took::Taken, reference))
            }
        }
    }

    /// Holds what the other desk holds, too.
    ///
    /// Returns 61 if it has another base, else 60 with the first reference under which the two hold
    /// different messages. The desk changes only if the other holds a message that is new.
    pub fn merge(&mut self, other: &Desk) -> Result<(), DeskFault>
        ensures merges { Merges (state_of self.old.seen) (state_of other.now.seen)
            (merge_answer result) (map_of self.new.seen.held) }
        ensures base { self.new.seen.base ≡ self.old.seen.base }
        ensures replayed { OnOk result (IsReplayed self.old.seen self.new.seen
            ⊎ (self.new ≡ record self.old { seen = at_rest self.old.seen })) }
        ensures err { OnErr result (self.new ≡ self.old) }
    {
        let change = self.holdings.change_by(&other.holdings)?;
        match change {
            None => {
                self.schedules.applied = 0;
                Ok(())
            }
            Some((at, rest)) => {
                self.replace_from(at, rest)?;
                Ok(())
            }
        }
    }

    /// The legs of a flight on a date of origin, by leg sequence; none if it does not fly.
    pub fn itinerary(&self, flight: &Flight, day: Day) -> &[PlacedLeg]
        ensures value { result.now ≡ timetable_of self.now.seen flight.now day }
        ensures means { Means (state_of self.now.seen) (timetable_of self.now.seen) }
        ensures only { (timetable : Timetable) → Means (state_of self.now.seen) timetable
            → result.now ≡ timetable flight.now day }
    {
        // No effect at run time. The proof reads from these uses that the flight and the day
        // exist, and that the messages are those of a desk.
        let _ = flight.number();
        let _ = flight.suffix();
        let _ = day.number();
        let _ = self.holdings.held();
        self.schedules.latest.itinerary(flight, day)
    }

    /// The rising days at which a stored range of the flight begins or ends; none for a flight that
    /// no leg record and no message names.
    pub fn cuts(&self, flight: &Flight) -> &[u32]
        ensures value { result.now ≡ cuts_in self.now.schedule flight.now }
        ensures rising { IsStrictlyIncreasing result.now }
        ensures in_calendar { All (λ cut. cut ≤ 36525) result.now }

        // Each is the first day or the day after the last of a leg record of the flight, or of a
        // sub-message that names it; or, if there is such a sub-message, of a station row.
        ensures points { AreDeskPoints self.now.seen.base self.now.seen.held flight.now result.now }
        ensures bound { length result.now
            ≤ point_bound self.now.seen.base self.now.seen.held flight.now }
        ensures unnamed { is_flight_named self.now.seen flight.now ≡ false → result.now ≡ [] }

        // Two days of one weekday have the same itinerary if no cut is after the earlier and not
        // after the later.
        ensures weekly { (m n : ℕ) → m ≤ n → n < 36525 → weekday m ≡ weekday n
            → ((cut : ℕ) → Contains result.now cut → m < cut → n < cut)
            → timetable_of self.now.seen flight.now m ≡ timetable_of self.now.seen flight.now n }
    {
        // No effect at run time. The proof reads from these uses that the flight exists.
        let _ = flight.number();
        let _ = flight.suffix();
        self.schedules.latest.cuts(flight)
    }

    /// A line for each sub-message that is held, in order: what it found on the dates of its
    /// period. Reads all records of the base.
    pub fn findings(&self) -> Result<Vec<FindingLine>, Memory>
        ensures lines { IfOk result (λ lines. lines.items ≡ finding_lines self.now.seen) }
        ensures finds { IfOk result (λ lines. Finds (state_of self.now.seen)
            (found_by self.now.seen.base self.now.seen.held)) }
    {
        self.holdings.findings()
    }

    /// Writes the desk's timetable as an SSIM chapter 7 data set in the one canonical division: the
    /// base's header and carrier, each flight with its pieces as itinerary variations, and the
    /// base's trailer.
    ///
    /// Returns 50 for the first flight with more than 99 pieces, 51 for more than 999,999 records,
    /// and 90 if there is no memory. None of them writes a byte. 52: the sink failed; it has taken
    /// a prefix of the export.
    pub fn export<W: Sink>(&self, out: &mut W) -> Result<(), ExportFault>
        ensures ok { OnOk result (WritesBase self.now.seen.base.records
            (days_of_desk self.now.seen) (W.state out.old) (W.state out.new)) }
        ensures err { IfErr result (λ fault. RefusesBase W.state
            self.now.seen.base.records (days_of_desk self.now.seen) out.old out.new fault) }
        ensures reads_back { OnOk result (ReadsBackBase self.now.seen.base.records
            (days_of_desk self.now.seen) (W.state out.old) (W.state out.new)) }
        ensures exports { WritesDesk (state_of self.now.seen) (W.state out.old) (W.state out.new)
            result }
    {
        // No effect at run time. The proof reads from this use that the messages are those of a
        // desk.
        let _ = self.holdings.held();
        self.schedules.latest.export(self.holdings.base(), out)
    }

    /// Writes the desk file: the base and the messages that are held, in version 2 of the format.
    /// Allocates nothing.
    ///
    /// Fails only if the sink fails, with 52. The sink has then taken a prefix of the file.
    pub fn save<W: Sink>(&self, out: &mut W) -> Result<(), WriteFault>
        ensures puts { Puts (desk_file self.now.seen.base self.now.seen.held) (W.state out.old)
            (W.state out.new) result }
        ensures can_be_saved { OnOk result (CanBeSaved self.now.seen.base self.now.seen.held) }
    {
        self.holdings.save(out)
    }

    // The desk that holds this. All its messages are applied.
    fn over(holdings: Holdings) -> Result<Desk, Memory>
        ensures { IfOk result (λ desk. desk.seen ≡ record {
          base = holdings.base;
          held = holdings.held;
          applied = length holdings.held;
        }) }
    {
        let alloc = holdings.allocator();
        let schedules = Schedules::of(alloc, holdings.base(), holdings.held())?;
        Ok(Desk {
            holdings,
            schedules,
        })
    }

    // Replaces the messages from position `at` on.
    fn replace_from(&mut self, at: usize, rest: Vec<Held>) -> Result<(), Memory>
        requires within { at ≤ length self.old.seen.held }
        requires entries { AreEntries self.old.seen.base.records
            (take at self.old.seen.held ++ rest.items) }
        ensures ok { OnOk result (IsReplaced self.old.seen at rest.items self.new.seen) }
        ensures err { OnErr result (self.new ≡ self.old) }
    {
        let alloc = self.holdings.allocator();
        let base = self.holdings.base();
        let held = self.holdings.held();
        let mut replay = self.schedules.replay_to(alloc, base, held, at)?;
        replay.apply_all(alloc, base, &rest)?;
        self.schedules.reserve(&replay)?;
        self.holdings.replace_from(at, rest)?;
        self.schedules.put(replay, self.holdings.held().len());
        Ok(())
    }
}
