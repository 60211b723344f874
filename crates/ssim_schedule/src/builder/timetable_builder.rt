//! The timetable of records, built from the last record to the first, so that each tail comes
//! before its leg.

ghost use Rattle.std.specs.Prelude.{◌≡◌, ◌∷◌, ◌++◌, ℕ, [], false, List, IfOk, OnOk, Option, None};
ghost use Rattle.std.specs.Prelude.{Some, filter};
ghost use Rattle.std.specs.List.{All};
ghost use Rattle.ssim_values.specs.Flight.{FlightNumber, IsFlight};
ghost use Rattle.ssim_periods.specs.Days.{each_day};
ghost use Rattle.ssim_records.specs.declared.record.Record.{Record};
ghost use Rattle.ssim_base.specs.clauses.Closed.{IsClosed};
ghost use Rattle.ssim_base.specs.Export.{Frame};
ghost use Rattle.ssim_schedule.specs.internal.FlightSet.{is_marked, is_record_of};
ghost use Rattle.ssim_schedule.specs.internal.WantedDates.{itinerary_wanted};
ghost use Rattle.ssim_schedule.specs.clauses.Dates.{itinerary_between};
ghost use Rattle.ssim_schedule.specs.clauses.DivisionPoints.{AreAtPoints};
ghost use Rattle.ssim_base.specs.ReadBack.{HasFrame};
ghost use Rattle.ssim_schedule.specs.clauses.Schedule.{cuts_in, days_in};
ghost use Rattle.ssim_schedule.specs.internal.Table.{table_cuts, table_days};
ghost use Rattle.ssim_base.specs.Timetable.{days_of, is_among};
ghost use Rattle.ssim_base.specs.clauses.Timetable.{itinerary_among};

use crate::builder::flight_set::FlightSet;
use crate::builder::leg_group::LegGroup;
use crate::builder::pending_segments::PendingSegments;
use crate::builder::table_builder::TableBuilder;
use crate::builder::wanted_dates::{are_unwanted, wanted_part};
use crate::schedule::Schedule;
use crate::timetable::flight_table::FlightTable;
use ssim_base::{Base, BaseFrame, DataSet};
use ssim_records::{LegName, LegRecord, Record, SegmentRecord};
use ssim_values::{Day, Flight, Memory, Period};
use std::alloc::Global;

// A flight for which fewer itineraries were made is not searched for equal ones: the search would
// take more time than the memory is worth. The dates of one group of legs share their itinerary
// anyway, and so do groups in turn with equal legs.
const LEAST: usize = 32;

// A flight with fewer cuts has its itineraries shared each time that the records go on to another
// flight, if `LEAST` or more were made.
const FEW: usize = 256;

// The number of records that are freed together.
const PART: usize = 1_024;

/// The timetable of some records at the end of a base, and the tails whose leg record is not among
/// them.
#[derive(Drop)]
pub(crate) struct TimetableBuilder {
    table: TableBuilder,
    /// Legs that are not yet in the table. They are put into it together, since each change of an
    /// itinerary copies its legs.
    group: LegGroup,
    waiting: PendingSegments,
    /// The first and the last date of which the timetable is made. None if it is made of all.
    wanted: Option<(Day, Day)>,
    alloc: Global,
}

impl Schedule {
    /// The timetable of a base: on each date of origin, the legs of the leg records whose period
    /// holds the date.
    pub fn of(base: &Base) -> Result<Schedule, Memory>
        ensures days { IfOk result (λ s. (g : FlightNumber) → IsFlight g
            → days_in s g ≡ days_of base.now.records g) }

        // A cut is the first day of a leg record of the flight, or the day after its last.
        ensures cuts { IfOk result (λ s. (g : FlightNumber) → IsFlight g
            → AreAtPoints (cuts_in s g) g base.now.records) }
    {
        let mut building = TimetableBuilder::new(base.allocator(), None)?;
        building.put_all(base.records())?;
        let mut table = building.into_table()?;
        table.share_where(base.flights(), FEW)?;
        Ok(Schedule { table })
    }

    /// The timetable of these flights of a data set, as in `of`. No other flight flies on any date.
    /// It takes less time and memory than the whole timetable if the flights are few.
    pub fn of_flights(data_set: &DataSet, flights: &[Flight]) -> Result<Schedule, Memory>
        ensures days { IfOk result (λ s. (g : FlightNumber) → IsFlight g
            → days_in s g ≡ each_day (itinerary_among flights.now data_set.now g)) }

        // A cut is one as in `of`, and is of one of these flights.
        ensures cuts { IfOk result (λ s. (g : FlightNumber) → IsFlight g
            → AreAtPoints (cuts_in s g) g data_set.now) }
        ensures others { IfOk result (λ s. (g : FlightNumber) → IsFlight g
            → is_among flights.now g ≡ false → cuts_in s g ≡ []) }
    {
        let alloc = data_set.allocator();
        let set = FlightSet::of(alloc, flights)?;
        let mut building = TimetableBuilder::new(alloc, None)?;
        building.put_those_of(&set, data_set.records())?;
        let table = building.into_table()?;
        Ok(Schedule { table })
    }

    /// The timetable of a data set, and the frame of its export. The records are freed while the
    /// timetable is made, so it takes the memory of one of the two.
    pub fn of_data_set(data_set: DataSet) -> Result<(Schedule, BaseFrame), Memory>
        ensures days { IfOk result (λ made. (g : FlightNumber) → IsFlight g
            → days_in made.0 g ≡ days_of data_set g) }
        ensures cuts { IfOk result (λ made. (g : FlightNumber) → IsFlight g
            → AreAtPoints (cuts_in made.0 g) g data_set) }
        ensures frame { IfOk result (λ made. HasFrame made.1 data_set) }
        ensures exists { (frame : Frame) × HasFrame frame data_set }
    {
        let frame = data_set.frame().copy();
        let mut building = TimetableBuilder::new(data_set.allocator(), None)?;
        let (records, flights) = data_set.into_parts();
        building.put_list(records)?;
        let mut table = building.into_table()?;
        table.share_where(&flights, FEW)?;
        Ok((Schedule { table }, frame))
    }

    /// The timetable of a data set from a first date to a last. No flight flies on any other date.
    /// The records are freed while the timetable is made. It takes less time and memory than the
    /// whole timetable if the dates are few.
    pub fn of_dates(data_set: DataSet, first: Day, last: Day) -> Result<Schedule, Memory>
        ensures { IfOk result (λ s. (g : FlightNumber) → IsFlight g
            → days_in s g ≡ each_day (itinerary_between first last data_set g)) }
    {
        // No effect at run time. The proof reads from this use that the records are in order.
        let _ = data_set.records();
        let mut building = TimetableBuilder::new(data_set.allocator(), Some((first, last)))?;
        let (records, _) = data_set.into_parts();
        building.put_list(records)?;
        let table = building.into_table()?;
        Ok(Schedule { table })
    }
}

impl TimetableBuilder {
    ghost use Rattle.ssim_schedule.specs.internal.TimetableBuilder.{IsBuilt, LeavesOut, OpensGroup, PutsGroup, PutsLeg, TakesLeg, TakesSegment};

    /// The timetable of no records, from a first date to a last, or of all dates.
    pub(crate) fn new(alloc: Global, wanted: Option<(Day, Day)>) -> Result<TimetableBuilder, Memory>
        ensures { IfOk result (λ building. IsBuilt wanted building []) }
    {
        let table = TableBuilder::new(alloc)?;
        let group = LegGroup::new(alloc);
        let waiting = PendingSegments::new(alloc);
        Ok(TimetableBuilder {
            table,
            group,
            waiting,
            wanted,
            alloc,
        })
    }

    /// Adds records before the others, from the last to the first.
    fn put_all(&mut self, records: &[Record]) -> Result<(), Memory>
        requires { All IsClosed records.now }
        ensures { OnOk result ((wanted : Option (ℕ × ℕ)) (done : List Record)
            → IsBuilt wanted self.old done → IsBuilt wanted self.new (records.now ++ done)) }
    {
        let mut place = records.len();
        while place > 0 {
            place -= 1;
            self.put(&records[place])?;
        }
        Ok(())
    }

    /// Adds those records that are of a flight of the set before the others, from the last to the
    /// first.
    fn put_those_of(&mut self, flights: &FlightSet, records: &[Record]) -> Result<(), Memory>
        requires { All IsClosed records.now }
        ensures { OnOk result ((wanted : Option (ℕ × ℕ)) (done : List Record)
            → IsBuilt wanted self.old done
            → IsBuilt wanted self.new (filter (is_record_of (is_marked flights.now.marks.items))
            records.now ++ done)) }
    {
        let mut place = records.len();
        while place > 0 {
            place -= 1;
            let one = &records[place];
            if flights.has_flight_of(one) {
                self.put(one)?;
            }
        }
        Ok(())
    }

    /// Adds the records of a list before the others, from the last to the first, and frees each
    /// part of the list once it is added. So the timetable and the list never take the memory of
    /// both.
    fn put_list(&mut self, records: Vec<Record>) -> Result<(), Memory>
        requires { All IsClosed records.items }
        ensures { OnOk result ((wanted : Option (ℕ × ℕ)) (done : List Record)
            → IsBuilt wanted self.old done → IsBuilt wanted self.new (records.items ++ done)) }
    {
        let mut left = records;
        while !left.is_empty() {
            let place = left.len().saturating_sub(PART);
            let (_, last) = left.split_at(place);
            self.put_all(last)?;
            left.truncate(place);
            left.shrink_to_fit();
        }
        Ok(())
    }

    /// The timetable of the records that were added.
    fn into_table(self) -> Result<FlightTable, Memory>
        ensures days { IfOk result (λ table. (wanted : Option (ℕ × ℕ)) (done : List Record)
            → IsBuilt wanted self done → (g : FlightNumber) → IsFlight g
            → table_days table g ≡ each_day (itinerary_wanted wanted done g)) }
        ensures cuts { IfOk result (λ table. (done : List Record) → IsBuilt None self done
            → (g : FlightNumber) → IsFlight g → AreAtPoints (table_cuts table g) g done) }
    {
        let mut building = self;
        building.put_group(None)?;
        let table = building.table.into_blocks()?;
        Ok(table)
    }

    /// Adds a record before the others.
    pub(crate) fn put(&mut self, one: &Record) -> Result<(), Memory>
        requires { IsClosed one.now }
        ensures { OnOk result ((wanted : Option (ℕ × ℕ)) (done : List Record)
            → IsBuilt wanted self.old done → IsBuilt wanted self.new (one.now ∷ done)) }
    {
        match one {
            Record::Leg(leg) => self.put_leg(leg),
            Record::Segment(segment) => self.put_segment(segment),
            Record::Header(_) | Record::Carrier(_) | Record::Trailer(_) => Ok(()),
        }
    }

    fn put_segment(&mut self, segment: &SegmentRecord) -> Result<(), Memory>
        ensures { OnOk result (TakesSegment self.old self.new segment.now) }
    {
        self.waiting.add(segment)
    }

    fn put_leg(&mut self, leg: &LegRecord) -> Result<(), Memory>
        requires { IsClosed (Record.Leg leg.now) }
        ensures { OnOk result (TakesLeg self.old self.new leg.now) }
    {
        let Some(last) = leg.last() else {
            unreachable!();
        };
        // Most legs are left out if few dates are wanted.
        if are_unwanted(self.wanted, leg.first(), last) {
            self.leave_out(leg.name());
            return Ok(());
        }
        let Ok(period) = Period::new(leg.first(), last, leg.days()) else {
            unreachable!();
        };
        match wanted_part(self.wanted, period) {
            Some(part) => self.put_on(leg, part),
            None => {
                self.leave_out(leg.name());
                Ok(())
            }
        }
    }

    /// Adds the leg of a record, with its pending tails, on the dates of a period.
    fn put_on(&mut self, leg: &LegRecord, period: Period) -> Result<(), Memory>
        ensures { OnOk result (PutsLeg self.old self.new leg.now period) }
    {
        let name = leg.name();
        self.open_group(name.flight(), period, name.sequence())?;
        let tails = self.waiting.take(name)?;
        self.group.add(leg, tails)
    }

    /// Drops the pending tails of a leg of which no date is wanted.
    fn leave_out(&mut self, name: LegName)
        ensures { LeavesOut self.old self.new name }
    {
        self.waiting.leave_out(name);
    }

    /// Makes the group one that a leg with this flight, period and leg sequence can join: another
    /// group is first put into the table.
    fn open_group(&mut self, flight: Flight, period: Period, sequence: u8) -> Result<(), Memory>
        ensures { OnOk result (OpensGroup self.old self.new
            (record { flight = flight; period = period }) sequence) }
    {
        if self.group.takes(flight, period, sequence) {
            return Ok(());
        }
        self.put_group(Some(flight))?;
        self.group.begin(flight, period);
        Ok(())
    }

    /// Puts the legs of the group into the table, before those of the next flight.
    fn put_group(&mut self, next: Option<Flight>) -> Result<(), Memory>
        ensures { OnOk result (PutsGroup self.old self.new) }
    {
        let Some(heading) = self.group.heading() else {
            self.group.clear();
            return Ok(());
        };
        self.table
            .put(heading.flight, &heading.period, &mut self.group)?;
        self.group.clear();
        self.leave(heading.flight, next)
    }

    /// If the next flight is another one, shares the itineraries of this flight unless very few
    /// were made, or it has many cuts. Files go from flight to flight, so a flight is mostly shared
    /// once, and one that comes many times costs only its cuts each time.
    fn leave(&mut self, flight: Flight, next: Option<Flight>) -> Result<(), Memory>
        ensures table { self.new.table ≡ self.old.table }
        ensures group { self.new.group ≡ self.old.group }
        ensures waiting { self.new.waiting ≡ self.old.waiting }
        ensures wanted { self.new.wanted ≡ self.old.wanted }
    {
        if next == Some(flight) {
            return Ok(());
        }
        let made = self.group.take_made();
        if LEAST <= made {
            self.table.share_below(flight, FEW)?;
        }
        Ok(())
    }
}
