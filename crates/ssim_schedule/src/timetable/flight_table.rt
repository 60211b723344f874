//! The periods of each flight, in blocks of flights that copies of a schedule share.

ghost use Rattle.std.specs.Prelude.{◌≡◌, ℕ, ◌<◌, ◌≤◌, nat_eq, if◌then◌else◌, [], ◌++◌, true};
ghost use Rattle.std.specs.Prelude.{map, replicate};
ghost use Rattle.std.specs.Prelude.{All, Contains, IfOk, IfErr, IfSome, IfNone, OnOk, OnErr};
ghost use Rattle.std.specs.Prelude.{slice_index_or};
ghost use Rattle.std.specs.List.Sorted.{IsStrictlyIncreasing};
ghost use Rattle.ssim_values.specs.Calendar.{weekday};
ghost use Rattle.ssim_values.specs.Flight.{FlightNumber, IsFlight};
ghost use Rattle.ssim_periods.specs.Calendar.{holds};
ghost use Rattle.ssim_periods.specs.Days.{counts_on, each_day};
ghost use Rattle.ssim_base.specs.Export.{flight_at};
ghost use Rattle.ssim_base.specs.ReadBack.{place_of};
ghost use Rattle.ssim_base.specs.Timetable.{on_day};
ghost use Rattle.ssim_schedule.specs.internal.Blocks.{all_entries, block_of};
ghost use Rattle.ssim_schedule.specs.internal.Table.{AreRising, IsAt, IsGapFor};

use crate::itinerary::Itinerary;
use crate::leg::PlacedLeg;
use crate::timetable::copy_on_write::{CopyOnWrite, Duplicate};
use ssim_periods::{Change, Periods};
use ssim_values::{Day, Flight, Memory, Period};
use std::alloc::Global;
use std::marker::Model;

/// The number of blocks, so that each flight has one.
const BLOCKS: usize = 264;

/// A flight, and its itinerary on each date.
#[derive(Drop)]
pub(crate) struct FlightPeriods {
    pub(crate) flight: Flight,
    pub(crate) periods: CopyOnWrite<Periods<Itinerary>>,
}

/// The flights of nearby ranks that were named, by number and suffix.
#[derive(Drop)]
pub(crate) struct Block {
    flights: Vec<FlightPeriods>,
    alloc: Global,
}

impl Model for Block {
    ghost use Rattle.ssim_schedule.specs.internal.Table.{Table};

    ghost Value = { Table };

    ghost view = { λ s. s.flights.items };
}

/// The itineraries of the flights that were named, in blocks of flights of nearby ranks. A copy
/// costs one pointer for each block, and a change after it a copy of one block. The legs of an
/// itinerary need not rise by sequence, as those of a `Schedule` do.
#[derive(Drop)]
pub(crate) struct FlightTable {
    blocks: Vec<CopyOnWrite<Block>>,
    alloc: Global,
}

impl Model for FlightTable {
    ghost use Rattle.std.specs.Prelude.{◌≡◌, length};
    ghost use Rattle.ssim_schedule.specs.internal.Blocks.{AreBlocks, all_entries};
    ghost use Rattle.ssim_schedule.specs.internal.Table.{Table};

    ghost Value = { Table };

    ghost view = { λ s. all_entries s.blocks.items };

    ghost invariant = { λ s. AreBlocks 0 s.blocks.items × (length s.blocks.items ≡ 264) };
}

impl FlightTable {
    ghost use Rattle.ssim_schedule.specs.internal.Table.{AddsEnds, AreRising, ChangesOn};
    ghost use Rattle.ssim_schedule.specs.internal.Table.{table_cuts, table_days};

    /// No flight flies on any date. All blocks are there, and empty.
    pub(crate) fn new(alloc: Global) -> Result<FlightTable, Memory>
        ensures { IfOk result (λ table. table ≡ []) }
    {
        Ok(FlightTable {
            blocks: empty_blocks(alloc)?,
            alloc,
        })
    }

    /// The legs of a flight on a date of origin. The list is empty if the flight does not fly on
    /// the date.
    pub(crate) fn itinerary(&self, flight: &Flight, day: Day) -> &[PlacedLeg]
        ensures { result.now ≡ slice_index_or (table_days self.now flight.now) day [] }
    {
        match self.find(*flight) {
            Some(periods) => periods.at(day).legs(),
            None => &[],
        }
    }

    /// The rising days at which a stored range of the flight begins, or the day after its last;
    /// none for a flight that was never named.
    pub(crate) fn cuts(&self, flight: &Flight) -> &[u32]
        ensures cuts { result.now ≡ table_cuts self.now flight.now }
        ensures rising { IsStrictlyIncreasing result.now }
        ensures in_calendar { All (λ cut. cut ≤ 36525) result.now }
        ensures weekly { (m n : ℕ) → m ≤ n → n < 36525 → weekday m ≡ weekday n
            → ((cut : ℕ) → Contains result.now cut → m < cut → n < cut)
            → on_day (table_days self.now flight.now) m
            ≡ on_day (table_days self.now flight.now) n }
    {
        match self.find(*flight) {
            Some(periods) => periods.cuts(),
            None => &[],
        }
    }

    /// The same entries. The copy and the original share each block until one of the two changes a
    /// flight of it.
    pub(crate) fn copy(&self) -> Result<FlightTable, Memory>
        ensures { IfOk result (λ copy. copy ≡ self.now) }
    {
        Ok(FlightTable {
            blocks: copied_blocks(self.alloc, &self.blocks)?,
            alloc: self.alloc,
        })
    }

    /// Applies a change to a flight's itinerary on each date of a period. Returns how many of the
    /// dates were of each class.
    pub(crate) fn change<C: Change<Itinerary>>(
        &mut self,
        flight: Flight,
        period: &Period,
        change: &C,
    ) -> Result<[u32; 5], Memory>
        ensures days { OnOk result
            (ChangesOn flight (holds period.now) (C.outcome change.now) self.old self.new) }
        ensures cuts { OnOk result (AddsEnds flight period.now self.old self.new) }
        ensures counts { IfOk result (λ counts. counts
            ≡ counts_on (holds period.now) (C.class_of change.now) (table_days self.old flight)) }
        ensures err { OnErr result (self.new ≡ self.old) }
    {
        let alloc = self.alloc;
        let block = self.blocks[block_number(flight)].own(alloc)?;
        match block.search(flight) {
            Ok(place) => {
                let own = block.flights[place].periods.own(alloc)?;
                own.apply(period, change)
            }
            Err(gap) => {
                let mut periods = Periods::new(alloc);
                let counts = periods.apply(period, change)?;
                let periods = CopyOnWrite::of(alloc, periods)?;
                block
                    .flights
                    .insert(gap, FlightPeriods { flight, periods })?;
                Ok(counts)
            }
        }
    }

    /// Makes the dates of a flight that have equal itineraries share one copy of them, if no copy
    /// shares the flight's block; else nothing is done.
    pub(crate) fn share(&mut self, flight: Flight) -> Result<(), Memory>
        ensures { self.new ≡ self.old }
    {
        let alloc = self.alloc;
        if let Some(block) = self.blocks[block_number(flight)].unshared() {
            if let Ok(place) = block.search(flight) {
                let shared = block.flights[place].periods.get().shared()?;
                block.flights[place].periods = CopyOnWrite::of(alloc, shared)?;
            }
        }
        Ok(())
    }

    /// Does the same for those of these flights that have at least `least` cuts.
    pub(crate) fn share_where(&mut self, flights: &[Flight], least: usize) -> Result<(), Memory>
        ensures { self.new ≡ self.old }
    {
        for flight in flights {
            if self.cuts(flight).len() >= least {
                self.share(*flight)?;
            }
        }
        Ok(())
    }

    /// The flights that have an entry, by number and suffix.
    pub(crate) fn flights(&self) -> Result<Vec<Flight>, Memory>
        ensures flights { IfOk result (λ flights. flights.items ≡ map (λ f. f.flight) self.now) }
        ensures exist { IfOk result (λ flights. All IsFlight flights.items) }
    {
        flights_of(self.alloc, &self.blocks)
    }

    /// The allocator of its entries.
    pub(crate) fn allocator(&self) -> Global {
        self.alloc
    }

    /// A copy of the periods of a flight. The copy shares the itineraries.
    pub(crate) fn copy_of(&self, flight: Flight) -> Result<Periods<Itinerary>, Memory>
        ensures days { IfOk result (λ p. p.days ≡ table_days self.now flight) }
        ensures cuts { IfOk result (λ p. p.cuts ≡ table_cuts self.now flight) }
    {
        match self.find(flight) {
            Some(periods) => periods.copy(),
            None => Ok(Periods::new(self.alloc)),
        }
    }

    /// Replaces the periods of a flight.
    pub(crate) fn put(&mut self, flight: Flight, periods: Periods<Itinerary>) -> Result<(), Memory>
        ensures days { OnOk result ((g : FlightNumber)
            → table_days self.new g ≡ (if nat_eq (place_of flight) (place_of g) then periods.days
            else table_days self.old g)) }
        ensures cuts { OnOk result ((g : FlightNumber)
            → table_cuts self.new g ≡ (if nat_eq (place_of flight) (place_of g) then periods.cuts
            else table_cuts self.old g)) }
        ensures err { OnErr result (self.new ≡ self.old) }
    {
        let alloc = self.alloc;
        let periods = CopyOnWrite::of(alloc, periods)?;
        let block = self.blocks[block_number(flight)].own(alloc)?;
        match block.search(flight) {
            Ok(place) => {
                block.flights[place] = FlightPeriods { flight, periods };
                Ok(())
            }
            Err(gap) => {
                block
                    .flights
                    .insert(gap, FlightPeriods { flight, periods })?;
                Ok(())
            }
        }
    }

    /// The blocks, whose entries together rise by number and suffix of their flights.
    pub(crate) fn into_blocks(self) -> Vec<CopyOnWrite<Block>>
        ensures value { all_entries result.items ≡ self }
        ensures rising { AreRising self }
    {
        self.blocks
    }

    // The periods of a flight, if it was named.
    fn find(&self, flight: Flight) -> Option<&Periods<Itinerary>>
        ensures some { IfSome result (λ p. (p.now.days ≡ table_days self.now flight)
            × (p.now.cuts ≡ table_cuts self.now flight)) }
        ensures none { IfNone result ((table_days self.now flight ≡ each_day (λ _. []))
            × (table_cuts self.now flight ≡ [])) }
    {
        let block = self.blocks[block_number(flight)].get();
        match block.search(flight) {
            Ok(place) => Some(block.flights[place].periods.get()),
            Err(_) => None,
        }
    }
}

impl Block {
    /// The entries, by number and suffix of their flights.
    pub(crate) fn into_entries(self) -> Vec<FlightPeriods>
        ensures { result.items ≡ self }
    {
        self.flights
    }

    // The entries, by number and suffix of their flights.
    fn entries(&self) -> &[FlightPeriods]
        ensures { result.now ≡ self.now }
    {
        &self.flights
    }

    // Whether the first entry is the flight's.
    fn begins_with(&self, flight: Flight) -> bool
        ensures { result ≡ true → IsAt self.now flight 0 }
    {
        match self.flights.first() {
            None => false,
            Some(first) => place(first.flight) == place(flight),
        }
    }

    // The index of the flight's entry, or the index at which it would be inserted.
    fn search(&self, flight: Flight) -> Result<usize, usize>
        requires { AreRising self.now }
        ensures found { IfOk result (IsAt self.now flight) }
        ensures absent { IfErr result (IsGapFor self.now flight) }
    {
        // Timetables are made from their last flight to the first.
        if self.begins_with(flight) {
            return Ok(0);
        }
        self.flights
            .binary_search_by_key(&place(flight), |f| place(f.flight))
    }
}

impl Duplicate for Block {
    // The same entries. The copy and the original share the periods of each flight until one of the
    // two changes that flight.
    fn duplicate(&self) -> Result<Block, Memory> {
        Ok(Block {
            flights: copies(self.alloc, &self.flights)?,
            alloc: self.alloc,
        })
    }
}

impl Duplicate for Periods<Itinerary> {
    // The copy shares the itineraries.
    fn duplicate(&self) -> Result<Periods<Itinerary>, Memory> {
        self.copy()
    }
}

fn copies(alloc: Global, flights: &[FlightPeriods]) -> Result<Vec<FlightPeriods>, Memory>
    ensures { IfOk result (λ copies. copies.items ≡ flights.now) }
{
    let mut copies = Vec::with_capacity(alloc, flights.len())?;
    for entry in flights {
        copies.push(FlightPeriods {
            flight: entry.flight,
            periods: entry.periods.copy()?,
        })?;
    }
    Ok(copies)
}

// The flights of the entries of all blocks.
fn flights_of(alloc: Global, blocks: &[CopyOnWrite<Block>]) -> Result<Vec<Flight>, Memory>
    ensures flights { IfOk result
        (λ flights. flights.items ≡ map (λ f. f.flight) (all_entries blocks.now)) }
    ensures exist { IfOk result (λ flights. All IsFlight flights.items) }
{
    let mut flights = Vec::new(alloc);
    for block in blocks {
        push_flights(&mut flights, block.get().entries())?;
    }
    Ok(flights)
}

fn push_flights(flights: &mut Vec<Flight>, entries: &[FlightPeriods]) -> Result<(), Memory>
    ensures flights { OnOk result
        (flights.new.items ≡ flights.old.items ++ map (λ f. f.flight) entries.now) }
    ensures exist { OnOk result (All IsFlight flights.old.items → All IsFlight flights.new.items) }
{
    for entry in entries {
        // No effect at run time. The proof reads from this use that the flight is one.
        let _ = place(entry.flight);
        flights.push(entry.flight)?;
    }
    Ok(())
}

// The index of a flight's block.
fn block_number(flight: Flight) -> usize
    ensures value { result ≡ block_of flight }
    ensures small { result < 264 }
{
    place(flight) as usize / 1024
}

fn empty_blocks(alloc: Global) -> Result<Vec<CopyOnWrite<Block>>, Memory>
    ensures { IfOk result (λ blocks. blocks.items ≡ replicate 264 []) }
{
    let mut blocks = Vec::with_capacity(alloc, BLOCKS)?;
    for _ in 0..BLOCKS {
        let flights = Vec::new(alloc);
        blocks.push(CopyOnWrite::of(alloc, Block { flights, alloc })?)?;
    }
    Ok(blocks)
}

fn copied_blocks(
    alloc: Global,
    blocks: &[CopyOnWrite<Block>],
) -> Result<Vec<CopyOnWrite<Block>>, Memory>
    ensures { IfOk result (λ copies. copies.items ≡ blocks.now) }
{
    let mut copies = Vec::with_capacity(alloc, blocks.len())?;
    for block in blocks {
        copies.push(block.copy()?)?;
    }
    Ok(copies)
}

// The index of a flight among all flights, by number and then by suffix, the blank first.
pub(crate) fn place(flight: Flight) -> u32
    ensures value { result ≡ place_of flight }
    ensures small { result < 270000 }
    ensures flight { IsFlight flight }
{
    let suffix = match flight.suffix() {
        b' ' => 0,
        letter => letter as u32 - 64,
    };
    27 * flight.number() as u32 + suffix
}

// The flight with this index among all flights.
pub(crate) fn flight_at(place: u32) -> Flight
    requires { place < 270000 }
    ensures { result ≡ flight_at place }
{
    let suffix = match place % 27 {
        0 => b' ',
        letter => 64 + letter as u8,
    };
    Flight::new((place / 27) as u16, suffix).unwrap()
}
