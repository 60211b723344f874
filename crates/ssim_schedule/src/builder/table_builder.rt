//! The itineraries of flights while records are put into them, from flight to flight.

ghost use Rattle.std.specs.Prelude.{◌≡◌, ℕ, Contains, IfOk, OnOk, [], None};
ghost use Rattle.ssim_values.specs.Flight.{FlightNumber};
ghost use Rattle.ssim_periods.specs.Calendar.{holds};
ghost use Rattle.ssim_schedule.specs.internal.TableBuilder.{is_current, table_of};
ghost use Rattle.ssim_schedule.specs.clauses.PlacedLegs.{placed_each};
ghost use Rattle.ssim_schedule.specs.internal.Table.{AddsEnds, ChangesOn, table_cuts, table_days};

use crate::builder::leg_group::LegGroup;
use crate::builder::run::{MOST, Run, add_to_runs};
use crate::itinerary::Itinerary;
use crate::timetable::flight_table::{FlightTable, place};
use ssim_periods::Periods;
use ssim_values::{Flight, Memory, Period};
use std::alloc::Global;
use std::mem;

/// The itineraries of the flights that were named. Records come flight by flight, so the flight of
/// the latest records, the current one, is stored apart, and need not be searched for. Mostly many
/// records of a flight have the same legs, with a period for each date or each weekday. So legs
/// first become a run, whose period grows with each such record, and are put into the itineraries
/// once.
#[derive(Drop)]
pub(crate) struct TableBuilder {
    /// The flight of the latest records, if it is not among the blocks.
    current: Option<Flight>,
    /// The itineraries of the current flight.
    periods: Periods<Itinerary>,
    /// Legs that are still to be put into these, those of the first run first. The room stays for
    /// the next flight.
    runs: Vec<Run>,
    /// The other flights.
    blocks: FlightTable,
}

impl TableBuilder {
    /// No flight flies on any date.
    pub(crate) fn new(alloc: Global) -> Result<TableBuilder, Memory>
        ensures { IfOk result (λ table. table_of table ≡ []) }
    {
        Ok(TableBuilder {
            current: None,
            periods: Periods::new(alloc),
            runs: Vec::with_capacity(alloc, MOST)?,
            blocks: FlightTable::new(alloc)?,
        })
    }

    /// Puts the legs of a group into a flight's itinerary on each date of a period. The group may
    /// lose its legs.
    pub(crate) fn put(
        &mut self,
        flight: Flight,
        period: &Period,
        group: &mut LegGroup,
    ) -> Result<(), Memory>
        ensures days { OnOk result (ChangesOn flight (holds period.now)
            (placed_each group.old.legs) (table_of self.old) (table_of self.new)) }
        ensures cuts { OnOk result
            (AddsEnds flight period.now (table_of self.old) (table_of self.new)) }
    {
        if self.is_current(flight) {
            let alloc = self.blocks.allocator();
            return add_to_runs(alloc, &mut self.runs, &mut self.periods, period, group);
        }
        self.put_other(flight, period, group)
    }

    // Whether this is the current flight.
    fn is_current(&self, flight: Flight) -> bool
        ensures { result ≡ is_current self.now.current flight }
    {
        match self.current {
            None => false,
            Some(current) => place(current) == place(flight),
        }
    }

    // Does what `put` does for a flight that is not the current one. It becomes the current one,
    // unless it was named before.
    fn put_other(
        &mut self,
        flight: Flight,
        period: &Period,
        group: &mut LegGroup,
    ) -> Result<(), Memory>
        ensures days { OnOk result (ChangesOn flight (holds period.now)
            (placed_each group.old.legs) (table_of self.old) (table_of self.new)) }
        ensures cuts { OnOk result
            (AddsEnds flight period.now (table_of self.old) (table_of self.new)) }
    {
        self.put_back()?;
        let alloc = self.blocks.allocator();
        if !self.blocks.cuts(&flight).is_empty() {
            let hash = group.hash();
            let legs = group.take_new(hash)?;
            self.blocks.change(flight, period, &legs)?;
            return Ok(());
        }
        self.periods = self.blocks.copy_of(flight)?;
        self.runs.clear();
        self.current = Some(flight);
        add_to_runs(alloc, &mut self.runs, &mut self.periods, period, group)
    }

    // Puts the current flight into the blocks, so that none is current.
    fn put_back(&mut self) -> Result<(), Memory>
        ensures current { OnOk result (self.new.current ≡ None) }
        ensures days { OnOk result ((g : FlightNumber) → table_days self.new.blocks g
            ≡ table_days (table_of self.old) g) }
        ensures cuts { OnOk result ((g : FlightNumber) (cut : ℕ)
            → Contains (table_cuts self.new.blocks g) cut
            → Contains (table_cuts (table_of self.old) g) cut) }
    {
        let Some(flight) = self.current.take() else {
            return Ok(());
        };
        let empty = Periods::new(self.blocks.allocator());
        let mut periods = mem::replace(&mut self.periods, empty);
        periods.replace_each(&self.runs)?;
        periods.settle()?;
        self.blocks.put(flight, periods)
    }

    /// Makes the dates of a flight that have equal itineraries share one copy of them, if it has
    /// fewer than `limit` cuts. Dates of runs are left out.
    pub(crate) fn share_below(&mut self, flight: Flight, limit: usize) -> Result<(), Memory>
        ensures { self.new ≡ self.old }
    {
        if self.is_current(flight) {
            if self.periods.cuts().len() < limit {
                self.periods = self.periods.shared()?;
            }
        } else if self.blocks.cuts(&flight).len() < limit {
            self.blocks.share(flight)?;
        }
        Ok(())
    }

    /// All flights in blocks.
    pub(crate) fn into_blocks(self) -> Result<FlightTable, Memory>
        ensures days { IfOk result (λ blocks. (g : FlightNumber)
            → table_days blocks g ≡ table_days (table_of self) g) }
        ensures cuts { IfOk result (λ blocks. (g : FlightNumber) (cut : ℕ)
            → Contains (table_cuts blocks g) cut → Contains (table_cuts (table_of self) g) cut) }
    {
        let mut table = self;
        table.put_back()?;
        Ok(table.blocks)
    }
}
