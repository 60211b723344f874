//! The effect of sub-messages on a schedule.

ghost use Rattle.std.specs.Prelude.{◌≡◌, ℕ, ◌<◌, true, IfOk, OnErr, OnOk};
ghost use Rattle.ssim_values.specs.Flight.{FlightNumber, IsFlight};
ghost use Rattle.ssim_periods.specs.Calendar.{day_count, holds};
ghost use Rattle.ssim_schedule.specs.clauses.Acts.{AddsPointsOf, after_sub};
ghost use Rattle.ssim_schedule.specs.Acts.{finding_of, itinerary_after};
ghost use Rattle.ssim_schedule.specs.internal.ActionParts.{IsUniform, counts_by};
ghost use Rattle.ssim_schedule.specs.clauses.Schedule.{cuts_in, days_in};
ghost use Rattle.ssim_schedule.specs.internal.Table.{table_cuts, table_days};
ghost use Rattle.ssim_base.specs.Timetable.{on_day};

mod division;
mod division_points;
pub(crate) mod flight_date;
mod message_columns;
mod new_legs;
mod sub_message_change;

use crate::effect::division::act_on_parts;
use crate::effect::division_points::{lines_of, next_point};
use crate::effect::sub_message_change::SubMessageChange;
use crate::finding::Finding;
use crate::schedule::Schedule;
use crate::timetable::flight_table::{FlightTable, place};
use ssim_base::{Resolved, StationRow};
use ssim_text::Action;
use ssim_values::{Flight, Memory, Period};

// Whether no station row divides the period for the action.
fn is_uniform(rows: &[StationRow], action: &Action, period: &Period) -> bool
    ensures { result ≡ true → IsUniform rows.now action.now period.now }
{
    let first = period.first().number() as u32;
    let end = period.last().number() as u32 + 1;
    next_point(rows, action, first, end) == end
}

impl Schedule {
    /// Applies a sub-message to each date of its period, by these rows of a station table.
    /// The finding counts the dates by their results. No other flight or date changes. If memory is
    /// out, nothing has changed.
    ///
    /// The cost is finding the flight, and changing the ranges of the flight that the period
    /// touches. The new legs of `NEW` and `RPL` are made once for each part of the period in which
    /// no row of their stations begins or ends. If there are several such parts, the flight's
    /// periods are copied first; they are also copied if a copy of the schedule shares them.
    pub fn apply_sub(&mut self, rows: &[StationRow], sub: &Resolved) -> Result<Finding, Memory>
        ensures days { OnOk result ((g : FlightNumber)
            → days_in self.new g ≡ after_sub rows.now sub.now.action.now sub.now.flight
            sub.now.period (days_in self.old) g) }
        ensures finding { IfOk result (λ finding. finding
            ≡ finding_of rows.now sub.now.action.now sub.now.period
            (days_in self.old sub.now.flight)) }

        // A new cut is the first day or the day after the last of the period, or of a row whose
        // station the new legs have.
        ensures cuts { OnOk result ((g : FlightNumber)
            → AddsPointsOf sub.now.flight rows.now sub.now.action.now sub.now.period g
            (cuts_in self.old g) (cuts_in self.new g)) }

        // The itinerary of a date afterwards is the action's effect if the sub-message names the
        // flight and its period holds the date, else the itinerary before.
        ensures each_date { OnOk result ((g : FlightNumber) (n : ℕ) → IsFlight g → n < day_count
            → on_day (days_in self.new g) n
            ≡ itinerary_after rows.now sub.now.action.now sub.now.flight sub.now.period g n
            (on_day (days_in self.old g) n)) }
        ensures err { OnErr result (self.new ≡ self.old) }
    {
        // No effect at run time. The proof reads from these uses that there are at most twenty new
        // legs, and that the flight is one.
        let _ = lines_of(sub.action);
        let _ = place(sub.flight);
        let counts = self.table.act(rows, sub.action, sub.flight, &sub.period)?;
        Ok(Finding::of(&counts))
    }
}

impl FlightTable {
    // Acts at once if the effect is the same on all days of the period, else on a copy of the
    // flight's periods, which replaces them after the last part.
    fn act(
        &mut self,
        rows: &[StationRow],
        action: &Action,
        flight: Flight,
        period: &Period,
    ) -> Result<[u32; 5], Memory>
        ensures days { OnOk result ((g : FlightNumber)
            → table_days self.new g ≡ after_sub rows.now action.now flight period.now
            (table_days self.old) g) }
        ensures counts { IfOk result (λ counts. counts
            ≡ counts_by rows.now action.now (holds period.now) (table_days self.old flight)) }
        ensures cuts { OnOk result ((g : FlightNumber)
            → AddsPointsOf flight rows.now action.now period.now g (table_cuts self.old g)
            (table_cuts self.new g)) }
        ensures err { OnErr result (self.new ≡ self.old) }
    {
        let alloc = self.allocator();
        if is_uniform(rows, action, period) {
            let change = SubMessageChange::on(alloc, rows, action, period.first())?;
            return self.change(flight, period, &change);
        }
        let mut periods = self.copy_of(flight)?;
        let counts = act_on_parts(alloc, rows, action, period, &mut periods)?;
        self.put(flight, periods)?;
        Ok(counts)
    }
}
