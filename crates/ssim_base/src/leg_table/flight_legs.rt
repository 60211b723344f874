//! The leg records of one flight.

ghost use Rattle.ssim_periods.specs.CommonDays.{have_common_date};
ghost use Rattle.std.specs.Prelude.{◌≡◌, ◌<◌, OnOk, IfOk, [], None};
ghost use Rattle.std.specs.List.{position_or_len};
ghost use Rattle.ssim_periods.specs.Calendar.{holds};
ghost use Rattle.ssim_base.specs.internal.LegTable.{AddsLeg, entry_of, has_legs, index_of, is_numbered, names_leg, uses_date};

use crate::leg_table::leg_sequence::LegSequence;
use ssim_values::{Memory, Period};
use std::alloc::Global;

/// The leg records of one flight, by leg sequence.
#[derive(Drop)]
pub(crate) struct FlightLegs {
    /// An entry for each leg sequence, in the order of their first leg records.
    entries: Vec<LegSequence>,
}

impl FlightLegs {
    /// No leg record.
    pub(crate) fn new(alloc: Global) -> FlightLegs
        ensures { result.entries.items ≡ [] }
    {
        FlightLegs {
            entries: Vec::new(alloc),
        }
    }

    /// One more leg record, of a leg sequence, an itinerary variation and a period. Returns whether
    /// another one of the leg sequence had one of the dates.
    pub(crate) fn add(
        &mut self,
        alloc: Global,
        sequence: u8,
        variation: u8,
        period: &Period,
    ) -> Result<bool, Memory>
        requires { variation < 128 }
        ensures ok { OnOk result (AddsLeg self.old.entries.items self.new.entries.items sequence
            variation period.now) }
        ensures met { IfOk result (λ met. met
            ≡ have_common_date (holds period.now) (uses_date self.old.entries.items sequence)) }
    {
        let index = self.index_of(sequence);
        if index < self.entries.len() {
            self.entries[index].add(alloc, variation, period)
        } else {
            self.add_first(alloc, sequence, variation, period)
        }
    }

    /// Whether there is a leg record of this leg sequence and itinerary variation.
    pub(crate) fn has(&self, sequence: u8, variation: u8) -> bool
        requires { variation < 128 }
        ensures { result ≡ names_leg self.now.entries.items sequence variation }
    {
        let index = self.index_of(sequence);
        index < self.entries.len() && self.entries[index].has(variation)
    }

    /// Whether a leg record of this leg sequence has one of the dates of a period.
    pub(crate) fn meets(&self, sequence: u8, period: &Period) -> bool
        ensures { result ≡ have_common_date (holds period.now)
            (uses_date self.now.entries.items sequence) }
    {
        let index = self.index_of(sequence);
        index < self.entries.len() && self.entries[index].meets(period)
    }

    /// Whether there is a leg record.
    pub(crate) fn has_legs(&self) -> bool
        ensures { result ≡ has_legs self.now.entries.items }
    {
        !self.entries.is_empty()
    }

    // Does what `add` does for a leg sequence that has no entry yet.
    #[inline(never)]
    fn add_first(
        &mut self,
        alloc: Global,
        sequence: u8,
        variation: u8,
        period: &Period,
    ) -> Result<bool, Memory>
        requires variation { variation < 128 }
        requires first { entry_of self.old.entries.items sequence ≡ None }
        ensures ok { OnOk result (AddsLeg self.old.entries.items self.new.entries.items sequence
            variation period.now) }
        ensures met { IfOk result (λ met. met
            ≡ have_common_date (holds period.now) (uses_date self.old.entries.items sequence)) }
    {
        let mut entry = LegSequence::new(sequence);
        let met = entry.add(alloc, variation, period)?;
        if self.entries.is_empty() {
            // Many flights have one leg.
            self.entries.reserve_exact(1)?;
        }
        self.entries.push(entry)?;
        Ok(met)
    }

    // The index of the entry of a leg sequence, or the number of entries. Mostly the records name
    // the leg sequences in order.
    fn index_of(&self, sequence: u8) -> usize
        ensures { result ≡ index_of self.now.entries.items sequence }
    {
        let usual = sequence.saturating_sub(1) as usize;
        if usual < self.entries.len() && self.entries[usual].number == sequence {
            return usual;
        }
        first_index(&self.entries, sequence)
    }
}

// The first index of an entry of a leg sequence, or the number of entries.
fn first_index(entries: &[LegSequence], sequence: u8) -> usize
    ensures { result ≡ position_or_len (is_numbered sequence) entries.now }
{
    for (index, entry) in entries.iter().enumerate() {
        if entry.number == sequence {
            return index;
        }
    }
    entries.len()
}
