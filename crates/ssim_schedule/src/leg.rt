//! A leg of an itinerary.

ghost use Rattle.std.specs.Prelude.{◌≡◌, ◌<◌, ◌^◌, IfOk, map};
ghost use Rattle.ssim_base.specs.Export.{same_leg, same_tails};
ghost use Rattle.ssim_schedule.specs.clauses.ItineraryOrder.{leg_cmp, tails_cmp};
ghost use Rattle.ssim_schedule.specs.internal.SharedLegs.{leg_hash};

use ssim_records::{LegColumns, SegmentTail};
use ssim_values::Memory;
use std::alloc::Global;
use std::cmp::Ordering;
use std::marker::Model;

/// A leg of an itinerary: its leg sequence, its own columns, and its tails, the segment data that
/// begin with it.
#[derive(Drop)]
pub struct PlacedLeg {
    /// Columns 14, 37 to 127 and 129 to 194 of its record.
    columns: LegColumns,
    /// 1 to 99.
    sequence: u8,
    /// Columns 15 to 27 and 29 to 194 of each of its segment records, in their order.
    tails: Vec<SegmentTail>,
}

impl Model for PlacedLeg {
    ghost use Rattle.std.specs.Prelude.{◌<◌};
    ghost use Rattle.ssim_base.specs.Timetable.{LegValue};

    ghost Value = { LegValue };

    ghost view = { λ l. record { sequence = l.sequence; columns = l.columns; tails = l.tails.items } };

    ghost invariant = { λ l. (0 < l.sequence) × (l.sequence < 100) };
}

impl PlacedLeg {
    /// A leg with this leg sequence, 1 to 99.
    pub(crate) fn new(sequence: u8, columns: LegColumns, tails: Vec<SegmentTail>) -> PlacedLeg
        requires from { 0 < sequence }
        requires to { sequence < 100 }
        ensures { result ≡ record { sequence = sequence; columns = columns; tails = tails.items } }
    {
        PlacedLeg {
            sequence,
            columns,
            tails,
        }
    }

    /// The leg sequence, 1 to 99.
    pub fn sequence(&self) -> u8
        ensures value { result ≡ self.now.sequence }
        ensures from { 0 < result }
        ensures to { result < 100 }
    {
        self.sequence
    }

    /// Its own columns.
    pub fn columns(&self) -> LegColumns
        ensures { result ≡ self.now.columns }
    {
        self.columns
    }

    /// Its own columns, by reference.
    pub(crate) fn columns_held(&self) -> &LegColumns
        ensures { result.now ≡ self.now.columns }
    {
        &self.columns
    }

    /// Its own columns become these.
    pub fn set_columns(&mut self, columns: LegColumns)
        ensures { self.new ≡ record self.old { columns = columns } }
    {
        self.columns = columns;
    }

    /// Its tails, in the order of their records.
    pub fn tails(&self) -> &[SegmentTail]
        ensures { result.now ≡ self.now.tails }
    {
        &self.tails
    }

    /// Whether the two are one leg.
    pub fn same(&self, other: &PlacedLeg) -> bool
        ensures { result ≡ same_leg self.now other.now }
    {
        self.sequence == other.sequence
            && self.columns.same(&other.columns)
            && same_tails(&self.tails, &other.tails)
    }

    /// The order of two legs: by leg sequence, columns and tails.
    pub(crate) fn order(&self, other: &PlacedLeg) -> Ordering
        ensures { result ≡ leg_cmp self.now other.now }
    {
        let by_sequence = self.sequence.cmp(&other.sequence);
        if by_sequence.is_ne() {
            return by_sequence;
        }
        let by_columns = self.columns.bytes().cmp(&other.columns.bytes());
        if by_columns.is_ne() {
            return by_columns;
        }
        order_of_tails(&self.tails, &other.tails)
    }

    /// A hash of the columns and the number of tails.
    pub(crate) fn hash(&self) -> u64
        ensures value { result ≡ leg_hash self.now }
        ensures bound { result < 2 ^ 55 }
    {
        self.columns.quick_hash() + 16_777_213 * (self.tails.len() % 4_096) as u64
    }

    /// An equal leg.
    pub fn copy(&self, alloc: Global) -> Result<PlacedLeg, Memory>
        ensures { IfOk result (λ copy. copy ≡ self.now) }
    {
        Ok(PlacedLeg {
            sequence: self.sequence,
            columns: self.columns,
            tails: Vec::from_slice(alloc, &self.tails)?,
        })
    }
}

/// Whether two lists of tails are equal.
pub fn same_tails(mine: &[SegmentTail], theirs: &[SegmentTail]) -> bool
    ensures { result ≡ same_tails mine.now theirs.now }
{
    if mine.len() != theirs.len() {
        return false;
    }
    for (place, tail) in mine.iter().enumerate() {
        if !tail.same(&theirs[place]) {
            return false;
        }
    }
    true
}

// The order of two lists of tails: the first two that differ decide. A list
// comes before one that begins with it.
fn order_of_tails(mine: &[SegmentTail], theirs: &[SegmentTail]) -> Ordering
    ensures { result ≡ tails_cmp mine.now theirs.now }
{
    for place in 0..mine.len() {
        if place == theirs.len() {
            return Ordering::Greater;
        }
        let order = mine[place].bytes().cmp(&theirs[place].bytes());
        if order.is_ne() {
            return order;
        }
    }
    if mine.len() == theirs.len() {
        return Ordering::Equal;
    }
    Ordering::Less
}

/// Equal legs.
pub fn copy_legs(alloc: Global, legs: &[PlacedLeg]) -> Result<Vec<PlacedLeg>, Memory>
    ensures { IfOk result (λ copies. copies.items ≡ legs.now) }
{
    let mut copies = Vec::with_capacity(alloc, legs.len())?;
    for leg in legs {
        copies.push(leg.copy(alloc)?)?;
    }
    Ok(copies)
}
