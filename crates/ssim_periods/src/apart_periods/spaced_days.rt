//! A list of rising days that grows at both ends.
ghost use Rattle.std.specs.Prelude.{◌≡◌, ◌+◌, ◌-◌, ◌<◌, ◌≤◌, [], length, vec_len, vec_capacity, IfOk, OnOk};
ghost use Rattle.std.specs.List.{insert};
ghost use Rattle.std.specs.List.Sorted.{IsStrictlyIncreasing};
ghost use Rattle.std.proofs.Math.ListN.{drop};
ghost use Rattle.ssim_periods.specs.internal.Splits.{with_cut};

use crate::rows::{is_last, place_of};
use ssim_values::Memory;
use std::alloc::Global;
use std::marker::Model;

/// For how many days there is room at first, before the days and after them.
const FIRST: usize = 8;

/// Rising days. Days mostly come from the last to the first or the other way round, so there is
/// room for more of them before the first one and after the last one.
#[derive(Drop)]
pub(crate) struct SpacedDays {
    /// Elements that are no days yet, and then the days.
    items: Vec<u32>,
    /// The number of elements that are no days yet.
    front: usize,
}

impl Model for SpacedDays {
    ghost use Rattle.std.specs.Prelude.{◌-◌, ◌≤◌, length, vec_len, vec_capacity};
    ghost use Rattle.std.proofs.Math.ListN.{drop};
    ghost use Rattle.ssim_periods.specs.internal.Apart.{DaysAndRoom};

    ghost Value = { DaysAndRoom };

    ghost view = { λ p. record {
      days = drop p.front p.items.items;
      front = p.front;
      back = vec_capacity p.items - vec_len p.items;
    } };

    ghost invariant = { λ p. p.front ≤ length p.items.items };
}

impl SpacedDays {
    /// No day. Allocates nothing.
    pub(crate) fn new(alloc: Global) -> SpacedDays
        ensures { result.days ≡ [] }
    {
        SpacedDays {
            items: Vec::new(alloc),
            front: 0,
        }
    }

    /// These days, without room for more.
    pub(crate) fn of(days: Vec<u32>) -> SpacedDays
        ensures { result.days ≡ days.items }
    {
        SpacedDays {
            items: days,
            front: 0,
        }
    }

    /// The days.
    #[inline(always)]
    pub(crate) fn days(&self) -> &[u32]
        ensures { result.now ≡ self.now.days }
    {
        &self.items[self.front..]
    }

    /// A copy with the same days.
    pub(crate) fn copy(&self, alloc: Global) -> Result<SpacedDays, Memory>
        ensures { IfOk result (λ copy. copy.days ≡ self.now.days) }
    {
        Ok(SpacedDays::of(Vec::from_slice(alloc, self.days())?))
    }

    /// Makes room for two more days at each end.
    #[inline(always)]
    pub(crate) fn make_room(&mut self, alloc: Global) -> Result<(), Memory>
        ensures days { self.new.days ≡ self.old.days }
        ensures front { OnOk result (2 ≤ self.new.front) }
        ensures back { OnOk result (2 ≤ self.new.back) }
    {
        if self.front < 2 {
            self.grow(alloc)?;
        }
        self.items.reserve(2)?;
        Ok(())
    }

    // Makes room for as many days again before the first one.
    #[inline(never)]
    fn grow(&mut self, alloc: Global) -> Result<(), Memory>
        ensures days { self.new.days ≡ self.old.days }
        ensures front { OnOk result (2 ≤ self.new.front) }
    {
        let count = self.items.len() - self.front;
        let front = count.saturating_add(FIRST);
        let mut items = Vec::new(alloc);
        items.reserve(front.saturating_add(front))?;
        items.resize(front, 0)?;
        items.extend_from_slice(self.days())?;
        self.items = items;
        self.front = front;
        Ok(())
    }

    /// Adds a day, unless it is there. The days before it are moved, or those after it if they are
    /// not more.
    pub(crate) fn add(&mut self, day: u32)
        requires rising { IsStrictlyIncreasing self.old.days }
        requires front { 0 < self.old.front }
        requires back { 0 < self.old.back }
        ensures days { self.new.days ≡ with_cut self.old.days day }
        ensures front { self.old.front ≤ self.new.front + 1 }
        ensures back { self.old.back ≤ self.new.back + 1 }
    {
        let count = self.days().len();
        let place = place_of(self.days(), day);
        if is_last(self.days(), place, day) {
            return;
        }
        if place < count - place {
            put_at(&mut self.items, self.front, place, day);
            self.front -= 1;
            return;
        }
        if let Err(_) = self.items.insert(self.front + place, day) {
            unreachable!();
        }
    }
}

// Puts a day before those from a place on. The days before it are moved to the front by one.
fn put_at(items: &mut Vec<u32>, front: usize, place: usize, day: u32)
    requires front { 0 < front }
    requires within { front + place ≤ length items.old.items }
    ensures len { vec_len items.new ≡ vec_len items.old }
    ensures capacity { vec_capacity items.new ≡ vec_capacity items.old }
    ensures days { drop (front - 1) items.new.items
        ≡ insert (drop front items.old.items) place day }
{
    let start = front - 1;
    for moved in 0..place {
        items[start + moved] = items[start + moved + 1];
    }
    items[start + place] = day;
}
