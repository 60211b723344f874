//! The pending tails: tails whose leg record has not come yet, while records are read from the last
//! to the first.

ghost use Rattle.std.specs.Prelude.{◌≡◌, ℕ, ◌<◌, ◌∷◌, [], None, nat_eq, if◌then◌else◌, reverse, false, IfOk, OnOk};
ghost use Rattle.std.specs.BTreeMap.{get};
ghost use Rattle.std.specs.Ordering.{nat_cmp};
ghost use Rattle.ssim_schedule.specs.internal.LegKey.{IsPlaced, name_place};

use crate::builder::leg_key::LegKey;
use ssim_records::{LegName, SegmentRecord, SegmentTail};
use ssim_values::Memory;
use std::alloc::Global;
use std::collections::BTreeMap;
use std::mem;

/// For each leg the tails of the segment records that came before its leg record, the last of them
/// first.
#[derive(Drop)]
pub(crate) struct PendingSegments {
    /// The leg of the latest segment record. Mostly its other segment records and its leg record
    /// come next.
    latest: LegKey,
    /// The tails of this leg. The room stays when they are taken out.
    tails: Vec<SegmentTail>,
    /// The tails of the other legs.
    others: BTreeMap<LegKey, Vec<SegmentTail>>,
    alloc: Global,

    ghost apart: { get nat_cmp others latest ≡ None },
}

impl PendingSegments {
    ghost use Rattle.ssim_schedule.specs.internal.PendingSegments.{waiting_at};

    /// No tail is pending.
    pub(crate) fn new(alloc: Global) -> PendingSegments
        ensures { (place : ℕ) → waiting_at result place ≡ [] }
    {
        PendingSegments {
            latest: LegKey::first(),
            tails: Vec::new(alloc),
            others: BTreeMap::new(alloc),
            alloc,
        }
    }

    /// Adds the tail of one more segment record, before the pending tails of its leg.
    pub(crate) fn add(&mut self, segment: &SegmentRecord) -> Result<(), Memory>
        ensures ok { OnOk result ((place : ℕ)
            → waiting_at self.new place ≡ (if nat_eq place (name_place segment.now.name)
            then segment.now.tail ∷ waiting_at self.old place else waiting_at self.old place)) }
        ensures named { IsPlaced segment.now.name }
    {
        self.turn_to(LegKey::of(segment.name()))?;
        // If the room is made first, the tail is copied once.
        self.tails.reserve(1)?;
        self.tails.push_reserved(segment.tail());
        Ok(())
    }

    // Makes this leg the latest.
    fn turn_to(&mut self, key: LegKey) -> Result<(), Memory>
        ensures latest { OnOk result (self.new.latest ≡ key) }
        ensures same { OnOk result ((place : ℕ)
            → waiting_at self.new place ≡ waiting_at self.old place) }
    {
        if key == self.latest {
            return Ok(());
        }
        let tails = self.others.remove(&key);
        if !self.tails.is_empty() {
            let left = mem::replace(&mut self.tails, Vec::new(self.alloc));
            self.others.insert(self.latest, left)?;
        }
        self.latest = key;
        if let Some(tails) = tails {
            self.tails = tails;
        }
        Ok(())
    }

    /// The tails of a leg, in their order. None of them is pending any more.
    pub(crate) fn take(&mut self, name: LegName) -> Result<Vec<SegmentTail>, Memory>
        ensures tails { IfOk result (λ tails. tails.items ≡ waiting_at self.old (name_place name)) }
        ensures named { IsPlaced name }
        ensures others { OnOk result ((place : ℕ)
            → waiting_at self.new place ≡ (if nat_eq place (name_place name) then []
            else waiting_at self.old place)) }
    {
        let key = LegKey::of(name);
        if key != self.latest {
            return Ok(self.take_other(key));
        }
        self.tails.reverse();
        let tails = Vec::from_slice(self.alloc, &self.tails)?;
        self.tails.clear();
        Ok(tails)
    }

    /// Drops the tails of a leg, so that none of them is pending any more.
    pub(crate) fn leave_out(&mut self, name: LegName)
        ensures named { IsPlaced name }
        ensures others { (place : ℕ) → waiting_at self.new place
            ≡ (if nat_eq place (name_place name) then [] else waiting_at self.old place) }
    {
        let key = LegKey::of(name);
        if key == self.latest {
            self.tails.clear();
        } else if !self.others.is_empty() {
            let _ = self.others.remove(&key);
        }
    }

    // The tails of a leg that is not the latest.
    fn take_other(&mut self, key: LegKey) -> Vec<SegmentTail>
        requires { nat_eq key self.old.latest ≡ false }
        ensures tails { result.items ≡ waiting_at self.old key }
        ensures others { (place : ℕ) → waiting_at self.new place
            ≡ (if nat_eq place key then [] else waiting_at self.old place) }
    {
        // A file without segments has no tails at all.
        if self.others.is_empty() {
            return Vec::new(self.alloc);
        }
        let mut tails = match self.others.remove(&key) {
            Some(tails) => tails,
            None => Vec::new(self.alloc),
        };
        tails.reverse();
        // The leg keeps the list as long as the timetable exists.
        tails.shrink_to_fit();
        tails
    }
}
