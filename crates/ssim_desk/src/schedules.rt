//! The schedules that messages leave, from which a late message is applied.

ghost use Rattle.std.specs.Prelude.{◌≡◌, ◌⊎◌, ◌≤◌, ◌+◌, ◌*◌, ◌/◌, ◌++◌, ℕ, List, length, take};
ghost use Rattle.std.specs.Prelude.{IfOk, OnOk};
ghost use Rattle.ssim_base.specs.BaseSeen.{BaseSeen};
ghost use Rattle.ssim_held.specs.Entries.{Entry};
ghost use Rattle.ssim_desk.specs.internal.Changes.{HasRoom, IsAfter, AreSchedules};
ghost use Rattle.ssim_desk.specs.internal.Changes.{IsReplay};

use crate::replay::{Replay, STEP};
use ssim_base::Base;
use ssim_held::Held;
use ssim_schedule::Schedule;
use ssim_values::Memory;
use std::alloc::Global;

/// Of a base and messages in order: the schedule after them and after every 32 of them.
#[derive(Drop)]
pub(crate) struct Schedules {
    /// The schedule after 0, 32, 64, .. messages.
    pub checkpoints: Vec<Schedule>,
    /// The schedule after all messages.
    pub latest: Schedule,
    /// How many messages the latest change applied to a schedule.
    pub applied: u64,
}

impl Schedules {
    /// All messages are applied to the base's schedule.
    pub(crate) fn of(alloc: Global, base: &Base, held: &[Held]) -> Result<Schedules, Memory>
        ensures is { IfOk result (AreSchedules base.now held.now) }
        ensures applied { IfOk result (λ schedules. schedules.applied ≡ length held.now) }
    {
        let began = Schedule::of(base)?;
        let mut replay = Replay::after(alloc, &began, 0)?;
        replay.apply_all(alloc, base, held)?;
        let mut checkpoints = Vec::with_capacity(alloc, 1)?;
        checkpoints.push(began)?;
        checkpoints.append(&mut replay.checkpoints)?;
        Ok(Schedules {
            checkpoints,
            latest: replay.latest,
            applied: held.len() as u64,
        })
    }

    /// What follows if the messages from position `at` on are replaced, up to this position. It
    /// begins at the latest schedule if there are none, else at the last checkpoint before them.
    pub(crate) fn replay_to(
        &self,
        alloc: Global,
        base: &Base,
        held: &[Held],
        at: usize,
    ) -> Result<Replay, Memory>
        requires is { AreSchedules base.now held.now self.now }
        requires within { at ≤ length held.now }
        ensures low { IfOk result (λ replay. replay.from ≤ at) }
        ensures near { IfOk result (λ replay. at ≤ replay.from + 31) }
        ensures replay { IfOk result (IsReplay base.now (take at held.now)) }
    {
        let from = start(held.len(), at);
        let mut replay = Replay::after(alloc, self.schedule(held.len(), from), from)?;
        replay.apply_all(alloc, base, &held[from..at])?;
        Ok(replay)
    }

    // The schedule after the first `from` messages of this many: the latest, or a checkpoint.
    fn schedule(&self, count: usize, from: usize) -> &Schedule
        requires within { from ≤ count }
        requires kept { (from ≡ count) ⊎ (from ≡ 32 * (from / 32)) }
        requires schedules { (base : BaseSeen) × (held : List Entry)
            × AreSchedules base held self.now
            × (count ≡ length held) }
        ensures { (base : BaseSeen) (held : List Entry) → count ≡ length held
            → AreSchedules base held self.now → IsAfter base (take from held) result.now }
    {
        if from == count {
            &self.latest
        } else {
            &self.checkpoints[from / STEP]
        }
    }

    /// Makes room for what follows. Nothing else changes.
    pub(crate) fn reserve(&mut self, replay: &Replay) -> Result<(), Memory>
        ensures room { OnOk result (HasRoom self.new replay.now) }
        ensures same { (base : BaseSeen) (held : List Entry) → AreSchedules base held self.old
            → AreSchedules base held self.new }
        ensures latest { self.new.latest ≡ self.old.latest }
        ensures applied { self.new.applied ≡ self.old.applied }
    {
        self.checkpoints.reserve(replay.checkpoints.len())?;
        Ok(())
    }

    /// Puts what follows in place of the old. There are this many messages now.
    pub(crate) fn put(&mut self, mut replay: Replay, count: usize)
        requires room { HasRoom self.old replay }
        requires within { replay.from ≤ count }
        ensures is { (base : BaseSeen) (held rest : List Entry) (at : ℕ) → at ≤ length held
            → replay.from ≤ at → AreSchedules base held self.old
            → IsReplay base (take at held ++ rest) replay
            → AreSchedules base (take at held ++ rest) self.new }
        ensures applied { self.new.applied + replay.from ≡ count }
    {
        self.checkpoints.truncate(replay.from / STEP + 1);
        self.checkpoints.append(&mut replay.checkpoints).unwrap();
        self.latest = replay.latest;
        self.applied = (count - replay.from) as u64;
    }
}

// How many of the messages, of which there are this many, need not be applied again if those from
// position `at` on are replaced: all, or there is a checkpoint after them, fewer than 32 before the
// position.
fn start(count: usize, at: usize) -> usize
    requires { at ≤ count }
    ensures low { result ≤ at }
    ensures near { at ≤ result + 31 }
    ensures kept { (result ≡ count) ⊎ (result ≡ 32 * (result / 32)) }
{
    if at == count { at } else { at / STEP * STEP }
}
