//! Schedule and checkpoints of the messages from a checkpoint on.

ghost use Rattle.std.specs.Prelude.{◌≡◌, ◌<◌, ◌++◌, ◌∷◌, [], List, length, IfOk, OnOk};
ghost use Rattle.ssim_base.specs.BaseSeen.{BaseSeen};
ghost use Rattle.ssim_held.specs.Entries.{Entry};

use crate::message_effect::act;
use ssim_base::Base;
use ssim_held::Held;
use ssim_schedule::Schedule;
use ssim_values::Memory;
use std::alloc::Global;

/// How many messages lie between two checkpoints.
pub(crate) const STEP: usize = 32;

/// What follows some messages: the schedule after all that were applied since, and the checkpoints
/// among them.
#[derive(Drop)]
pub(crate) struct Replay {
    pub latest: Schedule,
    /// The schedule after every 32 messages, counted from the first message of all.
    pub checkpoints: Vec<Schedule>,
    /// How many messages come before those that were applied.
    pub from: usize,
    /// How many messages the last multiple of 32 leaves.
    pub since: usize,
    ghost few: { since < 32 },
}

impl Replay {
    ghost use Rattle.ssim_desk.specs.internal.Changes.{IsAfter, IsReplay};

    /// Nothing follows yet, after the schedule of this many messages.
    pub(crate) fn after(alloc: Global, schedule: &Schedule, from: usize) -> Result<Replay, Memory>
        ensures from { IfOk result (λ replay. replay.from ≡ from) }
        ensures nothing { IfOk result (λ replay. (base : BaseSeen) (entries : List Entry)
            → from ≡ length entries → IsAfter base entries schedule.now
            → IsReplay base entries replay) }
    {
        Ok(Replay {
            latest: schedule.copy()?,
            checkpoints: Vec::new(alloc),
            from,
            since: from % STEP,
        })
    }

    /// One more message is applied.
    pub(crate) fn apply(&mut self, alloc: Global, base: &Base, held: &Held) -> Result<(), Memory>
        ensures from { self.new.from ≡ self.old.from }
        ensures applied { OnOk result ((before : List Entry) → IsReplay base.now before self.old
            → IsReplay base.now (before ++ held.now ∷ []) self.new) }
    {
        act(alloc, base.rows(), &mut self.latest, held)?;
        self.since = (self.since + 1) % STEP;
        if self.since == 0 {
            self.checkpoints.push(self.latest.copy()?)?;
        }
        Ok(())
    }

    /// More messages are applied.
    pub(crate) fn apply_all(
        &mut self,
        alloc: Global,
        base: &Base,
        messages: &[Held],
    ) -> Result<(), Memory>
        ensures from { self.new.from ≡ self.old.from }
        ensures applied { OnOk result ((before : List Entry) → IsReplay base.now before self.old
            → IsReplay base.now (before ++ messages.now) self.new) }
    {
        for held in messages {
            self.apply(alloc, base, held)?;
        }
        Ok(())
    }
}
