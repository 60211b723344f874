//! The messages of two desks.

ghost use Rattle.std.specs.Prelude.{◌≡◌, [], All, IsSome, IfOk, IfSome, IfNone};
ghost use Rattle.std.specs.FinMap.{get};
ghost use Rattle.ssim_held.specs.Entries.{AreRising, map_of};
ghost use Rattle.ssim_held.specs.Held.{Agree, IsLeastConflict};
ghost use Rattle.ssim_held.specs.clauses.Ordered.{IsFirstNew, IsMerged, IsNext};

use crate::held::Held;
use crate::lookup::{LookUp, look_up};
use ssim_text::Reference;
use ssim_values::Memory;
use std::alloc::Global;
use std::cmp::Ordering;

/// The first reference under which the two hold different messages.
pub fn first_conflict(mine: &[Held], theirs: &[Held]) -> Option<Reference>
    requires mine { AreRising mine.now }
    requires theirs { AreRising theirs.now }
    ensures some { IfSome result (IsLeastConflict (map_of mine.now) (map_of theirs.now)) }
    ensures none { IfNone result (Agree (map_of mine.now) (map_of theirs.now)) }
{
    for held in theirs {
        if let LookUp::Other = look_up(mine, held) {
            return Some(held.reference());
        }
    }
    None
}

/// The first of their messages whose reference is not held: its position among them, and the
/// position where it belongs.
pub fn first_new(mine: &[Held], theirs: &[Held]) -> Option<(usize, usize)>
    requires { AreRising mine.now }
    ensures some { IfSome result (λ new. IsFirstNew mine.now theirs.now new.0 new.1) }
    ensures none { IfNone result
        (All (λ e. IsSome (get (map_of mine.now) e.reference)) theirs.now) }
{
    for (place, held) in theirs.iter().enumerate() {
        if let LookUp::Absent(at) = look_up(mine, held) {
            return Some((place, at));
        }
    }
    None
}

/// The messages of both in order of reference; of two under one reference mine.
pub fn merged(alloc: Global, mine: &[Held], theirs: &[Held]) -> Result<Vec<Held>, Memory>
    ensures { IfOk result (λ all. IsMerged mine.now theirs.now all.items) }
{
    let mut all = Vec::with_capacity(alloc, mine.len())?;
    let mut mine = mine;
    let mut theirs = theirs;
    while let Some((held, mine_left, theirs_left)) = next(mine, theirs) {
        all.push(held.copy()?)?;
        mine = mine_left;
        theirs = theirs_left;
    }
    Ok(all)
}

// The next message of two lists, and what is left of them after it.
fn next<'a>(mine: &'a [Held], theirs: &'a [Held]) -> Option<(&'a Held, &'a [Held], &'a [Held])>
    ensures some { IfSome result
        (λ next. IsNext mine.now theirs.now next.0.now next.1.now next.2.now) }
    ensures none { IfNone result ((mine.now ≡ []) × (theirs.now ≡ [])) }
{
    match (mine.split_first(), theirs.split_first()) {
        (None, None) => None,
        (Some((first, left)), None) => Some((first, left, theirs)),
        (None, Some((first, left))) => Some((first, mine, left)),
        (Some((one, mine_left)), Some((other, theirs_left))) => {
            match one.reference().order(&other.reference()) {
                Ordering::Less => Some((one, mine_left, theirs)),
                Ordering::Equal => Some((one, mine_left, theirs_left)),
                Ordering::Greater => Some((other, mine, theirs_left)),
            }
        }
    }
}
