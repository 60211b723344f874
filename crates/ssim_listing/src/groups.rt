//! Legs in groups of legs with the same text.

ghost use Rattle.std.specs.Prelude.{◌≡◌, ◌++◌, ℕ, List, IfOk, OnOk, option_map};
ghost use Rattle.ssim_base.specs.Timetable.{Legs};
ghost use Rattle.ssim_listing.specs.LegText.{leg_text};
ghost use Rattle.ssim_listing.specs.Lines.{legs_of};
ghost use Rattle.ssim_listing.specs.clauses.Groups.{group_in, group_of, grown, is_mixed, with_leg};

use crate::leg_text::text_of;
use ssim_schedule::{Itinerary, PlacedLeg};
use ssim_values::{Memory, Period};
use std::alloc::Global;
use std::collections::BTreeMap;

/// Legs that have the same text.
#[derive(Drop)]
pub struct LegGroup<'a> {
    first: &'a PlacedLeg,
    /// Whether one of them differs from the first.
    is_mixed: bool,
}

/// The groups of legs by their texts.
pub type LegGroups<'a> = BTreeMap<Vec<u8>, LegGroup<'a>>;

/// The groups of the legs of all pieces by their lines.
pub(crate) fn groups_of<'a>(
    alloc: Global,
    pieces: &'a [(Period, Itinerary)],
) -> Result<LegGroups<'a>, Memory>
    ensures { IfOk result (λ groups. (text : List ℕ)
        → group_in groups text ≡ group_of leg_text (legs_of pieces.now) text) }
{
    let mut groups = BTreeMap::new(alloc);
    for piece in pieces {
        add_legs(alloc, &mut groups, piece.1.legs())?;
    }
    Ok(groups)
}

// Adds legs to the groups of those before.
fn add_legs<'a>(
    alloc: Global,
    groups: &mut LegGroups<'a>,
    legs: &'a [PlacedLeg],
) -> Result<(), Memory>
    ensures { OnOk result ((before : Legs)
        → ((text : List ℕ) → group_in groups.old text ≡ group_of leg_text before text)
        → (text : List ℕ) → group_in groups.new text ≡ group_of leg_text (before ++ legs.now) text) }
{
    for leg in legs {
        let text = text_of(alloc, leg)?;
        add_leg(groups, text, leg)?;
    }
    Ok(())
}

/// Adds a leg with this text to its group. The only error is out of memory.
pub fn add_leg<'a>(
    groups: &mut LegGroups<'a>,
    text: Vec<u8>,
    leg: &'a PlacedLeg,
) -> Result<(), Memory>
    ensures { OnOk result ((other : List ℕ)
        → group_in groups.new other ≡ with_leg text.items leg.now other (group_in groups.old other)) }
{
    let group = grown(groups.get(text.as_slice()), leg);
    groups.insert(text, group)?;
    Ok(())
}

// A group with one more leg.
fn grown<'a>(group: Option<&LegGroup<'a>>, leg: &'a PlacedLeg) -> LegGroup<'a>
    ensures { (result.first.now, result.is_mixed)
        ≡ grown leg.now (option_map (λ g. (g.now.first.now, g.now.is_mixed)) group.entry) }
{
    match group {
        Some(group) => LegGroup {
            first: group.first,
            is_mixed: group.is_mixed || !group.first.same(leg),
        },
        None => LegGroup {
            first: leg,
            is_mixed: false,
        },
    }
}

/// Whether legs with this text differ.
pub fn are_mixed(groups: &LegGroups<'_>, text: &[u8]) -> bool
    ensures { result ≡ is_mixed (group_in groups.now text.now) }
{
    match groups.get(text) {
        Some(group) => group.is_mixed,
        None => false,
    }
}
