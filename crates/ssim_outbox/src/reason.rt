//! Why no messages make an itinerary of another.

ghost use Rattle.std.specs.Prelude.{◌≡◌, ◌≤◌, ◌+◌, [], IfOk, length};
ghost use Rattle.std.specs.Cmp.Lexicographic.{nat_list_cmp_total, slice_cmp};
ghost use Rattle.std.specs.Ordering.{nat_cmp};
ghost use Rattle.std.specs.Str.{bytes_eq};
ghost use Rattle.std.proofs.Common.{sym};
ghost use Rattle.std.proofs.lemmas.Map.Text.{is_eq-slice_cmp};
ghost use Rattle.std.proofs.lemmas.Slice.Eq.{bytes_eq-Decides};
ghost use Rattle.ssim_outbox.specs.Reason.{are_numbered, are_numbered_from, or_other};
ghost use Rattle.ssim_outbox.specs.Reason.{reason_words, words_of_legs};

use crate::leg_change::words_of_legs;
use crate::retimed_legs::have_same_route;
use ssim_base::StationRow;
use ssim_difference::Difference;
use ssim_periods::{Change, Value};
use ssim_schedule::PlacedLeg;
use ssim_values::{Day, Memory};
use std::alloc::Global;
use std::cmp::Ordering;
use std::marker::Model;

/// The most leg lines of a sub-message.
const MOST_LEGS: usize = 20;

/// Why no messages make an itinerary of another: words, each with a blank before it. No words if
/// there is nothing to say.
#[derive(Drop)]
pub(crate) struct UnsaidReason {
    /// None if there are no words.
    words: Option<Vec<u8>>,
}

impl Model for UnsaidReason {
    ghost use Rattle.std.specs.Prelude.{List, ℕ};
    ghost use Rattle.ssim_outbox.specs.internal.ReasonPieces.{words_in};

    ghost Value = { List ℕ };

    ghost view = { λ r. words_in r.words };
}

impl UnsaidReason {
    /// The reason why no messages make the new itinerary of a difference of the old one, by these
    /// rows of a station table.
    pub(crate) fn of(
        alloc: Global,
        rows: &[StationRow],
        day: Day,
        difference: &Difference,
    ) -> Result<UnsaidReason, Memory>
        ensures { IfOk result (λ reason. reason
            ≡ reason_words rows.now day difference.now.old difference.now.new) }
    {
        let words = words_of(
            alloc,
            rows,
            day,
            difference.old.legs(),
            difference.new.legs(),
        )?;
        Ok(UnsaidReason { words: Some(words) })
    }

    /// Its words.
    pub(crate) fn words(&self) -> &[u8]
        ensures { result.now ≡ self.now }
    {
        match &self.words {
            None => &[],
            Some(words) => words.as_slice(),
        }
    }
}

impl Value for UnsaidReason {
    ghost nothing = { [] };

    ghost alike = { bytes_eq };

    ghost compared = { slice_cmp nat_cmp };

    fn empty() -> Self {
        UnsaidReason { words: None }
    }

    fn is_empty(&self) -> bool {
        self.words().is_empty()
    }

    fn same(&self, other: &Self) -> bool {
        self.words() == other.words()
    }

    fn order(&self, other: &Self) -> Ordering {
        self.words().cmp(other.words())
    }

    fn copy(&self, alloc: Global) -> Result<Self, Memory> {
        Ok(UnsaidReason {
            words: Some(Vec::from_slice(alloc, self.words())?),
        })
    }

    ghost exact = { bytes_eq-Decides };

    ghost total = { nat_list_cmp_total };

    ghost told_apart = { λ x y. sym (is_eq-slice_cmp x y) };
}

// A day gets the reason.
impl Change<UnsaidReason> for UnsaidReason {
    ghost outcome = { λ reason _. reason };

    ghost class_of = { λ _ _. 0 };

    fn after(&self, alloc: Global, _before: &UnsaidReason) -> Result<UnsaidReason, Memory> {
        self.copy(alloc)
    }

    fn class(&self, _before: &UnsaidReason) -> u8 {
        0
    }
}

// The words of the reason why no messages make new legs of old ones on a day.
fn words_of(
    alloc: Global,
    rows: &[StationRow],
    day: Day,
    old: &[PlacedLeg],
    new: &[PlacedLeg],
) -> Result<Vec<u8>, Memory>
    ensures { IfOk result
        (λ words. words.items ≡ reason_words rows.now day old.now new.now) }
{
    if have_same_route(old, new) {
        return or_other(words_of_legs(alloc, rows, day, old, new)?);
    }
    if are_numbered(new) {
        return or_other(words_of_legs(alloc, rows, day, &[], new)?);
    }
    Ok(Vec::from_slice(alloc, b" sequence")?)
}

// The words; `other` if there are none.
fn or_other(words: Vec<u8>) -> Result<Vec<u8>, Memory>
    ensures { IfOk result (λ all. all.items ≡ or_other words.items) }
{
    let mut words = words;
    if words.is_empty() {
        words.extend_from_slice(b" other")?;
    }
    Ok(words)
}

// Whether there are up to twenty legs, whose leg sequences are 1, 2 and so on.
fn are_numbered(legs: &[PlacedLeg]) -> bool
    ensures { result ≡ are_numbered legs.now }
{
    legs.len() <= MOST_LEGS && are_numbered_from(1, legs)
}

// Whether the leg sequences of up to twenty legs are a number and so on.
fn are_numbered_from(number: u8, legs: &[PlacedLeg]) -> bool
    requires { number + length legs.now ≤ 21 }
    ensures { result ≡ are_numbered_from number legs.now }
{
    match legs.split_first() {
        None => true,
        Some((leg, later)) => leg.sequence() == number && are_numbered_from(number + 1, later),
    }
}
