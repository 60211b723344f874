//! The legs of a flight on one date, shared by all dates that have them.

ghost use Rattle.std.specs.Prelude.{◌≡◌, ◌<◌, ◌≤◌, ◌%◌, ◌^◌, ◌++◌, [], IfNone, IfOk, IfSome};
ghost use Rattle.std.specs.Prelude.{OnOk, length, reverse};
ghost use Rattle.ssim_base.specs.Export.{same_itinerary};
ghost use Rattle.ssim_base.specs.clauses.ItineraryLaws.{exact_itinerary};
ghost use Rattle.ssim_schedule.specs.clauses.ItineraryOrder.{itinerary_cmp};
ghost use Rattle.ssim_schedule.specs.clauses.ItineraryOrderLaws.{itinerary-told_apart};
ghost use Rattle.ssim_schedule.specs.clauses.ItineraryOrderLaws.{itinerary_cmp_total};
ghost use Rattle.ssim_schedule.specs.clauses.PlacedLegs.{legs_before, placed_each};
ghost use Rattle.ssim_schedule.specs.internal.SharedLegs.{legs_count};
ghost use Rattle.ssim_schedule.specs.internal.SharedLegs.{CountsRecords, hash_of, legs_of};

use crate::leg::PlacedLeg;
use ssim_periods::{Change, Value};
use ssim_values::Memory;
use std::alloc::Global;
use std::cmp::Ordering;
use std::marker::Model;
use std::rc::Rc;

/// The most records that are counted for an itinerary. An export has fewer.
pub(crate) const MOST_RECORDS: u32 = 999_999;

/// The legs of an itinerary, which its copies share. One leg or two, as most flights have, lie in
/// one place in memory.
#[derive(Drop)]
pub(crate) enum SharedLegs {
    None,
    One(Rc<[PlacedLeg; 1]>),
    Two(Rc<[PlacedLeg; 2]>),
    More(Rc<Vec<PlacedLeg>>),
}

/// An itinerary: the legs of a flight on one date, by rising leg sequence; no legs if it does not
/// fly. Copies share the legs.
#[derive(Drop)]
pub struct Itinerary {
    legs: SharedLegs,
    /// The hash of the legs. Itineraries with different hashes are different.
    hash: u32,
    /// How many records the legs have, or 999,999 if they have more.
    records: u32,
}

impl Model for Itinerary {
    ghost use Rattle.std.specs.Prelude.{◌≡◌, ◌%◌};
    ghost use Rattle.ssim_base.specs.Timetable.{Legs};
    ghost use Rattle.ssim_schedule.specs.internal.SharedLegs.{CountsRecords, legs_of, hash_of};

    ghost Value = { Legs };

    ghost view = { λ i. legs_of i.legs };

    ghost invariant = { λ i. (i.hash ≡ hash_of (legs_of i.legs) % 4294967296)
        × CountsRecords i.records (legs_of i.legs) };
}

impl Itinerary {
    /// The itinerary of these legs.
    pub(crate) fn of(alloc: Global, legs: Vec<PlacedLeg>) -> Result<Itinerary, Memory>
        ensures { IfOk result (λ itinerary. itinerary ≡ legs.items) }
    {
        Ok(Itinerary::of_shared(SharedLegs::More(Rc::new(alloc, legs)?)))
    }

    /// The itinerary of the legs of a list, of which the last comes first, with their hash. Takes
    /// them out of the list, which keeps its room.
    pub(crate) fn of_reversed(
        alloc: Global,
        room: &mut Vec<PlacedLeg>,
        hash: u32,
    ) -> Result<Itinerary, Memory>
        requires { hash ≡ hash_of (reverse room.old.items) % 4294967296 }
        ensures itinerary { IfOk result (λ itinerary. itinerary ≡ reverse room.old.items) }
        ensures rest { OnOk result (room.new.items ≡ []) }
    {
        let legs = SharedLegs::of_reversed(alloc, room)?;
        Ok(Itinerary::hashed(legs, hash))
    }

    // The itinerary of legs that are in one place.
    fn of_shared(legs: SharedLegs) -> Itinerary
        ensures { result ≡ legs_of legs }
    {
        let hash = short_hash(legs.as_slice());
        Itinerary::hashed(legs, hash)
    }

    // The itinerary of legs that are in one place, and have this hash.
    fn hashed(legs: SharedLegs, hash: u32) -> Itinerary
        requires { hash ≡ hash_of (legs_of legs) % 4294967296 }
        ensures { result ≡ legs_of legs }
    {
        let records = counted(legs.as_slice());
        Itinerary {
            legs,
            hash,
            records,
        }
    }

    /// How many records the legs have, if they are fewer than 999,999.
    pub(crate) fn records(&self) -> Option<u32>
        ensures some { IfSome result (λ count. (count ≡ legs_count self.now) × (count < 999999)) }
        ensures none { IfNone result (999999 ≤ legs_count self.now) }
    {
        if self.records < MOST_RECORDS {
            Some(self.records)
        } else {
            None
        }
    }

    /// The low 32 bits of the hash of the legs.
    pub(crate) fn hash(&self) -> u32
        ensures { result ≡ hash_of self.now % 4294967296 }
    {
        self.hash
    }

    /// The legs.
    pub fn legs(&self) -> &[PlacedLeg]
        ensures { result.now ≡ self.now }
    {
        self.legs.as_slice()
    }
}

impl SharedLegs {
    // The legs of a list, of which the last comes first. Takes them out of the list.
    fn of_reversed(alloc: Global, room: &mut Vec<PlacedLeg>) -> Result<SharedLegs, Memory>
        ensures legs { IfOk result (λ legs. legs_of legs ≡ reverse room.old.items) }
        ensures rest { OnOk result (room.new.items ≡ []) }
    {
        match room.len() {
            1 => Ok(SharedLegs::One(Rc::new(alloc, [room.take_last()])?)),
            2 => {
                let pair = [room.take_last(), room.take_last()];
                Ok(SharedLegs::Two(Rc::new(alloc, pair)?))
            }
            _ => {
                let legs = taken_from(alloc, room)?;
                Ok(SharedLegs::More(Rc::new(alloc, legs)?))
            }
        }
    }

    fn as_slice(&self) -> &[PlacedLeg]
        ensures { result.now ≡ legs_of self.now }
    {
        match self {
            SharedLegs::None => &[],
            SharedLegs::One(legs) => &legs[..],
            SharedLegs::Two(legs) => &legs[..],
            SharedLegs::More(legs) => legs.as_slice(),
        }
    }

    // A copy that shares the same legs. It allocates nothing.
    fn copy(&self) -> Result<SharedLegs, Memory>
        ensures { IfOk result (λ copy. legs_of copy ≡ legs_of self.now) }
    {
        match self {
            SharedLegs::None => Ok(SharedLegs::None),
            SharedLegs::One(legs) => Ok(SharedLegs::One(legs.clone()?)),
            SharedLegs::Two(legs) => Ok(SharedLegs::Two(legs.clone()?)),
            SharedLegs::More(legs) => Ok(SharedLegs::More(legs.clone()?)),
        }
    }
}

// The low 32 bits of the hash of legs.
fn short_hash(legs: &[PlacedLeg]) -> u32
    ensures { result ≡ hash_of legs.now % 4294967296 }
{
    (hash_of(legs) % 4_294_967_296) as u32
}

// How many records legs have, or 999,999 if they have more.
fn counted(legs: &[PlacedLeg]) -> u32
    ensures { CountsRecords result legs.now }
{
    match count_legs(legs) {
        Some(count) => count,
        None => MOST_RECORDS,
    }
}

// How many records legs have, if they are fewer than 999,999.
fn count_legs(legs: &[PlacedLeg]) -> Option<u32>
    ensures some { IfSome result (λ count. (count ≡ legs_count legs.now) × (count < 999999)) }
    ensures none { IfNone result (999999 ≤ legs_count legs.now) }
{
    let mut count = 0;
    for leg in legs {
        let tails = leg.tails().len();
        if tails >= (999_998 - count) as usize {
            return None;
        }
        count += 1 + tails as u32;
    }
    Some(count)
}

// The legs of a list, from the last to the first, in a list without spare room. Takes them out of
// the first list.
fn taken_from(alloc: Global, room: &mut Vec<PlacedLeg>) -> Result<Vec<PlacedLeg>, Memory>
    ensures legs { IfOk result (λ legs. legs.items ≡ reverse room.old.items) }
    ensures rest { OnOk result (room.new.items ≡ []) }
{
    let mut legs = Vec::with_capacity(alloc, room.len())?;
    while !room.is_empty() {
        legs.push_reserved(room.take_last());
    }
    Ok(legs)
}

// The hash of legs: each leg is added to the hash of the later ones.
fn hash_of(legs: &[PlacedLeg]) -> u64
    ensures value { result ≡ hash_of legs.now }
    ensures bound { result < 2 ^ 56 }
{
    match legs.split_first() {
        None => 0,
        Some((leg, later)) => hash_of(later) % 4_294_967_296 * 7_919 + leg.hash(),
    }
}

// Legs placed among others: each comes before the first of those that are left of the others whose
// leg sequence is not lower.
fn placed_each(
    alloc: Global,
    legs: &[PlacedLeg],
    others: &[PlacedLeg],
) -> Result<Vec<PlacedLeg>, Memory>
    ensures { IfOk result (λ all. all.items ≡ placed_each legs.now others.now) }
{
    let mut all = Vec::with_capacity(alloc, legs.len() + others.len())?;
    let mut from = 0;
    for leg in legs {
        let place = from + place_among(leg, &others[from..]);
        push_copies(alloc, &mut all, &others[from..place])?;
        all.push(leg.copy(alloc)?)?;
        from = place;
    }
    push_copies(alloc, &mut all, &others[from..])?;
    Ok(all)
}

// The index of the first leg whose leg sequence is not lower.
fn place_among(leg: &PlacedLeg, legs: &[PlacedLeg]) -> usize
    ensures within { result ≤ length legs.now }
    ensures place { result ≡ legs_before leg.now.sequence legs.now }
{
    for (place, other) in legs.iter().enumerate() {
        if other.sequence() >= leg.sequence() {
            return place;
        }
    }
    legs.len()
}

fn push_copies(alloc: Global, all: &mut Vec<PlacedLeg>, legs: &[PlacedLeg]) -> Result<(), Memory>
    ensures { OnOk result (all.new.items ≡ all.old.items ++ legs.now) }
{
    for leg in legs {
        all.push(leg.copy(alloc)?)?;
    }
    Ok(())
}

/// Whether two itineraries are equal, by their legs.
pub fn same_legs(mine: &[PlacedLeg], theirs: &[PlacedLeg]) -> bool
    ensures { result ≡ same_itinerary mine.now theirs.now }
{
    match mine.split_first() {
        None => theirs.is_empty(),
        Some((leg, legs)) => match theirs.split_first() {
            None => false,
            Some((other, others)) => leg.same(other) && same_legs(legs, others),
        },
    }
}

// The order of two itineraries, by their legs.
fn order_of_legs(mine: &[PlacedLeg], theirs: &[PlacedLeg]) -> Ordering
    ensures { result ≡ itinerary_cmp mine.now theirs.now }
{
    match mine.split_first() {
        None => match theirs.split_first() {
            None => Ordering::Equal,
            Some(_) => Ordering::Less,
        },
        Some((leg, legs)) => match theirs.split_first() {
            None => Ordering::Greater,
            Some((other, others)) => {
                let order = leg.order(other);
                if order.is_ne() {
                    return order;
                }
                order_of_legs(legs, others)
            }
        },
    }
}

impl Value for Itinerary {
    ghost nothing = { [] };

    ghost alike = { same_itinerary };

    ghost compared = { itinerary_cmp };

    fn empty() -> Self {
        Itinerary {
            legs: SharedLegs::None,
            hash: 0,
            records: 0,
        }
    }

    fn is_empty(&self) -> bool {
        self.legs().is_empty()
    }

    fn same(&self, other: &Self) -> bool {
        self.hash == other.hash && same_legs(self.legs(), other.legs())
    }

    fn order(&self, other: &Self) -> Ordering {
        order_of_legs(self.legs(), other.legs())
    }

    fn copy(&self, _alloc: Global) -> Result<Self, Memory> {
        Ok(Itinerary {
            legs: self.legs.copy()?,
            hash: self.hash,
            records: self.records,
        })
    }

    ghost exact = { exact_itinerary };

    ghost total = { itinerary_cmp_total };

    ghost told_apart = { itinerary-told_apart };
}

/// As a change, an itinerary puts its legs among those of a date, each by its leg sequence. All
/// dates that had none before share its legs.
impl Change<Itinerary> for Itinerary {
    ghost use Rattle.ssim_schedule.specs.clauses.PlacedLegs.{placed_each};

    ghost outcome = { placed_each };

    ghost class_of = { λ _ _. 0 };

    fn after(&self, alloc: Global, old: &Itinerary) -> Result<Itinerary, Memory> {
        if old.is_empty() {
            return self.copy(alloc);
        }
        Itinerary::of(alloc, placed_each(alloc, self.legs(), old.legs())?)
    }

    fn class(&self, _old: &Itinerary) -> u8 {
        0
    }
}
