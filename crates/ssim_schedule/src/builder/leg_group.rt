//! Legs of one flight and one period, which are put into the timetable together.

ghost use Rattle.std.specs.Prelude.{◌≡◌, ◌<◌, ◌%◌, ◌^◌, ◌∷◌, [], true, IfOk, OnOk, Some, reverse};
ghost use Rattle.ssim_base.specs.Export.{same_itinerary};
ghost use Rattle.ssim_schedule.specs.internal.LegGroup.{StartsFrom, no_group};
ghost use Rattle.ssim_schedule.specs.internal.SharedLegs.{hash_of};

use crate::itinerary::Itinerary;
use crate::leg::PlacedLeg;
use ssim_records::{LegRecord, SegmentTail};
use ssim_values::{Flight, Memory, Period};
use std::alloc::Global;
use std::marker::Model;
use std::mem;

/// The flight and the period that the legs of a group share.
#[derive(Clone, Copy, Debug)]
pub(crate) struct Heading {
    pub flight: Flight,
    pub period: Period,
}

impl Heading {
    fn is(self, flight: Flight, period: Period) -> bool
        ensures { result ≡ true → self ≡ record { flight = flight; period = period } }
    {
        self.flight == flight && self.period == period
    }
}

/// Legs of one flight and one period. They come from the last to the first, and their leg sequences
/// do not rise. A file mostly has the legs of an itinerary in this order.
#[derive(Drop)]
pub(crate) struct LegGroup {
    /// None until the first leg comes.
    heading: Option<Heading>,
    /// The last leg first. The room stays when the legs are taken out, for the next group.
    legs: Vec<PlacedLeg>,
    /// How many itineraries were made since they were last counted.
    made: usize,
    alloc: Global,
}

impl Model for LegGroup {
    ghost use Rattle.std.specs.Prelude.{reverse};
    ghost use Rattle.ssim_schedule.specs.internal.LegGroup.{Group};

    ghost Value = { Group };

    ghost view = { λ g. record { heading = g.heading; legs = reverse g.legs.items } };
}

impl LegGroup {
    /// No legs.
    pub(crate) fn new(alloc: Global) -> LegGroup
        ensures { result ≡ no_group }
    {
        LegGroup {
            heading: None,
            legs: Vec::new(alloc),
            made: 0,
            alloc,
        }
    }

    /// The flight and the period, if there is a group.
    pub(crate) fn heading(&self) -> Option<Heading>
        ensures { result ≡ self.now.heading }
    {
        self.heading
    }

    /// Whether a leg of this flight, period and leg sequence is allowed before the legs.
    pub(crate) fn takes(&self, flight: Flight, period: Period, sequence: u8) -> bool
        ensures heading { result ≡ true
            → self.now.heading ≡ Some (record { flight = flight; period = period }) }
        ensures order { result ≡ true → StartsFrom sequence self.now.legs }
    {
        match self.heading {
            Some(heading) if heading.is(flight, period) => match self.legs.last() {
                None => true,
                Some(first) => sequence <= first.sequence(),
            },
            _ => false,
        }
    }

    /// Begins a group with this flight and period.
    pub(crate) fn begin(&mut self, flight: Flight, period: Period)
        requires { self.old ≡ no_group }
        ensures { self.new ≡ record {
          heading = Some (record { flight = flight; period = period });
          legs = [];
        } }
    {
        self.heading = Some(Heading { flight, period });
    }

    /// Adds the leg of a record, with these tails, before the others.
    pub(crate) fn add(&mut self, leg: &LegRecord, tails: Vec<SegmentTail>) -> Result<(), Memory>
        requires { StartsFrom leg.now.name.sequence self.old.legs }
        ensures { OnOk result (self.new
            ≡ record self.old {
              legs = record {
                sequence = leg.now.name.sequence;
                columns = leg.now.columns;
                tails = tails.items;
              } ∷ self.old.legs;
            }) }
    {
        // If the room is made first, the columns are copied once.
        self.legs.reserve(1)?;
        self.legs.push_reserved(PlacedLeg::new(leg.name().sequence(), leg.columns(), tails));
        Ok(())
    }

    /// Whether the legs, in the order of their records, are these.
    pub(crate) fn is_of(&self, legs: &[PlacedLeg]) -> bool
        ensures { result ≡ same_itinerary self.now.legs legs.now }
    {
        are_reversed(&self.legs, legs)
    }

    /// The hash of the itinerary of the legs.
    pub(crate) fn hash(&self) -> u32
        ensures { result ≡ hash_of self.now.legs % 4294967296 }
    {
        (hash_of_reversed(&self.legs) % 4_294_967_296) as u32
    }

    /// Takes the legs out, as an itinerary of their own. `hash` is the hash of the legs.
    pub(crate) fn take_new(&mut self, hash: u32) -> Result<Itinerary, Memory>
        requires { hash ≡ hash_of self.old.legs % 4294967296 }
        ensures { IfOk result (λ itinerary. itinerary ≡ self.old.legs) }
    {
        let mut room = mem::replace(&mut self.legs, Vec::new(self.alloc));
        let itinerary = Itinerary::of_reversed(self.alloc, &mut room, hash)?;
        self.legs = room;
        self.made = self.made.saturating_add(1);
        Ok(itinerary)
    }

    /// Leaves no group.
    pub(crate) fn clear(&mut self)
        ensures { self.new ≡ no_group }
    {
        self.heading = None;
        self.legs.clear();
    }

    /// How many itineraries were made since the last call.
    pub(crate) fn take_made(&mut self) -> usize
        ensures { self.new ≡ self.old }
    {
        mem::replace(&mut self.made, 0)
    }
}

/// Whether the legs in the room, from the last to the first, are these.
fn are_reversed(room: &[PlacedLeg], legs: &[PlacedLeg]) -> bool
    ensures { result ≡ same_itinerary (reverse room.now) legs.now }
{
    match room.split_last() {
        None => legs.is_empty(),
        Some((leg, rest)) => match legs.split_first() {
            None => false,
            Some((other, others)) => leg.same(other) && are_reversed(rest, others),
        },
    }
}

// The hash of the legs in the room, from the last to the first.
fn hash_of_reversed(room: &[PlacedLeg]) -> u64
    ensures value { result ≡ hash_of (reverse room.now) }
    ensures bound { result < 2 ^ 56 }
{
    match room.split_last() {
        None => 0,
        Some((leg, later)) => hash_of_reversed(later) % 4_294_967_296 * 7_919 + leg.hash(),
    }
}
