//! Legs as keys of maps.

ghost use Rattle.std.specs.Prelude.{◌≡◌};
ghost use Rattle.std.proofs.Common.{rules};
ghost use Rattle.std.specs.Cmp.{partial_order_from_own_ties};
ghost use Rattle.std.specs.Cmp.Rules.{comparing};
ghost use Rattle.std.specs.Ordering.{as_partial_cmp, nat_cmp};

use crate::timetable::flight_table::place;
use ssim_records::LegName;
use std::cmp::Ordering;
use std::marker::Model;

/// A leg of an itinerary variation of a flight, as a key of maps. Keys rise by flight, variation
/// and sequence. A key is one number, since a data set has many legs and a look-up compares keys
/// many times.
#[derive(Clone, Copy, Debug, PartialEq, Eq)]
pub(crate) struct LegKey {
    number: u64,
}

impl Model for LegKey {
    ghost use Rattle.std.specs.Prelude.{ℕ};

    ghost Value = { ℕ };

    ghost view = { λ k. k.number };

    ghost inverse = { λ n. record { number = n } };
}

impl LegKey {
    ghost use Rattle.ssim_schedule.specs.internal.LegKey.{IsPlaced, name_place};

    /// A key that is not greater than any other.
    pub(crate) fn first() -> LegKey {
        LegKey { number: 0 }
    }

    /// The key of the leg with this name.
    pub(crate) fn of(name: LegName) -> LegKey
        ensures value { result ≡ name_place name }
        ensures named { IsPlaced name }
    {
        LegKey {
            number: (place(name.flight()) as u64 * 100 + name.variation() as u64) * 100
                + name.sequence() as u64,
        }
    }
}

impl Ord for LegKey {
    ghost cmp = { nat_cmp };

    ghost total = { Prim.search (comparing, rules) };

    ghost matches_partial_cmp = { Prim.search (comparing, rules) };

    ghost matches_eq = { Prim.search (comparing, rules) };

    fn cmp(&self, other: &LegKey) -> Ordering {
        self.number.cmp(&other.number)
    }
}

impl PartialOrd for LegKey {
    ghost partial_cmp = { as_partial_cmp nat_cmp };

    ghost laws = { partial_order_from_own_ties (Prim.search (comparing, rules))
        (Prim.search (comparing, rules)) };

    fn partial_cmp(&self, other: &LegKey) -> Option<Ordering> {
        Some(self.cmp(other))
    }
}
