//! The old and the new itinerary of a date.

ghost use Rattle.std.specs.Prelude.{◌≡◌, IfOk};
ghost use Rattle.ssim_difference.specs.Differences.{difference, no_difference, same_difference};
ghost use Rattle.ssim_difference.specs.clauses.DifferenceLaws.{exact_difference};
ghost use Rattle.ssim_difference.specs.clauses.DifferenceOrder.{difference-told_apart};
ghost use Rattle.ssim_difference.specs.clauses.DifferenceOrder.{difference_cmp};
ghost use Rattle.ssim_difference.specs.clauses.DifferenceOrder.{difference_cmp_total};

use ssim_periods::Value;
use ssim_schedule::Itinerary;
use ssim_values::Memory;
use std::alloc::Global;
use std::cmp::Ordering;

/// The old and the new itinerary of a flight on a date, if they differ; two empty itineraries if
/// they are equal. An itinerary is empty if the flight does not fly.
#[derive(Drop)]
pub struct Difference {
    pub old: Itinerary,
    pub new: Itinerary,
}

impl Difference {
    /// The difference of two itineraries. It shares their legs.
    pub fn between(alloc: Global, old: &Itinerary, new: &Itinerary) -> Result<Difference, Memory>
        ensures { IfOk result (λ between. between ≡ difference old.now new.now) }
    {
        if old.same(new) {
            return Ok(Difference::empty());
        }
        Ok(Difference {
            old: old.copy(alloc)?,
            new: new.copy(alloc)?,
        })
    }
}

impl Value for Difference {
    ghost nothing = { no_difference };

    ghost alike = { same_difference };

    ghost compared = { difference_cmp };

    fn empty() -> Self {
        Difference {
            old: Itinerary::empty(),
            new: Itinerary::empty(),
        }
    }

    fn is_empty(&self) -> bool {
        self.old.is_empty() && self.new.is_empty()
    }

    fn same(&self, other: &Self) -> bool {
        self.old.same(&other.old) && self.new.same(&other.new)
    }

    fn order(&self, other: &Self) -> Ordering {
        self.old.order(&other.old).then(self.new.order(&other.new))
    }

    fn copy(&self, alloc: Global) -> Result<Self, Memory> {
        Ok(Difference {
            old: self.old.copy(alloc)?,
            new: self.new.copy(alloc)?,
        })
    }

    ghost exact = { exact_difference };

    ghost total = { difference_cmp_total };

    ghost told_apart = { difference-told_apart };
}
