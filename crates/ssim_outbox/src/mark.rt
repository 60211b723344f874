//! The number of what is said of a day.

ghost use Rattle.std.specs.Prelude.{◌≡◌, ◌≤◌, ℕ, nat_eq, IfOk};
ghost use Rattle.std.specs.Cmp.{nat_cmp_total, unsigned_ties};
ghost use Rattle.std.specs.Ordering.{nat_cmp};
ghost use Rattle.std.proofs.Common.{eq-eqb, eqb-true};

use ssim_periods::{Change, Value};
use ssim_values::Memory;
use std::alloc::Global;
use std::cmp::Ordering;
use std::marker::Model;

/// The number of what is said of a day, from 1; 0 if nothing is.
#[derive(Drop)]
pub(crate) struct Mark {
    number: u32,
}

impl Model for Mark {
    ghost use Rattle.std.specs.Prelude.{ℕ};

    ghost Value = { ℕ };

    ghost view = { λ m. m.number };
}

impl Mark {
    /// The number of what has this place in a list, counted from 0.
    pub(crate) fn at(place: usize) -> Mark {
        Mark {
            number: (place as u64 % 4_294_967_295) as u32 + 1,
        }
    }

    /// The place in a list of what has this number, counted from 0.
    pub(crate) fn place(&self) -> usize {
        self.number.saturating_sub(1) as usize
    }
}

impl Value for Mark {
    ghost nothing = { 0 };

    ghost alike = { nat_eq };

    ghost compared = { nat_cmp };

    fn empty() -> Self {
        Mark { number: 0 }
    }

    fn is_empty(&self) -> bool {
        self.number == 0
    }

    fn same(&self, other: &Self) -> bool {
        self.number == other.number
    }

    fn order(&self, other: &Self) -> Ordering {
        self.number.cmp(&other.number)
    }

    fn copy(&self, _alloc: Global) -> Result<Self, Memory> {
        Ok(Mark {
            number: self.number,
        })
    }

    ghost exact = { λ x y. (eqb-true x y, eq-eqb x y) };

    ghost total = { nat_cmp_total };

    ghost told_apart = { unsigned_ties };
}

// A day is marked: it becomes this mark.
impl Change<Mark> for Mark {
    ghost outcome = { λ mark _. mark };

    ghost class_of = { λ _ _. 0 };

    fn after(&self, _alloc: Global, _before: &Mark) -> Result<Mark, Memory> {
        Ok(Mark {
            number: self.number,
        })
    }

    fn class(&self, _before: &Mark) -> u8 {
        0
    }
}
