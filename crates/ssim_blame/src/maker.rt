//! Who made what a flight has on a date.

ghost use Rattle.std.specs.Prelude.{◌≡◌, drop};
ghost use Rattle.std.specs.Cmp.Lexicographic.{slice_cmp};
ghost use Rattle.std.specs.Ordering.{nat_cmp};
ghost use Rattle.ssim_blame.specs.Makers.{action_number, data_set_maker, maker_numbers, same_maker};
ghost use Rattle.ssim_blame.specs.clauses.MakerOrder.{maker_cmp, maker_cmp_total};
ghost use Rattle.ssim_blame.specs.clauses.MakerOrder.{makers_told_apart, same_maker_exact};

use ssim_periods::{Change, Value};
use ssim_schedule::Itinerary;
use ssim_text::{ActionIdentifier, Reference};
use ssim_values::Memory;
use std::alloc::Global;
use std::cmp::Ordering;

/// A sub-message of a message that a desk holds.
#[derive(Clone, Copy, Debug, PartialEq, Eq)]
pub struct SubName {
    /// The reference of the message.
    pub reference: Reference,
    /// The number of the sub-message in its message, from 1.
    pub sub: usize,
    pub action: ActionIdentifier,
}

/// Who made what a flight has on a date.
#[derive(Clone, Copy, Debug, PartialEq, Eq)]
pub enum Maker {
    /// No sub-message acted, and the data set does not have the flight.
    Nobody,
    /// No sub-message acted, and the data set has the flight.
    DataSet,
    /// The last sub-message that acted.
    Sub(SubName),
}

impl SubName {
    // The order of two sub-messages: by number, by action, then by reference.
    fn order(&self, other: &SubName) -> Ordering
        ensures { result ≡ slice_cmp nat_cmp (drop 1 (maker_numbers (Maker.Sub self.now)))
            (drop 1 (maker_numbers (Maker.Sub other.now))) }
    {
        let action = number_of(self.action).cmp(&number_of(other.action));
        let later = action.then(self.reference.order(&other.reference));
        self.sub.cmp(&other.sub).then(later)
    }
}

// The number of an action.
fn number_of(action: ActionIdentifier) -> u8
    ensures { result ≡ action_number action }
{
    match action {
        ActionIdentifier::New => 0,
        ActionIdentifier::Cnl => 1,
        ActionIdentifier::Rpl => 2,
        ActionIdentifier::Eqt => 3,
        ActionIdentifier::Tim => 4,
    }
}

impl Maker {
    /// The maker of what the data set has: the data set, or nobody.
    pub(crate) fn of_data_set(itinerary: &Itinerary) -> Maker
        ensures { result ≡ data_set_maker itinerary.now }
    {
        if itinerary.is_empty() {
            Maker::Nobody
        } else {
            Maker::DataSet
        }
    }
}

impl Value for Maker {
    ghost use Rattle.ssim_blame.specs.declared.maker.Maker.TheVariants.{Nobody};

    ghost nothing = { Nobody };

    ghost alike = { same_maker };

    ghost compared = { maker_cmp };

    fn empty() -> Self {
        Maker::Nobody
    }

    fn is_empty(&self) -> bool {
        match self {
            Maker::Nobody => true,
            Maker::DataSet | Maker::Sub(_) => false,
        }
    }

    fn same(&self, other: &Self) -> bool {
        self.order(other).is_eq()
    }

    fn order(&self, other: &Self) -> Ordering {
        match self {
            Maker::Nobody => match other {
                Maker::Nobody => Ordering::Equal,
                Maker::DataSet | Maker::Sub(_) => Ordering::Less,
            },
            Maker::DataSet => match other {
                Maker::Nobody => Ordering::Greater,
                Maker::DataSet => Ordering::Equal,
                Maker::Sub(_) => Ordering::Less,
            },
            Maker::Sub(name) => match other {
                Maker::Nobody | Maker::DataSet => Ordering::Greater,
                Maker::Sub(other) => name.order(other),
            },
        }
    }

    fn copy(&self, _alloc: Global) -> Result<Self, Memory> {
        Ok(*self)
    }

    ghost exact = { same_maker_exact };

    ghost total = { maker_cmp_total };

    ghost told_apart = { makers_told_apart };
}
