//! An itinerary and its maker.

ghost use Rattle.std.specs.Prelude.{◌≡◌, if◌then◌else◌, IfOk};
ghost use Rattle.ssim_blame.specs.Makers.{is_acted};
ghost use Rattle.ssim_blame.specs.declared.maker.Maker.TheVariants.{Sub};
ghost use Rattle.ssim_blame.specs.internal.Made.{acted, from_data_set, made_cmp, nothing_made};
ghost use Rattle.ssim_blame.specs.internal.Made.{same_made};
ghost use Rattle.ssim_blame.specs.internal.MadeLaws.{exact_made, made-told_apart, made_cmp_total};

use crate::maker::{Maker, SubName};
use ssim_base::StationRow;
use ssim_periods::{Change, Value};
use ssim_schedule::{FlightDate, Itinerary, Reason, copy_legs};
use ssim_text::Action;
use ssim_values::{Day, Memory};
use std::alloc::Global;
use std::cmp::Ordering;

/// What a flight has on a date, and who made it.
#[derive(Drop)]
pub(crate) struct MadeItinerary {
    /// No legs if the flight does not fly.
    pub itinerary: Itinerary,
    pub maker: Maker,
}

impl Value for MadeItinerary {
    ghost nothing = { nothing_made };

    ghost alike = { same_made };

    ghost compared = { made_cmp };

    fn empty() -> Self {
        MadeItinerary {
            itinerary: Itinerary::empty(),
            maker: Maker::Nobody,
        }
    }

    fn is_empty(&self) -> bool {
        self.itinerary.is_empty() && self.maker.is_empty()
    }

    fn same(&self, other: &Self) -> bool {
        self.itinerary.same(&other.itinerary) && self.maker.same(&other.maker)
    }

    fn order(&self, other: &Self) -> Ordering {
        self.itinerary
            .order(&other.itinerary)
            .then(self.maker.order(&other.maker))
    }

    fn copy(&self, alloc: Global) -> Result<Self, Memory> {
        Ok(MadeItinerary {
            itinerary: self.itinerary.copy(alloc)?,
            maker: self.maker,
        })
    }

    ghost exact = { exact_made };

    ghost total = { made_cmp_total };

    ghost told_apart = { made-told_apart };
}

/// A date gets the itinerary of the data set.
impl Change<MadeItinerary> for Itinerary {
    ghost outcome = { λ itinerary _. from_data_set itinerary };

    ghost class_of = { λ _ _. 0 };

    fn after(&self, alloc: Global, _before: &MadeItinerary) -> Result<MadeItinerary, Memory> {
        Ok(MadeItinerary {
            itinerary: self.copy(alloc)?,
            maker: Maker::of_data_set(self),
        })
    }

    fn class(&self, _before: &MadeItinerary) -> u8 {
        0
    }
}

/// A date gets the maker alone.
impl Change<Maker> for MadeItinerary {
    ghost outcome = { λ made _. made.maker };

    ghost class_of = { λ _ _. 0 };

    fn after(&self, _alloc: Global, _before: &Maker) -> Result<Maker, Memory> {
        Ok(self.maker)
    }

    fn class(&self, _before: &Maker) -> u8 {
        0
    }
}

/// A sub-message that acts on dates as on this day.
#[derive(Clone, Copy)]
pub(crate) struct SubOnDay<'a, 'b> {
    pub rows: &'a [StationRow],
    pub action: &'b Action,
    pub day: Day,
    pub name: SubName,
}

impl SubOnDay<'_, '_> {
    // The maker after the sub-message, which found this.
    fn maker_after(&self, reason: Reason, before: Maker) -> Maker
        ensures { result ≡ (if is_acted reason then Sub self.now.name else before) }
    {
        if reason == Reason::Acted {
            Maker::Sub(self.name)
        } else {
            before
        }
    }
}

impl Change<MadeItinerary> for SubOnDay<'_, '_> {
    ghost outcome = { λ sub before. acted sub.rows.now sub.action.now sub.day sub.name before };

    ghost class_of = { λ _ _. 0 };

    fn after(&self, alloc: Global, before: &MadeItinerary) -> Result<MadeItinerary, Memory> {
        let legs = copy_legs(alloc, before.itinerary.legs())?;
        let mut date = FlightDate::of(alloc, self.day, legs)?;
        let reason = date.act(self.rows, self.action)?;
        Ok(MadeItinerary {
            itinerary: date.itinerary()?,
            maker: self.maker_after(reason, before.maker),
        })
    }

    fn class(&self, _before: &MadeItinerary) -> u8 {
        0
    }
}
