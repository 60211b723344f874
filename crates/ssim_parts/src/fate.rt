//! What becomes of a flight date in the other time mode.

ghost use Rattle.std.specs.Prelude.{◌≡◌};
ghost use Rattle.ssim_parts.specs.Fates.{fate_cmp, fate_code, same_fate};
ghost use Rattle.ssim_parts.specs.internal.FateOrder.{fate_cmp_total, fates_told_apart};
ghost use Rattle.ssim_parts.specs.internal.FateOrder.{same_fate_exact};
ghost use Rattle.ssim_parts.specs.internal.KeptDates.{is_kept_with};

use ssim_periods::{Change, Value};
use ssim_values::Memory;
use std::alloc::Global;
use std::cmp::Ordering;

/// Why a flight date has no place in a data set of the other time mode. Numbers are leg sequences.
#[derive(Clone, Copy, Debug, PartialEq, Eq)]
pub enum LeftReason {
    /// A UTC variation of the leg is blank, and no row of the station table has its station and the
    /// date.
    Station(u8),
    /// A date variation of the leg is neither digit nor blank.
    Letter(u8),
    /// The new date is before 1 January 2000 or after 31 December 2099.
    Calendar,
    /// A date variation of the leg would be below 0 or above 9.
    Days(u8),
    /// An earlier date of the flight comes to the same new date.
    Date,
}

/// What becomes of a date of a flight.
#[derive(Clone, Copy, Debug, PartialEq, Eq)]
pub enum Fate {
    /// The flight does not fly.
    Absent,
    /// The flight date is in the new timetable: with 0 on the day before, with 1 on the same day,
    /// and with 2 on the day after.
    Kept(u8),
    /// The flight date is left.
    Left(LeftReason),
}

impl Fate {
    // Two numbers: its kind, and its shift or leg sequence.
    fn code(self) -> [u8; 2]
        ensures { result ≡ fate_code self }
    {
        match self {
            Fate::Absent => [0, 0],
            Fate::Kept(shift) => [1, shift],
            Fate::Left(LeftReason::Station(sequence)) => [2, sequence],
            Fate::Left(LeftReason::Letter(sequence)) => [3, sequence],
            Fate::Left(LeftReason::Days(sequence)) => [4, sequence],
            Fate::Left(LeftReason::Calendar) => [5, 0],
            Fate::Left(LeftReason::Date) => [6, 0],
        }
    }
}

impl Value for Fate {
    ghost use Rattle.ssim_parts.specs.declared.fate.Fate.TheVariants.{Absent};

    ghost nothing = { Absent };

    ghost alike = { same_fate };

    ghost compared = { fate_cmp };

    fn empty() -> Self {
        Fate::Absent
    }

    fn is_empty(&self) -> bool {
        match self {
            Fate::Absent => true,
            Fate::Kept(_) | Fate::Left(_) => false,
        }
    }

    fn same(&self, other: &Self) -> bool {
        self.code() == other.code()
    }

    fn order(&self, other: &Self) -> Ordering {
        self.code().cmp(&other.code())
    }

    fn copy(&self, _alloc: Global) -> Result<Self, Memory> {
        Ok(*self)
    }

    ghost exact = { same_fate_exact };

    ghost total = { fate_cmp_total };

    ghost told_apart = { fates_told_apart };
}

/// A date gets the fate.
impl Change<Fate> for Fate {
    ghost outcome = { λ fate _. fate };

    ghost class_of = { λ _ _. 0 };

    fn after(&self, _alloc: Global, _before: &Fate) -> Result<Fate, Memory> {
        Ok(*self)
    }

    fn class(&self, _before: &Fate) -> u8 {
        0
    }
}

/// Dates that are kept with this shift are left, since earlier dates come to their new ones.
#[derive(Clone, Copy, Debug)]
pub(crate) struct LeavesKept {
    pub shift: u8,
}

impl Change<Fate> for LeavesKept {
    ghost use Rattle.ssim_parts.specs.internal.KeptDates.{left_if_kept};

    ghost outcome = { λ c before. left_if_kept c.shift before };

    ghost class_of = { λ _ _. 0 };

    fn after(&self, _alloc: Global, before: &Fate) -> Result<Fate, Memory> {
        if before.is_kept_with(self.shift) {
            Ok(Fate::Left(LeftReason::Date))
        } else {
            Ok(*before)
        }
    }

    fn class(&self, _before: &Fate) -> u8 {
        0
    }
}

impl Fate {
    /// Whether the flight date is kept with this shift.
    pub(crate) fn is_kept_with(self, shift: u8) -> bool
        ensures { result ≡ is_kept_with shift self }
    {
        match self {
            Fate::Kept(own) => own == shift,
            Fate::Absent | Fate::Left(_) => false,
        }
    }
}
