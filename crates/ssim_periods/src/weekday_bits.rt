//! Sets of weekdays as bits.
ghost use Rattle.std.specs.Prelude.{◌≡◌, ℕ, ◌+◌, ◌<◌, ◌||◌, false, nat_eq, slice_index_or, IsTrue};
ghost use Rattle.std.specs.Int.{bit_at};
ghost use Rattle.ssim_values.specs.Calendar.{slot};
ghost use Rattle.ssim_periods.specs.Cover.{differ};

use ssim_values::weekday_of;
use std::marker::Model;

/// A set of weekdays. All of it is compared at once.
#[derive(Clone, Copy)]
pub(crate) struct WeekdayBits {
    /// Bit w is set for weekday w, from 0 for Monday to 6 for Sunday.
    bits: u8,
}

impl Model for WeekdayBits {
    ghost use Rattle.std.specs.Prelude.{◌<◌};
    ghost use Rattle.ssim_periods.specs.internal.Bits.{week_of, Weekdays};

    ghost Value = { Weekdays };

    ghost view = { λ b. record { bits = b.bits; days = week_of b.bits } };

    ghost invariant = { λ b. b.bits < 128 };

    ghost inverse = { λ week. record { bits = week.bits } };
}

impl WeekdayBits {
    /// These weekdays, Monday first.
    #[inline(always)]
    pub(crate) fn of(days: [bool; 7]) -> WeekdayBits
        ensures { result.days ≡ days }
    {
        let [
            monday,
            tuesday,
            wednesday,
            thursday,
            friday,
            saturday,
            sunday,
        ] = days;
        let bits = saturday as u8 + 2 * (sunday as u8);
        let bits = thursday as u8 + 2 * (friday as u8 + 2 * bits);
        let bits = tuesday as u8 + 2 * (wednesday as u8 + 2 * bits);
        WeekdayBits {
            bits: monday as u8 + 2 * bits,
        }
    }

    /// Whether each weekday is in the set, Monday first.
    #[inline(always)]
    pub(crate) fn days(self) -> [bool; 7]
        ensures { result ≡ self.days }
    {
        [
            self.has(0),
            self.has(1),
            self.has(2),
            self.has(3),
            self.has(4),
            self.has(5),
            self.has(6),
        ]
    }

    /// Whether a weekday is in the set.
    #[inline(always)]
    pub(crate) fn has(self, weekday: usize) -> bool
        requires { weekday < 7 }
        ensures { result ≡ slice_index_or self.days weekday false }
    {
        (self.bits >> weekday) & 1 == 1
    }

    /// Bits of the seven days from a day on: bit i is set if the weekday of the i-th day after it
    /// is in the set.
    #[inline(always)]
    pub(crate) fn from_day(self, day: u32) -> u32
        ensures bits { (i : ℕ) → i < 7
            → nat_eq (bit_at result i) 1 ≡ slice_index_or self.days (slot (day + i)) false }
    {
        ((self.bits as u32) * 129) >> weekday_of(day)
    }

    /// Whether no weekday is in the set.
    #[inline(always)]
    pub(crate) fn is_empty(self) -> bool
        ensures { IsTrue result → (w : ℕ) → slice_index_or self.days w false ≡ false }
    {
        self.bits == 0
    }

    /// The weekdays of either of two sets.
    #[inline(always)]
    pub(crate) fn either(self, other: WeekdayBits) -> WeekdayBits
        ensures { (w : ℕ) → slice_index_or result.days w false
            ≡ (slice_index_or self.days w false || slice_index_or other.days w false) }
    {
        WeekdayBits {
            bits: self.bits | other.bits,
        }
    }

    /// The weekdays of exactly one of two sets.
    #[inline(always)]
    pub(crate) fn unlike(self, other: WeekdayBits) -> WeekdayBits
        ensures { (w : ℕ) → slice_index_or result.days w false
            ≡ differ (slice_index_or self.days w false) (slice_index_or other.days w false) }
    {
        WeekdayBits {
            bits: self.bits ^ other.bits,
        }
    }
}
