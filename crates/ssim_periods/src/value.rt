ghost use Rattle.std.specs.Prelude.{◌≡◌, ℕ, ◌<◌, ◌↔◌, IsTrue, IfOk, Bool};
ghost use Rattle.std.specs.Cmp.{IsTotalOrder};
ghost use Rattle.std.specs.Ordering.{is_eq};
ghost use Rattle.std.specs.declared.cmp.Ordering.{Ordering};

use ssim_values::Memory;
use std::alloc::Global;
use std::cmp::Ordering;

/// A value that a day may have.
pub trait Value: Drop {
    /// The empty value.
    ghost nothing: { Self };

    /// Whether two values are the same.
    ghost alike: { Self → Self → Bool };

    /// The order of two values.
    ghost compared: { Self → Self → Ordering };

    /// The empty value: the value of a day that has no other.
    fn empty() -> Self
        ensures { result ≡ nothing };

    /// Whether it is the empty value.
    fn is_empty(&self) -> bool
        ensures { IsTrue result ↔ (self.now ≡ nothing) };

    /// Whether two values are equal.
    fn same(&self, other: &Self) -> bool
        ensures { result ≡ alike self.now other.now };

    /// The order of two values, by which equal values among many are found. It may be any total
    /// order, so that the cheapest one will do.
    fn order(&self, other: &Self) -> Ordering
        ensures { result ≡ compared self.now other.now };

    /// An equal value, or out of memory.
    fn copy(&self, alloc: Global) -> Result<Self, Memory>
        ensures { IfOk result (λ copy. copy ≡ self.now) };

    /// Two values are alike if and only if they are equal.
    ghost exact: { (x y : Self) → IsTrue (alike x y) ↔ (x ≡ y) };

    /// The order is total.
    ghost total: { IsTotalOrder compared };

    /// Two values are alike if and only if neither comes before the other.
    ghost told_apart: { (x y : Self) → alike x y ≡ is_eq (compared x y) };
}

// Whether two values are equal.
pub(crate) fn are_equal<V: Value>(one: &V, other: &V) -> bool
    ensures { IsTrue result ↔ (one.now ≡ other.now) }
{
    one.same(other)
}

/// A change of the value of each day of a period. Both calls are made only with values that some
/// day of the period has. For a period that holds no day, `after` may be called once with the empty
/// value.
pub trait Change<V> {
    /// The new value.
    ghost outcome: { Self → V → V };

    /// The class of the old value.
    ghost class_of: { Self → V → ℕ };

    /// The new value in place of the old one, or out of memory.
    fn after(&self, alloc: Global, old: &V) -> Result<V, Memory>
        ensures { IfOk result (λ new. new ≡ outcome self.now old.now) };

    /// The class under which a day with the old value is counted, from 0 to 4.
    fn class(&self, old: &V) -> u8
        ensures class { result ≡ class_of self.now old.now }
        ensures below_five { result < 5 };
}
