//! The value that columns of the latest record spell. Mostly the next record has the same columns,
//! and they are not parsed again.

ghost use Rattle.std.specs.Prelude.{◌≡◌, ℕ, List, IfSome, length};
ghost use Rattle.ssim_columns.specs.internal.LatestColumns.{Everywhere};

use crate::latest_months::LatestMonths;
use crate::text::array::bytes_of;
use crate::text::equality::are_same_columns;
use std::marker::Model;

/// A value that `N` columns of a record spell.
pub(crate) trait InColumns<const N: usize>: Copy {
    /// These columns of a record.
    ghost columns_in: { List ℕ → List ℕ };

    /// The record spells the value.
    ghost Spells: { Self → List ℕ → Type 0 };

    /// These columns of a record.
    fn columns(bytes: &[u8; 200]) -> &[u8]
        ensures len { length result.now ≡ N }
        ensures value { result.now ≡ columns_in bytes.now };

    /// The value that they spell, if there is one: each record with the same columns spells it. The
    /// months are those of the latest dates.
    fn read(bytes: &[u8; 200], months: &mut LatestMonths) -> Option<Self>
        ensures { IfSome result (λ value.
            Everywhere columns_in (columns_in bytes.now) (Spells value)) };
}

/// A value, and the columns that spell it.
#[derive(Drop)]
struct Spelled<const N: usize, T: InColumns<N>> {
    columns: [u8; N],
    value: T,
}

impl<const N: usize, T: InColumns<N>> Model for Spelled<N, T> {
    ghost use Rattle.std.specs.Prelude.{◌≡◌, ℕ, List};
    ghost use Rattle.ssim_columns.specs.internal.LatestColumns.{Everywhere};

    ghost Value = { List ℕ × T };

    ghost view = { λ s. (s.columns, s.value) };

    ghost invariant = { λ s. Everywhere T.columns_in s.columns (T.Spells s.value) };
}

/// The latest value that columns of the records so far spell.
#[derive(Drop)]
pub(crate) struct LatestValue<const N: usize, T: InColumns<N>> {
    latest: Option<Spelled<N, T>>,
}

impl<const N: usize, T: InColumns<N>> Spelled<N, T> {
    fn of(bytes: &[u8; 200], value: T) -> Spelled<N, T>
        requires { Everywhere T.columns_in (T.columns_in bytes.now) (T.Spells value) }
    {
        Spelled {
            columns: bytes_of::<N>(T::columns(bytes)),
            value,
        }
    }

    // The value, if the record has the same columns.
    #[inline(always)]
    fn value_in(&self, bytes: &[u8; 200]) -> Option<T>
        ensures { IfSome result (λ value. T.Spells value bytes.now) }
    {
        if are_same_columns(T::columns(bytes), &self.columns) {
            Some(self.value)
        } else {
            None
        }
    }
}

impl<const N: usize, T: InColumns<N>> LatestValue<N, T> {
    /// Before the first record.
    pub(crate) fn new() -> LatestValue<N, T> {
        LatestValue { latest: None }
    }

    // Does what `value_in` does if the columns are others. It is not inlined, since they are mostly
    // the same.
    #[inline(never)]
    fn other_value_in(&mut self, bytes: &[u8; 200], months: &mut LatestMonths) -> Option<T>
        ensures { IfSome result (λ value. T.Spells value bytes.now) }
    {
        let value = T::read(bytes, months)?;
        self.latest = Some(Spelled::of(bytes, value));
        Some(value)
    }

    /// The value that the columns spell, if there is one.
    #[inline(always)]
    pub(crate) fn value_in(&mut self, bytes: &[u8; 200], months: &mut LatestMonths) -> Option<T>
        ensures { IfSome result (λ value. T.Spells value bytes.now) }
    {
        if let Some(latest) = &self.latest {
            if let Some(value) = latest.value_in(bytes) {
                return Some(value);
            }
        }
        self.other_value_in(bytes, months)
    }
}
