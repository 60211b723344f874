//! Values that are written as rows of CSV under a context.

ghost use Rattle.std.specs.Prelude.{◌≡◌, ◌≤◌, ◌<◌, ◌-◌, ◌++◌, List, ℕ, OnOk};
ghost use Rattle.std.specs.List.{flat_map, range_with_len};

use crate::csv_rows::CsvRows;
use ssim_values::Memory;

/// A value that is written as rows under a context.
pub trait Rowed<C> {
    /// Its rows under a context.
    ghost text: { C → Self → List ℕ };

    /// Adds its rows.
    fn put(&self, context: &C, rows: &mut CsvRows) -> Result<(), Memory>
        ensures { OnOk result (rows.new ≡ rows.old ++ text context.now self.now) };
}

/// Adds the rows of each value, in order.
pub fn put_each<C, T: Rowed<C>>(rows: &mut CsvRows, context: &C, items: &[T]) -> Result<(), Memory>
    ensures { OnOk result (rows.new ≡ rows.old ++ flat_map (T.text context.now) items.now) }
{
    for item in items {
        item.put(context, rows)?;
    }
    Ok(())
}

/// A value that has rows at each number of a range.
pub trait RowedAt {
    /// At which numbers it has rows.
    ghost has: { Self → ℕ → Type 0 };

    /// Its rows at a number.
    ghost text: { Self → ℕ → List ℕ };

    /// Adds its rows at a number.
    fn put_at(&self, number: usize, rows: &mut CsvRows) -> Result<(), Memory>
        requires { has self.now number }
        ensures { OnOk result (rows.new ≡ rows.old ++ text self.now number) };
}

/// Adds the rows at each number from one up to another, which is not among them.
pub fn put_range<T: RowedAt>(
    rows: &mut CsvRows,
    rowed: &T,
    from: usize,
    end: usize,
) -> Result<(), Memory>
    requires { (n : ℕ) → from ≤ n → n < end → T.has rowed.now n }
    ensures { OnOk result (rows.new
        ≡ rows.old ++ flat_map (T.text rowed.now) (range_with_len from (end - from))) }
{
    for number in from..end {
        rowed.put_at(number, rows)?;
    }
    Ok(())
}
