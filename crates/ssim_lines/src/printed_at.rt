//! Values that have a text at each number of a range.

ghost use Rattle.std.specs.Prelude.{◌≡◌, ◌≤◌, ◌<◌, ◌-◌, ◌++◌, OnOk, List, ℕ};
ghost use Rattle.std.specs.List.{flat_map, range_with_len};

use ssim_values::Memory;

/// A value that has a text at numbers.
pub trait PrintedAt {
    /// At which numbers it has a text.
    ghost has: { Self → ℕ → Type 0 };

    /// Its text at a number.
    ghost text: { Self → ℕ → List ℕ };

    /// Adds its text at a number.
    fn print_at(&self, number: usize, lines: &mut Vec<u8>) -> Result<(), Memory>
        requires { has self.now number }
        ensures { OnOk result (lines.new.items ≡ lines.old.items ++ text self.now number) };
}

/// Adds the text at each number from one up to another, which is not among them.
pub fn push_range<T: PrintedAt>(
    lines: &mut Vec<u8>,
    printed: &T,
    from: usize,
    end: usize,
) -> Result<(), Memory>
    requires { (n : ℕ) → from ≤ n → n < end → T.has printed.now n }
    ensures { OnOk result (lines.new.items
        ≡ lines.old.items ++ flat_map (T.text printed.now) (range_with_len from (end - from))) }
{
    for number in from..end {
        printed.print_at(number, lines)?;
    }
    Ok(())
}
