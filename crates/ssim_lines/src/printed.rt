//! Values that are printed under a context.

ghost use Rattle.std.specs.Prelude.{◌≡◌, ◌++◌, OnOk, List, ℕ, replicate};
ghost use Rattle.std.specs.List.{flat_map};

use ssim_values::Memory;

/// A value that is printed under a context.
pub trait Printed<C> {
    /// Its text under a context.
    ghost text: { C → Self → List ℕ };

    /// Adds its text.
    fn print(&self, context: &C, lines: &mut Vec<u8>) -> Result<(), Memory>
        ensures { OnOk result (lines.new.items ≡ lines.old.items ++ text context.now self.now) };
}

/// Adds the text of each value, in order.
pub fn push_each<C, T: Printed<C>>(
    lines: &mut Vec<u8>,
    context: &C,
    items: &[T],
) -> Result<(), Memory>
    ensures { OnOk result
        (lines.new.items ≡ lines.old.items ++ flat_map (T.text context.now) items.now) }
{
    for item in items {
        item.print(context, lines)?;
    }
    Ok(())
}

/// Adds a number of blanks.
pub fn push_blanks(lines: &mut Vec<u8>, count: usize) -> Result<(), Memory>
    ensures { OnOk result (lines.new.items ≡ lines.old.items ++ replicate count 32) }
{
    for number in 0..count {
        lines.push(b' ')?;
    }
    Ok(())
}
