//! The letters and digits of a word.

ghost use Rattle.std.specs.Prelude.{◌≡◌, IfOk};
ghost use Rattle.ssim_words.specs.Typed.{letter, typed};

use ssim_lines::{Printed, push_each};
use ssim_values::Memory;
use std::alloc::Global;

/// How the bytes of a word are read.
#[derive(Clone, Copy)]
struct AsCapital;

/// The bytes of a word without its blanks, with `a` to `z` as `A` to `Z`.
pub(crate) fn typed(alloc: Global, word: &[u8]) -> Result<Vec<u8>, Memory>
    ensures { IfOk result (λ letters. letters.items ≡ typed word.now) }
{
    let mut letters = Vec::with_capacity(alloc, word.len())?;
    push_each(&mut letters, &AsCapital, word)?;
    Ok(letters)
}

impl Printed<AsCapital> for u8 {
    ghost text = { λ _. letter };

    // Adds what is read of a byte.
    fn print(&self, _how: &AsCapital, letters: &mut Vec<u8>) -> Result<(), Memory> {
        if *self == b' ' {
            return Ok(());
        }
        letters.push(self.to_ascii_uppercase())?;
        Ok(())
    }
}
