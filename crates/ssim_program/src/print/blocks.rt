//! Blocks of lines, one after another.

ghost use Rattle.std.specs.Prelude.{◌≡◌, IfOk, map};
ghost use Rattle.ssim_program.specs.print.Blocks.{blocks};

use ssim_lines::{Printed, push_each};
use ssim_values::Memory;
use std::alloc::Global;

/// The context of a block that comes after an empty line.
struct AfterEmptyLine;

impl Printed<AfterEmptyLine> for Vec<u8> {
    ghost use Rattle.std.specs.Prelude.{◌++◌, ◌∷◌, []};

    ghost text = { λ _ block. (10 ∷ []) ++ block.items };

    fn print(&self, _line: &AfterEmptyLine, lines: &mut Vec<u8>) -> Result<(), Memory> {
        lines.push(b'\n')?;
        lines.extend_from_slice(self)?;
        Ok(())
    }
}

/// The lines of the blocks, with an empty line between two.
#[tactic(auto, using(crate::proofs::BlockLines::later_blocks))]
pub(crate) fn joined(alloc: Global, printed: &[Vec<u8>]) -> Result<Vec<u8>, Memory>
    ensures { IfOk result (λ lines. lines.items ≡ blocks (map (λ b. b.items) printed.now)) }
{
    let mut lines = Vec::new(alloc);
    match printed.split_first() {
        None => Ok(lines),
        Some((first, later)) => {
            lines.extend_from_slice(first)?;
            push_each(&mut lines, &AfterEmptyLine, later)?;
            Ok(lines)
        }
    }
}
