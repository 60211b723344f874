//! The lines of a heading, as the canonical text of a message has them.

ghost use Rattle.std.specs.Prelude.{◌≡◌, IfOk};
ghost use Rattle.ssim_text.specs.Canonical.{written};
ghost use Rattle.ssim_outbox.specs.internal.Texts.{heading_parts};

use ssim_text::{Message, push_kind, push_mode, push_originator};
use ssim_values::Memory;
use std::alloc::Global;

/// The lines of the heading of a message, but with this group serial.
pub(crate) fn heading_lines(alloc: Global, heading: &Message, group: u32) -> Result<Vec<u8>, Memory>
    ensures { IfOk result (λ lines. lines.items ≡ written (heading_parts heading.now group)) }
{
    let mut lines = Vec::new(alloc);
    push_originator(&mut lines, heading.originator())?;
    push_kind(&mut lines, heading.kind())?;
    push_mode(&mut lines, heading.mode())?;
    heading.reference().push_with_group(&mut lines, group)?;
    Ok(lines)
}
