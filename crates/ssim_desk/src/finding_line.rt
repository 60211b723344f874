//! What each sub-message found, as lines.

ghost use Rattle.std.specs.Prelude.{◌≡◌, ◌<◌, ◌+◌, ◌^◌, ◌++◌, length, OnOk};
ghost use Rattle.ssim_desk.specs.Desk.{sub_lines};

use ssim_schedule::Finding;
use ssim_text::{ActionIdentifier, Reference, Sub};
use ssim_values::{Designator, Memory};

/// What a sub-message found on the dates of its period.
#[derive(Clone, Copy, Debug, PartialEq, Eq)]
pub struct FindingLine {
    /// The reference of the message.
    pub reference: Reference,
    /// The number of the sub-message in its message, from 1.
    pub sub: usize,
    pub action: ActionIdentifier,
    pub designator: Designator,
    pub finding: Finding,
}

/// Adds the lines of the sub-messages of one message, the first of which has this number.
pub(crate) fn push_subs(
    lines: &mut Vec<FindingLine>,
    reference: &Reference,
    number: usize,
    subs: &[Sub],
    findings: &[Finding],
) -> Result<(), Memory>
    requires { number + length subs.now < 2 ^ 64 }
    ensures { OnOk result (lines.new.items
        ≡ lines.old.items ++ sub_lines reference.now number subs.now findings.now) }
{
    match (subs.split_first(), findings.split_first()) {
        (Some((sub, subs)), Some((finding, findings))) => {
            lines.push(FindingLine {
                reference: *reference,
                sub: number,
                action: sub.action.identifier(),
                designator: sub.designator,
                finding: *finding,
            })?;
            push_subs(lines, reference, number + 1, subs, findings)
        }
        _ => Ok(()),
    }
}
