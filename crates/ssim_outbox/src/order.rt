//! The order of references.

ghost use Rattle.std.specs.Prelude.{IfErr, IfOk};
ghost use Rattle.ssim_held.specs.Entries.{AreRising};
ghost use Rattle.ssim_outbox.specs.Order.{Follows, RefusesOrder};

use ssim_held::Held;
use ssim_text::Reference;
use std::cmp::Ordering;

/// Whether a reference comes after those of all messages that are held, which are in order of
/// reference. If not, the error is the greatest of these references.
pub fn follows(reference: &Reference, held: &[Held]) -> Result<(), Reference>
    requires { AreRising held.now }
    ensures ok { IfOk result (λ _. Follows reference.now held.now) }
    ensures err { IfErr result (RefusesOrder reference.now held.now) }
{
    match held {
        [] => Ok(()),
        [.., last] => {
            let last = last.reference();
            match last.order(reference) {
                Ordering::Less => Ok(()),
                _ => Err(last),
            }
        }
    }
}
