//! Messages found by their reference.

ghost use Rattle.std.specs.Prelude.{◌≡◌, ◌<◌, ◌-◌, slice_get, Some, IfErr, IfOk};
ghost use Rattle.ssim_held.specs.Held.{reference_cmp};
ghost use Rattle.ssim_held.specs.Entries.{AreRising, Entry};
ghost use Rattle.ssim_held.specs.clauses.Ordered.{Belongs, IsFound};

use crate::held::Held;
use ssim_text::{Message, Reference};
use std::cmp::Ordering;

/// What is held under the reference of a message.
#[derive(Clone, Copy, Debug, PartialEq, Eq)]
pub enum LookUp {
    /// Nothing, and the position where the message belongs.
    Absent(usize),
    /// The message itself.
    Same,
    /// Another message.
    Other,
}

/// Looks a message up in a list in order of reference.
pub fn look(held: &[Held], reference: &Reference, message: &Message) -> LookUp
    requires { AreRising held.now }
    ensures { IsFound held.now reference.now message.now result }
{
    match search(held, reference) {
        Err(at) => LookUp::Absent(at),
        Ok(at) => {
            if held[at].message().same(message) {
                LookUp::Same
            } else {
                LookUp::Other
            }
        }
    }
}

/// Looks up the message of another list.
pub(crate) fn look_up(held: &[Held], one: &Held) -> LookUp
    requires { AreRising held.now }
    ensures { IsFound held.now one.now.reference one.now.message result }
{
    look(held, &one.reference(), one.message())
}

/// The position of a reference in a list in order of reference, or the position where it belongs.
pub fn search(held: &[Held], reference: &Reference) -> Result<usize, usize>
    requires { AreRising held.now }
    ensures found { IfOk result
        (λ at. (e : Entry) × (slice_get held.now at ≡ Some e) × (e.reference ≡ reference.now)) }
    ensures absent { IfErr result (λ at. Belongs held.now reference.now at at) }
{
    let mut low = 0;
    let mut high = held.len();
    while low < high {
        match halve(held, reference, low, high) {
            Err(at) => return Ok(at),
            Ok(half) => {
                low = half.0;
                high = half.1;
            }
        }
    }
    Err(low)
}

// The half of a range in which the reference belongs, or its position if it is the middle one's.
fn halve(
    held: &[Held],
    reference: &Reference,
    low: usize,
    high: usize,
) -> Result<(usize, usize), usize>
    requires rising { AreRising held.now }
    requires some { low < high }
    requires belongs { Belongs held.now reference.now low high }
    ensures found { IfErr result
        (λ at. (e : Entry) × (slice_get held.now at ≡ Some e) × (e.reference ≡ reference.now)) }
    ensures belongs { IfOk result (λ half. Belongs held.now reference.now half.0 half.1) }
    ensures smaller { IfOk result (λ half. half.1 - half.0 < high - low) }
{
    let middle = low + (high - low) / 2;
    match compare(&held[middle], reference) {
        Ordering::Less => Ok((middle + 1, high)),
        Ordering::Greater => Ok((low, middle)),
        Ordering::Equal => Err(middle),
    }
}

/// The order of a message's reference and another one.
pub(crate) fn compare(held: &Held, reference: &Reference) -> Ordering
    ensures { result ≡ reference_cmp held.now.reference reference.now }
{
    held.reference().order(reference)
}
