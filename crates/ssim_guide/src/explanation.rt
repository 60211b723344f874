//! What a refusal means and what to do about it.
ghost use Rattle.std.specs.Prelude.{◌≡◌, [], false, is_some, true, IfOk, IfSome};
ghost use Rattle.ssim_guide.specs.Words.{Explains, is_refusal};

use crate::lines::push_line;
use crate::texts::explanations;
use std::alloc::{AllocError, Global};

/// What is said of the refusals of a number.
#[derive(Clone, Copy, Debug)]
pub struct Explanation {
    /// The number of the refusal.
    pub number: u8,
    /// Why the program refuses.
    pub meaning: &'static str,
    /// What a user does about it.
    pub remedy: &'static str,
}

/// The explanation of the refusals of this number, if a command may have one.
pub fn explanation_of(number: u8) -> Option<Explanation>
    ensures number { IfSome result (λ e. e.number ≡ number) }
    ensures found { is_some result ≡ is_refusal number }
{
    for entry in explanations() {
        if entry.number == number {
            return Some(*entry);
        }
    }
    None
}

/// The lines on a refusal of this number and name: the name and its meaning, then these lines on
/// the place, and what to do. There are none if no refusal has the number.
pub fn words_on(alloc: Global, number: u8, name: &str, place: &[u8]) -> Result<Vec<u8>, AllocError>
    ensures words { is_refusal number ≡ true
        → IfOk result (λ lines. Explains name.now place.now lines.items) }
    ensures none { is_refusal number ≡ false → IfOk result (λ lines. lines.items ≡ []) }
{
    let mut lines = Vec::new(alloc);
    if let Some(found) = explanation_of(number) {
        push_line(&mut lines, name, found.meaning)?;
        lines.extend_from_slice(place)?;
        push_line(&mut lines, "what to do", found.remedy)?;
    }
    Ok(lines)
}
