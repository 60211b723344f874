//! What holds of any desks, over the definitions of what texts and merges do.

ghost use Rattle.ssim_desk.specs.Agreement.{AnyTwoDesksAgree, NoConflict, OfferedIsReached};
ghost use Rattle.ssim_desk.specs.Agreement.{SameMessagesSameDesk};
ghost use Rattle.ssim_desk.specs.Meaning.{HasExport, HasMeaning, HasOneExport, HasOneMeaning};
ghost use Rattle.ssim_desk.specs.Merging.{MergesAreDetermined, MergesAssociate, MergesCommute};
ghost use Rattle.ssim_desk.specs.Merging.{MergesRepeat, TakesAreDetermined, ThreeDesksMerge};
ghost use Rattle.ssim_desk.specs.Deliveries.{HoldsWhatReached};
// The worked examples, which are computed: a false one is an error in this file.
ghost use Rattle.ssim_desk.specs.examples.Desks;

use ssim_base::laws::{
    bases_can_be_exported, resolving_has_one_outcome, same_bytes_same_base, same_bytes_same_rows,
};
pub use ssim_held::laws::{no_two_desks_have_one_file, opened_is_saved};
use ssim_text::laws::{one_message, one_refusal};

/// Any two desks agree if they began from the same bytes of a data set and of a station table, or
/// as one desk, and the same messages reached them, whatever the order, the grouping and the
/// repeats. They hold the same messages. Each flight has on each date the same itinerary, which the
/// messages leave in order of reference. Both exports are the same chapter 7 bytes, or the same
/// refusal, 50 or 51.
pub fn any_two_desks_agree()
    ensures { AnyTwoDesksAgree }
{
    one_message();
    same_bytes_same_base();
    same_bytes_same_rows();
    bases_can_be_exported();
}

/// If no two different messages with one reference are held at the start or offered, no step is
/// refused as a conflict, 60. So each message that a text says to a desk reaches this desk, unless
/// the step runs out of memory.
pub fn no_conflict()
    ensures none { NoConflict }
    ensures reached { OfferedIsReached }
{
    one_message();
    resolving_has_one_outcome();
}

/// After any steps a desk holds what it held at the start and the messages that reached it, and
/// nothing else. Two desks that began alike and that the same messages reached are one desk,
/// whatever the order, the grouping and the repeats of the messages.
pub fn order_is_free()
    ensures holds { HoldsWhatReached }
    ensures same { SameMessagesSameDesk }
{
    one_message();
}

/// Every desk has exactly one meaning and exactly one export.
pub fn one_meaning()
    ensures some { HasMeaning }
    ensures only { HasOneMeaning }
    ensures export { HasExport }
    ensures only_export { HasOneExport }
{
    bases_can_be_exported();
}

/// Merging is associative and idempotent, and commutative if no two different messages are held
/// under one reference. Three desks over one base that agree so are merged in any order and
/// grouping: no merge is refused, unless it is out of memory.
pub fn merging_is_free()
    ensures associative { MergesAssociate }
    ensures commutative { MergesCommute }
    ensures idempotent { MergesRepeat }
    ensures three { ThreeDesksMerge }
{}

/// Unless memory is refused, two things determine the result and the messages held afterwards: the
/// messages held before, and the text or the other desk.
pub fn answers_are_determined()
    ensures takes { TakesAreDetermined }
    ensures merges { MergesAreDetermined }
{
    one_message();
    one_refusal();
    resolving_has_one_outcome();
}
