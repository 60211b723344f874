//! What the definition of differences means.

ghost use Rattle.ssim_difference.specs.Differences.{NoneDiffer, PiecesHoldDifferences};
ghost use Rattle.ssim_difference.specs.Kinds.{KindsAreAll, TurnedKinds};
// The worked examples, which are computed: a false one is an error in this file.
ghost use Rattle.ssim_difference.specs.examples.Days;

/// On each date on which a flight differs, exactly one of its pieces holds the date, with the two
/// itineraries of the date; on other dates none does.
pub fn pieces_hold_differences()
    ensures { PiecesHoldDifferences }
{}

/// No flight differs if and only if each flight has the same itinerary on each date.
pub fn equal_timetables_have_no_difference()
    ensures { NoneDiffer }
{}

/// A change turned round is of the same kind, but what was added is cancelled, and the other way round.
pub fn turned_changes_have_turned_kinds()
    ensures { TurnedKinds }
{}

/// Each flight date that differs is counted with exactly one kind of change.
pub fn each_change_has_one_kind()
    ensures { KindsAreAll }
{}
