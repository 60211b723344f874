//! What is on a board.

ghost use Rattle.ssim_board.specs.Kinds.{EachIsOfOneKind};
ghost use Rattle.ssim_board.specs.Movements.{OnlyNearDates};
// The worked examples, which are computed: a false one is an error in this file.
ghost use Rattle.ssim_board.specs.examples.Boards;

/// Only dates of origin from ten days before the board's date to the day after it have something on
/// the board.
pub fn only_near_dates()
    ensures { OnlyNearDates }
{}

/// Of any movements, each is a departure or an arrival, and none is both.
pub fn each_is_of_one_kind()
    ensures { EachIsOfOneKind }
{}
