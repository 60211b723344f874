//! What the definition of makers means.

ghost use Rattle.ssim_blame.specs.Makers.{FliesUnlessCancelled, NamesEachDateOnce};
// The worked examples, which are computed: a false one is an error in this file.
ghost use Rattle.ssim_blame.specs.examples.Makers;

/// On each date exactly one piece of a flight names the last sub-message that acted, or the data set
/// if none did and it has the flight; no piece holds another date.
pub fn each_date_is_named_once()
    ensures { NamesEachDateOnce }
{}

/// A flight flies on a date exactly if the date has a maker that did not cancel it.
pub fn flights_fly_unless_cancelled()
    ensures { FliesUnlessCancelled }
{}
