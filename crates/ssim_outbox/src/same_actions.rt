//! Actions as what is said of a day, and whether two lists of actions are equal.

ghost use Rattle.std.specs.List.{AllByRecursion};
ghost use Rattle.ssim_outbox.specs.Reach.{IsSaid};

use crate::date_actions::say;
use crate::said_days::SaidOfDay;
use ssim_base::StationRow;
use ssim_difference::Difference;
use ssim_text::{Action, Equipment, Legs, NewLegs, SegmentLine};
use ssim_values::{Day, Memory};
use std::alloc::Global;

impl SaidOfDay for Vec<Action> {
    ghost Sayable = { λ actions. AllByRecursion IsSaid actions.items };

    fn of_day(
        alloc: Global,
        rows: &[StationRow],
        day: Day,
        difference: &Difference,
    ) -> Result<Option<Self>, Memory> {
        match say(alloc, rows, day, &difference.old, &difference.new)? {
            None => Ok(None),
            Some(actions) => Ok(Some(actions)),
        }
    }

    fn is_same(&self, other: &Self) -> bool {
        same_actions(self, other)
    }
}

// Whether two lists have equal actions.
fn same_actions(mine: &[Action], theirs: &[Action]) -> bool {
    if mine.len() != theirs.len() {
        return false;
    }
    for (place, action) in mine.iter().enumerate() {
        if !same_action(action, &theirs[place]) {
            return false;
        }
    }
    true
}

fn same_action(mine: &Action, theirs: &Action) -> bool {
    match (mine, theirs) {
        (Action::New(new), Action::New(other)) => same_new(new, other),
        (Action::Cnl, Action::Cnl) => true,
        (Action::Rpl(new), Action::Rpl(other)) => same_new(new, other),
        (Action::Eqt(equipment), Action::Eqt(other)) => same_equipment(equipment, other),
        (Action::Tim(legs), Action::Tim(other)) => same_lines(legs, other),
        _ => false,
    }
}

fn same_new(mine: &NewLegs, theirs: &NewLegs) -> bool {
    same_equipment(&mine.equipment, &theirs.equipment)
        && same_lines(&mine.legs, &theirs.legs)
        && same_segments(mine.segments.lines(), theirs.segments.lines())
}

fn same_equipment(mine: &Equipment, theirs: &Equipment) -> bool {
    mine.service() == theirs.service()
        && mine.aircraft() == theirs.aircraft()
        && mine.designators() == theirs.designators()
        && mine.configuration() == theirs.configuration()
}

fn same_lines(mine: &Legs, theirs: &Legs) -> bool {
    mine.lines() == theirs.lines()
}

fn same_segments(mine: &[SegmentLine], theirs: &[SegmentLine]) -> bool {
    if mine.len() != theirs.len() {
        return false;
    }
    for (place, line) in mine.iter().enumerate() {
        if !same_segment(line, &theirs[place]) {
            return false;
        }
    }
    true
}

fn same_segment(mine: &SegmentLine, theirs: &SegmentLine) -> bool {
    mine.board == theirs.board
        && mine.off == theirs.off
        && mine.identifier == theirs.identifier
        && mine.text.bytes() == theirs.text.bytes()
}
