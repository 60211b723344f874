//! What is said of each day of a flight, so that days of which the same is said come together.

ghost use Rattle.std.specs.Prelude.{IfOk, IfSome, OnOk};
ghost use Rattle.std.specs.List.{AllByRecursion};

use crate::mark::Mark;
use crate::period_parts::{next_cut, part_of};
use ssim_base::StationRow;
use ssim_difference::Difference;
use ssim_periods::Periods;
use ssim_values::{Day, Memory, Period};
use std::alloc::Global;

/// With how many of the latest different things a new one is compared.
const MOST_COMPARED: usize = 100;

/// What is said of a day of a flight.
pub(crate) trait SaidOfDay: Drop {
    /// What may be said.
    ghost Sayable: { Self → Type 0 };

    /// What is said of a day with this difference, by these rows of a station table; none if
    /// nothing is. It stays the same while the UTC variations of the stations of the new legs do.
    fn of_day(
        alloc: Global,
        rows: &[StationRow],
        day: Day,
        difference: &Difference,
    ) -> Result<Option<Self>, Memory>
        ensures { IfOk result (λ said. IfSome said Sayable) };

    /// Whether the same is said.
    fn is_same(&self, other: &Self) -> bool;
}

/// What is said of the days of a flight, and the periods of the days of which the same is said.
#[derive(Drop)]
pub(crate) struct SaidPeriods<T: SaidOfDay> {
    /// Different things that are said, by number.
    pub said: Vec<T>,
    /// The canonical division of the days by what is said of them, each period with the number.
    pub periods: Vec<(Period, Mark)>,
}

/// What is said of each day of a flight, by its number. Nothing rests on which days have one
/// number.
#[derive(Drop)]
struct SaidDays<T: SaidOfDay> {
    /// Different things that are said, by number.
    said: Vec<T>,
    /// The number for each day.
    marks: Periods<Mark>,
}

impl<T: SaidOfDay> SaidDays<T> {
    // This is said of each day of a period.
    fn put(&mut self, period: &Period, said: T) -> Result<(), Memory>
        requires before { AllByRecursion T.Sayable self.old.said.items }
        requires said { T.Sayable said }
        ensures { OnOk result (AllByRecursion T.Sayable self.new.said.items) }
    {
        let mark = self.mark_of(said)?;
        self.marks.replace(period, &mark)
    }

    // The number of what is said, which is added if it is none of the latest.
    fn mark_of(&mut self, said: T) -> Result<Mark, Memory>
        requires before { AllByRecursion T.Sayable self.old.said.items }
        requires said { T.Sayable said }
        ensures { OnOk result (AllByRecursion T.Sayable self.new.said.items) }
    {
        let count = self.said.len();
        for place in count.saturating_sub(MOST_COMPARED)..count {
            if self.said[place].is_same(&said) {
                return Ok(Mark::at(place));
            }
        }
        self.said.push(said)?;
        Ok(Mark::at(count))
    }
}

/// The periods of the canonical division of the days on which a flight differs by what is said of
/// them. The pieces are those of the flight's difference.
pub(crate) fn said_periods<T: SaidOfDay>(
    alloc: Global,
    rows: &[StationRow],
    pieces: &[(Period, Difference)],
) -> Result<SaidPeriods<T>, Memory>
    ensures { IfOk result (λ found. AllByRecursion T.Sayable found.said.items) }
{
    let mut days: SaidDays<T> = SaidDays {
        said: Vec::new(alloc),
        marks: Periods::new(alloc),
    };
    for piece in pieces {
        put_parts(alloc, rows, &mut days, &piece.0, &piece.1)?;
    }
    let periods = days.marks.pieces()?;
    let SaidDays { said, .. } = days;
    Ok(SaidPeriods { said, periods })
}

// Puts what is said of a piece, in parts on which the UTC variations of its new legs stay the same.
fn put_parts<T: SaidOfDay>(
    alloc: Global,
    rows: &[StationRow],
    days: &mut SaidDays<T>,
    period: &Period,
    difference: &Difference,
) -> Result<(), Memory>
    requires { AllByRecursion T.Sayable days.old.said.items }
    ensures { OnOk result (AllByRecursion T.Sayable days.new.said.items) }
{
    let end = period.last().number() + 1;
    let mut first = period.first().number();
    while first < end {
        let next = next_cut(rows, difference.new.legs(), first, end);
        let part = part_of(period, first, next);
        put_part(alloc, rows, days, &part, difference)?;
        first = next;
    }
    Ok(())
}

// Puts what is said of the first day of a part for all its days.
fn put_part<T: SaidOfDay>(
    alloc: Global,
    rows: &[StationRow],
    days: &mut SaidDays<T>,
    part: &Period,
    difference: &Difference,
) -> Result<(), Memory>
    requires { AllByRecursion T.Sayable days.old.said.items }
    ensures { OnOk result (AllByRecursion T.Sayable days.new.said.items) }
{
    let said: Option<T> = T::of_day(alloc, rows, part.first(), difference)?;
    match said {
        None => Ok(()),
        Some(said) => days.put(part, said),
    }
}
