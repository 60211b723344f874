//! The pieces of a list of one value per day, and the laws of their definition.
ghost use Rattle.std.specs.Prelude.{◌≡◌, length, List, IfOk, OnOk};
ghost use Rattle.ssim_periods.specs.Calendar.{day_count};
ghost use Rattle.ssim_periods.specs.Cover.{CoverLaw, DivisionLaw};
ghost use Rattle.ssim_periods.specs.Pieces.{pieces_of, ArePieces};
ghost use Rattle.ssim_periods.specs.examples.Pieces.{WorkedPieces};

use crate::periods::Form;
use crate::{Periods, Value};
use ssim_values::{Memory, Period};

impl<V: Value> Periods<V> {
    /// The cover of the days of each value other than the empty one, each period with its value,
    /// sorted by first day.
    ///
    /// In a list of a few periods without a common date, each value is compared with the others. A
    /// value of one period gives this period, trimmed to the days that it holds. For a value of
    /// several periods, rows are made of these periods alone. Otherwise each value of a row first
    /// gets a number: mostly by one comparison, with the value of the same weekday in the row
    /// before, else by its order among the distinct values. One pass over the ranges then gives the
    /// periods of each number, of which the pieces are made as in a list. So the cost grows with
    /// the ranges, times the logarithm of the number of distinct values.
    pub fn pieces(&self) -> Result<Vec<(Period, V)>, Memory>
        ensures pieces { IfOk result (λ pieces. pieces.items
            ≡ pieces_of V.alike V.nothing self.now.days) }
        ensures each_day { OnOk result (length self.now.days ≡ day_count) }
    {
        match &self.form {
            Form::Apart(periods) => periods.pieces(),
            Form::Rows(rows) => rows.pieces(),
        }
    }
}

/// The law of covers: each day of a set is in exactly one period of its cover, and no other day is
/// in any.
pub fn covers_hold_each_day_once()
    ensures { CoverLaw }
{}

/// The law of the division: the cover of a set of days is the one division that is made period by
/// period, each the greatest that repeats the first seven days from its first day.
pub fn a_cover_is_the_division()
    ensures { DivisionLaw }
{}

/// The law of pieces: exactly one piece holds each day, the piece with the value of that day; if
/// that value is empty, none does. Each piece holds its own first day.
pub fn pieces_hold_each_day_once<V: Value>()
    ensures { (days : List V) → ArePieces V.alike V.nothing days
        (pieces_of V.alike V.nothing days) }
{}

/// Covers and pieces worked out by hand agree with the definitions.
pub fn worked_pieces()
    ensures { WorkedPieces }
{}
