//! Periods with their texts, as leg records have them in columns 15 to 35.

ghost use Rattle.std.specs.Prelude.{◌≡◌};
ghost use Rattle.std.specs.List.{concat};
ghost use Rattle.ssim_columns.specs.clauses.Leg.{dates_texts, period_texts};
ghost use Rattle.ssim_columns.specs.Leg.{end_text};

use ssim_values::{Day, DayMask, Period};
use std::marker::Model;

/// The date of an end, or `00XXX00` for an open one.
pub fn end_text(last: Option<Day>) -> [u8; 7]
    ensures { result ≡ end_text last }
{
    match last {
        None => *b"00XXX00",
        Some(day) => day.write(),
    }
}

/// Columns 15 to 35 of a leg as they are written.
pub fn dates_text(first: Day, last: Option<Day>, days: DayMask) -> [u8; 21]
    ensures { result ≡ concat (dates_texts first last days) }
{
    let [f1, f2, f3, f4, f5, f6, f7] = first.write();
    let [l1, l2, l3, l4, l5, l6, l7] = end_text(last);
    let [d1, d2, d3, d4, d5, d6, d7] = days.write();
    [
        f1, f2, f3, f4, f5, f6, f7, l1, l2, l3, l4, l5, l6, l7, d1, d2, d3, d4, d5, d6, d7,
    ]
}

/// A period with its text: columns 15 to 35 of the leg records that have it.
#[derive(Drop)]
pub struct PeriodText {
    period: Period,
    text: [u8; 21],
}

impl Model for PeriodText {
    ghost use Rattle.std.specs.Prelude.{◌≡◌};
    ghost use Rattle.std.specs.List.{concat};
    ghost use Rattle.ssim_values.specs.Period.{DayRange};
    ghost use Rattle.ssim_columns.specs.clauses.Leg.{period_texts};

    ghost Value = { DayRange };

    ghost view = { λ p. p.period };

    ghost invariant = { λ p. p.text ≡ concat (period_texts p.period) };
}

impl PeriodText {
    /// The period with its text.
    pub fn new(period: Period) -> PeriodText
        ensures { result ≡ period }
    {
        PeriodText {
            period,
            text: dates_text(period.first(), Some(period.last()), period.mask()),
        }
    }

    /// Columns 15 to 35.
    pub(crate) fn text(&self) -> &[u8; 21]
        ensures { result.now ≡ concat (period_texts self.now) }
    {
        &self.text
    }
}
