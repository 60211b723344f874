//! Laws of the spellings, for the proofs of other crates.
ghost use Rattle.ssim_values.specs.Spellings.{DaysAreRead, DaysReadBack, DaysHaveOneText, DayMonthsAreRead, DayMonthsReadBack, DayMasksAreRead, DayMasksReadBack, ClocksAreRead, ClocksReadBack, VariationsAreRead, VariationsReadBack};

/// A day, a day of a month, days of operation, a time and a variation are read from exactly the
/// texts that spell them.
pub fn spellings_are_read()
    ensures days { DaysAreRead }
    ensures day_months { DayMonthsAreRead }
    ensures day_masks { DayMasksAreRead }
    ensures clocks { ClocksAreRead }
    ensures variations { VariationsAreRead }
{}

/// The text of each value reads back as the value; a day has one text.
pub fn texts_read_back()
    ensures days { DaysReadBack }
    ensures one_text { DaysHaveOneText }
    ensures day_months { DayMonthsReadBack }
    ensures day_masks { DayMasksReadBack }
    ensures clocks { ClocksReadBack }
    ensures variations { VariationsReadBack }
{}
