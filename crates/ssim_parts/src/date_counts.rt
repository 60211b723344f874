//! How many flight dates pieces have.

ghost use Rattle.std.specs.Prelude.{◌≡◌, ◌+◌, if◌then◌else◌};
ghost use Rattle.ssim_parts.specs.ConversionLines.{is_kept, is_left, is_moved};
ghost use Rattle.ssim_parts.specs.internal.Counted.{all_dates, any_legs, capped, dates_in};
ghost use Rattle.ssim_parts.specs.internal.Counted.{days_in};

use crate::converted::FlightFates;
use crate::fate::Fate;
use ssim_periods::number_of_days;
use ssim_schedule::{FlightPieces, Itinerary};
use ssim_values::Period;

/// How many flight dates are kept, how many of these have another date than before, and how many
/// are left.
#[derive(Clone, Copy)]
pub(crate) struct DateCounts {
    pub kept: u64,
    pub moved: u64,
    pub left: u64,
}

impl DateCounts {
    /// The numbers of the flight dates of flights.
    pub(crate) fn of_flights(flights: &[FlightFates]) -> DateCounts
        ensures kept { result.kept ≡ capped (all_dates is_kept flights.now) }
        ensures moved { result.moved ≡ capped (all_dates is_moved flights.now) }
        ensures left { result.left ≡ capped (all_dates is_left flights.now) }
    {
        let mut counts = DateCounts::none();
        for flight in flights {
            counts = counts.plus(DateCounts::of_pieces(flight.pieces()));
        }
        counts
    }

    // The numbers of the dates of a flight.
    fn of_pieces(pieces: &[(Period, Fate)]) -> DateCounts
        ensures kept { result.kept ≡ capped (dates_in is_kept pieces.now) }
        ensures moved { result.moved ≡ capped (dates_in is_moved pieces.now) }
        ensures left { result.left ≡ capped (dates_in is_left pieces.now) }
    {
        let mut counts = DateCounts::none();
        for piece in pieces {
            counts = counts.plus(DateCounts::of_period(&piece.0, piece.1));
        }
        counts
    }

    // The numbers of the dates of a period that have this fate.
    fn of_period(period: &Period, fate: Fate) -> DateCounts
        ensures kept { result.kept ≡ (if is_kept fate then days_in period.now else 0) }
        ensures moved { result.moved ≡ (if is_moved fate then days_in period.now else 0) }
        ensures left { result.left ≡ (if is_left fate then days_in period.now else 0) }
    {
        let dates = number_of_days(period) as u64;
        match fate {
            Fate::Absent => DateCounts::none(),
            Fate::Kept(shift) => DateCounts {
                kept: dates,
                moved: if shift == 1 { 0 } else { dates },
                left: 0,
            },
            Fate::Left(_) => DateCounts {
                kept: 0,
                moved: 0,
                left: dates,
            },
        }
    }

    fn none() -> DateCounts
        ensures kept { result.kept ≡ 0 }
        ensures moved { result.moved ≡ 0 }
        ensures left { result.left ≡ 0 }
    {
        DateCounts {
            kept: 0,
            moved: 0,
            left: 0,
        }
    }

    fn plus(self, more: DateCounts) -> DateCounts
        ensures kept { result.kept ≡ capped (self.kept + more.kept) }
        ensures moved { result.moved ≡ capped (self.moved + more.moved) }
        ensures left { result.left ≡ capped (self.left + more.left) }
    {
        DateCounts {
            kept: self.kept.saturating_add(more.kept),
            moved: self.moved.saturating_add(more.moved),
            left: self.left.saturating_add(more.left),
        }
    }
}

/// The number of the flight dates of flights.
pub(crate) fn flown_dates(flights: &[FlightPieces]) -> u64
    ensures { result ≡ capped (all_dates any_legs flights.now) }
{
    let mut count: u64 = 0;
    for flight in flights {
        count = count.saturating_add(dates_of_pieces(flight.pieces()));
    }
    count
}

// The number of the dates of a flight.
fn dates_of_pieces(pieces: &[(Period, Itinerary)]) -> u64
    ensures { result ≡ capped (dates_in any_legs pieces.now) }
{
    let mut count: u64 = 0;
    for piece in pieces {
        count = count.saturating_add(number_of_days(&piece.0) as u64);
    }
    count
}
