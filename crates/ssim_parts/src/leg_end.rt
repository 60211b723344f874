//! The departure and the arrival of a leg, as its columns have them.

ghost use Rattle.std.specs.Prelude.{◌≡◌};
ghost use Rattle.ssim_parts.specs.MovedEnds.{arrival_of, departure_of};

use ssim_records::LegColumns;
use ssim_values::{Clock, Station, Variation};

/// One end of a leg: its departure or its arrival.
#[derive(Clone, Copy, Debug, PartialEq, Eq)]
pub(crate) struct LegEnd {
    pub station: Station,
    /// The passenger time, none if it is blank.
    pub passenger: Option<Clock>,
    /// The aircraft time.
    pub time: Clock,
    /// The UTC variation, none if it is blank.
    pub variation: Option<Variation>,
    /// Column 193 or 194.
    pub date_variation: u8,
}

impl LegEnd {
    /// The departure of a leg with these columns.
    pub(crate) fn departure_of(columns: &LegColumns) -> LegEnd
        ensures { result ≡ departure_of columns.now }
    {
        LegEnd {
            station: columns.departure_station(),
            passenger: columns.passenger_departure_time(),
            time: columns.aircraft_departure_time(),
            variation: columns.departure_variation(),
            date_variation: columns.date_variations()[0],
        }
    }

    /// The arrival.
    pub(crate) fn arrival_of(columns: &LegColumns) -> LegEnd
        ensures { result ≡ arrival_of columns.now }
    {
        LegEnd {
            station: columns.arrival_station(),
            passenger: columns.passenger_arrival_time(),
            time: columns.aircraft_arrival_time(),
            variation: columns.arrival_variation(),
            date_variation: columns.date_variations()[1],
        }
    }
}
