//! A departure or an arrival.

ghost use Rattle.std.specs.Prelude.{◌≡◌};
ghost use Rattle.ssim_board.specs.Movements.{other_end};
ghost use Rattle.ssim_board.specs.internal.Ranks.{rank};

use crate::local_time::LocalTime;
use ssim_values::{Day, Flight, Station};

/// Whether a flight departs or arrives.
#[derive(Clone, Copy, Debug, PartialEq, Eq)]
pub enum MovementKind {
    Departure,
    Arrival,
}

impl MovementKind {
    /// The other end of a leg.
    pub(crate) fn other_end(self) -> MovementKind
        ensures { result ≡ other_end self }
    {
        match self {
            MovementKind::Departure => MovementKind::Arrival,
            MovementKind::Arrival => MovementKind::Departure,
        }
    }
}

/// A departure or an arrival of a leg at the station of a board.
#[derive(Debug, Drop)]
pub struct Movement {
    pub kind: MovementKind,
    /// Its local time at the station, on the date of the board.
    pub time: LocalTime,
    pub flight: Flight,
    /// The date of origin.
    pub date: Day,
    /// The leg sequence, 1 to 99.
    pub sequence: u8,
    /// Columns 73 to 75.
    pub aircraft_type: [u8; 3],
    /// The other station of the leg: where a departure arrives, or an arrival comes from.
    pub other_station: Station,
    /// The local time at the other station.
    pub other_time: LocalTime,
    /// Whether a date variation of the leg is neither digit nor blank, or in UTC mode a UTC
    /// variation is blank.
    pub is_uncertain: bool,
}

impl Movement {
    /// Its place in a day: two a minute, departures before arrivals.
    pub(crate) fn rank(&self) -> u16
        ensures { result ≡ rank self.now }
    {
        let after = match self.kind {
            MovementKind::Departure => 0,
            MovementKind::Arrival => 1,
        };
        2 * self.time.minutes() + after
    }
}
