//! What the dates of a sub-message get, and how many of them.

ghost use Rattle.std.specs.Prelude.{◌≡◌, ◌<◌, slice_index_or};

/// What a date of a sub-message may get.
#[derive(Clone, Copy, Debug, PartialEq, Eq)]
pub enum Reason {
    /// The sub-message acted.
    Acted,
    /// The flight does not fly.
    Absent,
    /// The flight flies already.
    Present,
    /// A leg that is named is missing.
    Leg,
    /// There is no row for a station on the date.
    Station,
}

impl Reason {
    ghost use Rattle.ssim_schedule.specs.Effect.{class_number};

    /// The class by which it is counted.
    pub(crate) fn class(self) -> u8
        ensures value { result ≡ class_number self }
        ensures below_five { result < 5 }
    {
        match self {
            Reason::Acted => 0,
            Reason::Absent => 1,
            Reason::Present => 2,
            Reason::Leg => 3,
            Reason::Station => 4,
        }
    }
}

/// How many dates of a sub-message's period got each reason.
#[derive(Clone, Copy, Debug, PartialEq, Eq)]
pub struct Finding {
    /// The sub-message acted.
    pub acted: u32,
    /// The flight did not fly.
    pub absent: u32,
    /// The flight flew already.
    pub present: u32,
    /// A leg that was named was missing.
    pub leg: u32,
    /// There was no row for a station on the date.
    pub station: u32,
}

impl Finding {
    /// The counts of the classes.
    pub(crate) fn of(counts: &[u32; 5]) -> Finding
        ensures { result ≡ record {
          acted = slice_index_or counts.now 0 0;
          absent = slice_index_or counts.now 1 0;
          present = slice_index_or counts.now 2 0;
          leg = slice_index_or counts.now 3 0;
          station = slice_index_or counts.now 4 0;
        } }
    {
        Finding {
            acted: counts[0],
            absent: counts[1],
            present: counts[2],
            leg: counts[3],
            station: counts[4],
        }
    }
}
