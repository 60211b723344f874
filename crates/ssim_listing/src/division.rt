//! How a listing divides a flight.

/// How a listing divides a flight: into its periods, or into its dates.
#[derive(Clone, Copy)]
pub(crate) enum Division {
    Periods,
    Dates,
}
