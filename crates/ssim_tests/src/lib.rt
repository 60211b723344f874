//! Tests of values, periods and readers, by their public calls: dates from outside, random periods
//! beside a plain list of days, notes on a station table, devices that fail or never end, and generic
//! types. What a case in plain text can show is in `ssim_cases`.
//!
//! They are here, and not in the crates that they test, because a crate with tests is proved twice.
#![tactic(auto)]

#[cfg(test)]
mod devices;
#[cfg(test)]
mod notes;
#[cfg(test)]
mod periods;
#[cfg(test)]
mod plain_periods;
#[cfg(test)]
mod values;
