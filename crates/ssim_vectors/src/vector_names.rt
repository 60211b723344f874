//! The vectors by name: a constant has its own name in small letters.

use crate::data_sets::*;
use crate::texts::*;
use std::alloc::AllocError;

/// Adds the bytes of the vector of this name, which end with LF. Returns whether there is one.
pub fn add_vector(bytes: &mut Vec<u8>, name: &str) -> Result<bool, AllocError> {
    if let Some(record) = record_named(name) {
        add_lines(bytes, &[record])?;
        return Ok(true);
    }
    if let Some(records) = data_set_named(name) {
        add_lines(bytes, records)?;
        return Ok(true);
    }
    let Some(text) = text_named(name) else {
        return Ok(false);
    };
    bytes.extend_from_slice(text)?;
    Ok(true)
}

fn record_named(name: &str) -> Option<&'static [u8; 200]> {
    match name {
        "header" => Some(HEADER),
        "carrier" => Some(CARRIER),
        "leg" => Some(LEG),
        "segment" => Some(SEGMENT),
        "trailer" => Some(TRAILER),
        "fill" => Some(FILL),
        _ => None,
    }
}

fn data_set_named(name: &str) -> Option<&'static [&'static [u8; 200]]> {
    match name {
        "summer" => Some(SUMMER),
        "summer_divided" => Some(SUMMER_DIVIDED),
        "summer_export" => Some(SUMMER_EXPORT),
        "no_flights" => Some(NO_FLIGHTS),
        "years" => Some(YEARS),
        _ => None,
    }
}

fn text_named(name: &str) -> Option<&'static [u8]> {
    match name {
        "stations" => Some(STATIONS),
        "one_date_cancelled" => Some(ONE_DATE_CANCELLED),
        "one_weekday_cancelled" => Some(ONE_WEEKDAY_CANCELLED),
        "times_changed_on_mondays" => Some(TIMES_CHANGED_ON_MONDAYS),
        "every_part" => Some(EVERY_PART),
        "every_part_written" => Some(EVERY_PART_WRITTEN),
        "two_desks" => Some(TWO_DESKS),
        "three_desks" => Some(THREE_DESKS),
        _ => None,
    }
}
