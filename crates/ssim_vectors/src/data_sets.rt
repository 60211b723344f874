//! Data sets and their records, byte for byte. A data set is the list of its records; its bytes are
//! its lines, each record with LF.

use std::alloc::AllocError;

/// The header.
pub const HEADER: &[u8; 200] =
    b"1AIRLINE STANDARD SCHEDULE DATA SET     1                                                                                                                                                      001000001";

/// The carrier record of summer 2025: LX, 30MAR25 to 25OCT25, in UTC, created on 01FEB25.
pub const CARRIER: &[u8; 200] =
    b"2ULX      S25 30MAR2525OCT2501FEB25SUMMER 2025                  01FEB25                                                                                                                       0900000002";

/// The leg of LX544, ZRH to LHR, on each day of that season.
pub const LEG: &[u8; 200] =
    b"3 LX 05440101J30MAR2525OCT251234567 ZRH05450545+0200  LHR07000700+0100  320CY                                                                                               C12Y138             00000003";

/// Segment data of this leg: LH5924 is another name of the flight.
pub const SEGMENT: &[u8; 200] =
    b"4 LX 05440101J              AB106ZRHLHRLH5924                                                                                                                                                     000004";

/// The trailer after three records.
pub const TRAILER: &[u8; 200] =
    b"5 LX 01FEB25                                                                                                                                                                               000003E000004";

/// Fill.
pub const FILL: &[u8; 200] =
    b"00000000000000000000000000000000000000000000000000000000000000000000000000000000000000000000000000000000000000000000000000000000000000000000000000000000000000000000000000000000000000000000000000000000";

/// The leg until 30JUN25, in the first variation.
pub const LEG_TO_JUNE: &[u8; 200] =
    b"3 LX 05440101J30MAR2530JUN251234567 ZRH05450545+0200  LHR07000700+0100  320CY                                                                                               C12Y138             00000003";

/// The leg from 01JUL25 on, in the second variation.
pub const LEG_FROM_JULY: &[u8; 200] =
    b"3 LX 05440201J01JUL2525OCT251234567 ZRH05450545+0200  LHR07000700+0100  320CY                                                                                               C12Y138             00000004";

/// The trailer after four records.
pub const TRAILER_OF_FIVE: &[u8; 200] =
    b"5 LX 01FEB25                                                                                                                                                                               000004E000005";

/// The trailer after two records.
pub const TRAILER_OF_THREE: &[u8; 200] =
    b"5 LX 01FEB25                                                                                                                                                                               000002E000003";

/// The carrier record of three years: LX, 01JAN26 to 31DEC28, created on 01OCT25.
pub const CARRIER_OF_YEARS: &[u8; 200] =
    b"2ULX      S25 01JAN2631DEC2801OCT25SUMMER 2025                  01FEB25                                                                                                                       0900000002";

/// The leg of LX544 on each day of these years.
pub const LEG_OF_YEARS: &[u8; 200] =
    b"3 LX 05440101J01JAN2631DEC281234567 ZRH05450545+0200  LHR07000700+0100  320CY                                                                                               C12Y138             00000003";

/// Data set A: summer 2025, with one leg.
pub const SUMMER: &[&[u8; 200]] = &[HEADER, CARRIER, LEG, TRAILER];

/// Summer 2025 with the dates of its leg divided in two.
pub const SUMMER_DIVIDED: &[&[u8; 200]] = &[
    HEADER,
    CARRIER,
    LEG_TO_JUNE,
    LEG_FROM_JULY,
    TRAILER_OF_FIVE,
];

/// The canonical export of both.
pub const SUMMER_EXPORT: &[&[u8; 200]] = &[
    HEADER, FILL, FILL, FILL, FILL, CARRIER, FILL, FILL, FILL, FILL, LEG, FILL, FILL, FILL, FILL,
    TRAILER, FILL, FILL, FILL, FILL,
];

/// Summer 2025 without its leg.
pub const NO_FLIGHTS: &[&[u8; 200]] = &[HEADER, CARRIER, TRAILER_OF_THREE];

/// Data set B: three years, with the same leg.
pub const YEARS: &[&[u8; 200]] = &[HEADER, CARRIER_OF_YEARS, LEG_OF_YEARS, TRAILER];

/// Adds the lines of a data set.
pub fn add_lines(bytes: &mut Vec<u8>, records: &[&[u8; 200]]) -> Result<(), AllocError> {
    for record in records {
        bytes.extend_from_slice(record.as_slice())?;
        bytes.push(b'\n')?;
    }
    Ok(())
}
