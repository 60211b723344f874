//! What the latest records had in columns that are parsed. Mostly the next record has the same, and
//! it is not parsed again.

ghost use Rattle.std.specs.Prelude.{◌≡◌, ◌<◌, IfSome, Some, length};
ghost use Rattle.ssim_values.specs.Day.{day_of};
ghost use Rattle.ssim_values.specs.DayMask.{days_of};
ghost use Rattle.ssim_columns.specs.Columns.{columns};
ghost use Rattle.ssim_columns.specs.Leg.{IsName, SpellsName};
ghost use Rattle.ssim_columns.specs.internal.LatestColumns.{SpellsDates, SpellsEnds};
ghost use Rattle.ssim_columns.specs.internal.LatestColumns.{SpellsFlight};
ghost use Rattle.ssim_columns.specs.internal.LatestColumns.{SpellsSerialFront};
ghost use Rattle.ssim_columns.specs.Numbers.{digits_of};

use crate::field::{Field, FieldKind, days_of, end_from};
use crate::latest_months::LatestMonths;
use crate::latest_value::{InColumns, LatestValue};
use crate::leg::leg_fields::{DATES, DAYS, FIRST_DAY, LAST_DAY};
use crate::leg::leg_name::{AirlineFlight, LegName, name_with, read_flight, read_flight_leg};
use crate::text::equality::are_same_by_fours;
use crate::text::number::digits_of;
use ssim_values::{Day, DayMask};

/// Columns 2 to 9: the flight of an airline.
const FLIGHT: Field = field!(2 9 Carried);
/// Columns 28 to 35: a column of the end of the period, and the days of operation. Seven columns
/// are compared with one beside them, as eight bytes.
const WITH_DAYS: Field = field!(28 35 Carried);
/// Columns 195 to 198: the first four digits of the serial.
const SERIAL_FRONT: Field = field!(195 198 Carried);
/// Columns 199 and 200: the last two digits of the serial.
const SERIAL_END: Field = field!(199 200 Carried);

/// Columns 15 to 35 of a leg: the first day of its period, its last day, or none if it is open, and
/// the days of operation.
#[derive(Clone, Copy, Debug)]
pub(crate) struct LegDates {
    pub(crate) first: Day,
    pub(crate) last: Option<Day>,
    pub(crate) days: DayMask,
}

/// Columns 15 to 28 of a leg.
#[derive(Clone, Copy, Debug)]
struct LegEnds {
    first: Day,
    last: Option<Day>,
}

/// The number that the first four digits of a serial spell.
#[derive(Clone, Copy, Debug)]
struct SerialFront {
    number: u32,
}

impl InColumns<8> for AirlineFlight {
    ghost columns_in = { λ bytes. columns 2 9 bytes };

    ghost Spells = { λ flight bytes. SpellsFlight flight bytes };

    fn columns(bytes: &[u8; 200]) -> &[u8] {
        FLIGHT.text(bytes)
    }

    fn read(bytes: &[u8; 200], _months: &mut LatestMonths) -> Option<AirlineFlight> {
        read_flight(bytes)
    }
}

impl InColumns<14> for LegEnds {
    ghost columns_in = { λ bytes. columns 15 28 bytes };

    ghost Spells = { λ ends bytes. SpellsEnds ends bytes };

    fn columns(bytes: &[u8; 200]) -> &[u8] {
        DATES.text(bytes)
    }

    fn read(bytes: &[u8; 200], months: &mut LatestMonths) -> Option<LegEnds> {
        let first_text = FIRST_DAY.text(bytes);
        let first = months.day_of(first_text)?;
        let last_text = LAST_DAY.text(bytes);
        let day = day_after(months, first, first_text, last_text);
        let last = end_from(first, last_text, day)?;
        Some(LegEnds { first, last })
    }
}

impl InColumns<8> for DayMask {
    ghost columns_in = { λ bytes. columns 28 35 bytes };

    ghost Spells = { λ days bytes. days_of (columns 29 35 bytes) ≡ Some days };

    fn columns(bytes: &[u8; 200]) -> &[u8] {
        WITH_DAYS.text(bytes)
    }

    fn read(bytes: &[u8; 200], _months: &mut LatestMonths) -> Option<DayMask> {
        days_of(DAYS.text(bytes))
    }
}

impl InColumns<4> for SerialFront {
    ghost columns_in = { λ bytes. columns 195 198 bytes };

    ghost Spells = { λ front bytes. SpellsSerialFront front bytes };

    fn columns(bytes: &[u8; 200]) -> &[u8] {
        SERIAL_FRONT.text(bytes)
    }

    fn read(bytes: &[u8; 200], _months: &mut LatestMonths) -> Option<SerialFront> {
        let number = digits_of(SERIAL_FRONT.text(bytes))?;
        Some(SerialFront { number })
    }
}

// The day that a text spells, if another text spells `first`. A leg of one day has the same text
// twice, and the day is read once.
fn day_after(months: &mut LatestMonths, first: Day, first_text: &[u8], text: &[u8]) -> Option<Day>
    requires first_len { length first_text.now ≡ 7 }
    requires first { day_of first_text.now ≡ Some first }
    requires len { length text.now ≡ 7 }
    ensures { result ≡ day_of text.now }
{
    if are_same_by_fours(text, first_text) {
        return Some(first);
    }
    months.day_of(text)
}

/// The latest flight, the latest ends of a period, the latest days of operation and the first
/// digits of the latest serial of the records so far, and the months of the latest dates.
#[derive(Drop)]
pub struct LatestColumns {
    flight: LatestValue<8, AirlineFlight>,
    ends: LatestValue<14, LegEnds>,
    days: LatestValue<8, DayMask>,
    serial: LatestValue<4, SerialFront>,
    months: LatestMonths,
}

impl LatestColumns {
    pub fn new() -> LatestColumns {
        LatestColumns {
            flight: LatestValue::new(),
            ends: LatestValue::new(),
            days: LatestValue::new(),
            serial: LatestValue::new(),
            months: LatestMonths::new(),
        }
    }

    /// The name in columns 2 to 13, if they spell one.
    #[inline(always)]
    pub(crate) fn name_in(&mut self, bytes: &[u8; 200]) -> Option<LegName>
        ensures spells { IfSome result (λ name. SpellsName name bytes.now) }
        ensures is_name { IfSome result (λ name. IsName name) }
    {
        let named = self.flight.value_in(bytes, &mut self.months)?;
        let leg = read_flight_leg(bytes)?;
        Some(name_with(bytes, named, leg))
    }

    /// The dates in columns 15 to 35, if they spell some.
    pub(crate) fn dates_in(&mut self, bytes: &[u8; 200]) -> Option<LegDates>
        ensures { IfSome result (λ dates. SpellsDates dates bytes.now) }
    {
        let LegEnds { first, last } = self.ends.value_in(bytes, &mut self.months)?;
        let days = self.days.value_in(bytes, &mut self.months)?;
        Some(LegDates { first, last, days })
    }

    /// The serial in columns 195 to 200, if they spell one.
    #[inline(always)]
    pub(crate) fn serial_in(&mut self, bytes: &[u8; 200]) -> Option<u32>
        ensures below { IfSome result (λ serial. serial < 1000000) }
        ensures value { IfSome result (λ serial. digits_of (columns 195 200 bytes.now)
            ≡ Some serial) }
    {
        let front = self.serial.value_in(bytes, &mut self.months)?;
        let last = digits_of(SERIAL_END.text(bytes))?;
        Some(front.number * 100 + last)
    }
}
