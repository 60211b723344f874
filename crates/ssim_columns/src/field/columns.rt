//! The value in valid columns of a record, and the columns of a record that is written.

ghost use Rattle.std.specs.Prelude.{◌≡◌, ◌≤◌, ◌<◌, ◌+◌, ◌-◌, ◌^◌, ◌∷◌, [], length, Some, None, IsSome, IsTrue};
ghost use Rattle.std.specs.List.{list_all};
ghost use Rattle.ssim_values.specs.Calendar.{day_limit};
ghost use Rattle.ssim_values.specs.Day.{day_of};
ghost use Rattle.ssim_values.specs.DayMask.{days_of, IsMask};
ghost use Rattle.ssim_values.specs.Airline.{is_airline};
ghost use Rattle.ssim_values.specs.Flight.{is_suffix};
ghost use Rattle.ssim_columns.specs.declared.field.FieldKind.TheVariants.{Suffix, AirlineCode};
ghost use Rattle.ssim_columns.specs.declared.field.FieldKind.TheVariants.{Carried, Days, Number};
ghost use Rattle.ssim_columns.specs.declared.field.FieldKind.TheVariants.{Sequence, Digits, Dates};
ghost use Rattle.ssim_columns.specs.declared.field.FieldKind.TheVariants.{Date};
ghost use Rattle.ssim_columns.specs.Numbers.{number_of, sequence_of, digits_of};
ghost use Rattle.ssim_columns.specs.Columns.{columns, is_carried, fault_in, end_from};
ghost use Rattle.ssim_columns.specs.clauses.Columns.{AreColumns};
ghost use Rattle.ssim_columns.specs.Leg.{IsEnd};

use crate::field::{Field, day_of, days_of, end_from};
use crate::leg::leg_fields::{AIRLINE, DAYS, FIRST_DAY, LAST_DAY, SERIAL, SUFFIX};
use crate::text::array::bytes_of;
use crate::text::number::{digits_of, number_of, sequence_of};
use ssim_values::{Airline, Day, DayMask};

pub(crate) fn number_at(bytes: &[u8; 200], field: Field) -> u32
    requires are_columns { AreColumns field.first field.last }
    requires short { field.last ≤ field.first + 5 }
    requires valid { fault_in Number (columns field.first field.last bytes.now) ≡ None }
    ensures below { result < 10 ^ (field.last - (field.first - 1)) }
    ensures value { number_of (columns field.first field.last bytes.now) ≡ Some result }
{
    number_of(field.text(bytes)).unwrap()
}

pub(crate) fn sequence_at(bytes: &[u8; 200], field: Field) -> u32
    requires are_columns { AreColumns field.first field.last }
    requires short { field.last ≤ field.first + 5 }
    requires valid { fault_in Sequence (columns field.first field.last bytes.now) ≡ None }
    ensures below { (0 < result) × (result < 10 ^ (field.last - (field.first - 1))) }
    ensures value { sequence_of (columns field.first field.last bytes.now) ≡ Some result }
{
    sequence_of(field.text(bytes)).unwrap()
}

pub fn digits_at(bytes: &[u8; 200], field: Field) -> u32
    requires are_columns { AreColumns field.first field.last }
    requires short { field.last ≤ field.first + 5 }
    requires valid { fault_in Digits (columns field.first field.last bytes.now) ≡ None }
    ensures below { result < 10 ^ (field.last - (field.first - 1)) }
    ensures value { digits_of (columns field.first field.last bytes.now) ≡ Some result }
{
    digits_of(field.text(bytes)).unwrap()
}

/// The serial.
pub fn serial_at(bytes: &[u8; 200]) -> u32
    requires { fault_in Digits (columns 195 200 bytes.now) ≡ None }
    ensures below { result < 1000000 }
    ensures value { digits_of (columns 195 200 bytes.now) ≡ Some result }
{
    digits_at(bytes, SERIAL)
}

/// The day that a text spells.
fn day_in(text: &[u8]) -> Day
    requires len { length text.now ≡ 7 }
    requires is_day { IsSome (day_of text.now) }
    ensures below { result < day_limit }
    ensures value { day_of text.now ≡ Some result }
{
    let day = day_of(text).unwrap();
    // No effect at run time. The proof reads from this use that the day is in range.
    let _ = day.number();
    day
}

/// The start in columns 15 to 21.
pub fn first_day_at(bytes: &[u8; 200]) -> Day
    requires valid { fault_in Dates (columns 15 28 bytes.now) ≡ None }
    ensures below { result < day_limit }
    ensures value { day_of (columns 15 21 bytes.now) ≡ Some result }
{
    day_in(FIRST_DAY.text(bytes))
}

/// The end in columns 22 to 28.
pub fn last_day_at(bytes: &[u8; 200], first: Day) -> Option<Day>
    requires first { day_of (columns 15 21 bytes.now) ≡ Some first }
    requires valid { fault_in Dates (columns 15 28 bytes.now) ≡ None }
    ensures below { IsEnd first result }
    ensures value { end_from (Some first) (columns 22 28 bytes.now) ≡ Some result }
{
    let last = LAST_DAY.text(bytes);
    end_from(first, last, day_of(last)).unwrap()
}

/// The date in columns 29 to 35.
pub fn created_at(bytes: &[u8; 200]) -> Day
    requires valid { fault_in Date (columns 29 35 bytes.now) ≡ None }
    ensures below { result < day_limit }
    ensures value { day_of (columns 29 35 bytes.now) ≡ Some result }
{
    day_in(&bytes[28..35])
}

/// The days of operation in columns 29 to 35.
pub(crate) fn days_at(bytes: &[u8; 200]) -> DayMask
    requires { fault_in Days (columns 29 35 bytes.now) ≡ None }
    ensures mask { IsMask result }
    ensures value { days_of (columns 29 35 bytes.now) ≡ Some result }
{
    let days = days_of(DAYS.text(bytes)).unwrap();
    // No effect at run time. The proof reads from this use that there are seven days.
    let _ = days.days();
    days
}

/// The airline in columns 3 to 5.
pub fn airline_at(bytes: &[u8; 200]) -> Airline
    requires { fault_in AirlineCode (columns 3 5 bytes.now) ≡ None }
    ensures ok { IsTrue (is_airline result) }
    ensures value { columns 3 5 bytes.now ≡ result }
{
    match Airline::parse(&bytes_of::<3>(AIRLINE.text(bytes))) {
        Ok(airline) => airline,
        Err(_) => unreachable!(),
    }
}

/// The suffix in column 2.
pub(crate) fn suffix_at(bytes: &[u8; 200]) -> u8
    requires { fault_in Suffix (columns 2 2 bytes.now) ≡ None }
    ensures ok { IsTrue (is_suffix result) }
    ensures value { columns 2 2 bytes.now ≡ result ∷ [] }
{
    bytes[SUFFIX.first - 1]
}

pub fn carried_at(bytes: &[u8; 200], column: usize) -> u8
    requires are_columns { AreColumns column column }
    requires valid { fault_in Carried (columns column column bytes.now) ≡ None }
    ensures ok { IsTrue (is_carried result) }
    ensures value { columns column column bytes.now ≡ result ∷ [] }
{
    bytes[column - 1]
}

/// The carried columns 36 to 194 of a header or a carrier record.
#[tactic(auto, using(crate::proofs::lemmas::Rows::all_carried))]
pub fn details_at(bytes: &[u8; 200]) -> [u8; 159]
    requires { fault_in Carried (columns 36 194 bytes.now) ≡ None }
    ensures ok { IsTrue (list_all is_carried result) }
    ensures value { columns 36 194 bytes.now ≡ result }
{
    bytes_of::<159>(&bytes[35..194])
}
