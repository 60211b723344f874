//! Trailer records, type 5.

ghost use Rattle.std.specs.Prelude.{◌≡◌, ◌<◌, ◌∷◌, [], None, Ok, IfOk, IfErr, Some, IsTrue, slice_range};
ghost use Rattle.std.specs.List.{list_all};
ghost use Rattle.ssim_columns.specs.declared.field.FieldKind.TheVariants.{Carried, Code};
ghost use Rattle.ssim_columns.specs.Columns.{columns, fault_in, first_fault, is_carried, end_code_of, EachIsValid};
ghost use Rattle.ssim_records.specs.Trailer.{TrailerFields, IsTrailer, SpellsTrailer, trailer_table, written_trailer};

use ssim_columns::leg_fields::SERIAL;
use ssim_columns::{
    EndCode, Field, FieldKind, airline_at, bytes_of, carried_at, digits_at, end_code_of,
    end_code_text, field, first_fault, join, serial_at, seven, six_digits,
};
use ssim_values::Airline;
use std::marker::Model;

/// Columns 188 to 193: the check reference.
const CHECK: Field = field!(188 193 Digits);

const TABLE: [Field; 6] = [
    field!(2 2 Carried),
    field!(3 5 AirlineCode),
    field!(6 187 Carried),
    CHECK,
    field!(194 194 Code),
    SERIAL,
];

fn trailer_fault(bytes: &[u8; 200]) -> Option<usize>
    ensures { result ≡ first_fault bytes.now trailer_table }
{
    first_fault(&TABLE, bytes)
}

#[tactic(auto, using(ssim_columns::proofs::lemmas::Rows::all_carried))]
fn release_at(bytes: &[u8; 200]) -> [u8; 182]
    requires { fault_in Carried (columns 6 187 bytes.now) ≡ None }
    ensures ok { IsTrue (list_all is_carried result) }
    ensures value { columns 6 187 bytes.now ≡ result }
{
    bytes_of::<182>(&bytes[5..187])
}

fn code_at(bytes: &[u8; 200]) -> EndCode
    requires { fault_in Code (columns 194 194 bytes.now) ≡ None }
    ensures { end_code_of (columns 194 194 bytes.now) ≡ Some result }
{
    end_code_of(&bytes[193..194]).unwrap()
}

/// The trailer of a carrier's records.
#[derive(Clone, Copy, Debug, PartialEq, Eq)]
pub struct Trailer {
    /// Column 2, carried.
    spare: u8,
    /// Columns 3 to 5.
    airline: Airline,
    /// Columns 6 to 187, carried: the release date in 6 to 12.
    release: [u8; 182],
    /// Columns 188 to 193: the serial of the record before, below 1,000,000.
    check: u32,
    /// Column 194.
    code: EndCode,
    /// The serial that the record had, below 1,000,000.
    serial: u32,
}

impl Model for Trailer {
    ghost use Rattle.ssim_records.specs.Trailer.{TrailerFields, IsTrailer};

    ghost Value = { TrailerFields };

    ghost view = { λ r. record {
      spare = r.spare;
      airline = r.airline;
      release = r.release;
      check = r.check;
      code = r.code;
      serial = r.serial;
    } };

    ghost invariant = { λ r. IsTrailer (view r) };

    ghost inverse = { λ v. record {
      spare = v.spare;
      airline = v.airline;
      release = v.release;
      check = v.check;
      code = v.code;
      serial = v.serial;
    } };
}

fn trailer_of(bytes: &[u8; 200]) -> Trailer
    requires kind { columns 1 1 bytes.now ≡ 53 ∷ [] }
    requires valid { EachIsValid bytes.now trailer_table }
    ensures { SpellsTrailer result bytes.now }
{
    Trailer {
        spare: carried_at(bytes, 2),
        airline: airline_at(bytes),
        release: release_at(bytes),
        check: digits_at(bytes, CHECK),
        code: code_at(bytes),
        serial: serial_at(bytes),
    }
}

/// The trailer that a record spells, or the first column of the first invalid field.
pub(crate) fn read_trailer(bytes: &[u8; 200]) -> Result<Trailer, usize>
    requires { columns 1 1 bytes.now ≡ 53 ∷ [] }
    ensures ok { IfOk result (λ r. SpellsTrailer r bytes.now) }
    ensures only { (r : TrailerFields) → SpellsTrailer r bytes.now → result ≡ Ok r }
    ensures err { IfErr result (λ column. first_fault bytes.now trailer_table ≡ Some column) }
{
    match trailer_fault(bytes) {
        Some(column) => Err(column),
        None => Ok(trailer_of(bytes)),
    }
}

impl Trailer {
    /// Column 2, carried.
    pub fn column_2(&self) -> u8
        ensures { result ≡ self.now.spare }
    {
        self.spare
    }

    /// The airline whose records end here.
    pub fn airline(&self) -> Airline
        ensures { result ≡ self.now.airline }
    {
        self.airline
    }

    /// Columns 6 to 12: the release date, carried.
    pub fn release_date(&self) -> [u8; 7]
        ensures { result ≡ slice_range self.now.release 0 7 }
    {
        seven(&self.release[0..7])
    }

    /// Columns 6 to 187, carried: the release date and the columns after it.
    pub fn columns_6_to_187(&self) -> [u8; 182]
        ensures { result ≡ self.now.release }
    {
        self.release
    }

    /// The serial of the record before, as the trailer has it.
    pub fn check(&self) -> u32
        ensures { result ≡ self.now.check }
    {
        self.check
    }

    /// Whether another carrier follows.
    pub fn code(&self) -> EndCode
        ensures { result ≡ self.now.code }
    {
        self.code
    }

    /// The serial that the record had.
    pub fn serial(&self) -> u32
        ensures value { result ≡ self.now.serial }
        ensures is_trailer { IsTrailer self.now }
    {
        self.serial
    }

    /// The same trailer with this check reference and this serial.
    pub fn with_serials(self, check: u32, serial: u32) -> Trailer
        requires check { check < 1000000 }
        requires serial { serial < 1000000 }
        ensures { result ≡ record self { check = check; serial = serial } }
    {
        let mut trailer = self;
        trailer.check = check;
        trailer.serial = serial;
        trailer
    }

    /// The one written spelling.
    pub(crate) fn written(&self) -> [u8; 200]
        ensures value { result ≡ written_trailer self.now }
        ensures is_trailer { IsTrailer self.now }
        ensures spells { SpellsTrailer self.now result }
    {
        let mut bytes = [b' '; 200];
        join(
            &mut bytes,
            &[
                b"5",
                &[self.spare],
                &self.airline.write(),
                &self.release,
                &six_digits(self.check),
                &end_code_text(self.code),
                &six_digits(self.serial),
            ],
        );
        bytes
    }
}
