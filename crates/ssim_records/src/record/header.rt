//! Header records, type 1.

ghost use Rattle.std.specs.Prelude.{◌≡◌, ◌<◌, ◌∷◌, [], None, Ok, IfOk, IfErr, Some};
ghost use Rattle.ssim_columns.specs.Columns.{columns, first_fault, EachIsValid};
ghost use Rattle.ssim_records.specs.Header.{HeaderFields, IsHeader, SpellsHeader, header_table, written_header};

use ssim_columns::leg_fields::SERIAL;
use ssim_columns::{Field, FieldKind, details_at, field, first_fault, join, serial_at, six_digits};
use std::marker::Model;

const TABLE: [Field; 3] = [field!(2 35 Title), field!(36 194 Carried), SERIAL];

fn header_fault(bytes: &[u8; 200]) -> Option<usize>
    ensures { result ≡ first_fault bytes.now header_table }
{
    first_fault(&TABLE, bytes)
}

/// The header of a data set. Columns 36 to 194 are carried: the number of seasons in 41, the data
/// set serial in 192 to 194.
#[derive(Clone, Copy, Debug, PartialEq, Eq)]
pub struct Header {
    /// Columns 36 to 194.
    details: [u8; 159],
    /// The serial that the record had, below 1,000,000.
    serial: u32,
}

impl Model for Header {
    ghost use Rattle.ssim_records.specs.Header.{HeaderFields, IsHeader};

    ghost Value = { HeaderFields };

    ghost view = { λ r. record { details = r.details; serial = r.serial } };

    ghost invariant = { λ r. IsHeader (view r) };

    ghost inverse = { λ v. record { details = v.details; serial = v.serial } };
}

fn header_of(bytes: &[u8; 200]) -> Header
    requires kind { columns 1 1 bytes.now ≡ 49 ∷ [] }
    requires valid { EachIsValid bytes.now header_table }
    ensures { SpellsHeader result bytes.now }
{
    Header {
        details: details_at(bytes),
        serial: serial_at(bytes),
    }
}

/// The header that a record spells, or the first column of the first invalid field.
pub(crate) fn read_header(bytes: &[u8; 200]) -> Result<Header, usize>
    requires { columns 1 1 bytes.now ≡ 49 ∷ [] }
    ensures ok { IfOk result (λ r. SpellsHeader r bytes.now) }
    ensures only { (r : HeaderFields) → SpellsHeader r bytes.now → result ≡ Ok r }
    ensures err { IfErr result (λ column. first_fault bytes.now header_table ≡ Some column) }
{
    match header_fault(bytes) {
        Some(column) => Err(column),
        None => Ok(header_of(bytes)),
    }
}

impl Header {
    /// Columns 36 to 194.
    pub fn details(&self) -> [u8; 159]
        ensures { result ≡ self.now.details }
    {
        self.details
    }

    /// The serial that the record had.
    pub fn serial(&self) -> u32
        ensures value { result ≡ self.now.serial }
        ensures is_header { IsHeader self.now }
    {
        self.serial
    }

    /// The same header with this serial.
    pub fn with_serial(self, serial: u32) -> Header
        requires { serial < 1000000 }
        ensures { result ≡ record self { serial = serial } }
    {
        let mut header = self;
        header.serial = serial;
        header
    }

    /// The one written spelling.
    pub(crate) fn written(&self) -> [u8; 200]
        ensures value { result ≡ written_header self.now }
        ensures is_header { IsHeader self.now }
        ensures spells { SpellsHeader self.now result }
    {
        let mut bytes = [b' '; 200];
        join(
            &mut bytes,
            &[
                b"1",
                b"AIRLINE STANDARD SCHEDULE DATA SET",
                &self.details,
                &six_digits(self.serial),
            ],
        );
        bytes
    }
}
