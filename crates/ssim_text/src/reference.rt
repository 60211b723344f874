//! References of messages.
ghost use Rattle.std.specs.Prelude.{◌≡◌, ◌<◌, ◌≤◌, ◌^◌, true, length, Some, IfSome, IfNone, IfOk};
ghost use Rattle.std.specs.Prelude.{IfErr, option_map};
ghost use Rattle.ssim_text.specs.Lines.{reference_of, numbers_of, group_code_of, creator_of};
ghost use Rattle.ssim_text.specs.Lines.{digits_in};
ghost use Rattle.ssim_text.specs.internal.PrintedReference.{after_blank, reference_in};
ghost use Rattle.ssim_values.specs.Flight.{number_of};
ghost use Rattle.ssim_values.specs.Characters.{is_digit};
ghost use Rattle.std.specs.List.{list_all};

use crate::bytes::{as_text, first_bytes};
use crate::dates::{day, month_day};
use crate::encoder::{five_digits, three_digits};
use crate::fault::Fault;
use crate::kind::Kind;
use crate::originator::Originator;
use arrayvec::ArrayVec;
use ssim_values::{Day, DayMonth, are_digits};
use std::cmp::Ordering;
use std::fmt;
use std::marker::Model;

/// The reference of a message, with its year. References are compared field by field, from the
/// first.
///
/// It is displayed as kind, date, group serial and message serial (`SSM 01JUN25 00001 001`), and
/// the originator if it is not blank.
#[derive(Clone, Copy, Debug, PartialEq, Eq, PartialOrd, Ord)]
pub struct Reference {
    /// The date of the reference, with its year.
    pub date: Day,
    /// The message group serial, up to 99999.
    pub group: u32,
    /// The message serial in the group, up to 999.
    pub serial: u16,
    pub kind: Kind,
    pub originator: Originator,
}

impl Reference {
    ghost use Rattle.std.specs.Ordering.{nat_cmp};
    ghost use Rattle.std.specs.Cmp.Lexicographic.{slice_cmp};
    ghost use Rattle.ssim_text.specs.Canonical.{five_digits, three_digits};
    ghost use Rattle.ssim_text.specs.Reference.{SpellsReference, reference_numbers};

    /// Reads a reference as it is displayed. Any other text is 21 `BadReference`.
    pub fn parse(text: &[u8]) -> Result<Reference, Fault>
        ensures ok { IfOk result (λ reference. SpellsReference reference text.now) }
        ensures only { (reference : Reference) → SpellsReference reference text.now
            → result ≡ Ok reference }
        ensures err { IfErr result (λ fault. fault ≡ Fault.BadReference) }
    {
        match printed(text) {
            Some(reference) => Ok(reference),
            None => Err(Fault::BadReference),
        }
    }

    /// Which of two references comes first: by date, group serial, message serial, kind (SSM before
    /// ASM), and the bytes of the originator.
    pub fn order(&self, other: &Reference) -> Ordering
        ensures { result ≡ slice_cmp nat_cmp (reference_numbers self.now)
            (reference_numbers other.now) }
    {
        self.cmp(other)
    }

    /// The message group serial in five digits, as a text writes it.
    pub fn group_digits(&self) -> [u8; 5]
        ensures { result ≡ five_digits self.now.group }
    {
        five_digits(self.group)
    }

    /// The message serial in three digits, as a text writes it.
    pub fn serial_digits(&self) -> [u8; 3]
        ensures { result ≡ three_digits self.now.serial }
    {
        three_digits(self.serial)
    }
}

impl fmt::Display for Reference {
    ghost use Rattle.ssim_text.specs.Reference.{printed_reference};

    ghost output = { λ r. Some (printed_reference r) };

    fn fmt<W: fmt::Write>(&self, f: &mut fmt::Formatter<W>) -> fmt::Result {
        let kind = self.kind;
        let date = self.date;
        let group = self.group_digits();
        let group = as_text(&group)?;
        let serial = self.serial_digits();
        let serial = as_text(&serial)?;
        let originator = self.originator;
        if originator.is_none() {
            write!(f, "{kind} {date} {group} {serial}")
        } else {
            write!(f, "{kind} {date} {group} {serial} {originator}")
        }
    }
}

/// Whether another message of the group follows (`C`) or none (`E`).
#[derive(Clone, Copy, Debug, PartialEq, Eq)]
pub enum GroupCode {
    Continuation,
    End,
}

/// A reference as a message gives it.
#[derive(Clone, Debug, Drop)]
pub struct GivenReference {
    /// The date, without its year.
    pub date: DayMonth,
    /// The message group serial, up to 99999.
    pub group: u32,
    pub code: GroupCode,
    /// The message serial in the group, up to 999.
    pub serial: u16,
    pub creator: Option<CreatorReference>,
}

/// The creator's own reference: 1 to 35 bytes from 32 to 126, the last of them no blank.
#[derive(Clone, Debug, Drop)]
pub struct CreatorReference {
    bytes: ArrayVec<u8, 35>,
}

impl Model for CreatorReference {
    ghost use Rattle.std.specs.Prelude.{List, ℕ};

    ghost Value = { List ℕ };

    ghost view = { λ c. c.bytes.items };
}

impl CreatorReference {
    /// The bytes of the reference.
    pub fn bytes(&self) -> &[u8]
        ensures { result.now ≡ self.now }
    {
        &self.bytes
    }
}

// ---- reading

// The reference that a text is the printed form of.
#[tactic(auto, unfolding(crate::specs::internal::PrintedReference::reference_in))]
fn printed(text: &[u8]) -> Option<Reference>
    ensures some { IfSome result (λ reference. reference_in text.now ≡ Some reference) }
    ensures none { IfNone result (reference_in text.now ≡ None) }
{
    let (kind, rest) = first_bytes(text, 3);
    let kind = Kind::parse(kind)?;
    let (date, rest) = first_bytes(after_blank(rest)?, 7);
    let date = day(date)?;
    let (group, rest) = first_bytes(after_blank(rest)?, 5);
    let group = digits(5, 5, group)?;
    let (serial, rest) = first_bytes(after_blank(rest)?, 3);
    let serial = digits(3, 3, serial)? as u16;
    let originator = Originator::printed(rest)?;
    Some(Reference {
        date,
        group,
        serial,
        kind,
        originator,
    })
}

fn after_blank(text: &[u8]) -> Option<&[u8]>
    ensures some { IfSome result (λ rest. after_blank text.now ≡ Some rest.now) }
    ensures none { IfNone result (after_blank text.now ≡ None) }
{
    match text {
        [b' ', rest @ ..] => Some(rest),
        _ => None,
    }
}

/// The number that the digits spell, if there are `low` to `high` of them.
pub(crate) fn digits(low: usize, high: usize, text: &[u8]) -> Option<u32>
    requires { high < 6 }
    ensures some { IfSome result (λ n. digits_in low high text.now ≡ Some n) }
    ensures none { IfNone result (digits_in low high text.now ≡ None) }
    ensures below { IfSome result (λ n. n < 10 ^ length text.now) }
{
    if text.len() < low || text.len() > high {
        return None;
    }
    if !are_digits(text) {
        return None;
    }
    Some(number(text))
}

fn number(digits: &[u8]) -> u32
    requires short { length digits.now < 6 }
    requires digits { list_all is_digit digits.now ≡ true }
    ensures value { result ≡ number_of digits.now }
    ensures below { result < 10 ^ length digits.now }
{
    let mut number = 0;
    for digit in digits {
        number = number * 10 + (*digit - b'0') as u32;
    }
    number
}

fn group_code(text: &[u8]) -> Option<GroupCode>
    ensures some { IfSome result (λ code. group_code_of text.now ≡ Some code) }
    ensures none { IfNone result (group_code_of text.now ≡ None) }
{
    match text {
        b"C" => Some(GroupCode::Continuation),
        b"E" => Some(GroupCode::End),
        _ => None,
    }
}

fn creator(text: &[u8]) -> Option<Option<CreatorReference>>
    ensures some { IfSome result (λ c. creator_of text.now ≡ Some c) }
    ensures none { IfNone result (creator_of text.now ≡ None) }
{
    match text {
        [] => Some(None),
        [b'/', text @ ..] => {
            if text.is_empty() {
                return None;
            }
            let bytes = ArrayVec::try_from(text).ok()?;
            Some(Some(CreatorReference { bytes }))
        }
        _ => None,
    }
}

#[tactic(auto, unfolding(crate::specs::Lines::reference_of, crate::specs::Lines::numbers_of))]
impl GivenReference {
    /// Reads a date without its year, five digits, `C` or `E`, three digits, and perhaps a
    /// solidus and the creator's reference.
    pub(crate) fn parse(line: &[u8]) -> Option<GivenReference>
        ensures some { IfSome result (λ r. reference_of line.now ≡ Some r) }
        ensures none { IfNone result (reference_of line.now ≡ None) }
    {
        let (numbers, creator_text) = first_bytes(line, 14);
        let (date, rest) = first_bytes(numbers, 5);
        let (group, rest) = first_bytes(rest, 5);
        let (code, serial) = first_bytes(rest, 1);
        Some(GivenReference {
            date: month_day(date)?,
            group: digits(5, 5, group)?,
            code: group_code(code)?,
            serial: digits(3, 3, serial)? as u16,
            creator: creator(creator_text)?,
        })
    }
}
