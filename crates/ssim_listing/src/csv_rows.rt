//! Rows of CSV, as the crate `csv` writes them into memory.

ghost use Rattle.std.specs.Prelude.{◌≡◌, ◌++◌, [], IfOk, OnOk, map};
ghost use Rattle.csv.specs.Records.{trimmed};
ghost use Rattle.csv.specs.Writing.{writer_pending, writer_under};
ghost use Rattle.ssim_listing.specs.Rows.{row};
ghost use Rattle.ssim_listing.specs.internal.Writers.{IsBetweenRows};

use csv::Writer;
use ssim_values::Memory;
use std::alloc::Global;
use std::marker::Model;

/// How many fields a row has room for at first: those of a leg and of its head.
const FIELDS: usize = 32;

/// Rows of CSV that are written into memory, one after another. A contract sees their bytes.
#[derive(Drop)]
pub struct CsvRows {
    alloc: Global,
    writer: Writer<Vec<u8>>,
    /// Whether a row was not written: a part of it may be.
    is_broken: bool,
}

impl Model for CsvRows {
    ghost use Rattle.std.specs.Prelude.{◌≡◌, ℕ, List, ◌++◌, false};
    ghost use Rattle.csv.specs.Writing.{writer_pending, writer_under};
    ghost use Rattle.ssim_listing.specs.internal.Writers.{IsBetweenRows};

    ghost Value = { List ℕ };

    // What is in memory, and what is still in the writer's buffer.
    ghost view = { λ r. (writer_under r.writer).items ++ writer_pending r.writer };

    ghost invariant = { λ r. r.is_broken ≡ false → IsBetweenRows r.writer };
}

impl CsvRows {
    /// No rows.
    pub fn new(alloc: Global) -> CsvRows
        ensures { result ≡ [] }
    {
        let writer = Writer::from_writer(Vec::new(alloc));
        CsvRows {
            alloc,
            writer,
            is_broken: false,
        }
    }

    /// Adds a row of these fields, first those of its head, without white space at both ends of each.
    /// All rows have as many fields as the first one, else this is [`Memory`], too. After an error each
    /// call is one.
    pub fn push(&mut self, head: &[&[u8]], fields: &[&[u8]]) -> Result<(), Memory>
        ensures { OnOk result (self.new ≡ self.old
            ++ row (map (λ f. f.now) head.now ++ map (λ f. f.now) fields.now)) }
    {
        if self.is_broken {
            return Err(Memory);
        }
        let row = trimmed_fields(self.alloc, head, fields)?;
        match self.writer.write_fields(&row) {
            Ok(()) => Ok(()),
            Err(_) => {
                self.is_broken = true;
                Err(Memory)
            }
        }
    }

    /// The bytes of the rows.
    pub fn into_bytes(self) -> Result<Vec<u8>, Memory>
        ensures { IfOk result (λ bytes. bytes.items ≡ self) }
    {
        let CsvRows {
            alloc: _,
            writer,
            is_broken: _,
        } = self;
        match writer.into_inner() {
            Ok(bytes) => Ok(bytes),
            Err(_) => Err(Memory),
        }
    }
}

// The fields of a head and of a row, without white space at both ends of each.
fn trimmed_fields<'a>(
    alloc: Global,
    head: &[&'a [u8]],
    fields: &[&'a [u8]],
) -> Result<Vec<&'a [u8]>, Memory>
    ensures { IfOk result (λ row. map (λ f. f.now) row.items
        ≡ map trimmed (map (λ f. f.now) head.now ++ map (λ f. f.now) fields.now)) }
{
    let mut row = Vec::with_capacity(alloc, FIELDS)?;
    push_trimmed(&mut row, head)?;
    push_trimmed(&mut row, fields)?;
    Ok(row)
}

// Adds fields without white space at both ends of each.
fn push_trimmed<'a>(row: &mut Vec<&'a [u8]>, fields: &[&'a [u8]]) -> Result<(), Memory>
    ensures { OnOk result (map (λ f. f.now) row.new.items
        ≡ map (λ f. f.now) row.old.items ++ map trimmed (map (λ f. f.now) fields.now)) }
{
    for field in fields {
        row.push(trimmed(*field))?;
    }
    Ok(())
}

// A field without white space at both ends.
fn trimmed(field: &[u8]) -> &[u8]
    ensures { result.now ≡ trimmed field.now }
{
    field.trim_ascii()
}
