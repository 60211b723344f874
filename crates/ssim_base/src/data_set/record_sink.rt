//! Where the accepted records of a data set are put.

ghost use Rattle.std.specs.Prelude.{◌≡◌, ◌<◌, ◌∷◌, List, OnOk, vec_capacity, vec_len};
ghost use Rattle.ssim_records.specs.declared.record.Record.{Record};
ghost use Rattle.ssim_base.specs.internal.DataSetReader.{IsCountOf, IsListOf};

use ssim_records::Record;
use ssim_values::Memory;

/// Takes the accepted records of a data set, in order. A list stores them, a number counts them.
pub(crate) trait RecordSink {
    /// It took exactly these records. The latest comes first.
    ghost has: { Self → List Record → Type 0 };

    /// One more record.
    fn push_record(&mut self, one: &Record) -> Result<(), Memory>
        ensures { OnOk result ((earlier : List Record) → has self.old earlier
            → has self.new (one.now ∷ earlier)) };
}

/// Each record is copied once, into its place.
impl RecordSink for Vec<Record> {
    ghost has = { λ list. IsListOf list.items };

    #[inline(always)]
    fn push_record(&mut self, one: &Record) -> Result<(), Memory> {
        if self.len() == self.capacity() {
            make_room(self)?;
        }
        self.push_reserved(*one);
        Ok(())
    }
}

/// Out of memory is returned if there are more records than a `usize` counts.
impl RecordSink for usize {
    ghost has = { λ count. IsCountOf count };

    #[inline(always)]
    fn push_record(&mut self, _one: &Record) -> Result<(), Memory> {
        match self.checked_add(1) {
            Some(more) => {
                *self = more;
                Ok(())
            }
            None => Err(Memory),
        }
    }
}

// Makes room for a record.
#[inline(never)]
fn make_room(records: &mut Vec<Record>) -> Result<(), Memory>
    ensures kept { records.new.items ≡ records.old.items }
    ensures room { OnOk result (vec_len records.new < vec_capacity records.new) }
{
    records.reserve(1)?;
    Ok(())
}
