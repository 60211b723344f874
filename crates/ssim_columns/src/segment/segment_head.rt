//! The columns of a segment data record that are parsed: its name and its serial.

ghost use Rattle.std.specs.Prelude.{◌≡◌, Some, IfOk, IfErr, IfSome};
ghost use Rattle.ssim_columns.specs.Columns.{first_fault, EachIsValid};
ghost use Rattle.ssim_columns.specs.Segment.{segment_table};
ghost use Rattle.ssim_columns.specs.clauses.Heads.{IsSegmentHead};

use crate::field::columns::serial_at;
use crate::field::{Field, FieldKind, first_fault_of, middle_is_carried};
use crate::latest_columns::LatestColumns;
use crate::leg::leg_fields::{NAME_FIELDS, SERIAL, SERVICE_TYPE};
use crate::leg::leg_name::{LegName, name_at};

fn segment_fault(bytes: &[u8; 200]) -> Option<usize>
    ensures { result ≡ first_fault bytes.now segment_table }
{
    first_fault_of(
        &[
            &NAME_FIELDS,
            &[
                SERVICE_TYPE,
                field!(15 27 Carried),
                field!(28 28 Carried),
                field!(29 194 Carried),
                SERIAL,
            ],
        ],
        bytes,
    )
}

/// The columns of a segment data record that are parsed. The others are copied.
#[derive(Clone, Copy, Debug)]
pub struct SegmentHead {
    /// Columns 2 to 13.
    pub name: LegName,
    /// Columns 195 to 200.
    pub serial: u32,
}

fn head_of(bytes: &[u8; 200]) -> SegmentHead
    requires { EachIsValid bytes.now segment_table }
    ensures { IsSegmentHead result bytes.now }
{
    SegmentHead {
        name: name_at(bytes),
        serial: serial_at(bytes),
    }
}

// The head of segment data all of whose fields are valid, each field read once, or none; then the
// table names the invalid field.
fn head_in(bytes: &[u8; 200], latest: &mut LatestColumns) -> Option<SegmentHead>
    ensures { IfSome result (λ head. IsSegmentHead head bytes.now) }
{
    if !middle_is_carried(bytes) {
        return None;
    }
    let name = latest.name_in(bytes)?;
    let serial = latest.serial_in(bytes)?;
    Some(SegmentHead { name, serial })
}

/// The head of segment data all of whose fields are valid, or the first column of the first invalid
/// field.
pub fn read_segment_head(
    bytes: &[u8; 200],
    latest: &mut LatestColumns,
) -> Result<SegmentHead, usize>
    ensures ok { IfOk result (λ head. IsSegmentHead head bytes.now) }
    ensures err { IfErr result (λ column. first_fault bytes.now segment_table ≡ Some column) }
{
    if let Some(head) = head_in(bytes, latest) {
        return Ok(head);
    }
    match segment_fault(bytes) {
        Some(column) => Err(column),
        None => Ok(head_of(bytes)),
    }
}
